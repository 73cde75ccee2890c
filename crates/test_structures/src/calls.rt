//! What a line calls, and what a structure says.

use std::alloc::{AllocError, Global};
use std::fmt::Debug;
use tp_text::numbers::{index, number, value};
use tp_text::words::first_word;
use tp_types::ids::{SlotId, TaskId};
use tp_types::tasks::Outcome;

/// The words of a call. A word that is not there is empty.
#[derive(Drop)]
pub struct Call<'a> {
    /// Where its answer lies.
    pub alloc: Global,
    /// The whole line.
    pub line: &'a str,
    /// The name of the call.
    pub name: &'a str,
    /// The first word behind it, the second and the third.
    pub first: &'a str,
    pub second: &'a str,
    pub third: &'a str,
}

/// What a call answers, as Rust prints it; `None` where there is no such call.
pub type Said = Option<Result<String, AllocError>>;

/// A structure that is called by lines.
pub trait Tested: Drop {
    /// Makes a call.
    fn answer(&mut self, call: &Call<'_>) -> Said;
}

impl<'a> Call<'a> {
    /// The call of a line.
    pub fn of(alloc: Global, line: &'a str) -> Call<'a> {
        let (name, rest) = first_word(line);
        let (first, rest) = first_word(rest.unwrap_or(""));
        let (second, rest) = first_word(rest.unwrap_or(""));
        let (third, _) = first_word(rest.unwrap_or(""));
        Call {
            alloc,
            line,
            name,
            first,
            second,
            third,
        }
    }

    /// The number behind the name.
    pub fn size(&self) -> Option<usize> {
        index(self.first)
    }

    /// The task of that number.
    pub fn task(&self) -> Option<TaskId> {
        number(self.first).map(TaskId)
    }

    /// The slot of that number.
    pub fn slot(&self) -> Option<SlotId> {
        index(self.first).map(SlotId)
    }

    /// The outcome behind it: `value -3` or `fault 9`.
    pub fn outcome(&self) -> Option<Outcome> {
        match self.second {
            "value" => Some(Ok(value(self.third)?)),
            "fault" => Some(Err(number(self.third)?)),
            _ => None,
        }
    }

    /// The call answers this.
    pub fn says<T: Debug>(&self, answer: &T) -> Said {
        let alloc = self.alloc;
        Some(format!(in alloc; "{answer:?}"))
    }
}
