//! What is told: sentences of a table, and the values that stand in them.

use crate::shown::Shown;
use std::fmt;
use tp_types::refusals::PoolError;

/// What is said of a mistake. A value stands for `{}`.
#[derive(Clone, Copy)]
pub struct Saying {
    /// What is wrong.
    pub sentence: &'static str,
    /// How it is mended, behind a space; there may be nothing.
    pub advice: &'static str,
}

/// What room a record has, in entries.
#[derive(Clone, Copy)]
pub struct Room {
    /// How many entries it may have.
    pub limit: u32,
    /// How many the jobs want at most, where that is known and a record may have so many.
    pub wanted: Option<u32>,
}

impl fmt::Display for Room {
    fn fmt<W: fmt::Write>(&self, f: &mut fmt::Formatter<W>) -> fmt::Result {
        let limit = self.limit;
        match self.wanted {
            Some(wanted) => write!(
                f,
                "{limit} entries, and these jobs want {wanted} at most: write 'limit {wanted}' at the end of the pool line"
            ),
            None => write!(
                f,
                "{limit} entries: set a greater limit in the pool line, 1048576 at most, or keep no record with --tally"
            ),
        }
    }
}

/// What stands for `{}`.
#[derive(Clone, Copy)]
pub enum Value<'a> {
    /// Nothing.
    Nothing,
    /// A number.
    Number(u32),
    /// A word, and what stands before it.
    Word(&'static str, &'a str),
    /// A core size above the maximum.
    Sizes(u32, u32),
    /// A job, counted from 1, and why its submission is refused.
    Job(usize, PoolError),
    /// What room a record has, and what room the jobs want.
    Room(Room),
    /// A word of a form, and the word before which it is missing.
    Missing(&'static str, &'a str),
}

impl fmt::Display for Value<'_> {
    fn fmt<W: fmt::Write>(&self, f: &mut fmt::Formatter<W>) -> fmt::Result {
        match self {
            Value::Nothing => Ok(()),
            Value::Number(number) => write!(f, "{number}"),
            Value::Word(before, word) => {
                let word = Shown(word.as_bytes());
                write!(f, "{before}{word}")
            }
            Value::Sizes(core, maximum) => write!(f, "{core} is above the MAX of {maximum}"),
            Value::Job(job, refusal) => write!(f, "{job} is {refusal}"),
            Value::Room(room) => write!(f, "{room}"),
            Value::Missing(place, word) => write!(f, "{place} is missing before '{word}'"),
        }
    }
}

/// A sentence and its value.
#[derive(Clone, Copy)]
pub struct Telling<'a> {
    /// The sentence.
    pub text: &'static str,
    /// What stands for `{}` in it.
    pub value: Value<'a>,
}

/// A sentence without a value.
pub fn plain(text: &'static str) -> Telling<'static> {
    Telling {
        text,
        value: Value::Nothing,
    }
}

impl fmt::Display for Telling<'_> {
    fn fmt<W: fmt::Write>(&self, f: &mut fmt::Formatter<W>) -> fmt::Result {
        let value = &self.value;
        match self.text.split_once("{}") {
            Some((before, behind)) => write!(f, "{before}{value}{behind}"),
            None => f.write_str(self.text),
        }
    }
}
