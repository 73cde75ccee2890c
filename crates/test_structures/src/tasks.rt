//! Tables of tasks.

use crate::calls::{Call, Said, Tested};
use crate::names::fate;
use std::alloc::Global;
use tp_record::rows::TaskRow;
use tp_tasks::spaces::Space;
use tp_tasks::tasks::Tasks;
use tp_text::numbers::{index, long_number, number};
use tp_types::ids::{SlotId, TaskId};
use tp_types::tasks::{Fate, Kind, Place, Promise};

/// What each job promises.
const ANY: Promise = Promise {
    low: -1000,
    high: 1000,
    may_fault: true,
};

/// The priority of each task.
const PRIORITY: u32 = 7;

/// A table of tasks with their payloads, and for how many homes it is to want memory the next time.
#[derive(Drop)]
pub struct Table {
    pub tasks: Tasks<u64>,
    homes: usize,
}

/// A kind: `plain`, `future` or `group 3`.
fn kind(word: &str, group: &str) -> Option<Kind> {
    match word {
        "plain" => Some(Kind::Plain),
        "future" => Some(Kind::Future),
        "group" => Some(Kind::Group(number(group)?)),
        _ => None,
    }
}

/// A place: `queued`, or `running 2`.
fn place(word: &str, slot: &str) -> Option<Place> {
    match word {
        "queued" => Some(Place::Queued),
        "running" => Some(Place::Running(SlotId(index(slot)?))),
        _ => None,
    }
}

impl Table {
    /// No tasks.
    pub fn new(alloc: Global) -> Table {
        Table {
            tasks: Tasks::new(alloc),
            homes: 128,
        }
    }

    /// Submits a task of this kind, to be offered. A want of memory changes nothing and is tried once more.
    pub fn submit(&mut self, kind: Kind, payload: u64) -> Option<TaskId> {
        let submitted = self.tasks.submitted();
        if self.tasks.reserve(kind).is_err() {
            let seen = (self.tasks.submitted(), self.tasks.row(TaskId(submitted)));
            if seen != (submitted, None) || self.tasks.reserve(kind).is_err() {
                return None;
            }
        }
        if self.tasks.submitted() == u32::MAX {
            return None;
        }
        Some(self.tasks.put(kind, PRIORITY, Place::ToOffer, ANY, payload))
    }

    /// Makes memory for as many homes as are wanted before the next task, if any are: twice as many as the time before, and then no
    /// more are. A want of memory is tried once more. Too little is left alone.
    pub fn make_space(&mut self, alloc: Global) -> bool {
        if let Ok(mut little) = Space::new(alloc, 64) {
            self.tasks.take_space(&mut little);
        }
        let homes = self.tasks.wants_space();
        if homes == 0 {
            return true;
        }
        let made = Space::new(alloc, homes).or_else(|_| Space::new(alloc, homes));
        if let Ok(mut space) = made {
            self.tasks.take_space(&mut space);
        }
        let is_wanted = homes == self.homes;
        self.homes = homes.saturating_mul(2);
        is_wanted && self.tasks.wants_space() == 0
    }

    /// Makes a call that changes a task, and answers whether the task is as the call requires it.
    pub fn change(&mut self, t: TaskId, call: &Call<'_>) -> Option<bool> {
        let Some(row) = self.tasks.row(t) else {
            return Some(false);
        };
        let (is_open, has_ended) = (row.is_open(), row.ending.is_some());
        match call.name {
            "number" => self.tasks.set_place_number(t, long_number(call.second)?),
            "hand" => {
                let to = TaskRow {
                    place: place(call.second, call.third)?,
                    second: true,
                    ..row
                };
                self.tasks.set_row(t, row, to);
            }
            "run" if !has_ended => self.tasks.complete(t, row, Fate::Run, call.outcome()?),
            "drop" if !has_ended => self.tasks.finish(t, row, fate(call.second)?),
            "cancel" if is_open => self.tasks.cancel(t, row),
            "release" if !is_open && !self.tasks.is_listed(t) => self.tasks.release(t),
            "run" | "drop" | "cancel" | "release" => return Some(false),
            _ => return None,
        }
        Some(true)
    }
}

impl Tested for Table {
    fn answer(&mut self, call: &Call<'_>) -> Said {
        let tasks = &mut self.tasks;
        match call.name {
            "submit" => {
                let kind = kind(call.second, call.third)?;
                call.says(&self.submit(kind, long_number(call.first)?))
            }
            "submitted" => call.says(&tasks.submitted()),
            "space" => call.says(&self.make_space(call.alloc)),
            "homes" => call.says(&self.homes),
            "row" => call.says(&tasks.row(call.task()?)),
            "fate" => call.says(&tasks.row(call.task()?)?.fate()),
            "result" => call.says(&tasks.row(call.task()?)?.result()),
            "promise" => call.says(&tasks.promise(call.task()?)),
            "place" => call.says(&tasks.place_number(call.task()?)),
            "payload" => call.says(&tasks.take_payload(call.task()?)),
            "listed" => call.says(&tasks.is_listed(call.task()?)),
            "fated" => call.says(&tasks.fated(fate(call.first)?)),
            "open" => call.says(&tasks.is_open(number(call.first)?)),
            "has" => call.says(&tasks.has_done(number(call.first)?)),
            "first" => call.says(&tasks.first_done(number(call.first)?)),
            "take" => call.says(&tasks.take_done(number(call.first)?)),
            _ => call.says(&self.change(call.task()?, call)?),
        }
    }
}
