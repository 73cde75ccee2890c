//! Of what a story tells.

use std::fmt;
use tp_types::ids::{SlotId, TaskId};

/// A task, or a worker's slot.
#[derive(Clone, Copy, Debug, PartialEq, Eq)]
pub enum Subject {
    /// The task of this number.
    Task(TaskId),
    /// The slot of this number.
    Slot(SlotId),
}

impl fmt::Display for Subject {
    fn fmt<W: fmt::Write>(&self, f: &mut fmt::Formatter<W>) -> fmt::Result {
        match self {
            Subject::Task(TaskId(t)) => write!(f, "t{t}"),
            Subject::Slot(SlotId(w)) => write!(f, "w{w}"),
        }
    }
}
