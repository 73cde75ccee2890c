//! What a worker does, deed by deed.

use crate::gates::Point;
use tp_types::ids::{SlotId, TaskId};
use tp_types::tasks::Outcome;

/// One deed of a worker, with what came of it.
#[derive(Clone, Copy, Debug, PartialEq, Eq)]
pub enum Deed {
    /// It passed the gate at this point.
    Passed(Point),
    /// It asked for its next task.
    Took(Taken),
    /// It began this task.
    Began(TaskId),
    /// It skipped this task, which was cancelled.
    Skipped(TaskId),
    /// It was refused the beginning of the task that it took.
    Unbegun,
    /// The hook before this task was called.
    Before(TaskId),
    /// The body had this outcome.
    Ran(Outcome),
    /// The hook after this task was called, with the body's outcome where it had run.
    After(TaskId, Option<Outcome>),
    /// It told its task's outcome.
    Ended(Outcome, EndAnswer),
    /// It left, since its plain task had faulted.
    Left(Departed),
    /// It had a worker made for this slot in its place.
    Replaced(SlotId),
    /// It ended the pool, where the pool could end.
    Tidied,
}

/// What a worker's `take` came to.
#[derive(Clone, Copy, Debug, PartialEq, Eq)]
pub enum Taken {
    /// It has a task to begin.
    Task,
    /// It left: its slot is freed.
    Left,
    /// There is no such slot any more.
    Refused,
}

/// What a worker's `end` came to.
#[derive(Clone, Copy, Debug, PartialEq, Eq)]
pub enum EndAnswer {
    /// It goes on.
    Live,
    /// Its plain task faulted: it is to leave.
    Dying,
    /// The pool did not take it.
    Refused,
}

/// What a worker's `leave` came to.
#[derive(Clone, Copy, Debug, PartialEq, Eq)]
pub enum Departed {
    /// Its slot is freed.
    Alone,
    /// Its slot is freed, and this one is reserved for a worker in its place.
    Replaced(SlotId),
    /// The pool did not take it.
    Refused,
}
