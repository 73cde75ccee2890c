//! What an audit answers.

use tp_types::states::{Counts, RunState};
use tp_types::tasks::Fate;

/// What a legal record says at its end.
#[derive(Debug, PartialEq, Eq, Drop)]
pub struct Summary {
    /// The twelve counters, as `getTaskCount`, `getCompletedTaskCount`, `getLargestPoolSize` and the
    /// like answer.
    pub counts: Counts,
    /// The run state, as `isShutdown`, `isTerminating` and `isTerminated` ask for it.
    pub state: RunState,
    /// What became of each task, by its number; None where it is open.
    pub fates: Vec<Option<Fate>>,
}

/// Why a record has no summary.
#[derive(Clone, Copy, Debug, PartialEq, Eq)]
pub enum Flaw {
    /// The number, from 1, of the first entry that the entries before it do not allow. It is all that is told of the entry: which
    /// of its words is wrong depends on what was meant.
    At(usize),
    /// Refusal 4: there was no memory to judge the record.
    NoMemory,
}
