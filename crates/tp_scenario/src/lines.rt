//! What the lines of a scenario say.

use tp_text::commands::{PoolVerb, SizeVerb, SlotVerb, TaskVerb, TickVerb};
use tp_types::configs::Verdict;
use tp_types::ids::{SlotId, TaskId};
use tp_types::tasks::{Kind, Outcome};

/// A line that asks for a step.
#[derive(Clone, Copy, Debug, PartialEq, Eq)]
pub enum ScenarioLine {
    /// A new task of this kind, whose end gives this outcome, and its priority where the line says one; else it is 0.
    Submit(Kind, Outcome, Option<u32>),
    /// A step of a task.
    OfTask(TaskVerb, TaskId),
    /// What becomes of a refused task.
    Verdict(TaskId, Verdict),
    /// A step of a slot.
    OfSlot(SlotVerb, SlotId),
    /// A step of the pool.
    OfPool(PoolVerb),
    /// A task is to be cancelled, and whether its cancel flag is to be set.
    Cancel(TaskId, bool),
    /// A size is set, or a group's next completed task is taken.
    OfSize(SizeVerb, u32),
    /// The keep-alive or the moment is set.
    OfTicks(TickVerb, u64),
    /// Core workers time out, or don't.
    CoreTimeout(bool),
}
