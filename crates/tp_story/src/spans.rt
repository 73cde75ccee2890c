//! How long things took, in entries and in ticks.

ghost use Rattle.std.specs.Prelude.{◌≡◌, ◌<◌, ◌++◌, List, vec_len, vec_capacity};
ghost use Rattle.tp_record.specs.declared.entries.Entry.{Entry as Told};
ghost use Rattle.tp_story.specs.Since.{Timed};
ghost use Rattle.tp_story.specs.Counted as counted;

use crate::times::{Since, Times};
use tp_types::ids::{SlotId, TaskId};

/// How long one task waited, or ran.
#[derive(Clone, Copy, Debug, PartialEq, Eq)]
pub struct Span {
    /// For so many entries.
    pub entries: u64,
    /// For so many ticks.
    pub ticks: u64,
    /// The number of the task.
    pub task: u32,
    /// The slot of the worker that took or ran it; None where its submitter ran it.
    pub slot: Option<SlotId>,
}

/// A task, and the slot of the worker that takes or ran it; None where its submitter ran it.
pub type Mover = (TaskId, Option<SlotId>);

impl Span {
    /// From one moment of a record to another; 0 where that is the earlier one.
    pub fn between(mover: Mover, from: Since, to: Since) -> Span
        ensures { result ≡ counted.between mover from to }
    {
        let (task, slot) = mover;
        Span {
            entries: to.number.saturating_sub(from.number),
            ticks: to.moment.saturating_sub(from.moment),
            task: task.0,
            slot,
        }
    }
}

/// Notes how long a task was where it was, up to the entry that moves it away, for which there is room. The times are those
/// before that entry.
pub(crate) fn add_span(spans: &mut Vec<Span>, times: &Times, mover: Option<Mover>, to: Since)
    requires { vec_len spans.old < vec_capacity spans.old }
    ensures { (h : List Told) → Timed h times.now → spans.new.items ≡ spans.old.items ++ counted.span_to h to mover }
{
    let Some(mover) = mover else {
        return;
    };
    if let Some(from) = times.task(mover.0) {
        spans.push_reserved(Span::between(mover, from, to));
    }
}
