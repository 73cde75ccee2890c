//! What crosses to C: structs of plain numbers.

ghost use Rattle.std.specs.Prelude.{◌≡◌};
ghost use Rattle.tp_c.specs.Asks.{switch};
ghost use Rattle.tp_c.specs.Numbers.{says};

use tp_types::ids::{SlotId, TaskId};

/// The number that stands for no task: no task has it.
pub const NO_TASK: u32 = u32::MAX;

/// The number that stands for no slot: no pool has so many.
pub const NO_SLOT: u64 = u64::MAX;

/// What a step answers.
#[repr(C)]
#[derive(Clone, Copy, Debug, PartialEq, Eq)]
pub struct Answer {
    /// What was answered, by number.
    pub what: u32,
    /// 1 where the payload of the task leaves the machine, else 0.
    pub left: u32,
    /// The task of which the answer speaks, or NO_TASK.
    pub task: u32,
    /// How many: tasks handed back by a stop or taken out by a purge, or prestarts that a core size asks for; else 0.
    pub number: u32,
    /// The slot of which the answer speaks, or NO_SLOT.
    pub slot: u64,
}

impl Answer {
    /// An answer that speaks of nothing.
    pub(crate) fn of(what: u32) -> Answer
        ensures { result ≡ says what }
    {
        Answer {
            what,
            left: 0,
            task: NO_TASK,
            number: 0,
            slot: NO_SLOT,
        }
    }

    pub(crate) fn task(self, task: TaskId) -> Answer
        ensures { result ≡ record self { task = task.0 } }
    {
        let TaskId(task) = task;
        Answer { task, ..self }
    }

    pub(crate) fn slot(self, slot: SlotId) -> Answer
        ensures { result ≡ record self { slot = slot.0 } }
    {
        Answer {
            slot: slot.0 as u64,
            ..self
        }
    }

    pub(crate) fn number(self, number: u32) -> Answer
        ensures { result ≡ record self { number = number } }
    {
        Answer { number, ..self }
    }

    pub(crate) fn left(self, has_left: bool) -> Answer
        ensures { result ≡ record self { left = switch has_left } }
    {
        Answer {
            left: u32::from(has_left),
            ..self
        }
    }
}

/// What is seen of a pool, all of one moment. Counters are as `tp_types::states::Counts` has them.
#[repr(C)]
#[derive(Clone, Copy, Debug, PartialEq, Eq)]
pub struct PoolView {
    /// The run state's rank, 0 to 4.
    pub state: u32,
    /// As in `tp_types::states::Counts`.
    pub submitted: u32,
    /// As in `tp_types::states::Counts`.
    pub run: u32,
    /// As in `tp_types::states::Counts`.
    pub caller: u32,
    /// As in `tp_types::states::Counts`.
    pub rejected: u32,
    /// As in `tp_types::states::Counts`.
    pub discarded: u32,
    /// As in `tp_types::states::Counts`.
    pub handedback: u32,
    /// As in `tp_types::states::Counts`.
    pub removed: u32,
    /// As in `tp_types::states::Counts`.
    pub cancelled: u32,
    /// As in `tp_types::states::Counts`.
    pub completed: u32,
    /// As in `tp_types::states::Counts`.
    pub queued: u32,
    /// As in `tp_types::states::Counts`.
    pub live: u32,
    /// As in `tp_types::states::Counts`.
    pub largest: u32,
    /// The core size, in workers.
    pub core: u32,
    /// How many slots there are, reserved and live.
    pub slots: u64,
    /// The moment, in ticks.
    pub now: u64,
    /// How many entries were made so far.
    pub steps: u64,
}

/// What is seen of a task.
#[repr(C)]
#[derive(Clone, Copy, Debug, PartialEq, Eq)]
pub struct TaskView {
    /// Where it is, 0 to 9.
    pub place: u32,
    /// What became of it, 1 to 7, or 0 where it is open.
    pub fate: u32,
    /// The slot that it is in, or NO_SLOT.
    pub slot: u64,
}
