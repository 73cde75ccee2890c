//! The rows that a pool's state keeps of its tasks and slots.

ghost use Rattle.std.specs.Prelude.{◌≡◌, ◌≤◌, ◌+◌, Some, None, is_none, false, if◌then◌else◌};

use crate::owed::{SECOND_LOOK, place_weight, stage_weight};
use tp_types::ids::TaskId;
use tp_types::refusals::PoolError;
use tp_types::tasks::{Fate, Kind, Outcome, Place};

/// What a slot is for, or what its worker does.
#[derive(Clone, Copy, Debug, PartialEq, Eq)]
pub enum Stage {
    /// Reserved below the core size, for a first task.
    ReservedCore,
    /// Reserved up to the maximum size, for a first task.
    ReservedMaximum,
    /// Reserved without a first task.
    ReservedBare,
    /// Live: busy where it has a task, else about to take one.
    Working,
    /// Live and idle since this moment, in ticks.
    Idle(u64),
    /// Live: its plain task faulted, and it is about to leave.
    Dying,
}

/// What a state says of a slot. A reservation sets both fields, so no table needs to know what stood there before: the number
/// of a freed slot may come again.
#[derive(Clone, Copy, Debug, PartialEq, Eq)]
pub struct SlotRow {
    /// What it is for, or what its worker does.
    pub stage: Stage,
    /// The task in it, if there is one.
    pub task: Option<TaskId>,
}

/// What a state says of a task.
#[derive(Clone, Copy, Debug, PartialEq, Eq)]
pub struct TaskRow {
    /// Its kind.
    pub kind: Kind,
    /// Where it is.
    pub place: Place,
    /// Whether its submitter owes it a second look.
    pub second: bool,
    /// Whether it was cancelled.
    pub cancelled: bool,
    /// The fate that its ending entry gives, whether or not it was cancelled. A task that was cancelled keeps the fate
    /// cancelled all the same.
    pub ending: Option<Fate>,
    /// How its body ended, if it did.
    pub outcome: Option<Outcome>,
    /// How often its verdict was a retry.
    pub retries: u32,
    /// Its priority: the task with the least number leaves a priority queue first. It is kept whatever the queue, since a record
    /// says what was asked.
    pub priority: u32,
}

impl Stage {
    ghost use Rattle.tp_record.specs.Fields as fields;
    ghost use Rattle.tp_record.specs.State as states;
    ghost use Rattle.tp_record.specs.Step as steps;

    /// Whether the slot waits for its worker to be made.
    pub fn is_reserved(self) -> bool
        ensures { result ≡ steps.is_reserved self }
    {
        matches!(
            self,
            Stage::ReservedCore | Stage::ReservedMaximum | Stage::ReservedBare
        )
    }

    /// Whether the slot is reserved below the core size.
    pub fn is_for_core(self) -> bool
        ensures { result ≡ states.is_core_stage self }
    {
        matches!(self, Stage::ReservedCore)
    }

    /// Whether the slot is live: opened, and not left.
    pub fn is_live(self) -> bool
        ensures { result ≡ fields.is_live_stage self }
    {
        matches!(self, Stage::Working | Stage::Idle(_) | Stage::Dying)
    }

    /// Whether the slot's worker is idle.
    pub fn is_idle(self) -> bool
        ensures { result ≡ fields.is_idle_stage self }
    {
        matches!(self, Stage::Idle(_))
    }

    /// The stage after a shutdown, which wakes idle workers.
    pub fn woken(self) -> Stage
        ensures { result ≡ fields.woken_stage self }
    {
        match self {
            Stage::Idle(_) => Stage::Working,
            stage => stage,
        }
    }
}

impl SlotRow {
    ghost use Rattle.tp_record.specs.Fields as fields;
    ghost use Rattle.tp_record.specs.State as states;

    /// Whether the slot is live: opened, and not left.
    pub fn is_live(self) -> bool
        ensures { result ≡ fields.is_live (Some self) }
    {
        self.stage.is_live()
    }

    /// Whether the slot's worker is idle.
    pub fn is_idle(self) -> bool
        ensures { result ≡ fields.is_idle_row (Some self) }
    {
        self.stage.is_idle()
    }

    /// Whether the slot is reserved below the core size.
    pub fn is_for_core(self) -> bool
        ensures { result ≡ states.is_core_slot (Some self) }
    {
        self.stage.is_for_core()
    }

    /// What is owed by the slot, in entries, at this rank of the run state.
    pub fn weight(self, rank: u8) -> u64
        ensures weight { result ≡ states.slot_weight rank (Some self) }
        ensures bound { result ≤ 4 }
    {
        stage_weight(rank, self.task.is_some(), self.stage)
    }
}

impl TaskRow {
    ghost use Rattle.tp_record.specs.State as states;

    /// The row of a new task of this kind and priority, in this place. It sets every field.
    pub fn new(kind: Kind, priority: u32, place: Place) -> TaskRow
        ensures { result ≡ record states.no_row { kind = kind; priority = priority; place = place } }
    {
        TaskRow {
            kind,
            priority,
            place,
            second: false,
            cancelled: false,
            ending: None,
            outcome: None,
            retries: 0,
        }
    }

    /// What became of the task, None while it is open. A cancelled task keeps the fate cancelled.
    pub fn fate(self) -> Option<Fate>
        ensures { result ≡ states.fate_of self }
    {
        if self.cancelled {
            Some(Fate::Cancelled)
        } else {
            self.ending
        }
    }

    /// Whether the task has no fate yet.
    pub fn is_open(self) -> bool
        ensures { result ≡ is_none (states.fate_of self) }
    {
        self.fate().is_none()
    }

    /// What the task's future answers: None while the task is open, else its value, or the refusal that says why there is
    /// none: Faulted (14), CancelledTask (13) or Lost (15). `Future.get`.
    pub fn result(self) -> Option<Result<i64, PoolError>>
        ensures { result ≡ states.result_of self }
    {
        match self.fate() {
            None => None,
            Some(Fate::Cancelled) => Some(Err(PoolError::CancelledTask)),
            Some(Fate::Run | Fate::RunByCaller) => match self.outcome {
                None => None,
                Some(Ok(value)) => Some(Ok(value)),
                Some(Err(code)) => Some(Err(PoolError::Faulted(code))),
            },
            Some(fate) => Some(Err(PoolError::Lost(fate))),
        }
    }

    /// What is owed by the task, in entries: by its place, and by its second look; `for_core` where it is held in a slot
    /// that is reserved for the core.
    pub fn weight(self, for_core: bool) -> u64
        ensures weight { result ≡ states.place_weight for_core self.place + (if self.second then 4 else 0) }
        ensures bound { result ≤ 17 }
    {
        place_weight(for_core, self.place) + if self.second { SECOND_LOOK } else { 0 }
    }
}
