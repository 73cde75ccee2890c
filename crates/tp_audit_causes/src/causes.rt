//! Why an ask is refused.

use crate::rows::{ShownSlot, ShownSlots, ShownTask, ShownTasks};
use std::fmt;
use tp_audit::tables::Tables;
use tp_record::entries::Ask;
use tp_types::configs::Config;
use tp_types::ids::{SlotId, TaskId};
use tp_types::refusals::PoolError;
use tp_types::states::RunState;
use tp_types::tasks::Place;

/// Why a pool refuses an ask, in words: a part of a sentence, such as `slots: w0`.
#[derive(Clone, Copy)]
pub struct Cause<'a> {
    /// The settings with which the pool was made.
    pub config: &'a Config,
    /// What an auditor keeps of the entries so far.
    pub tables: &'a Tables,
    /// What was asked.
    pub ask: Ask,
    /// The refusal.
    pub refusal: PoolError,
}

/// The task that an ask names.
pub fn asked_task(ask: Ask) -> Option<TaskId> {
    match ask {
        Ask::Look(t)
        | Ask::Offer(t)
        | Ask::Second(t)
        | Ask::Grow(t)
        | Ask::Verdict(t, _)
        | Ask::CallerEnd(t, _)
        | Ask::Remove(t)
        | Ask::Cancel(t, _) => Some(t),
        _ => None,
    }
}

/// The slot that an ask names.
pub fn asked_slot(ask: Ask) -> Option<SlotId> {
    match ask {
        Ask::Open(w)
        | Ask::Fail(w)
        | Ask::Take(w)
        | Ask::Begin(w)
        | Ask::End(w, _)
        | Ask::Leave(w) => { Some(w) }
        _ => None,
    }
}

impl Cause<'_> {
    /// Why the step does not fit the task: where the task is.
    fn write_task<W: fmt::Write>(&self, f: &mut fmt::Formatter<W>, task: TaskId) -> fmt::Result {
        let TaskId(t) = task;
        let shown = ShownTask {
            tables: self.tables,
            task,
        };
        let row = self.tables.tasks.get(t as usize);
        match (self.ask, row) {
            (Ask::Second(_), Some(row)) if !row.second => write!(
                f,
                "t{t} owes no second look; {shown}"
            ),
            (Ask::Verdict(_, _), Some(row)) if row.place == Place::Refused => {
                let policy = self.config.policy.name();
                write!(f, "the pool's policy is {policy}")
            }
            _ => write!(f, "{shown}"),
        }
    }

    /// Why the step does not fit the pool: what the pool is like.
    fn write_pool<W: fmt::Write>(&self, f: &mut fmt::Formatter<W>) -> fmt::Result {
        match self.ask {
            Ask::TakeDone(group) => write!(f, "group {group} has no done task that is not taken"),
            _ => {
                let state = RunState::from_rank(self.tables.rank.min(4)).name();
                let slots = self.tables.slots.count();
                let queued = self.tables.queue.len();
                write!(
                    f,
                    "the state is {state}, with {slots} slots and {queued} queued tasks"
                )
            }
        }
    }

    /// What does not fit.
    fn write_unfit<W: fmt::Write>(&self, f: &mut fmt::Formatter<W>) -> fmt::Result {
        match (asked_task(self.ask), asked_slot(self.ask)) {
            (Some(task), _) => self.write_task(f, task),
            (_, Some(slot)) => {
                let shown = ShownSlot {
                    tables: self.tables,
                    slot,
                };
                write!(f, "{shown}")
            }
            _ => self.write_pool(f),
        }
    }

    /// The range in which the setting has to be, by the other settings.
    fn write_setting<W: fmt::Write>(&self, f: &mut fmt::Formatter<W>) -> fmt::Result {
        let core = self.tables.core;
        let maximum = self.tables.maximum;
        match self.ask {
            Ask::Core(_) => write!(f, "core is 0 to the maximum, which is {maximum}"),
            Ask::Maximum(_) => write!(
                f,
                "max is 1 to 1024, and not below the core, which is {core}"
            ),
            Ask::Keep(_) => f.write_str("core workers time out, so keep is 1 or more"),
            _ => f.write_str("keep is 0, so core workers can't time out"),
        }
    }

    /// What room is left.
    fn write_room<W: fmt::Write>(&self, f: &mut fmt::Formatter<W>) -> fmt::Result {
        let steps = self.tables.steps;
        let limit = self.config.record_limit;
        let due = self.tables.due;
        write!(
            f,
            "the record has {steps} of {limit} entries, and {due} more are owed"
        )
    }
}

impl fmt::Display for Cause<'_> {
    fn fmt<W: fmt::Write>(&self, f: &mut fmt::Formatter<W>) -> fmt::Result {
        match self.refusal {
            PoolError::UnknownTask => {
                let tasks = ShownTasks(self.tables);
                write!(f, "{tasks}")
            }
            PoolError::UnknownSlot => {
                let slots = ShownSlots(self.tables);
                write!(f, "{slots}")
            }
            PoolError::NotThere => self.write_unfit(f),
            PoolError::NotFuture => f.write_str("a plain task can't be cancelled"),
            PoolError::ClockBack => {
                let moment = self.tables.moment;
                write!(f, "the moment is {moment}")
            }
            PoolError::BadSizes | PoolError::KeepZero => self.write_setting(f),
            PoolError::BookFull => self.write_room(f),
            PoolError::NoMemory => f.write_str("there is no memory"),
            _ => f.write_str("the step is refused"),
        }
    }
}
