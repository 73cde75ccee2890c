//! Names, ranks, refusals and settings: calls of no structure.

use crate::calls::{Call, Said, Tested};
use tp_record::owed::pool_weight;
use tp_record::rows::{SlotRow, Stage, TaskRow};
use tp_text::pools::pool_of;
use tp_text::words::verdict;
use tp_types::ids::{SlotId, TaskId};
use tp_types::refusals::PoolError;
use tp_types::states::{RunState, ranks_keep_order};
use tp_types::tasks::{Fate, Kind, Place, Promise};

const FATES: [Fate; 7] = [
    Fate::Run,
    Fate::RunByCaller,
    Fate::Rejected,
    Fate::Discarded,
    Fate::HandedBack,
    Fate::Removed,
    Fate::Cancelled,
];

const REFUSALS: [PoolError; 27] = [
    PoolError::BadSizes,
    PoolError::BadCapacity,
    PoolError::BadLimit,
    PoolError::NoMemory,
    PoolError::BookFull,
    PoolError::UnknownTask,
    PoolError::UnknownSlot,
    PoolError::NotThere,
    PoolError::NotFuture,
    PoolError::ClockBack,
    PoolError::KeepZero,
    PoolError::Rejected(TaskId(7)),
    PoolError::CancelledTask,
    PoolError::Faulted(7),
    PoolError::Lost(Fate::Removed),
    PoolError::TimedOut,
    PoolError::NoTasks,
    PoolError::AllFailed(Some(7)),
    PoolError::NothingOpen,
    PoolError::NotTerminated,
    PoolError::MissingPass,
    PoolError::TornRecord,
    PoolError::BadLine(10),
    PoolError::BadEntry(4_294_967_295),
    PoolError::ReadFailed,
    PoolError::WriteFailed,
    PoolError::AllFailed(None),
];

/// What a calm job promises. A rash one may fault too.
const CALM: Promise = Promise {
    low: -5,
    high: 7,
    may_fault: false,
};

/// What is owed of four submissions to a pool of one worker: the first holds a slot for the core, the others are to be offered.
fn owed_by_four() -> u64 {
    let first = TaskRow::new(Kind::Plain, 0, Place::Held(SlotId(0)));
    let other = TaskRow::new(Kind::Plain, 0, Place::ToOffer);
    let slot = SlotRow {
        stage: Stage::ReservedCore,
        task: Some(TaskId(0)),
    };
    let tasks = first.weight(slot.is_for_core()) + 3 * other.weight(false);
    tasks + slot.weight(0) + pool_weight(0)
}

/// The fate of this name.
pub fn fate(name: &str) -> Option<Fate> {
    FATES.iter().find(|fate| fate.name() == name).copied()
}

/// The run state of this rank.
fn state(rank: &str) -> Option<RunState> {
    let rank = rank.parse::<u8>().ok()?;
    if rank <= 4 {
        Some(RunState::from_rank(rank))
    } else {
        None
    }
}

/// What is called here is no structure, and keeps nothing.
#[derive(Drop)]
pub struct Names;

impl Tested for Names {
    fn answer(&mut self, call: &Call<'_>) -> Said {
        match call.name {
            "pool" => call.says(&pool_of(call.line)?.config().check()),
            "policy" => {
                let policy = pool_of(call.line.strip_prefix("policy of ")?)?.policy;
                call.says(&(policy, policy.name()))
            }
            "verdict" => {
                let verdict = verdict(call.first)?;
                call.says(&(verdict, verdict.name()))
            }
            "fate" => {
                let fate = fate(call.first)?;
                call.says(&(fate, fate.name()))
            }
            "state" => {
                let state = state(call.first)?;
                call.says(&(state, state.rank(), state.name()))
            }
            "order" => call.says(&ranks_keep_order(state(call.first)?, state(call.second)?)),
            "refusal" => {
                let refusal = REFUSALS.get(call.size()?)?;
                let printed = format!(in call.alloc; "{refusal}").ok()?;
                call.says(&(*refusal, refusal.number(), refusal.name(), printed.as_str()))
            }
            "fits" => {
                let may_fault = call.first == "rash";
                call.says(&Promise { may_fault, ..CALM }.fits(&call.outcome()?))
            }
            "owed" => call.says(&owed_by_four()),
            _ => None,
        }
    }
}
