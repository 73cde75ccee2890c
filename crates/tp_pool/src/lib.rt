//! A pool of threads after `ThreadPoolExecutor`: its calls, the objects that its users write, and its
//! answers.
//!
//! `run_all` has a pool for the time of one call, and ends it on every path. A user hands in jobs, and with the making of
//! a pool a thread factory, a rejection handler, hooks and a gate, or `Defaults` for all of them. The pool calls all of
//! them outside its lock, so each of them may ask the pool for its state, its counters and its steps. The pages of the
//! traits say which calls from within would wait for ever. All that a caller names can be imported from here. What a
//! pool's threads share lies below, in `tp_pool_holds`.
#![tactic(auto)]

pub mod abandoned;
pub mod bodies;
pub mod boxes;
pub mod callers;
pub mod closing;
pub mod controls;
pub mod endings;
pub mod finishing;
pub mod futures;
pub mod handles;
pub mod lives;
pub mod orders;
pub mod pool;
mod prestarts;
pub mod readings;
pub mod releases;
pub mod reports;
mod rescues;
pub mod rooms;
pub mod snapshots;
mod submitting;
pub mod timed;

pub use bodies::{Any, Body};
pub use callers::{PoolName, Runtime, in_two};
pub use closing::{CloseFault, Report, Reporter, TallyReport};
pub use futures::task_of;
pub use handles::Handle;
pub use lives::{Answer, run_all, run_all_with_tally};
pub use pool::PoolOf;
pub use reports::{faulted, outcome_of};
pub use snapshots::{Busy, Snapshot};
pub use tp_book::passes::Pass;
pub use tp_book::sights::Sight;
pub use tp_pool_holds::answers::{Admitted, Drained, Refused, Removal};
pub use tp_pool_holds::defaults::Defaults;
pub use tp_pool_holds::edges::Edge;
pub use tp_pool_holds::{answers, defaults, lock, names, pauses};
pub use tp_protocols::flags::CancelFlag;
pub use tp_protocols::jobs::Job;
pub use tp_protocols::{factories, gates, handlers, hooks};
pub use tp_record::entries::{Ask, Did, Entry, Ruled};
pub use tp_record::packed::{Packed, unpacked};
pub use tp_record::recorders::{Full, Tally};
pub use tp_types::configs::{Config, Policy, QueueKind, Verdict};
pub use tp_types::ids::{SlotId, TaskId};
pub use tp_types::refusals::PoolError;
pub use tp_types::states::{Counts, RunState};
pub use tp_types::tasks::{Fate, Kind, Outcome, Place, Promise};

/// A caller's objects behind one bound.
pub mod edges {
    pub use crate::boxes::Boxes;
    pub use tp_pool_holds::edges::{Edge, STACK};
}

/// The bodies that a pool runs.
pub mod jobs {
    pub use crate::boxes::Boxed;
    pub use tp_protocols::jobs::Job;
}

/// What a first program names: `use tp_pool::prelude::*;`.
pub mod prelude {
    pub use crate::bodies::{Any, Body};
    pub use crate::callers::{PoolName, Runtime, in_two};
    pub use crate::closing::{Report, Reporter, TallyReport};
    pub use crate::handles::Handle;
    pub use crate::lives::{Answer, run_all, run_all_with_tally};
    pub use crate::pool::PoolOf;
    pub use crate::reports::outcome_of;
    pub use tp_book::opening::Unopened;
    pub use tp_book::passes::Pass;
    pub use tp_pool_holds::answers::{Admitted, Refused};
    pub use tp_pool_holds::defaults::Defaults;
    pub use tp_pool_holds::edges::Edge;
    pub use tp_protocols::flags::CancelFlag;
    pub use tp_protocols::jobs::Job;
    pub use tp_record::entries::{Did, Entry, Ruled};
    pub use tp_record::packed::{Packed, unpacked};
    pub use tp_record::recorders::{Full, Tally};
    pub use tp_types::configs::{Config, Policy, QueueKind, Verdict};
    pub use tp_types::ids::{SlotId, TaskId};
    pub use tp_types::refusals::PoolError;
    pub use tp_types::states::{Counts, RunState};
    pub use tp_types::tasks::{Fate, Kind, Outcome, Promise};
}
