//! A pool's whole life in one call, for who has no need of its type: callers over a trait of a pool's calls, and jobs that answer
//! values of any type (`tasks`: where a value is put, who finds it, and closures as jobs; `oneshot`: channels for one value).
#![tactic(auto)]

pub mod batches;
pub mod calls;
mod desk;
pub mod groups;
pub mod lives;
pub mod oneshot;
pub mod running;
mod seats;
pub mod tasks;
pub mod ticking;

/// What a first program names: `use tp_life::prelude::*;`.
pub mod prelude {
    pub use crate::batches::invoke_all;
    pub use crate::calls::{Calls, Controls, Life, Setting, Ticket};
    pub use crate::groups::Group;
    pub use crate::lives::{with_pool, with_tally};
    pub use crate::oneshot::{Receiver, Sender, oneshot};
    pub use crate::running::{Told, run_tasks, run_tasks_with_tally};
    pub use crate::tasks::{Call, Closure, Task, job};
    pub use crate::ticking::{End, with_ticker};
    pub use std::thread::sleep;
    pub use std::time::Duration;
    pub use tp_book::reports::{Report, TallyReport};
    pub use tp_pool_advice::makers::{by_processors, cached, single};
    pub use tp_pool_advice::reasons::{InWords, Reason};
    pub use tp_pool_advice::sizes::for_jobs;
    pub use tp_pool_holds::answers::{Admitted, Drained, Refused, Removal};
    pub use tp_pool_holds::defaults::Defaults;
    pub use tp_pool_holds::edges::Edge;
    pub use tp_protocols::flags::CancelFlag;
    pub use tp_types::configs::{Config, Policy, QueueKind, Verdict};
    pub use tp_types::ids::{SlotId, TaskId};
    pub use tp_types::refusals::PoolError;
    pub use tp_types::states::{Counts, RunState};
    pub use tp_types::tasks::Fate;
}
