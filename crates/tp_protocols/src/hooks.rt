//! Hooks, which are told of a worker's turns and of the pool's end.

use tp_types::ids::{SlotId, TaskId};
use tp_types::tasks::Outcome;

/// Is told of each turn of a worker and of the pool's end, as by overriding `beforeExecute`, `afterExecute`
/// and `terminated`. A task that its submitter runs or skips calls no hook.
///
/// Hooks are called with no lock of the pool held, one call at a time. They may take their time, and read the
/// pool; all workers wait while one does. In `after` the task has not ended yet, so `get` of that task there
/// would wait for ever. A wait from within any hook for a thing that another worker does after its own hook,
/// or for the pool's termination, would never end either.
pub trait Hooks: Send + Drop {
    /// The worker of slot `w` has begun task `t`, or is about to skip it since it was cancelled. As
    /// `beforeExecute`.
    fn before(&mut self, w: SlotId, t: TaskId);

    /// The body of task `t` has had this outcome, or none where the task was skipped. Its step `end` comes
    /// after. As `afterExecute`.
    fn after(&mut self, w: SlotId, t: TaskId, outcome: Option<&Outcome>);

    /// The pool has no slot left and is to be terminated. As `ThreadPoolExecutor.terminated`.
    fn terminated(&mut self);
}

/// Hooks that do nothing, as those of a plain `ThreadPoolExecutor`.
#[derive(Drop)]
pub struct NoHooks;

impl Hooks for NoHooks {
    fn before(&mut self, _w: SlotId, _t: TaskId) {}

    fn after(&mut self, _w: SlotId, _t: TaskId, _outcome: Option<&Outcome>) {}

    fn terminated(&mut self) {}
}
