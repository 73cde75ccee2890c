//! The caller's objects, as a pool calls them.

use std::alloc::Global;
use std::sync::Wait;
use tp_protocols::gates::Point;
use tp_types::configs::Verdict;
use tp_types::ids::{SlotId, TaskId};
use tp_types::states::RunState;
use tp_types::tasks::Outcome;

/// A pool's factory, handler, hooks and gate behind one bound, so that the pool's own types hold no trait
/// object. Each call is made with no lock of the pool held, and several threads may make calls at once.
///
/// Which calls wait for which, where the objects are `Boxes`: each of the factory, the handler and the hooks
/// answers one ask at a time. A submission asks the factory where it reserves a slot, and the handler where it is
/// refused under `Policy::Own`. A call that starts workers asks the factory. In a pool that is shut down, a call
/// whose step leaves it to nobody asks the factory or calls the terminated hook.
///
/// So a factory that submits to its own pool or starts workers there may wait for itself. A handler that starts
/// workers, or whose call does what is left, waits for the factory or the terminated hook; a factory or a hook that
/// submits may wait for the handler: two such objects may wait for each other for ever. A factory or a hook may shut its
/// pool down: nothing is left to do while it answers. None of these objects may wait for the pool's end or for a task: the
/// slot, the task or the end for which it was asked waits meanwhile. None may keep a handle of its own pool: a close waits
/// for ever then.
pub trait Edge: Drop {
    /// Asks the thread factory whether this slot may have a worker. It may, unless said. The slot is reserved until the
    /// answer: a factory that waits for a task or for the pool's end may wait for ever.
    fn allow<R: Wait>(&self, _rt: &R, _w: SlotId) -> bool {
        true
    }

    /// Asks the rejection handler for its verdict on this task, in a pool in this run state: Abort, unless said.
    fn verdict<R: Wait>(&self, _rt: &R, _t: TaskId, _state: RunState) -> Verdict {
        Verdict::Abort
    }

    /// Calls the hook before a task, as `beforeExecute`.
    fn before<R: Wait>(&self, _rt: &R, _w: SlotId, _t: TaskId) {}

    /// Calls the hook after a task, as `afterExecute`, with no outcome where the task was skipped.
    fn after<R: Wait>(&self, _rt: &R, _w: SlotId, _t: TaskId, _outcome: Option<&Outcome>) {}

    /// Calls the hook of the pool's end, as `ThreadPoolExecutor.terminated`.
    fn terminated<R: Wait>(&self, _rt: &R) {}

    /// Passes the gate at this point of the turn of this slot's worker.
    fn pass(&self, _p: Point, _w: SlotId) {}

    /// The stack of a worker's thread, in bytes: `STACK`, unless said.
    fn stack(&self) -> usize {
        STACK
    }

    /// The name of a worker's thread, as `Thread.setName`: that of slot 3 is `zk-w3`, unless said. Tools such as
    /// `ps` show its first 15 bytes. With None, as for want of memory, the thread keeps the name of the thread that
    /// made it.
    fn name(&self, alloc: Global, w: SlotId) -> Option<String> {
        format!(in alloc; "zk-w{}", w.0).ok()
    }
}

/// The stack of a worker's thread, in bytes, where the caller asks for no other: 2 MiB.
pub const STACK: usize = 2 * 1_024 * 1_024;
