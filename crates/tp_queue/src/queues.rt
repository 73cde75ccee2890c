//! The queue that a configuration names.

use crate::bounded::Bounded;
use crate::handoffs::HandoffQueue;
use crate::priorities::Priority;
use crate::unbounded::Unbounded;
use crate::work::WorkQueue;
use std::alloc::{AllocError, Global};
use tp_types::configs::QueueKind;
use tp_types::ids::TaskId;

/// A work queue of one of the four kinds.
#[derive(Drop)]
pub enum Queue {
    /// Without places.
    Handoff(HandoffQueue),
    /// With room always, in the order of the offers.
    Unbounded(Unbounded),
    /// With a fixed number of places.
    Bounded(Bounded),
    /// With room always, in the order of the priorities.
    Priority(Priority),
}

impl Queue {
    ghost use Rattle.std.specs.Prelude.{◌≡◌, IfOk};
    ghost use Rattle.tp_queue.specs.Queues.{waiting_of};
    ghost use Rattle.tp_queue.specs.Waiting.{first_waiting};

    /// An empty queue of this kind. A bounded one has its places from now on, and an unbounded one so many as `room` says:
    /// they are written here, so that no page of them is touched first where a task comes. `AllocError` is refusal 4.
    pub fn new(alloc: Global, kind: QueueKind, room: u32) -> Result<Queue, AllocError>
        ensures { IfOk result (λ q. waiting_of q ≡ first_waiting room kind) }
    {
        match kind {
            QueueKind::Handoff => Ok(Queue::Handoff(HandoffQueue)),
            QueueKind::Unbounded => Ok(Queue::Unbounded(Unbounded::new(alloc, room)?)),
            QueueKind::Bounded(capacity) => Ok(Queue::Bounded(Bounded::new(alloc, capacity)?)),
            QueueKind::Priority => Ok(Queue::Priority(Priority::new(alloc))),
        }
    }
}

impl WorkQueue for Queue {
    ghost use Rattle.tp_queue.specs.Queues.{waiting_of};

    ghost waiting = { waiting_of };

    #[inline(always)]
    fn law_is_lawful(&self) {
        match self {
            Queue::Handoff(queue) => queue.law_is_lawful(),
            Queue::Unbounded(queue) => queue.law_is_lawful(),
            Queue::Bounded(queue) => queue.law_is_lawful(),
            Queue::Priority(queue) => queue.law_is_lawful(),
        }
    }

    #[inline(always)]
    fn len(&self) -> usize {
        match self {
            Queue::Handoff(queue) => queue.len(),
            Queue::Unbounded(queue) => queue.len(),
            Queue::Bounded(queue) => queue.len(),
            Queue::Priority(queue) => queue.len(),
        }
    }

    #[inline(always)]
    fn is_full(&self) -> bool {
        match self {
            Queue::Handoff(queue) => queue.is_full(),
            Queue::Unbounded(queue) => queue.is_full(),
            Queue::Bounded(queue) => queue.is_full(),
            Queue::Priority(queue) => queue.is_full(),
        }
    }

    #[inline(always)]
    fn reserve(&mut self, places: usize) -> Result<(), AllocError> {
        match self {
            Queue::Handoff(queue) => queue.reserve(places),
            Queue::Unbounded(queue) => queue.reserve(places),
            Queue::Bounded(queue) => queue.reserve(places),
            Queue::Priority(queue) => queue.reserve(places),
        }
    }

    #[inline(always)]
    fn offer(&mut self, task: TaskId, priority: u32) -> Result<u64, TaskId> {
        match self {
            Queue::Handoff(queue) => queue.offer(task, priority),
            Queue::Unbounded(queue) => queue.offer(task, priority),
            Queue::Bounded(queue) => queue.offer(task, priority),
            Queue::Priority(queue) => queue.offer(task, priority),
        }
    }

    #[inline(always)]
    fn head(&self) -> Option<TaskId> {
        match self {
            Queue::Handoff(queue) => queue.head(),
            Queue::Unbounded(queue) => queue.head(),
            Queue::Bounded(queue) => queue.head(),
            Queue::Priority(queue) => queue.head(),
        }
    }

    #[inline(always)]
    fn take_head(&mut self) -> Option<TaskId> {
        match self {
            Queue::Handoff(queue) => queue.take_head(),
            Queue::Unbounded(queue) => queue.take_head(),
            Queue::Bounded(queue) => queue.take_head(),
            Queue::Priority(queue) => queue.take_head(),
        }
    }

    fn remove(&mut self, priority: u32, number: u64) {
        match self {
            Queue::Handoff(queue) => queue.remove(priority, number),
            Queue::Unbounded(queue) => queue.remove(priority, number),
            Queue::Bounded(queue) => queue.remove(priority, number),
            Queue::Priority(queue) => queue.remove(priority, number),
        }
    }
}
