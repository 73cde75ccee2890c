//! The queue without places.

ghost use Rattle.tp_types.specs.declared.configs.QueueKind.TheVariants.{Handoff as NoPlaces};
ghost use Rattle.tp_queue.specs.Waiting.{first_waiting};

use crate::work::WorkQueue;
use std::alloc::AllocError;
use tp_types::ids::TaskId;

/// A work queue in which no task ever waits, as a `SynchronousQueue`: a task goes straight to an idle
/// worker, and an offer to the queue gives it back.
#[derive(Clone, Copy)]
pub struct HandoffQueue;

impl WorkQueue for HandoffQueue {
    ghost waiting = { λ _. first_waiting 0 NoPlaces };

    #[inline(always)]
    fn law_is_lawful(&self) {}

    #[inline(always)]
    fn len(&self) -> usize {
        0
    }

    #[inline(always)]
    fn is_full(&self) -> bool {
        true
    }

    #[inline(always)]
    fn reserve(&mut self, _places: usize) -> Result<(), AllocError> {
        Ok(())
    }

    #[inline(always)]
    fn offer(&mut self, task: TaskId, _priority: u32) -> Result<u64, TaskId> {
        Err(task)
    }

    #[inline(always)]
    fn head(&self) -> Option<TaskId> {
        None
    }

    #[inline(always)]
    fn take_head(&mut self) -> Option<TaskId> {
        None
    }

    fn remove(&mut self, _priority: u32, _number: u64) {}
}
