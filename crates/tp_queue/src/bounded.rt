//! The queue with a fixed number of places.

ghost use Rattle.std.specs.Prelude.{◌≡◌, IfOk};
ghost use Rattle.tp_types.specs.declared.configs.QueueKind.TheVariants.{Bounded as Places};
ghost use Rattle.tp_queue.specs.Waiting.{first_waiting};

use crate::work::WorkQueue;
use std::alloc::{AllocError, Global};
use std::marker::Model;
use tp_ring::lines::Line;
use tp_types::ids::TaskId;

/// A work queue of a fixed capacity, in tasks, as an `ArrayBlockingQueue`. All its memory is taken
/// where it is made.
#[derive(Drop)]
pub struct Bounded {
    line: Line<TaskId>,
}

impl Model for Bounded {
    ghost use Rattle.tp_types.specs.declared.configs.QueueKind.TheVariants.{Bounded as Places};
    ghost use Rattle.tp_queue.specs.Waiting.{Waiting, waiting_in};

    ghost Value = { Waiting };

    ghost view = { λ q. waiting_in (Places q.line.capacity) q.line };
}

impl Bounded {
    /// An empty queue of this capacity, whose places are written once here. `AllocError` is refusal 4.
    pub fn new(alloc: Global, capacity: u32) -> Result<Bounded, AllocError>
        ensures { IfOk result (λ q. q ≡ first_waiting 0 (Places capacity)) }
    {
        Ok(Bounded {
            line: Line::written(alloc, capacity as usize, TaskId(0))?,
        })
    }
}

impl WorkQueue for Bounded {
    ghost waiting = { λ q. q };

    #[inline(always)]
    fn law_is_lawful(&self) {
        self.line.law_rises();
        self.line.len();
    }

    #[inline(always)]
    fn len(&self) -> usize {
        self.line.len()
    }

    #[inline(always)]
    fn is_full(&self) -> bool {
        self.line.is_full()
    }

    #[inline(always)]
    fn reserve(&mut self, _places: usize) -> Result<(), AllocError> {
        let _ = &self.line;
        Ok(())
    }

    #[inline(always)]
    fn offer(&mut self, task: TaskId, _priority: u32) -> Result<u64, TaskId> {
        self.line.law_rises();
        self.line.offer(task)
    }

    #[inline(always)]
    fn head(&self) -> Option<TaskId> {
        self.line.head()
    }

    #[inline(always)]
    fn take_head(&mut self) -> Option<TaskId> {
        self.line.take_head()
    }

    fn remove(&mut self, _priority: u32, number: u64) {
        self.line.remove(number);
    }
}
