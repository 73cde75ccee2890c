//! The queue that has room always.

ghost use Rattle.std.specs.Prelude.{◌≡◌, IfOk};
ghost use Rattle.tp_types.specs.declared.configs.QueueKind.TheVariants.{Unbounded as AnyNumber};
ghost use Rattle.tp_queue.specs.Waiting.{first_waiting};

use crate::work::WorkQueue;
use std::alloc::{AllocError, Global};
use std::marker::Model;
use tp_ring::lines::Line;
use tp_types::ids::TaskId;

/// A work queue without a limit, as a `LinkedBlockingQueue`. It has room for what was reserved: who
/// will offer a task asks for its place before, so that the offer takes no memory.
#[derive(Drop)]
pub struct Unbounded {
    line: Line<TaskId>,
}

impl Model for Unbounded {
    ghost use Rattle.tp_types.specs.declared.configs.QueueKind.TheVariants.{Unbounded as AnyNumber};
    ghost use Rattle.tp_queue.specs.Waiting.{Waiting, waiting_in};

    ghost Value = { Waiting };

    ghost view = { λ q. waiting_in AnyNumber q.line };
}

impl Unbounded {
    /// An empty queue with this many places, which are written once here. `AllocError` is refusal 4.
    pub fn new(alloc: Global, room: u32) -> Result<Unbounded, AllocError>
        ensures { IfOk result (λ q. q ≡ first_waiting room AnyNumber) }
    {
        Ok(Unbounded {
            line: Line::written(alloc, room as usize, TaskId(0))?,
        })
    }
}

impl WorkQueue for Unbounded {
    ghost waiting = { λ q. q };

    #[inline(always)]
    fn law_is_lawful(&self) {
        self.line.law_rises();
        self.line.len();
    }

    #[inline(always)]
    fn len(&self) -> usize {
        self.line.len()
    }

    #[inline(always)]
    fn is_full(&self) -> bool {
        self.line.is_full()
    }

    #[inline(always)]
    fn reserve(&mut self, places: usize) -> Result<(), AllocError> {
        self.line.reserve(places)
    }

    #[inline(always)]
    fn offer(&mut self, task: TaskId, _priority: u32) -> Result<u64, TaskId> {
        self.line.law_rises();
        self.line.offer(task)
    }

    #[inline(always)]
    fn head(&self) -> Option<TaskId> {
        self.line.head()
    }

    #[inline(always)]
    fn take_head(&mut self) -> Option<TaskId> {
        self.line.take_head()
    }

    fn remove(&mut self, _priority: u32, number: u64) {
        self.line.remove(number);
    }
}
