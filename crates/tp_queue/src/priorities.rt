//! The queue that has room always, and whose tasks leave by priority.

ghost use Rattle.std.specs.Prelude.{◌≡◌};
ghost use Rattle.tp_types.specs.declared.configs.QueueKind.TheVariants.{Priority as ByPriority};
ghost use Rattle.tp_queue.specs.Waiting.{first_waiting};

use crate::work::WorkQueue;
use std::alloc::{AllocError, Global};
use std::marker::Model;
use tp_ring::rankings::Ranking;
use tp_types::ids::TaskId;

/// A work queue without a limit from which the task of the least priority number leaves first, and of
/// equal ones the one that was offered first, as a `PriorityBlockingQueue`. It has room for what was
/// reserved: who will offer a task asks for its place before, so that the offer takes no memory.
#[derive(Drop)]
pub struct Priority {
    ranking: Ranking<TaskId>,
}

impl Model for Priority {
    ghost use Rattle.tp_types.specs.declared.configs.QueueKind.TheVariants.{Priority as ByPriority};
    ghost use Rattle.tp_queue.specs.Waiting.{Waiting, waiting_in};

    ghost Value = { Waiting };

    ghost view = { λ q. waiting_in ByPriority q.ranking };
}

impl Priority {
    /// An empty queue without places.
    pub fn new(alloc: Global) -> Priority
        ensures { result ≡ first_waiting 0 ByPriority }
    {
        Priority {
            ranking: Ranking::new(alloc),
        }
    }
}

impl WorkQueue for Priority {
    ghost waiting = { λ q. q };

    fn law_is_lawful(&self) {
        self.ranking.law_rises();
        self.ranking.len();
    }

    fn len(&self) -> usize {
        self.ranking.len()
    }

    fn is_full(&self) -> bool {
        self.ranking.is_full()
    }

    fn reserve(&mut self, places: usize) -> Result<(), AllocError> {
        self.ranking.reserve(places)
    }

    fn offer(&mut self, task: TaskId, priority: u32) -> Result<u64, TaskId> {
        self.ranking.offer(task, priority)
    }

    fn head(&self) -> Option<TaskId> {
        self.ranking.head()
    }

    fn take_head(&mut self) -> Option<TaskId> {
        self.ranking.take_head()
    }

    fn remove(&mut self, priority: u32, number: u64) {
        self.ranking.remove(priority, number);
    }
}
