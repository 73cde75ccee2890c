//! What a thread that watches a pool reads in one hold of the lock.
ghost use Rattle.std.specs.Prelude.{◌≡◌, drop, reverse, IfOk, IfErr};
ghost use Rattle.tp_book.specs.BookView.{state_of};
ghost use Rattle.tp_pool_holds.specs.Watched.{AreBusy};

use super::Locked;
use crate::names::PoolNaming;
use std::alloc::Global;
use tp_machine::machine::releases::Keeper;
use tp_record::entries::Entry;
use tp_record::packed::unpacked;
use tp_types::ids::{SlotId, TaskId};
use tp_types::limits::MAX_WORKERS;
use tp_types::refusals::PoolError;

/// A slot that has a task.
#[derive(Clone, Copy, Debug, PartialEq, Eq)]
pub struct Busy {
    /// The slot.
    pub slot: SlotId,
    /// The task in it.
    pub task: TaskId,
}

impl<G: PoolNaming, J: Drop, R: Keeper> Locked<G, J, R> {
    /// The slots that have a task, in the order of their numbers. NoMemory (4).
    pub fn busy(&self, alloc: Global) -> Result<Vec<Busy>, PoolError>
        ensures busy { IfOk result (λ v. AreBusy (state_of self.now.book).slots v.items) }
        ensures refused { IfErr result (λ e. e ≡ PoolError.NoMemory) }
    {
        let mut busy = Vec::new(alloc);
        for w in 0..MAX_WORKERS as usize {
            let slot = SlotId(w);
            if let Some(task) = self.book.task_in(slot) {
                if busy.push(Busy { slot, task }).is_err() {
                    return Err(PoolError::NoMemory);
                }
            }
        }
        Ok(busy)
    }
}

impl<G: PoolNaming, J: Drop> Locked<G, J> {
    /// The entries of the record from the n-th on, counted from 0, the oldest first; none where the record is
    /// not longer. NoMemory (4).
    pub fn record_since(&self, alloc: Global, n: u64) -> Result<Vec<Entry>, PoolError>
        ensures entries { IfOk result (λ v. v.items ≡ drop n (reverse self.now.book.history)) }
        ensures refused { IfErr result (λ e. e ≡ PoolError.NoMemory) }
    {
        let entries = self.book.entries();
        let from = if n < entries.len() as u64 {
            n as usize
        } else {
            entries.len()
        };
        match unpacked(alloc, &entries[from..]) {
            Ok(since) => Ok(since),
            Err(_) => Err(PoolError::NoMemory),
        }
    }
}
