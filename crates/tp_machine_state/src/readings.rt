//! What the rules of steps read of the structures.

use crate::parts::Parts;
use tp_queue::work::WorkQueue;
use tp_record::rows::{SlotRow, TaskRow};
use tp_rules::readings::Readings;
use tp_types::ids::{SlotId, TaskId};

impl<P> Readings for Parts<P> {
    ghost use Rattle.tp_machine_state.specs.Shows.{Reads};

    ghost shows = { λ p s. Reads p s };

    #[inline(always)]
    fn rank(&self) -> u8 {
        self.state.rank()
    }

    #[inline(always)]
    fn core(&self) -> u32 {
        self.core
    }

    #[inline(always)]
    fn maximum(&self) -> u32 {
        self.maximum
    }

    #[inline(always)]
    fn keep(&self) -> u64 {
        self.keep
    }

    #[inline(always)]
    fn core_timeout(&self) -> bool {
        self.core_timeout
    }

    #[inline(always)]
    fn moment(&self) -> u64 {
        self.moment
    }

    #[inline(always)]
    fn submitted(&self) -> usize {
        self.tasks.submitted() as usize
    }

    #[inline(always)]
    fn task(&self, t: TaskId) -> Option<TaskRow> {
        self.tasks.row(t)
    }

    #[inline(always)]
    fn slot(&self, w: SlotId) -> Option<SlotRow> {
        self.slots.get(w)
    }

    #[inline(always)]
    fn slot_count(&self) -> usize {
        self.slots.len()
    }

    #[inline(always)]
    fn queued(&self) -> usize {
        self.queue.len()
    }

    #[inline(always)]
    fn head(&self) -> Option<u32> {
        match self.queue.head() {
            Some(t) => Some(t.0),
            None => None,
        }
    }

    #[inline(always)]
    fn longest_idle(&self) -> Option<usize> {
        match self.slots.longest_idle() {
            Some(w) => Some(w.0),
            None => None,
        }
    }

    #[inline(always)]
    fn first_done(&self, group: u32) -> Option<u32> {
        match self.tasks.first_done(group) {
            Some(t) => Some(t.0),
            None => None,
        }
    }
}
