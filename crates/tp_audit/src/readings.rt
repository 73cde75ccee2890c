//! What the rules of steps read of an auditor's tables.

use crate::tables::Tables;
use crate::walks::count_cancelled;
use std::alloc::Global;
use tp_record::entries::Did;
use tp_record::rows::{SlotRow, TaskRow};
use tp_rules::readings::{FullReadings, Readings};
use tp_rules::submitters::retry_of;
use tp_types::configs::{Config, Verdict};
use tp_types::ids::{SlotId, TaskId};
use tp_types::refusals::PoolError;

impl Readings for Tables {
    ghost use Rattle.tp_audit.specs.Tables.{Shows};

    ghost shows = { λ t s. Shows t s };

    fn rank(&self) -> u8 {
        self.rank
    }

    fn core(&self) -> u32 {
        self.core
    }

    fn maximum(&self) -> u32 {
        self.maximum
    }

    fn keep(&self) -> u64 {
        self.keep
    }

    fn core_timeout(&self) -> bool {
        self.core_timeout
    }

    fn moment(&self) -> u64 {
        self.moment
    }

    fn submitted(&self) -> usize {
        self.tasks.len()
    }

    fn task(&self, t: TaskId) -> Option<TaskRow> {
        self.tasks.get(t.0 as usize).copied()
    }

    fn slot(&self, w: SlotId) -> Option<SlotRow> {
        self.slots.get(w)
    }

    fn slot_count(&self) -> usize {
        self.slots.count()
    }

    fn queued(&self) -> usize {
        self.queue.len()
    }

    fn head(&self) -> Option<u32> {
        self.queue.first()
    }

    fn longest_idle(&self) -> Option<usize> {
        self.idling.first()
    }

    fn first_done(&self, group: u32) -> Option<u32> {
        self.done.first(group)
    }
}

impl FullReadings for Tables {
    ghost use Rattle.tp_audit.specs.Tables.{Stands};

    ghost stands = { λ t c. Stands c t };

    ghost lacks = { ⊥ };

    fn waiting(&self, _config: &Config) -> u32 {
        self.queue.len() as u32
    }

    fn cancelled_count(&self, _config: &Config) -> u32 {
        count_cancelled(&self.tasks, &self.queue)
    }

    fn may_retry(&self, _alloc: Global, config: &Config, t: TaskId) -> Result<bool, PoolError> {
        let retry = retry_of(self.queue.first());
        Ok(self.has_room(config, Did::Verdict(t, Verdict::DiscardOldest, retry)))
    }
}
