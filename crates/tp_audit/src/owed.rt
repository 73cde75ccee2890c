//! What is owed after an entry, before the tables change.

ghost use Rattle.std.specs.Prelude.{ℕ, ◌≡◌, ◌<◌, ◌≤◌, ◌-◌, ◌^◌};
ghost use Rattle.tp_record.specs.State as states;
ghost use Rattle.tp_laws.proofs.Model.Totals.{at_named};
ghost use Rattle.tp_laws.proofs.Model.Weights.{held_core};
ghost use Rattle.tp_audit.specs.Owed as owed;
ghost use Rattle.tp_audit.specs.Tables.{shown, HasSizes};

use crate::named::{is_wide, named_slot, named_task, replacing_slot};
use crate::rows::{row_at, slot_after};
use crate::tables::Tables;
use tp_record::entries::{Did, Opened, Ruled};
use tp_record::rows::SlotRow;
use tp_rules::next::row_after;
use tp_types::configs::Config;
use tp_types::ids::{SlotId, TaskId};
use tp_types::tasks::Place;

impl Tables {
    /// Whether the slot of a task in this place is reserved for the core.
    fn is_for_core(&self, place: Place) -> bool
        ensures { result ≡ held_core (owed.core_now (shown self.now)) place }
    {
        match place {
            Place::Held(w) => match self.slots.get(w) {
                Some(row) => row.is_for_core(),
                None => false,
            },
            _ => false,
        }
    }

    /// Slot `w` after the entry.
    fn slot_then(&self, did: Did, w: SlotId) -> Option<SlotRow>
        ensures { result ≡ states.slot_after did (shown self.now) w.0 (states.slot_at self.now.slots w.0) }
    {
        slot_after(did, self.moment, &self.tasks, w, self.slots.get(w))
    }

    /// Whether the slot of a task in this place is reserved for the core after the entry.
    fn will_be_for_core(&self, did: Did, place: Place) -> bool
        ensures { result ≡ held_core (owed.core_then did (shown self.now)) place }
    {
        match place {
            Place::Held(w) => match self.slot_then(did, w) {
                Some(row) => row.is_for_core(),
                None => false,
            },
            _ => false,
        }
    }

    /// What the task owes, in entries.
    fn task_owes(&self, t: Option<u32>) -> u64
        ensures owes { result ≡ at_named (owed.task_now (shown self.now)) t }
        ensures bound { result ≤ 17 }
    {
        match t {
            Some(t) => {
                let row = row_at(&self.tasks, TaskId(t));
                row.weight(self.is_for_core(row.place))
            }
            None => 0,
        }
    }

    /// What the task owes after the entry, in entries.
    fn task_will_owe(&self, did: Did, t: Option<u32>) -> u64
        requires few { (u : ℕ) → (states.task_at (shown self.now) u).retries < 2 ^ 32 - 1 }
        ensures owes { result ≡ at_named (owed.task_then did (shown self.now)) t }
        ensures bound { result ≤ 17 }
    {
        match t {
            Some(t) => {
                let row = row_after(did, TaskId(t), row_at(&self.tasks, TaskId(t)));
                row.weight(self.will_be_for_core(did, row.place))
            }
            None => 0,
        }
    }

    /// What the slot owes, in entries.
    fn slot_owes(&self, w: Option<usize>) -> u64
        ensures owes { result ≡ at_named (owed.slot_now (shown self.now)) w }
        ensures bound { result ≤ 4 }
    {
        let Some(w) = w else {
            return 0;
        };
        match self.slots.get(SlotId(w)) {
            Some(row) => row.weight(self.rank),
            None => 0,
        }
    }

    /// What the slot owes after the entry, which leaves the run state, in entries.
    fn slot_will_owe(&self, did: Did, w: Option<usize>) -> u64
        ensures owes { result ≡ at_named (owed.slot_then did (shown self.now)) w }
        ensures bound { result ≤ 4 }
    {
        let Some(w) = w else {
            return 0;
        };
        match self.slot_then(did, SlotId(w)) {
            Some(row) => row.weight(self.rank),
            None => 0,
        }
    }

    /// A second task that comes to owe more or less: the head that a retry drops, the task of a slot that becomes live.
    fn task_beside(&self, did: Did) -> Option<u32>
        ensures { result ≡ owed.beside_in (shown self.now) did }
    {
        match did {
            Did::Verdict(_, _, Ruled::RetryDrop(u)) => Some(u.0),
            Did::Open(w, Opened::Live) => match self.slots.get(w)?.task {
                Some(t) => Some(t.0),
                None => None,
            },
            _ => None,
        }
    }

    /// What is owed at what the entry names, in entries.
    fn owes_at(&self, did: Did) -> u64
        ensures owes { result ≡ owed.owed_now did (shown self.now) }
        ensures bound { result ≤ 42 }
    {
        let tasks = self.task_owes(named_task(did)) + self.task_owes(self.task_beside(did));
        tasks + (self.slot_owes(named_slot(did)) + self.slot_owes(replacing_slot(did)))
    }

    /// What is owed there after the entry, which leaves the run state, in entries.
    fn will_owe_at(&self, did: Did) -> u64
        requires few { (u : ℕ) → (states.task_at (shown self.now) u).retries < 2 ^ 32 - 1 }
        ensures owes { result ≡ owed.owed_then did (shown self.now) }
        ensures bound { result ≤ 42 }
    {
        let beside = self.task_beside(did);
        let tasks = self.task_will_owe(did, named_task(did)) + self.task_will_owe(did, beside);
        let slots = self.slot_will_owe(did, named_slot(did));
        tasks + (slots + self.slot_will_owe(did, replacing_slot(did)))
    }

    /// How many workers are about to take, while the pool runs.
    fn takers(&self) -> usize
        requires { HasSizes (shown self.now) }
        ensures takers { result ≡ owed.takers (shown self.now) }
        ensures few { result < 2 ^ 31 }
    {
        if self.rank == 0 {
            self.slots.at_take()
        } else {
            0
        }
    }

    /// By how much what is owed falls with an entry that changes rows which it does not name, or the run state, in entries.
    fn falls(&self, did: Did) -> u64
        requires { HasSizes (shown self.now) }
        ensures { result ≡ owed.falls did (shown self.now) }
    {
        match did {
            Did::Shutdown => self.takers() as u64 + u64::from(1u8.saturating_sub(self.rank)),
            Did::Stop(n) => {
                let rises = u64::from(2u8.saturating_sub(self.rank));
                6 * u64::from(n) + self.takers() as u64 + rises
            }
            Did::Tidy => u64::from(3u8.saturating_sub(self.rank)),
            Did::Ended => 1,
            Did::Purge(n) => 6 * u64::from(n),
            _ => 0,
        }
    }

    /// What is owed after the entry, in entries.
    pub fn due_after(&self, did: Did) -> u64
        requires sizes { HasSizes (shown self.now) }
        requires due { self.now.due < 2 ^ 32 }
        ensures due { result ≡ owed.due_by did (shown self.now) self.now.due }
        ensures bound { result < 2 ^ 33 }
    {
        if is_wide(did) {
            self.due.saturating_sub(self.falls(did))
        } else {
            (self.due + self.will_owe_at(did)).saturating_sub(self.owes_at(did))
        }
    }

    /// Whether the record has room for an entry, and for all that is owed after it.
    pub fn has_room(&self, config: &Config, did: Did) -> bool
        requires sizes { HasSizes (shown self.now) }
        requires due { self.now.due < 2 ^ 32 }
        ensures { result ≡ owed.room_by config.now did (shown self.now) self.now.due }
    {
        u64::from(self.steps) + 1 + self.due_after(did) <= u64::from(config.record_limit)
    }
}
