//! Tables of slots.

ghost use Rattle.std.specs.Prelude.{◌≡◌, ◌≤◌};

use crate::calls::{Call, Said, Tested};
use std::alloc::{AllocError, Global};
use tp_record::rows::{SlotRow, Stage};
use tp_slots::slots::Slots;
use tp_text::numbers::{long_number, number};
use tp_types::ids::{SlotId, TaskId};

/// A table, with how often a worker became idle in it.
#[derive(Drop)]
pub struct Table {
    pub slots: Slots,
    idlings: u64,
    ghost few: { slots.idlings ≤ idlings },
}

impl Table {
    /// A table with so many places.
    pub fn new(alloc: Global, places: usize) -> Result<Table, AllocError> {
        Ok(Table {
            slots: Slots::new(alloc, places)?,
            idlings: 0,
        })
    }

    /// Reserves a slot where there is a place: `core`, `maximum` or `bare`.
    pub fn reserve(&mut self, stage: &str, task: Option<TaskId>) -> Option<SlotId> {
        if self.slots.len() >= self.slots.places() {
            return None;
        }
        match stage {
            "core" => Some(self.slots.reserve(Stage::ReservedCore, task)),
            "maximum" => Some(self.slots.reserve(Stage::ReservedMaximum, task)),
            "bare" => Some(self.slots.reserve(Stage::ReservedBare, task)),
            _ => None,
        }
    }

    /// A worker without a task is idle from this moment on.
    fn idle(&mut self, w: SlotId, moment: u64) -> bool {
        let Some(idlings) = self.idlings.checked_add(1) else {
            return false;
        };
        if self.slots.get(w) != Some(row(Stage::Working, None)) {
            return false;
        }
        self.slots.idle(w, moment);
        self.idlings = idlings;
        true
    }

    /// Makes the call of this name where the slot is as it requires, and answers whether it is.
    pub fn change(&mut self, name: &str, w: SlotId, task: Option<TaskId>) -> bool {
        let Some(slot) = self.slots.get(w) else {
            return false;
        };
        match (name, slot.stage) {
            ("open", Stage::ReservedBare) => self.slots.open(w),
            ("work", Stage::Working) => self.slots.set(w, row(Stage::Working, task)),
            ("die", Stage::Working) => self.slots.set(w, row(Stage::Dying, task)),
            ("wake", Stage::Idle(_)) => self.slots.wake(w, task),
            _ => return false,
        }
        true
    }

    /// Frees a slot by the call of this name, where it is as that requires, and gives its row.
    fn free(&mut self, name: &str, w: SlotId) -> Option<SlotRow> {
        let slot = self.slots.get(w)?;
        match (name, slot.stage) {
            ("giveup", Stage::ReservedCore) => Some(self.slots.give_up(w)),
            ("free", Stage::Idle(_) | Stage::Working) => Some(self.slots.free(w)),
            _ => None,
        }
    }
}

/// A row with this stage and this task.
pub fn row(stage: Stage, task: Option<TaskId>) -> SlotRow
    ensures { result ≡ record { stage = stage; task = task } }
{
    SlotRow { stage, task }
}

impl Tested for Table {
    fn answer(&mut self, call: &Call<'_>) -> Said {
        let task = number(call.second).map(TaskId);
        match call.name {
            "reserve" => call.says(&self.reserve(call.first, task)),
            "idle" => call.says(&self.idle(call.slot()?, long_number(call.second)?)),
            "open" | "work" | "die" | "wake" => {
                call.says(&self.change(call.name, call.slot()?, task))
            }
            "giveup" | "free" => call.says(&self.free(call.name, call.slot()?)),
            "wakeall" => call.says(&self.slots.wake_all()),
            "grow" => call.says(&self.slots.grow_to(call.size()?)),
            "get" => call.says(&self.slots.get(call.slot()?)),
            "next" => call.says(&self.slots.next_number()),
            "longest" => call.says(&self.slots.longest_idle()),
            "live" => call.says(&self.slots.live()),
            "len" => call.says(&self.slots.len()),
            "places" => call.says(&self.slots.places()),
            _ => None,
        }
    }
}
