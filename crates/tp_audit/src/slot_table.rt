//! The worker slots by number.

ghost use Rattle.std.specs.Prelude.{◌≡◌, ◌<◌, ◌^◌, [], count_by, is_some, max, slice_set, Some, None, OnOk, OnErr, if◌then◌else◌};
ghost use Rattle.tp_record.specs.Fields.{is_live};
ghost use Rattle.tp_record.specs.Lists.{long_enough};
ghost use Rattle.tp_record.specs.State.{slot_at};
ghost use Rattle.tp_audit.specs.SlotTable.{is_at_take, places_to};

use indexmap::IndexMap;
use std::alloc::{AllocError, Global};
use std::marker::Model;
use tp_record::rows::{SlotRow, Stage};
use tp_types::ids::SlotId;

/// Worker slots by number. Any number may be one, and the memory goes by how many there are, so a record
/// may number its slots as it likes. A contract sees the model's table: a place for each number, as far
/// as the greatest that ever was a slot.
#[derive(Drop)]
pub struct SlotTable {
    rows: IndexMap<usize, SlotRow>,
    greatest: Option<usize>,
    taken: usize,
    live: usize,
    at_take: usize,
}

impl Model for SlotTable {
    ghost use Rattle.std.specs.Prelude.{Option, List, count_by, is_some, ◌≡◌};
    ghost use Rattle.tp_record.specs.Fields.{is_live};
    ghost use Rattle.tp_record.specs.declared.rows.SlotRow.{SlotRow};
    ghost use Rattle.tp_audit.specs.SlotTable.{is_at_take, slots_to, IsWithin};

    ghost Value = { List (Option SlotRow) };

    ghost view = { λ s. slots_to s.greatest s.rows };

    ghost invariant = { λ s. IsWithin s.greatest s.rows
        × (s.taken ≡ count_by is_some (slots_to s.greatest s.rows))
        × (s.live ≡ count_by is_live (slots_to s.greatest s.rows))
        × (s.at_take ≡ count_by is_at_take (slots_to s.greatest s.rows)) };
}

impl SlotTable {
    /// No slots.
    pub fn new(alloc: Global) -> SlotTable
        ensures { result ≡ [] }
    {
        SlotTable {
            rows: IndexMap::new(alloc),
            greatest: None,
            taken: 0,
            live: 0,
            at_take: 0,
        }
    }

    /// The slot of this number, None where it is no slot.
    pub fn get(&self, w: SlotId) -> Option<SlotRow>
        ensures { result ≡ slot_at self.now w.0 }
    {
        self.rows.get(&w.0).copied()
    }

    /// How many slots there are.
    pub fn count(&self) -> usize
        ensures { result ≡ count_by is_some self.now }
    {
        self.taken
    }

    /// How many of them are live.
    pub fn live(&self) -> usize
        ensures { result ≡ count_by is_live self.now }
    {
        self.live
    }

    /// How many workers are about to take: live without a task, and neither idle nor dying.
    pub fn at_take(&self) -> usize
        ensures { result ≡ count_by is_at_take self.now }
    {
        self.at_take
    }

    /// Makes the number a slot with this row, or gives the slot this row. Where memory is refused nothing has changed; a
    /// slot gets its row without memory.
    pub fn put(&mut self, w: SlotId, row: SlotRow) -> Result<(), AllocError>
        requires { count_by is_some self.old < 2 ^ 32 }
        ensures put { OnOk result (self.new ≡ slice_set (long_enough (Some w.0) None self.old) w.0 (Some row)) }
        ensures err { OnErr result (self.new ≡ self.old) }
        ensures new { OnErr result (slot_at self.old w.0 ≡ None) }
    {
        let old = match self.rows.insert(w.0, row) {
            Ok(old) => old,
            Err(_) => return Err(AllocError),
        };
        self.greatest = Some(greater(self.greatest, w.0));
        self.taken = self.taken + 1 - taken_in(old);
        self.live = self.live + live_in(Some(row)) - live_in(old);
        self.at_take = self.at_take + at_take_in(Some(row)) - at_take_in(old);
        Ok(())
    }

    /// Frees the number.
    pub fn free(&mut self, w: SlotId)
        ensures { self.new ≡ slice_set self.old w.0 None }
    {
        let old = self.rows.swap_remove(&w.0);
        self.taken -= taken_in(old);
        self.live -= live_in(old);
        self.at_take -= at_take_in(old);
    }
}

/// The greater one of two numbers.
fn greater(greatest: Option<usize>, w: usize) -> usize
    ensures { places_to (Some result) ≡ max (places_to greatest) (places_to (Some w)) }
{
    match greatest {
        None => w,
        Some(v) => v.max(w),
    }
}

/// How many slots this is, 1 or 0.
fn taken_in(slot: Option<SlotRow>) -> usize
    ensures { result ≡ (if is_some slot then 1 else 0) }
{
    if slot.is_some() { 1 } else { 0 }
}

/// How many live slots this is, 1 or 0.
fn live_in(slot: Option<SlotRow>) -> usize
    ensures { result ≡ (if is_live slot then 1 else 0) }
{
    match slot {
        Some(row) if row.is_live() => 1,
        _ => 0,
    }
}

/// How many workers about to take this is, 1 or 0.
fn at_take_in(slot: Option<SlotRow>) -> usize
    ensures { result ≡ (if is_at_take slot then 1 else 0) }
{
    match slot {
        Some(row) if row.stage == Stage::Working && row.task.is_none() => 1,
        _ => 0,
    }
}
