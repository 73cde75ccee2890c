//! The slots of a table by number.

ghost use Rattle.std.specs.Prelude.{ℕ, ◌≡◌, ◌^◌, ◌<◌, ◌≤◌, [], count_by, is_some, slice_set, IfOk, OnOk, OnErr, Some, None};
ghost use Rattle.tp_slots.specs.Keeping.{kept_at, HasSlot, with_slot, Changed};
ghost use Rattle.tp_slots.specs.Tied.{is_taking};

use std::alloc::{AllocError, Global};
use std::marker::Model;
use tp_record::rows::{SlotRow, Stage};

/// What the table keeps of a slot.
#[derive(Clone, Copy)]
pub struct KeptSlot {
    /// Its row.
    pub row: SlotRow,
    /// Its place number in the order of idling, where it is idle.
    pub place: Option<u64>,
}

/// The greatest number of places. So each number fits an entry of the record, which keeps it in 16 bits.
const MOST: usize = 65_535;

/// Slots by number. The next slot gets the number that was freed last, or else the one past the last slot. So no number reaches that
/// of the places.
#[derive(Drop)]
pub struct KeptSlots {
    rows: Vec<Option<KeptSlot>>,
    // The numbers with no slot, as they were freed.
    free: Vec<usize>,
    places: usize,
}

impl Model for KeptSlots {
    ghost use Rattle.std.specs.Prelude.{◌≤◌, vec_capacity};
    ghost use Rattle.tp_slots.specs.Keeping.{Keeping, next_of, IsKept};

    ghost Value = { Keeping };

    ghost view = { λ s. record { slots = s.rows.items; next = next_of s.rows.items s.free.items; places = s.places } };

    ghost invariant = { λ s. IsKept s.rows.items s.free.items s.places × (s.places ≤ vec_capacity s.rows) × (s.places ≤ vec_capacity s.free) };
}

impl KeptSlots {
    /// No slots, with room for `places`. An error is want of memory, as more than 65,535 places are.
    pub fn new(alloc: Global, places: usize) -> Result<KeptSlots, AllocError>
        ensures { IfOk result (λ s. s ≡ record { slots = []; next = 0; places = places }) }
    {
        if places > MOST {
            return Err(AllocError);
        }
        Ok(KeptSlots {
            rows: Vec::with_capacity(alloc, places)?,
            free: Vec::with_capacity(alloc, places)?,
            places,
        })
    }

    /// Makes room for `places` slots, which are more than before. An error is want of memory, and changes nothing.
    pub fn grow_to(&mut self, places: usize) -> Result<(), AllocError>
        requires { self.old.places ≤ places }
        ensures ok { OnOk result (self.new ≡ record self.old { places = places }) }
        ensures err { OnErr result (self.new ≡ self.old) }
    {
        if places > MOST {
            return Err(AllocError);
        }
        self.rows.reserve(places - self.rows.len())?;
        self.free.reserve(places - self.free.len())?;
        self.places = places;
        Ok(())
    }

    /// How many slots there may be.
    pub fn places(&self) -> usize
        ensures { result ≡ self.now.places }
    {
        self.places
    }

    /// How many slots there are.
    pub fn len(&self) -> usize
        ensures { result ≡ count_by is_some self.now.slots }
    {
        self.rows.len() - self.free.len()
    }

    /// The number that the next slot gets, which has none now.
    pub fn next(&self) -> usize
        ensures next { result ≡ self.now.next }
        ensures vacant { kept_at self.now.slots result ≡ None }
    {
        match self.free.last() {
            Some(w) => *w,
            None => self.rows.len(),
        }
    }

    /// How many slots are those of workers that are about to take.
    pub fn at_take(&self) -> usize
        ensures { result ≡ count_by is_taking self.now.slots }
    {
        let mut count = 0;
        for slot in &self.rows {
            if takes(*slot) {
                count += 1;
            }
        }
        count
    }

    /// The slot of this number, if there is one.
    pub fn get(&self, w: usize) -> Option<KeptSlot>
        ensures { result ≡ kept_at self.now.slots w }
    {
        match self.rows.get(w) {
            Some(slot) => *slot,
            None => None,
        }
    }

    /// The slot of a number that has one.
    pub fn slot(&self, w: usize) -> KeptSlot
        requires { HasSlot self.now w }
        ensures { kept_at self.now.slots w ≡ Some result }
    {
        let Some(slot) = self.rows[w] else {
            unreachable!()
        };
        slot
    }

    /// Gives a number that has a slot another one.
    pub fn put(&mut self, w: usize, slot: KeptSlot)
        requires { HasSlot self.old w }
        ensures { self.new ≡ with_slot self.old w slot }
    {
        self.rows[w] = Some(slot);
    }

    /// Gives the next number a slot.
    pub fn insert(&mut self, slot: KeptSlot) -> usize
        requires { count_by is_some self.old.slots < self.old.places }
        ensures next { result ≡ self.old.next }
        ensures was_vacant { kept_at self.old.slots result ≡ None }
        ensures kept { Changed self.old.slots self.new.slots result (Some slot) }
        ensures places { self.new.places ≡ self.old.places }
    {
        let Some(w) = self.free.pop() else {
            self.rows.push_reserved(Some(slot));
            return self.rows.len() - 1;
        };
        self.rows[w] = Some(slot);
        w
    }

    /// Takes the slot of a number that has one. It is the next number then.
    pub fn remove(&mut self, w: usize) -> KeptSlot
        requires { HasSlot self.old w }
        ensures was { kept_at self.old.slots w ≡ Some result }
        ensures new { self.new ≡ record self.old { slots = slice_set self.old.slots w None; next = w } }
    {
        let slot = self.slot(w);
        self.rows[w] = None;
        self.free.push_reserved(w);
        slot
    }

    /// The law that each number with a slot, and the next one, is below 65,536.
    #[inline(always)]
    pub fn numbers_are_small(&self)
        ensures kept { (w : ℕ) → HasSlot self.now w → w < 2 ^ 16 }
        ensures next { self.now.next < 2 ^ 16 }
    {
        let _ = &self.rows;
    }
}

/// Whether this is the slot of a worker that is about to take.
fn takes(slot: Option<KeptSlot>) -> bool
    ensures { result ≡ is_taking slot }
{
    match slot {
        Some(slot) => slot.row.stage == Stage::Working && slot.row.task.is_none(),
        None => false,
    }
}
