//! The sleepers of a pool. They lie under its lock, and no call but `new` takes memory.

ghost use Rattle.std.specs.Prelude.{◌≡◌, ◌↔◌, ◌<◌, true, map, replicate, set, IfOk, IfSome, IfNone, IsSome, IsTrue, if◌then◌else◌};
ghost use Rattle.tp_waking.specs.Rests.{rest_at, is_away, is_marked, called, sleeping, searching, IsSettled, Wakes};

use crate::states::{SleepState, put_on, take_off, unmark};
use std::alloc::{AllocError, Global};
use std::marker::Model;
use tp_types::ids::SlotId;

/// Where a worker is, as far as waking it goes.
#[derive(Clone, Copy, Debug, PartialEq, Eq)]
pub enum Rest {
    /// It works, or is on its way to its next task.
    Away,
    /// It sleeps.
    Listed,
    /// It was woken, and looks for a task.
    Marked,
}

/// Which workers sleep, by slot number. Who wakes a worker takes it off the list and marks it; its mark
/// goes with its next look for a task.
#[derive(Drop)]
pub struct Sleepers {
    states: Vec<SleepState>,
    // The slots of those who sleep; who is to be woken first stands last.
    listed: Vec<usize>,
    searching: usize,
}

impl Model for Sleepers {
    ghost use Rattle.std.specs.Prelude.{List, vec_capacity};
    ghost use Rattle.tp_waking.specs.declared.sleepers.Rest.{Rest};
    ghost use Rattle.tp_waking.specs.Tied.{IsSound, rests_of};

    ghost Value = { List Rest };

    ghost view = { λ s. rests_of s.states.items };

    ghost invariant = { λ s. IsSound s.states.items s.listed.items s.searching (vec_capacity s.listed) };
}

impl Sleepers {
    /// Nobody sleeps, of workers in so many slots.
    pub fn new(alloc: Global, slots: usize) -> Result<Sleepers, AllocError>
        ensures rests { IfOk result (λ s. s ≡ replicate slots Rest.Away) }
        ensures awake { IfOk result (λ s. sleeping s ≡ 0) }
    {
        let mut states = Vec::new(alloc);
        states.resize(slots, SleepState::Away)?;
        // The room is written once here, so that no page of it is a new one under the lock.
        let mut listed = Vec::new(alloc);
        listed.resize(slots, 0)?;
        listed.clear();
        Ok(Sleepers {
            states,
            listed,
            searching: 0,
        })
    }

    /// Where the worker of this slot is. Past the last slot it is away, and no call changes that.
    pub fn rest(&self, w: SlotId) -> Rest
        ensures { result ≡ rest_at self.now w.0 }
    {
        match self.states.get(w.0) {
            Some(SleepState::Listed(_)) => Rest::Listed,
            Some(SleepState::Marked) => Rest::Marked,
            _ => Rest::Away,
        }
    }

    /// Whether no worker sleeps.
    #[inline(always)]
    pub fn none_sleeps(&self) -> bool
        ensures { IsTrue result ↔ (sleeping self.now ≡ 0) }
    {
        self.listed.is_empty()
    }

    /// How many were woken and look for a task.
    pub fn searching(&self) -> usize
        ensures { result ≡ searching self.now }
    {
        self.searching
    }

    /// The worker of this slot sleeps from now on, where it was away.
    pub fn list(&mut self, w: SlotId)
        ensures { self.new ≡ (if is_away (rest_at self.old w.0) then set self.old w.0 Rest.Listed else self.old) }
    {
        if let Some(SleepState::Away) = self.states.get(w.0) {
            put_on(&mut self.states, &mut self.listed, w.0);
        }
    }

    /// Wakes the worker of this slot, where it sleeps; whether it did.
    pub fn call(&mut self, w: SlotId) -> bool
        ensures slept { IsTrue result ↔ (rest_at self.old w.0 ≡ Rest.Listed) }
        ensures rests { self.new ≡ (if result then set self.old w.0 Rest.Marked else self.old) }
        ensures searches { IsTrue result → 0 < searching self.new }
    {
        match self.states.get(w.0) {
            Some(SleepState::Listed(index)) => {
                let index = *index;
                take_off(&mut self.states, &mut self.listed, w.0, index);
                self.searching += 1;
                true
            }
            _ => false,
        }
    }

    /// Wakes one who sleeps, if anybody does: the last of the list, which mostly fell asleep last and has a
    /// warm cache. Whose turn it is, is not promised.
    pub fn call_one(&mut self) -> Option<SlotId>
        ensures some { IfSome result (λ w. Wakes self.old self.new w.0) }
        ensures none { IfNone result (sleeping self.old ≡ 0) }
        ensures kept { IfNone result (self.new ≡ self.old) }
    {
        let w = SlotId(*self.listed.last()?);
        self.call(w);
        Some(w)
    }

    /// Wakes one who sleeps where a task waits and nobody looks for one. After it no task is left lying while
    /// a worker sleeps, whatever was so before.
    pub fn settle(&mut self, waits: bool) -> Option<SlotId>
        ensures settled { IsSettled waits self.new }
        ensures needed { IsSome result → (waits ≡ true) × (searching self.old ≡ 0) }
        ensures some { IfSome result (λ w. Wakes self.old self.new w.0) }
        ensures none { IfNone result (self.new ≡ self.old) }
    {
        if waits && self.searching == 0 {
            self.call_one()
        } else {
            None
        }
    }

    /// Wakes all who sleep.
    pub fn call_all(&mut self)
        ensures rests { self.new ≡ map called self.old }
        ensures awake { sleeping self.new ≡ 0 }
    {
        while self.call_one().is_some() {}
    }

    /// The worker of this slot looks for no task any more, where it was woken to do so.
    pub fn end_search(&mut self, w: SlotId)
        ensures { self.new ≡ (if is_marked (rest_at self.old w.0) then set self.old w.0 Rest.Away else self.old) }
    {
        if let Some(SleepState::Marked) = self.states.get(w.0) {
            unmark(&mut self.states, w.0);
            self.searching -= 1;
        }
    }
}
