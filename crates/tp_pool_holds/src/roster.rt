//! The threads of a pool's workers: what each is told of its slot, and the passes that came back.
ghost use Rattle.std.specs.Prelude.{◌≡◌, ◌+◌, ◌-◌, ◌^◌, ◌<◌, [], length, replicate, set, IfOk, IfErr, OnOk};
ghost use Rattle.tp_pool_holds.specs.Rosters.{nobody, gathered_with, telling, told_at};

use std::alloc::{AllocError, Global};
use std::marker::Model;
use tp_book::gathered::Gathered;
use tp_book::passes::WorkerPass;
use tp_glance::glance::Naming;
use tp_types::ids::SlotId;
use tp_types::refusals::PoolError;

/// What the thread of a slot was told.
#[derive(Clone, Copy, Debug, PartialEq, Eq)]
pub enum Start {
    /// Nothing yet.
    Waits,
    /// Its slot is live: it is to work.
    Live,
    /// Its slot was given up: it is to end.
    GivenUp,
}

/// The thread that was made for a slot last. A slot that is given up may be reserved anew before its first
/// thread has looked: so a thread is told by its pass, and waits at a condition and not at the slot's place.
//
// By the slot's number alone it would hear what its successor was told. Then two would work one slot, or one would
// take the other's wake. A stress of such slots found it.
#[derive(Clone, Copy, Debug, PartialEq, Eq)]
pub struct Seat {
    /// The number of its pass.
    pub pass: u32,
    /// What it was told.
    pub start: Start,
}

// Of a slot for which no thread was made. No pass has that number.
const NOBODY: Seat = Seat {
    pass: u32::MAX,
    start: Start::GivenUp,
};

/// The threads that run, and the passes that came back, as one.
#[derive(Drop)]
pub struct Roster<G: Naming> {
    seats: Vec<Seat>,
    running: usize,
    ended: Gathered<G>,
}

impl<G: Naming> Model for Roster<G> {
    ghost use Rattle.tp_pool_holds.specs.Rosters.{RosterView};

    ghost Value = { RosterView };

    ghost view = { λ r. record { seats = r.seats.items; running = r.running; ended = r.ended } };
}

impl<G: Naming> Roster<G> {
    /// No threads, for so many slots, and no passes, which are gathered here.
    pub fn new(alloc: Global, slots: usize, ended: Gathered<G>) -> Result<Roster<G>, AllocError>
        ensures { IfOk result (λ r. r ≡ record { seats = replicate slots nobody; running = 0; ended = ended }) }
    {
        let mut seats = Vec::new(alloc);
        seats.resize(slots, NOBODY)?;
        Ok(Roster {
            seats,
            running: 0,
            ended,
        })
    }

    /// Whether one thread more may run, of this slot. NoMemory (4) where the slot's number is beyond all slots, or no more
    /// threads can be counted.
    pub fn admits(&self, w: SlotId) -> Result<(), PoolError>
        ensures seat { OnOk result (w.0 < length self.now.seats) }
        ensures few { OnOk result (self.now.running < 2 ^ 64 - 1) }
        ensures refused { IfErr result (λ e. e ≡ PoolError.NoMemory) }
    {
        if w.0 >= self.seats.len() {
            return Err(PoolError::NoMemory);
        }
        self.admits_guest()
    }

    /// Whether one pass more may be out, of any slot or of none. NoMemory (4) where no more can be counted.
    pub fn admits_guest(&self) -> Result<(), PoolError>
        ensures few { OnOk result (self.now.running < 2 ^ 64 - 1) }
        ensures refused { IfErr result (λ e. e ≡ PoolError.NoMemory) }
    {
        if self.running == usize::MAX {
            return Err(PoolError::NoMemory);
        }
        Ok(())
    }

    /// One thread more is to run, with the pass of this number: it waits to be told of this slot.
    pub fn add(&mut self, w: SlotId, pass: u32)
        requires seat { w.0 < length self.old.seats }
        requires few { self.old.running < 2 ^ 64 - 1 }
        ensures waits { self.new.seats ≡ set self.old.seats w.0 (record { pass = pass; start = Start.Waits }) }
        ensures running { self.new.running ≡ self.old.running + 1 }
        ensures ended { self.new.ended ≡ self.old.ended }
    {
        self.running += 1;
        self.seats[w.0] = Seat {
            pass,
            start: Start::Waits,
        };
    }

    /// One pass more is to come back, of a thread that has no slot.
    pub fn add_guest(&mut self)
        requires few { self.old.running < 2 ^ 64 - 1 }
        ensures running { self.new.running ≡ self.old.running + 1 }
        ensures others { (self.new.seats ≡ self.old.seats) × (self.new.ended ≡ self.old.ended) }
    {
        self.running += 1;
    }

    /// Tells the thread that was made for this slot last.
    pub fn tell(&mut self, w: SlotId, told: Start)
        ensures { self.new ≡ telling w.0 told self.old }
    {
        if let Some(seat) = self.seats.get_mut(w.0) {
            seat.start = told;
        }
    }

    /// What the thread of this slot was told whose pass has this number. Where another was made for the slot
    /// since, its slot was given up.
    pub fn told(&self, w: SlotId, pass: u32) -> Start
        ensures { result ≡ told_at self.now.seats w.0 pass }
    {
        match self.seats.get(w.0) {
            Some(seat) if seat.pass == pass => seat.start,
            _ => Start::GivenUp,
        }
    }

    /// Takes back the pass of a thread that ends.
    pub fn take_back(&mut self, pass: WorkerPass<G>)
        ensures back { 0 < self.old.running → self.new ≡ record self.old { running = self.old.running - 1; ended = gathered_with self.old.ended pass } }
        ensures none { self.old.running ≡ 0 → self.new ≡ self.old }
    {
        if self.running > 0 {
            self.running -= 1;
            self.ended.take_in(pass);
        }
    }

    /// How many threads with workers' passes have not handed them in.
    pub fn running(&self) -> usize
        ensures { result ≡ self.now.running }
    {
        self.running
    }

    /// The roster of a pool whose threads have all handed in these passes, and which starts no more.
    pub fn again(alloc: Global, ended: Gathered<G>) -> Roster<G>
        ensures { result ≡ record { seats = []; running = 0; ended = ended } }
    {
        Roster {
            seats: Vec::new(alloc),
            running: 0,
            ended,
        }
    }

    /// The passes that came back.
    pub fn into_ended(self) -> Gathered<G>
        ensures { result ≡ self.ended }
    {
        let Roster {
            seats: _,
            running: _,
            ended,
        } = self;
        ended
    }
}
