//! Jobs that answer their numbers, and what the threads of a pool tell one another.

use std::alloc::{AllocError, Global};
use std::hint::spin_loop;
use std::sync::Arc;
use std::sync::atomic::{AtomicU64, Ordering};
use std::thread;
use tp_life::prelude::*;

/// What comes about: a caller tells the other one to go on; the factory is asked for a worker, refuses it, or may answer, where it waits for
/// that; the terminated hook is called; some job runs; the job of this number runs.
#[derive(Clone, Copy)]
pub enum Sign {
    Told,
    Asked,
    Refused,
    Free,
    Ended,
    Runs,
    Job(u32),
}

/// How often each of them came about.
#[derive(Drop)]
pub struct Signs {
    counts: Vec<AtomicU64>,
}

// Its place among the counts.
fn place(sign: Sign) -> usize {
    match sign {
        Sign::Told => 0,
        Sign::Asked => 1,
        Sign::Refused => 2,
        Sign::Free => 3,
        Sign::Ended => 4,
        Sign::Runs => 5,
        Sign::Job(number) => 6 + number as usize,
    }
}

impl Signs {
    /// Nothing came about, in a pool of so many jobs.
    pub fn new(alloc: Global, jobs: u32) -> Result<Arc<Signs>, AllocError> {
        let mut counts = Vec::new(alloc);
        counts.resize_with(place(Sign::Job(jobs)), || AtomicU64::new(0))?;
        Ok(Arc::new(alloc, Signs { counts })?)
    }

    // It comes about so often more: how often it does then.
    fn add(&self, sign: Sign, more: u64) -> u64 {
        match self.counts.get(place(sign)) {
            Some(count) => count.fetch_add(more, Ordering::SeqCst).saturating_add(more),
            None => 0,
        }
    }

    /// How often it came about.
    pub fn count(&self, sign: Sign) -> u64 {
        self.add(sign, 0)
    }

    /// It comes about: how often it did.
    pub fn raise(&self, sign: Sign) -> u64 {
        self.add(sign, 1)
    }

    /// Yields until it came about so often, or for long; whether it did.
    pub fn reaches(&self, sign: Sign, to: u64) -> bool {
        for _ in 0..10_000_000 {
            if self.count(sign) >= to {
                return true;
            }
            thread::yield_now();
        }
        false
    }
}

/// What a job's body does: nothing; it yields so many times, or until its cancel flag is set; it spins so many turns; it ends in a fault,
/// whose code is the job's number; it waits until so many jobs of its pool run, and faults where they do not.
#[derive(Clone, Copy)]
pub enum Work {
    Nothing,
    Yields(u32),
    Spins(u32),
    Faults,
    Meets(u64),
}

/// A job. It tells by the signs that it runs.
#[derive(Drop)]
pub struct Chore {
    pub number: u32,
    pub priority: u32,
    pub work: Work,
    pub signs: Arc<Signs>,
}

impl Task for Chore {
    type Output = u32;

    ghost urgency = { λ c. c.priority };

    fn priority(&self) -> u32 {
        self.priority
    }

    fn run(&mut self, cancel: &CancelFlag) -> Result<u32, u32> {
        self.signs.raise(Sign::Job(self.number));
        self.signs.raise(Sign::Runs);
        let well = match self.work {
            Work::Nothing => true,
            Work::Yields(turns) => yields(turns, cancel),
            Work::Spins(turns) => spins(turns),
            Work::Faults => false,
            Work::Meets(all) => self.signs.reaches(Sign::Runs, all),
        };
        well.then_some(self.number).ok_or(self.number)
    }
}

fn yields(turns: u32, cancel: &CancelFlag) -> bool {
    for _ in 0..turns {
        if !cancel.is_set() {
            thread::yield_now();
        }
    }
    true
}

/// Spins so many turns, which goes well.
pub fn spins(turns: u32) -> bool {
    for _ in 0..turns {
        spin_loop();
    }
    true
}
