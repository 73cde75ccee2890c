//! What a test and its pool's threads tell each other.

use std::alloc::Global;
use std::sync::atomic::{AtomicU64, Ordering};
use std::sync::{Arc, OnceLock};
use std::thread;
use tp_protocols::flags::CancelFlag;
use tp_types::ids::TaskId;
use tp_types::refusals::PoolError;

/// The hook before a task, and the one after a task that was skipped, or ran.
#[derive(Clone, Copy)]
pub enum Hook {
    Before,
    Skipped,
    Ran,
}

/// A count that all threads of a test share.
#[derive(Clone, Copy)]
pub enum Signal {
    /// Workers that are held before bodies may go on once it is 1.
    Open,
    /// Jobs that wait have begun, and may go on.
    Begun,
    Told,
    /// Jobs that meet others.
    Met,
    /// Workers that came to the gate that holds them, those that passed it before takes, and how many may.
    Came,
    Passed,
    Limit,
    /// Readings that callbacks asked for, up to which of them one was made, and those that were not made.
    Asked,
    Answered,
    Missed,
    /// Calls of a hook for this task; those for tasks from 4 on are counted together.
    Hooked(Hook, TaskId),
    /// Calls of the hook of the pool's end.
    Ends,
    /// Asks of the factory.
    Wanted,
    /// Tasks that were handed in.
    Handed,
    /// A second caller may go on; a caller is about to wait, or has done what it does.
    Ready,
    Waits,
    Over,
    /// The moment, in ticks.
    Moment,
    /// Rounds of a script that were played, and those that could tell.
    Rounds,
    Telling,
    /// Lives of a test's pools before this one.
    Lives,
}

impl Signal {
    // Its place among the counts.
    fn place(self) -> usize {
        match self {
            Signal::Open => 0,
            Signal::Begun => 1,
            Signal::Told => 2,
            Signal::Met => 3,
            Signal::Came => 4,
            Signal::Passed => 5,
            Signal::Limit => 6,
            Signal::Asked => 7,
            Signal::Answered => 8,
            Signal::Missed => 9,
            Signal::Ends => 10,
            Signal::Wanted => 11,
            Signal::Handed => 12,
            Signal::Ready => 13,
            Signal::Waits => 14,
            Signal::Over => 15,
            Signal::Moment => 16,
            Signal::Rounds => 17,
            Signal::Telling => 18,
            Signal::Lives => 19,
            Signal::Hooked(Hook::Before, t) => hooked(20, t),
            Signal::Hooked(Hook::Skipped, t) => hooked(25, t),
            Signal::Hooked(Hook::Ran, t) => hooked(30, t),
        }
    }
}

// The place of a hook's calls for this task, which begin at this one.
fn hooked(first: usize, TaskId(t): TaskId) -> usize {
    first.saturating_add(t.min(4) as usize)
}

const PLACES: usize = 35;

/// The counts, and a cancel flag that a job shared.
#[derive(Drop)]
pub struct Board {
    counts: Vec<AtomicU64>,
    kept: OnceLock<CancelFlag>,
}

impl Board {
    /// A board on which all counts are 0.
    pub fn new(alloc: Global) -> Result<Arc<Board>, PoolError> {
        let mut counts = Vec::new(alloc);
        counts.resize_with(PLACES, || AtomicU64::new(0))?;
        let kept = OnceLock::new();
        Ok(Arc::new(alloc, Board { counts, kept })?)
    }

    /// Keeps a flag that its job shared, the first of a test.
    pub fn keep(&self, flag: CancelFlag) {
        let _ = self.kept.try_set(flag);
    }

    /// Whether the flag that was kept is set.
    pub fn hears(&self) -> Option<bool> {
        Some(self.kept.get()?.is_set())
    }

    /// How high the count is.
    pub fn read(&self, signal: Signal) -> u64 {
        match self.counts.get(signal.place()) {
            Some(count) => count.load(Ordering::SeqCst),
            None => 0,
        }
    }

    /// Sets the count.
    pub fn put(&self, signal: Signal, to: u64) {
        if let Some(count) = self.counts.get(signal.place()) {
            count.store(to, Ordering::SeqCst);
        }
    }

    /// Adds 1, and says how many there were.
    pub fn raise(&self, signal: Signal) -> u64 {
        match self.counts.get(signal.place()) {
            Some(count) => count.fetch_add(1, Ordering::SeqCst),
            None => 0,
        }
    }

    /// Yields until the count is so high, or for long; whether it came to be.
    pub fn reaches(&self, signal: Signal, to: u64) -> bool {
        for _ in 0..20_000_000u32 {
            if self.read(signal) >= to {
                return true;
            }
            thread::yield_now();
        }
        false
    }

    /// Waits until the pool was read after this call began.
    pub fn talk(&self) {
        let mine = self.raise(Signal::Asked).saturating_add(1);
        if !self.reaches(Signal::Answered, mine) {
            self.raise(Signal::Missed);
        }
    }

    /// The n-th thread that comes waits until n may pass, or for long.
    pub fn enter(&self) {
        let mine = self.raise(Signal::Came).saturating_add(1);
        self.reaches(Signal::Limit, mine);
        self.raise(Signal::Passed);
    }

    /// Joins a group of this size, and waits until it is complete, or for long; whether that came to be.
    pub fn meet(&self, size: u64) -> bool {
        let before = self.raise(Signal::Met);
        let missing = size.saturating_sub(before % size.max(1));
        self.reaches(Signal::Met, before.saturating_add(missing))
    }
}

/// The same board, for another to hold.
pub fn shared(board: &Arc<Board>) -> Result<Arc<Board>, PoolError> {
    Ok(Arc::try_clone(board)?)
}
