//! How long threads wait: for the lock where another thread has it, and for the next task before they park.

use std::hint::spin_loop;

/// How a thread waits for a taken lock before it sleeps: so many looks, with a pause before each. Each pause is twice
/// as long as the one before, up to the longest. A pause is counted in turns of `spin_loop`, 5 to 15 nanoseconds
/// each, by the machine.
#[derive(Clone, Copy)]
pub struct Patience {
    /// The number of looks.
    pub looks: u32,
    /// The first pause, in turns.
    pub first: u32,
}

/// A caller looks soon again, and often: the next task comes from it, and workers that find no task sleep.
pub const CALLER: Patience = Patience {
    looks: 32,
    first: 150,
};

/// A worker looks soon too: where jobs take a while, it is missed while it waits.
pub const WORKER: Patience = Patience {
    looks: 12,
    first: 30,
};

// How a worker looks that was alone: much later, so that another thread is alone in its turn (`Holds::patience`). The more
// threads the pool has, the more of them look; so each waits longer, and whoever is alone stays alone for as long.
fn alone_among(threads: usize) -> Patience {
    Patience {
        looks: 12,
        first: ALONE.saturating_mul(threads.min(MOST) as u32),
    }
}

// The first pause of a worker that was alone, in turns, for each thread of the pool.
const ALONE: u32 = 4_800;

// It grows no longer with more threads than these.
const MOST: usize = 4;

/// The longest pause after the first, in turns. Where the lock is rarely held, no pause comes near it.
pub const LONGEST: u32 = 4_000;

/// Passes so many turns of `spin_loop`.
pub fn rest(pause: u32) {
    for _ in 0..pause {
        spin_loop();
    }
}

// A worker that is listed looks whether it was called before it parks, where the next task may come soon: so often, with
// a pause before each look.
const DOZES: u32 = 8;

/// That pause, in turns of `spin_loop`.
pub const DOZE: u32 = 250;

// So many tasks in a row, found without a wait, are a stream.
const STREAM: u32 = 64;

// After so many waits in a row with no stream between them a worker gives way all the same.
const WAITS: u32 = 64;

// A worker is alone after so many holds, those of four tasks, with no step of another thread between.
const MANY: u32 = 12;

/// How a worker's holds followed one another of late, by which it waits for the lock.
///
/// Whenever the lock goes from one thread to another, its memory goes from one processor to another too, which costs about as
/// much as the steps of a task. Where jobs are short, a thread that finds the lock free takes it again and again. So a
/// worker that was alone for a while waits long, and lets another thread be alone in its turn. Where jobs take a while, others
/// step during most of them; then a worker is hardly ever alone, and one that waited long would only be missed. The pool reads no
/// clock, so it can't measure a job.
#[derive(Drop)]
pub struct Holds {
    // The pool's steps at the end of its last hold.
    steps: u64,
    // So many holds before that followed one another with no step of another thread between.
    alone: u32,
    // So many threads the pool had at its last hold.
    threads: usize,
}

impl Holds {
    /// Of a worker that had none yet.
    pub fn new() -> Holds {
        Holds {
            steps: 0,
            alone: 0,
            threads: 1,
        }
    }

    /// How it waits for the lock.
    #[inline(always)]
    pub fn patience(&self) -> Patience {
        if self.alone < MANY {
            WORKER
        } else {
            alone_among(self.threads)
        }
    }

    /// A hold begins, after so many steps, in a pool of so many threads.
    #[inline(always)]
    pub fn begin(&mut self, steps: u64, threads: usize) {
        self.threads = threads;
        self.alone = if steps == self.steps {
            self.alone.saturating_add(1)
        } else {
            0
        };
    }

    /// A hold ends, after so many steps.
    #[inline(always)]
    pub fn end(&mut self, steps: u64) {
        self.steps = steps;
    }
}

/// How a worker's tasks came of late, by which it waits for the next one.
///
/// A worker that is woken often runs on the processor of the thread that woke it, and that thread waits for it. If it
/// parked then, it would be woken for each task by itself. Where it gives way instead, its waker goes on, and the worker
/// finds many tasks. But a thread that gives way also gives way to all others on its processor, for milliseconds where
/// these never sleep. So it does so after a stream of tasks, and else rarely, to find out whether one comes.
#[derive(Drop)]
pub struct Pace {
    // Whether it has parked since its last task.
    parked: bool,
    // Whether that task came with no park before it: then the next one may come soon too.
    soon: bool,
    // How many came since its last wait.
    streak: u32,
    // How often it has waited since it gave way last.
    waits: u32,
    // Whether it is to give way first in its wait.
    gives_way: bool,
    // So many short pauses come next in its wait, before it parks.
    dozes: u32,
}

/// What a worker does before it looks whether it was called.
#[derive(Clone, Copy)]
pub enum Pause {
    /// It gives way to the other threads of its processor.
    GiveWay,
    /// It pauses for `DOZE` turns.
    Doze,
    /// It parks.
    Park,
}

impl Pace {
    /// Of a worker that had no task yet.
    pub fn new() -> Pace {
        Pace {
            parked: false,
            soon: false,
            streak: 0,
            waits: 0,
            gives_way: false,
            dozes: 0,
        }
    }

    /// A task has come.
    #[inline(always)]
    pub fn found(&mut self) {
        self.soon = !self.parked;
        self.parked = false;
        self.streak = self.streak.saturating_add(1);
    }

    /// A wait begins.
    pub fn begin_wait(&mut self) {
        self.gives_way = self.streak >= STREAM || self.waits >= WAITS;
        self.streak = 0;
        self.waits = if self.gives_way {
            0
        } else {
            self.waits.saturating_add(1)
        };
        self.dozes = if self.soon && !self.parked { DOZES } else { 0 };
    }

    /// The next pause of the wait.
    pub fn next_pause(&mut self) -> Pause {
        if self.gives_way {
            self.gives_way = false;
            return Pause::GiveWay;
        }
        if let Some(left) = self.dozes.checked_sub(1) {
            self.dozes = left;
            return Pause::Doze;
        }
        self.parked = true;
        Pause::Park
    }
}
