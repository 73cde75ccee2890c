//! Where callers ask the pool's own thread for what they must not do themselves: to start a worker's thread. That thread also looks
//! after a pool that runs without a worker, since none could be made.
ghost use Rattle.std.specs.Prelude.{◌≤◌};

use std::sync::{Condvar, Mutex, Wait};
use std::thread::{Threads, yield_now};
use std::time::{Clock, Duration};
use tp_book::passes::Pass;
use tp_machine::machine::releases::Keeper;
use tp_pool::PoolOf;
use tp_pool::orders::Order;
use tp_pool_holds::edges::Edge;
use tp_pool_holds::names::PoolNaming;
use tp_protocols::jobs::Job;

// Where the desk stands: one order at a time.
#[derive(Clone, Copy, Drop)]
enum Stand {
    // Nobody asks.
    Free,
    // A caller has asked.
    Asked(Order),
    // The starter does what was asked.
    Busy,
    // It is done: whether a worker was made.
    Done(bool),
    // No order is taken any more.
    Closed,
}

// What the starter found at the desk.
#[derive(Clone, Copy, Drop)]
enum Found {
    // An order.
    Order(Order),
    // None in its time.
    Nothing,
    // No order comes any more.
    Closed,
}

/// The desk of one pool.
#[derive(Drop)]
pub struct Desk {
    stand: Mutex<Stand>,
    asked: Condvar,
    told: Condvar,
}

impl Desk {
    /// A desk where nobody asks.
    pub fn new() -> Desk {
        Desk {
            stand: Mutex::new(Stand::Free),
            asked: Condvar::new(),
            told: Condvar::new(),
        }
    }

    /// Asks for this, and waits until it is done: whether a worker was made. A caller that comes meanwhile waits its turn.
    pub fn ask<R: Wait>(&self, rt: &R, order: Order) -> bool {
        let stand = self.stand.lock(rt);
        let mut stand = (self.told).wait_while(rt, stand, |stand| {
            !matches!(stand, Stand::Free | Stand::Closed)
        });
        if matches!(*stand, Stand::Closed) {
            return false;
        }
        *stand = Stand::Asked(order);
        self.asked.notify_one();
        let mut stand = (self.told).wait_while(rt, stand, |stand| {
            matches!(stand, Stand::Asked(_) | Stand::Busy)
        });
        let made = matches!(*stand, Stand::Done(true));
        *stand = Stand::Free;
        drop(stand);
        self.told.notify_all();
        made
    }

    // The next order, where one comes within this time.
    fn next<R: Wait + Clock>(&self, rt: &R, most: Duration) -> Found {
        let stand = self.stand.lock(rt);
        let (mut stand, _) = (self.asked).wait_timeout_while(rt, stand, most, |stand| {
            !matches!(stand, Stand::Asked(_) | Stand::Closed)
        });
        match *stand {
            Stand::Asked(order) => {
                *stand = Stand::Busy;
                Found::Order(order)
            }
            Stand::Closed => Found::Closed,
            _ => Found::Nothing,
        }
    }

    // Tells that the order is done.
    fn tell<R: Wait>(&self, rt: &R, made: bool) {
        *self.stand.lock(rt) = Stand::Done(made);
        self.told.notify_all();
    }

    /// Takes no more orders. All callers are through.
    pub fn close<R: Wait>(&self, rt: &R) {
        *self.stand.lock(rt) = Stand::Closed;
        self.asked.notify_all();
        self.told.notify_all();
    }
}

// The longest pause between two looks at the pool, in milliseconds.
const LONGEST_PAUSE: u64 = 1_000;

// After so many tries no worker is hoped for: the pauses between them come to ten seconds.
const TRIES: u32 = 19;

// How the starter looks after the pool: how long it waits for its next look, and how often it has tried to have a worker made since the
// pool had one last.
#[derive(Drop)]
struct Watch {
    // In milliseconds.
    pause: u64,
    tried: u32,
}

impl Watch {
    // Of a pool that has workers, or no task.
    fn new() -> Watch {
        Watch {
            pause: LONGEST_PAUSE,
            tried: 0,
        }
    }

    // One try more is to be made; false where so many were made that none is left. The first pause is of a millisecond, and each is twice
    // as long as the one before.
    fn tries_on(&mut self) -> bool {
        if self.tried >= TRIES {
            return false;
        }
        self.pause = if self.tried == 0 {
            1
        } else {
            self.pause.saturating_mul(2).min(LONGEST_PAUSE)
        };
        self.tried += 1;
        true
    }
}

// Looks after the pool, with the starter's pass. Where it runs with queued tasks and without a slot, a worker is asked for; once so
// many were not made, the pool is stopped, so that whoever waits for one of these tasks is told that it is lost.
fn look_after<
    G: PoolNaming + Send + Sync + 'static,
    J: Job + 'static,
    E: Edge + Send + Sync + 'static,
    K: Keeper + Send + 'static,
    R: Threads + Wait + Clock + Copy + Send + 'static,
>(rt: R, pool: &PoolOf<G, J, E, K>, watch: &mut Watch, pass: &mut Pass<G>) {
    if !pool.is_unstaffed(&rt) {
        *watch = Watch::new();
    } else if watch.tries_on() {
        recruit(rt, pool, pass);
    } else {
        let _ = pool.shutdown_now(&rt, pass);
    }
}

// Has a worker made for the queued tasks. At core size 0 a prestart makes none: there the core size is raised for it, which makes one.
fn recruit<
    G: PoolNaming + Send + Sync + 'static,
    J: Job + 'static,
    E: Edge + Send + Sync + 'static,
    K: Keeper + Send + 'static,
    R: Threads + Wait + Clock + Copy + Send + 'static,
>(rt: R, pool: &PoolOf<G, J, E, K>, pass: &mut Pass<G>) {
    if pool.core_size(&rt) > 0 {
        let _ = pool.prestart_core(&rt, pass);
    } else if pool.set_core(&rt, 1, pass).is_ok() {
        let _ = pool.set_core(&rt, 0, pass);
    }
}

/// The pass, with room for all receipts of the pool's end. It has that, unless steps were made with it and there is no memory for more
/// receipts: then this waits for some.
pub fn with_room<G: PoolNaming, R: Wait>(rt: &R, pass: Pass<G>) -> Pass<G>
    ensures { 4 ≤ result.room }
{
    let mut pass = pass;
    for _ in rt.forever() {
        if pass.reserve(4).is_ok() {
            return pass;
        }
        yield_now();
    }
    unreachable!()
}

/// The work of the pool's own thread, with the pass that ends the pool later: it does what callers ask for, until the desk is closed, and
/// looks after the pool meanwhile.
pub fn starter<
    G: PoolNaming + Send + Sync + 'static,
    J: Job + 'static,
    E: Edge + Send + Sync + 'static,
    K: Keeper + Send + 'static,
    R: Threads + Wait + Clock + Copy + Send + 'static,
>(rt: R, pool: &PoolOf<G, J, E, K>, desk: &Desk, pass: Pass<G>) -> Pass<G> {
    let mut pass = pass;
    let mut watch = Watch::new();
    for _ in rt.forever() {
        match desk.next(&rt, Duration::from_millis(watch.pause)) {
            Found::Order(order) => desk.tell(&rt, pool.obey(rt, order)),
            Found::Nothing => look_after(rt, pool, &mut watch, &mut pass),
            Found::Closed => return pass,
        }
    }
    unreachable!()
}
