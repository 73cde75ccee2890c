//! A pool's one lock, and how it is taken.
ghost use Rattle.std.specs.Prelude.{◌≡◌, []};
ghost use Rattle.tp_types.specs.Config.{IsConfig};
ghost use Rattle.tp_book.specs.BookView.{config};

use crate::locked::{Beside, Locked};
use crate::names::PoolNaming;
use crate::pauses::{LONGEST, Patience, rest};
use crate::tasks::Payload;
use std::alloc::Global;
use std::sync::{Mutex, MutexGuard, Wait};
use std::thread::yield_now;
use tp_book::book::Book;
use tp_book::gathered::Gathered;
use tp_machine::machine::releases::Keeper;
use tp_record::recorders::Full;

/// A pool's value behind its one lock. It is made around a new pool's value, or around one that a close took apart and
/// could not close.
#[derive(Drop)]
pub struct PoolLock<G: PoolNaming, J, R: Keeper = Full> {
    mutex: Mutex<Locked<G, J, R>>,
}

impl<G: PoolNaming, J: Drop, R: Keeper> PoolLock<G, J, R> {
    /// The lock of a new pool: its record is empty, its first pass is the only one, and it has no thread. What lies under a lock is
    /// known by its type alone, so what a new pool is stands here: else a body that makes a step or a pass before would be
    /// proved.
    pub fn new(locked: Locked<G, J, R>) -> PoolLock<G, J, R>
        requires empty { locked.book.history ≡ [] }
        requires first { locked.book.accounts ≡ record { total = 0; made = 1; callers = 1 } }
        requires nobody { (locked.roster.running ≡ 0) × (locked.roster.ended ≡ record { passes = 0; amount = 0 }) }
    {
        PoolLock {
            mutex: Mutex::new(locked),
        }
    }

    /// The book, the passes that workers handed in, and the rest, of a pool whose threads are gone.
    pub fn part(self) -> (Book<G, Payload<J>, R>, Gathered<G>, Beside)
        ensures settings { config result.0 ≡ (R.terms G.config) }
        ensures good { IsConfig G.config }
    {
        self.mutex.into_inner().part()
    }

    /// What `part` took apart, put together again.
    pub fn again(
        alloc: Global,
        book: Book<G, Payload<J>, R>,
        ended: Gathered<G>,
        beside: Beside,
    ) -> PoolLock<G, J, R>
        requires settings { config book ≡ (R.terms G.config) }
        requires good { IsConfig G.config }
    {
        PoolLock {
            mutex: Mutex::new(Locked::again(alloc, book, ended, beside)),
        }
    }
}

impl<G: PoolNaming, J, R: Keeper> PoolLock<G, J, R> {
    /// The lock itself.
    #[inline(always)]
    pub fn mutex(&self) -> &Mutex<Locked<G, J, R>> {
        &self.mutex
    }
}

/// Takes the lock. Most of the time it is free, so all that a wait needs stands apart: each hold has this code in it.
#[inline(always)]
pub fn polite<'a, T, R: Wait>(rt: &R, lock: &'a Mutex<T>, patience: Patience) -> MutexGuard<'a, T> {
    match lock.try_lock() {
        Some(guard) => guard,
        None => wait_for(rt, lock, patience),
    }
}

// Takes the lock, which another thread has. A thread looks a few times before it sleeps: a hold is much shorter than a
// sleep, and a lock for which no thread sleeps is let go without a system call.
#[cold]
#[inline(never)]
fn wait_for<'a, T, R: Wait>(rt: &R, lock: &'a Mutex<T>, patience: Patience) -> MutexGuard<'a, T> {
    let mut pause = patience.first;
    for _ in 0..patience.looks {
        if pause == LONGEST {
            yield_now();
        }
        rest(pause);
        if let Some(guard) = lock.try_lock() {
            return guard;
        }
        pause = pause.saturating_mul(2).min(LONGEST);
    }
    lock.lock(rt)
}
