//! A pool's life: its callers live by its plan, each in a thread of its own. It is closed, and each of its jobs accounted for.

use crate::accounts::{Totals, account_for};
use crate::calls::{Event, Line, Seen, bears, make};
use crate::chores::{Chore, Signs, Work, spins};
use crate::luck::Luck;
use crate::mishaps::{Mishap, ensure};
use crate::owned::with_owned;
use crate::plans::Plan;
use crate::users::{Users, pause};
use std::alloc::Global;
use std::sync::Arc;
use std::sync::atomic::AtomicU64;
use std::thread;
use std::time::Clock;
use tp_life::prelude::*;
use tp_pool::prelude::{Full, Runtime, Tally};

/// What a caller saw, or why it broke off.
pub type Out = Result<Vec<Event>, Mishap>;

/// What the callers of a pool share: what it is to live through, what its threads tell one another, and the allocator.
#[derive(Drop)]
pub struct Shift {
    pub plan: Plan,
    pub signs: Arc<Signs>,
    pub alloc: Global,
}

impl Shift {
    /// The job of this number and work.
    pub fn job(&self, number: u32, work: Work) -> Result<Chore, Mishap> {
        let mut luck = Luck::new(self.plan.seed, 1_000_000 + u64::from(number));
        Ok(Chore {
            number,
            priority: luck.below(4),
            work,
            signs: Arc::try_clone(&self.signs)?,
        })
    }

    /// Does what needs no pool.
    pub fn does(&self, line: Line) -> Result<(), Mishap> {
        let (seed, signs) = (self.plan.seed, &self.signs);
        match line {
            Line::Until(sign, many) => ensure(signs.reaches(sign, many), "a sign did not come")?,
            Line::Tells(sign) => drop(signs.raise(sign)),
            Line::Spins => drop(spins((seed.wrapping_mul(7) % 4_000) as u32)),
            Line::Pauses(chance) => pause(&mut Luck::new(seed, 3_000_000 + u64::from(chance))),
            _ => {}
        }
        Ok(())
    }
}

// Looks at the run state alone until the pool has ended, for long at most.
fn polls<P: Calls<Task = Chore>>(pool: &mut P) -> Result<(), Mishap> {
    for _ in 0..10_000_000 {
        if pool.state() == RunState::Terminated {
            return Ok(());
        }
        thread::yield_now();
    }
    Err(Mishap::Differs("a pool did not end"))
}

impl Life for Shift {
    type Out = Out;

    type Task = Chore;

    fn live<P: Calls<Task = Chore>>(&self, pool: &mut P, who: u32) -> Out {
        let mut seen = Vec::new(self.alloc);
        for line in self.plan.does(self.alloc, who)? {
            match line {
                Line::Submits(kind, number, work) => {
                    let entered = match pool.enter(kind, self.job(number, work)?) {
                        Ok((admitted, value)) => Seen::Entered(admitted, value),
                        Err(refused) => Seen::Refused(refused.error, refused.job.is_some()),
                    };
                    seen.push(Event::Job(number, entered))?;
                }
                Line::Makes(call) => make(pool, call, &mut seen)?,
                Line::Tries(call) => bears(make(pool, call, &mut seen))?,
                Line::Polls => polls(pool)?,
                line => self.does(line)?,
            }
        }
        Ok(seen)
    }
}

/// A pool's life by this plan, and what it comes to.
pub fn live<R: Runtime + Clock>(rt: &R, alloc: Global, plan: Plan) -> Result<Totals, Mishap> {
    let signs = Signs::new(alloc, plan.jobs)?;
    let users = Users {
        plan,
        signs: Arc::try_clone(&signs)?,
        asked: AtomicU64::new(0),
    };
    let shift = Shift { plan, signs, alloc };
    let (set, many) = (plan.settings, plan.callers);
    match (plan.owned, plan.keeps) {
        (false, true) => account_for(rt, &shift, with_pool(rt, alloc, set, users, many, &shift)?),
        (false, false) => account_for(rt, &shift, with_tally(rt, alloc, set, users, many, &shift)?),
        (true, true) => account_for(rt, &shift, with_owned::<Full, R>(rt, &shift, users)?),
        (true, false) => account_for(rt, &shift, with_owned::<Tally, R>(rt, &shift, users)?),
    }
}
