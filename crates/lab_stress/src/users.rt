//! What a pool asks of its users: they answer by its plan and by chance, and take their time by chance.

use crate::chores::{Sign, Signs, spins};
use crate::luck::Luck;
use crate::plans::{Making, Plan};
use std::sync::atomic::{AtomicU64, Ordering};
use std::sync::{Arc, Wait};
use std::thread;
use tp_life::prelude::*;
use tp_pool::Outcome;
use tp_pool::edges::STACK;
use tp_pool::gates::Point;

/// A factory, a handler, hooks and a gate, which count how often they took their time.
#[derive(Drop)]
pub struct Users {
    pub plan: Plan,
    pub signs: Arc<Signs>,
    pub asked: AtomicU64,
}

/// A pause by chance: mostly none, else a yield or some turns of spinning.
pub fn pause(luck: &mut Luck) {
    match luck.below(8) {
        0 => thread::yield_now(),
        1 => drop(spins(luck.below(3_000))),
        _ => {}
    }
}

impl Users {
    // A source of chance for an ask, after a pause.
    fn luck(&self) -> Luck {
        let asked = self.asked.fetch_add(1, Ordering::SeqCst);
        let mut luck = Luck::new(self.plan.seed, asked.saturating_add(2_000_000));
        pause(&mut luck);
        luck
    }
}

impl Edge for Users {
    // The thread is made that was asked for last.
    fn stack(&self) -> usize {
        match self.plan.making(self.signs.count(Sign::Asked)) {
            Making::NoThread => usize::MAX,
            _ => STACK,
        }
    }

    fn allow<R: Wait>(&self, _rt: &R, _w: SlotId) -> bool {
        let ask = self.signs.raise(Sign::Asked);
        if ask == self.plan.halts {
            self.signs.reaches(Sign::Free, 1);
        }
        let lucky = self.luck().below(8) >= self.plan.refusals;
        let allowed = lucky && self.plan.making(ask) != Making::Refused;
        if !allowed {
            self.signs.raise(Sign::Refused);
        }
        allowed
    }

    fn verdict<R: Wait>(&self, _rt: &R, _t: TaskId, _state: RunState) -> Verdict {
        match self.luck().below(4) {
            0 => Verdict::Abort,
            1 => Verdict::CallerRuns,
            2 => Verdict::Discard,
            _ => Verdict::DiscardOldest,
        }
    }

    fn before<R: Wait>(&self, _rt: &R, _w: SlotId, _t: TaskId) {
        self.luck();
    }

    fn after<R: Wait>(&self, _rt: &R, _w: SlotId, _t: TaskId, _outcome: Option<&Outcome>) {
        self.luck();
    }

    fn terminated<R: Wait>(&self, _rt: &R) {
        self.signs.raise(Sign::Ended);
    }

    fn pass(&self, _p: Point, _w: SlotId) {
        self.luck();
    }
}
