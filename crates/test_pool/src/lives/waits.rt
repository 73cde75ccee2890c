//! One caller waits in a thread of its own, and the step of another ends the wait.

use crate::harness::boards::Signal;
use crate::harness::calls::Call;
use crate::harness::lives::lives;
use crate::harness::scripts::{AWAITS_END, Cue, IS_OVER, Life, PAIR, SHUTS_DOWN, Step};
use crate::harness::users::{MANNER, Manner};
use std::test::Fail;
use tp_types::refusals::PoolError;

// The second caller's lines before its wait, and after it.
const WAITS: [Step; 1] = [Step::Cue(Cue::Put(Signal::Waits, 1))];

const OVER: [Step; 1] = [IS_OVER];

// The second caller is about to wait, and has had time to fall asleep.
const SLEEPS: [Step; 2] = [
    Step::Cue(Cue::Reaches(Signal::Waits, 1)),
    Step::Cue(Cue::Rest(5_000)),
];

// The pool's end takes its time. Who waits for it looks at a pool that is tidying, and the step `ended` has to wake it.
const WOKEN: Life = Life {
    manner: Manner {
        lingers: true,
        ..MANNER
    },
    first: &SLEEPS,
    last: &[
        Step::Cue(Cue::Reaches(Signal::Over, 1)),
        SHUTS_DOWN,
        AWAITS_END,
    ],
    ..PAIR
};

// A wait, and the step that ends it.
static WAKINGS: [Life; 5] = [
    Life {
        beside: &[
            &WAITS,
            &[Step::Refused(Call::Await(9), PoolError::TimedOut)],
            &OVER,
        ],
        middle: &[Step::Call(Call::Tick(9))],
        ..WOKEN
    },
    Life {
        beside: &[&WAITS, &[Step::Call(Call::Await(9))], &OVER],
        middle: &[SHUTS_DOWN],
        ..WOKEN
    },
    Life {
        beside: &[&WAITS, &[Step::Call(Call::Await(9))], &OVER],
        middle: &[Step::Call(Call::Stop(0, 0))],
        ..WOKEN
    },
    Life {
        beside: &[&WAITS, &[Step::Call(Call::WaitStep(0, 1))], &OVER],
        middle: &[Step::Call(Call::Purge(0))],
        ..WOKEN
    },
    Life {
        beside: &[&WAITS, &[Step::Call(Call::WaitStep(0, 1))], &OVER],
        middle: &[Step::Call(Call::Tick(1))],
        ..WOKEN
    },
];

#[test]
fn wakes_who_waits(rt: HostRuntime) -> Result<(), Fail> {
    lives(rt, rt.alloc(), &WAKINGS)
}
