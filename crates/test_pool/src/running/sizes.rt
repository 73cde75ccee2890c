//! Pools whose settings change while they run.

use crate::harness::boards::Signal;
use crate::harness::calls::Call;
use crate::harness::chores::Work;
use crate::harness::findings::Finding;
use crate::harness::lives::lives;
use crate::harness::scripts::{
    Answer, Cue, Deal, LIFE, LOOKS, Life, SETTINGS, SHUTS_DOWN, Step, View,
};
use std::test::Fail;
use tp_record::entries::Did;
use tp_types::configs::Config;
use tp_types::tasks::Kind;

// The one worker's task waits for two that are queued. A larger core size starts workers for those.
static STARTED: [Life; 1] = [Life {
    settings: Config {
        core: 1,
        maximum: 3,
        ..SETTINGS
    },
    first: &[
        Step::Hand(Kind::Plain, Work::Meet(0, 3), Answer::Accepted),
        Step::Hand(Kind::Plain, Work::Meet(1, 3), Answer::Accepted),
        Step::Hand(Kind::Plain, Work::Meet(2, 3), Answer::Accepted),
        Step::Cue(Cue::Reaches(Signal::Met, 1)),
        Step::Cue(Cue::Is(Signal::Met, 1)),
        Step::Call(Call::Core(3)),
        Step::Is(View::Live(3)),
        SHUTS_DOWN,
    ],
    findings: &[
        Finding::Ended(0, Ok(0)),
        Finding::Ended(1, Ok(1)),
        Finding::Ended(2, Ok(2)),
        Finding::Told(1, Did::Core(3, 2)),
        Finding::Run(3),
        Finding::Largest(3),
    ],
    ..LIFE
}];

#[test]
fn larger_core_starts_workers(rt: HostRuntime) -> Result<(), Fail> {
    lives(rt, rt.alloc(), &STARTED)
}

const RESTS: Step = Step::Cue(Cue::Rest(5000));

const STARTS_ALL: Step = Step::Call(Call::StartAll(3));

const SMALLER: Step = Step::Call(Call::Core(1));

const ONE_STAYS: Step = Step::Is(View::Live(1));

const ENDED: Step = Step::Becomes(View::Completed(1));

// Three workers are idle, and the core size becomes 1. Once the keep-alive is over, one of them stays.
const SHRINKS: Life = Life {
    settings: Config {
        core: 3,
        maximum: 3,
        ..SETTINGS
    },
    first: &[STARTS_ALL, SMALLER],
    rounds: 1,
    // Nobody leaves.
    middle: &[RESTS, Step::Is(View::Live(3))],
    last: &[
        Step::Deal(Deal::TimesOut(1)),
        Step::Becomes(View::Live(1)),
        RESTS,
        ONE_STAYS,
        LOOKS,
        ENDED,
        SHUTS_DOWN,
    ],
    findings: &[Finding::Ended(0, Ok(0)), Finding::Largest(3)],
    ..LIFE
};

// Idle workers leave since the core size becomes less, since core workers time out too, or since the maximum becomes less.
static ALL_SHRINK: [Life; 3] = [
    SHRINKS,
    Life {
        first: &[STARTS_ALL, Step::Call(Call::CoreTimeout(true))],
        last: &[
            Step::Deal(Deal::TimesOut(0)),
            Step::Becomes(View::Live(0)),
            RESTS,
            Step::Is(View::Live(0)),
            LOOKS,
            ENDED,
            SHUTS_DOWN,
        ],
        ..SHRINKS
    },
    Life {
        last: &[
            Step::Call(Call::Maximum(1)),
            Step::Becomes(View::Live(1)),
            RESTS,
            ONE_STAYS,
            LOOKS,
            ENDED,
            SHUTS_DOWN,
        ],
        ..SHRINKS
    },
];

#[test]
fn idle_workers_leave(rt: HostRuntime) -> Result<(), Fail> {
    lives(rt, rt.alloc(), &ALL_SHRINK)
}
