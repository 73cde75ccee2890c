//! Jobs that run at once.

use crate::harness::boards::Signal;
use crate::harness::chores::Work;
use crate::harness::findings::Finding;
use crate::harness::lives::lives;
use crate::harness::scripts::{Answer, LIFE, Life, SETTINGS, SHUTS_DOWN, Step};
use std::test::Fail;
use tp_types::configs::Config;
use tp_types::tasks::Kind;

// A job that meets another, or three others, and answers its number.
const ONE_OF_TWO: Step = Step::Hand(Kind::Plain, Work::Meet(1, 2), Answer::Accepted);

const TWO_OF_TWO: Step = Step::Hand(Kind::Plain, Work::Meet(2, 2), Answer::Accepted);

const ONE_OF_FOUR: Step = Step::Hand(Kind::Plain, Work::Meet(1, 4), Answer::Accepted);

const TWO_OF_FOUR: Step = Step::Hand(Kind::Plain, Work::Meet(2, 4), Answer::Accepted);

const THREE_OF_FOUR: Step = Step::Hand(Kind::Plain, Work::Meet(3, 4), Answer::Accepted);

const FOUR_OF_FOUR: Step = Step::Hand(Kind::Plain, Work::Meet(4, 4), Answer::Accepted);

// Each job goes on once all of them are in their bodies, and then answers its number. One that waits in vain faults.
static AT_ONCE: [Life; 2] = [
    Life {
        first: &[ONE_OF_TWO, TWO_OF_TWO, SHUTS_DOWN],
        findings: &[
            Finding::Ended(0, Ok(1)),
            Finding::Ended(1, Ok(2)),
            Finding::Noted(Signal::Met, 2),
            Finding::Run(2),
        ],
        ..LIFE
    },
    Life {
        settings: Config {
            core: 4,
            maximum: 4,
            ..SETTINGS
        },
        first: &[
            ONE_OF_FOUR,
            TWO_OF_FOUR,
            THREE_OF_FOUR,
            FOUR_OF_FOUR,
            SHUTS_DOWN,
        ],
        findings: &[
            Finding::Ended(0, Ok(1)),
            Finding::Ended(1, Ok(2)),
            Finding::Ended(2, Ok(3)),
            Finding::Ended(3, Ok(4)),
            Finding::Noted(Signal::Met, 4),
            Finding::Run(4),
        ],
        ..LIFE
    },
];

#[test]
fn bodies_run_at_once(rt: HostRuntime) -> Result<(), Fail> {
    lives(rt, rt.alloc(), &AT_ONCE)
}

// Two jobs run at once. The closed record still gives each task the answer of its own job.
static OUTCOMES: [Life; 1] = [Life {
    first: &[
        Step::Hand(Kind::Plain, Work::Meet(5, 2), Answer::Accepted),
        Step::Hand(Kind::Plain, Work::Meet(3, 2), Answer::Accepted),
        Step::Hand(Kind::Future, Work::End(Err(7)), Answer::Accepted),
        Step::Hand(Kind::Plain, Work::Meet(4, 2), Answer::Accepted),
        Step::Hand(Kind::Plain, Work::Meet(9, 2), Answer::Accepted),
        SHUTS_DOWN,
    ],
    findings: &[
        Finding::Ended(0, Ok(5)),
        Finding::Ended(1, Ok(3)),
        Finding::Ended(2, Err(7)),
        Finding::Ended(3, Ok(4)),
        Finding::Ended(4, Ok(9)),
        Finding::Run(5),
    ],
    ..LIFE
}];

#[test]
fn outcome_is_the_jobs(rt: HostRuntime) -> Result<(), Fail> {
    lives(rt, rt.alloc(), &OUTCOMES)
}
