//! Pools that keep no record, and serve on and on.

use crate::harness::boards::Signal;
use crate::harness::calls::Call;
use crate::harness::chores::Work;
use crate::harness::findings::{Finding, NO_COUNTS};
use crate::harness::forgetting::forgetful_lives;
use crate::harness::scripts::{
    AWAITS_END, Answer, LIFE, Life, Many, ONE_WORKER, SHUTS_DOWN, Step, Yields,
};
use std::test::Fail;
use tp_types::configs::{Config, QueueKind};
use tp_types::ids::TaskId;
use tp_types::refusals::PoolError;
use tp_types::states::Counts;
use tp_types::tasks::Kind;

// One worker, and the least record limit.
const LONE: Life = Life {
    settings: Config {
        keep: 0,
        record_limit: 64,
        ..ONE_WORKER
    },
    yields: Yields::Never,
    times: 1,
    ..LIFE
};

// A job that is counted, and answers 7.
const COUNTED: Work = Work::Meet(7, 1);

const JOBS: u32 = 20_000;

// The counters where so many jobs ran.
const ALL_RAN: Counts = Counts {
    submitted: JOBS,
    run: JOBS,
    completed: JOBS,
    largest: 1,
    ..NO_COUNTS
};

const ONE_RAN: Counts = Counts {
    submitted: 1,
    run: 1,
    completed: 1,
    largest: 1,
    ..NO_COUNTS
};

const UNKNOWN: PoolError = PoolError::UnknownTask;

static BEYOND: [Life; 1] = [Life {
    middle: &[Step::Hand(Kind::Plain, COUNTED, Answer::Accepted)],
    rounds: JOBS,
    last: &[
        SHUTS_DOWN,
        AWAITS_END,
        Step::Keeps(0),
        Step::Refused(Call::Fate(TaskId(0)), UNKNOWN),
    ],
    findings: &[
        Finding::Noted(Signal::Met, 20_000),
        Finding::Counts(ALL_RAN),
    ],
    ..LONE
}];

// All jobs run, and the pool forgets each.
#[test]
fn serves_beyond_its_record_limit(rt: HostRuntime) -> Result<(), Fail> {
    forgetful_lives(&rt, rt.alloc(), &BEYOND)
}

static RELEASED: [Life; 1] = [Life {
    first: &[
        Step::Release(0, Err(UNKNOWN)),
        Step::Submit(Kind::Future, COUNTED, 0),
        Step::Get(0, Ok(7)),
        Step::Release(0, Ok(())),
        Step::Get(0, Err(UNKNOWN)),
        Step::Release(0, Err(UNKNOWN)),
    ],
    last: &[SHUTS_DOWN, AWAITS_END],
    findings: &[Finding::Noted(Signal::Met, 1), Finding::Counts(ONE_RAN)],
    ..LONE
}];

// A future is asked, released, and not known any more.
#[test]
fn forgets_a_released_future(rt: HostRuntime) -> Result<(), Fail> {
    forgetful_lives(&rt, rt.alloc(), &RELEASED)
}

const CALLS: u32 = 2_000;

const AT_MOST_THREE: Step = Step::KeepsAtMost(3);

const AT_MOST_NINE: Step = Step::KeepsAtMost(9);

// Three jobs at a time: for one value, or for all where a task is taken only by an idle worker. What their calls leave is forgotten: at
// last no more is kept than the last call left.
static MANY: [Life; 2] = [
    Life {
        middle: &[Step::Many(Many::Any(&[COUNTED, COUNTED, COUNTED], Ok(7)))],
        rounds: CALLS,
        last: &[AT_MOST_THREE, SHUTS_DOWN, AWAITS_END, AT_MOST_THREE],
        ..LONE
    },
    Life {
        settings: Config {
            queue: QueueKind::Handoff,
            keep: 0,
            record_limit: 64,
            ..ONE_WORKER
        },
        middle: &[Step::Releases(&[COUNTED, COUNTED, COUNTED])],
        rounds: CALLS,
        last: &[AT_MOST_NINE, SHUTS_DOWN, AWAITS_END, AT_MOST_NINE],
        ..LONE
    },
];

#[test]
fn forgets_what_many_jobs_leave(rt: HostRuntime) -> Result<(), Fail> {
    forgetful_lives(&rt, rt.alloc(), &MANY)
}
