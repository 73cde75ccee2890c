//! What a pool without a record keeps of tasks that are gone, whichever way they went. It keeps nothing of a plain task, and a future
//! until its release.

use crate::harness::calls::Call;
use crate::harness::chores::Work;
use crate::harness::findings::Finding;
use crate::harness::forgetting::forgetful_lives;
use crate::harness::scripts::{
    AWAITS_END, Answer, CAME, HELD, LETS_GO, LIFE, LOOKS, Life, ONE_WORKER, SHUTS_DOWN, Step, View,
    Yields,
};
use std::test::Fail;
use tp_types::configs::{Config, Policy, QueueKind};
use tp_types::ids::TaskId;
use tp_types::refusals::PoolError;
use tp_types::tasks::Kind;

// One worker, and room for one queued task.
const SETTINGS: Config = Config {
    queue: QueueKind::Bounded(1),
    keep: 0,
    record_limit: 64,
    ..ONE_WORKER
};

const DISCARD: Config = Config {
    policy: Policy::Discard,
    ..SETTINGS
};

const DISCARD_OLDEST: Config = Config {
    policy: Policy::DiscardOldest,
    ..SETTINGS
};

const CALLER_RUNS: Config = Config {
    policy: Policy::CallerRuns,
    ..SETTINGS
};

const KEEPS_NONE: Step = Step::Keeps(0);

const KEEPS_ONE: Step = Step::Keeps(1);

const KEEPS_TWO: Step = Step::Keeps(2);

const FUTURE: Step = Step::Hand(Kind::Future, Work::Look, Answer::Accepted);

const MEMBER: Step = Step::Hand(Kind::Group(3), Work::Look, Answer::Accepted);

const ENDS: [Step; 3] = [LETS_GO, SHUTS_DOWN, AWAITS_END];

const ENDS_EMPTY: [Step; 4] = [LETS_GO, SHUTS_DOWN, AWAITS_END, KEEPS_NONE];

// The worker is held with task 0, and task 1 is queued.
const WAY: Life = Life {
    settings: SETTINGS,
    manner: HELD,
    yields: Yields::Never,
    times: 1,
    first: &[LOOKS, CAME, LOOKS, KEEPS_TWO],
    last: &ENDS_EMPTY,
    findings: &[Finding::Live(0)],
    ..LIFE
};

// The same of futures, and of a group.
const FUTURES: Life = Life {
    first: &[FUTURE, CAME, FUTURE, KEEPS_TWO],
    last: &ENDS,
    ..WAY
};

const GROUP: Life = Life {
    first: &[MEMBER, CAME, MEMBER, KEEPS_TWO],
    last: &ENDS,
    ..WAY
};

const UNKNOWN: PoolError = PoolError::UnknownTask;

const NOT_GONE: PoolError = PoolError::NotThere;

static WAYS: [Life; 11] = [
    // A task is rejected, discarded, or dropped as the oldest one; or its submitter runs it.
    Life {
        middle: &[
            Step::Hand(Kind::Plain, Work::Look, Answer::Rejected),
            KEEPS_TWO,
            Step::Release(2, Err(UNKNOWN)),
        ],
        ..WAY
    },
    Life {
        settings: DISCARD,
        middle: &[
            Step::Hand(Kind::Plain, Work::Look, Answer::Discarded),
            KEEPS_TWO,
            Step::Release(2, Err(UNKNOWN)),
        ],
        ..WAY
    },
    Life {
        settings: DISCARD_OLDEST,
        middle: &[LOOKS, KEEPS_TWO, Step::Release(1, Err(UNKNOWN))],
        ..WAY
    },
    Life {
        settings: CALLER_RUNS,
        middle: &[
            Step::Hand(Kind::Plain, Work::Look, Answer::RanHere(Ok(0))),
            KEEPS_TWO,
            Step::Release(2, Err(UNKNOWN)),
        ],
        ..WAY
    },
    // It is removed, or drained by a stop.
    Life {
        middle: &[
            Step::Call(Call::Remove(TaskId(1))),
            KEEPS_ONE,
            Step::Release(0, Err(NOT_GONE)),
        ],
        ..WAY
    },
    Life {
        middle: &[Step::Call(Call::Stop(1, 2)), KEEPS_ONE],
        ..WAY
    },
    // Its worker ends it.
    Life {
        middle: &[LETS_GO, Step::Becomes(View::Completed(2))],
        last: &[KEEPS_NONE, SHUTS_DOWN, AWAITS_END],
        ..WAY
    },
    // Its worker ends it, maybe before its submitter looks a second time; or its submitter runs it.
    Life {
        settings: CALLER_RUNS,
        first: &[
            LOOKS,
            CAME,
            LOOKS,
            KEEPS_TWO,
            LETS_GO,
            Step::Becomes(View::Completed(2)),
        ],
        middle: &[Step::Hand(Kind::Plain, Work::Look, Answer::Taken)],
        rounds: 2_000,
        ..WAY
    },
    // A cancelled future is taken out by a purge, or skipped by its worker.
    Life {
        middle: &[
            Step::Call(Call::Cancel(TaskId(1), false, true)),
            Step::Release(1, Err(NOT_GONE)),
            Step::Call(Call::Purge(1)),
            KEEPS_TWO,
            Step::Release(1, Ok(())),
            KEEPS_ONE,
        ],
        ..FUTURES
    },
    Life {
        middle: &[Step::Call(Call::Cancel(TaskId(1), false, true))],
        last: &[
            LETS_GO,
            SHUTS_DOWN,
            AWAITS_END,
            KEEPS_TWO,
            Step::Release(1, Ok(())),
            Step::Release(0, Ok(())),
            KEEPS_NONE,
        ],
        ..FUTURES
    },
    // A task of a group is done, and then taken.
    Life {
        middle: &[
            LETS_GO,
            Step::Becomes(View::Completed(2)),
            Step::Release(0, Err(NOT_GONE)),
            Step::Call(Call::TakeDone(3, TaskId(0))),
            KEEPS_TWO,
            Step::Release(0, Ok(())),
            KEEPS_ONE,
        ],
        ..GROUP
    },
];

#[test]
fn forgets_a_plain_task_whichever_way_it_goes(rt: HostRuntime) -> Result<(), Fail> {
    forgetful_lives(&rt, rt.alloc(), &WAYS)
}
