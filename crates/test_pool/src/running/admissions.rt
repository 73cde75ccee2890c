//! What becomes of submissions where pools are full or have no workers.

use crate::harness::calls::Call;
use crate::harness::chores::Work;
use crate::harness::findings::Finding;
use crate::harness::lives::lives;
use crate::harness::scripts::{
    Answer, Deal, HELD, LETS_GO, LIFE, LOOKS, Life, ONE_WORKER, SETTINGS, SHUTS_DOWN, Step, View,
};
use crate::harness::users::{MANNER, Manner};
use std::test::Fail;
use tp_record::entries::{Did, Looked, Ruled};
use tp_types::configs::{Config, Policy, QueueKind, Verdict};
use tp_types::ids::TaskId;
use tp_types::tasks::Kind;

static PRESTARTS: [Life; 1] = [Life {
    first: &[
        Step::Call(Call::StartAll(2)),
        Step::Call(Call::StartOne(false)),
        Step::Is(View::Live(2)),
        SHUTS_DOWN,
    ],
    findings: &[Finding::Largest(2)],
    ..LIFE
}];

#[test]
fn prestarts_two(rt: HostRuntime) -> Result<(), Fail> {
    lives(rt, rt.alloc(), &PRESTARTS)
}

const HELD_ONE: Manner = Manner {
    consents: 1,
    ..HELD
};

const REJECTED: Step = Step::Hand(Kind::Plain, Work::Look, Answer::Rejected);

const DISCARDED: Step = Step::Hand(Kind::Plain, Work::Look, Answer::Discarded);

const RUNS_HERE: Step = Step::Hand(Kind::Plain, Work::Look, Answer::RanHere(Ok(0)));

// A pool of one worker with no queue.
const FULL: Config = Config {
    core: 0,
    maximum: 1,
    queue: QueueKind::Handoff,
    policy: Policy::Abort,
    ..SETTINGS
};

// Its worker is held before its first body. A second task comes then, and a third one after the shutdown.
const FULL_LIFE: Life = Life {
    settings: FULL,
    manner: HELD_ONE,
    first: &[LOOKS, REJECTED, SHUTS_DOWN, REJECTED, LETS_GO],
    findings: &[Finding::Submitted(3), Finding::Run(1)],
    ..LIFE
};

// What becomes of these two under each policy.
static FULL_LIVES: [Life; 4] = [
    FULL_LIFE,
    Life {
        settings: Config {
            policy: Policy::CallerRuns,
            ..FULL
        },
        first: &[LOOKS, RUNS_HERE, SHUTS_DOWN, DISCARDED, LETS_GO],
        ..FULL_LIFE
    },
    Life {
        settings: Config {
            policy: Policy::Discard,
            ..FULL
        },
        first: &[LOOKS, DISCARDED, SHUTS_DOWN, DISCARDED, LETS_GO],
        ..FULL_LIFE
    },
    Life {
        settings: Config {
            policy: Policy::Own,
            ..FULL
        },
        ..FULL_LIFE
    },
];

#[test]
fn full_pool_asks_its_policy(rt: HostRuntime) -> Result<(), Fail> {
    lives(rt, rt.alloc(), &FULL_LIVES)
}

const ONE: Config = Config {
    keep: 0,
    ..ONE_WORKER
};

// The task is accepted into a queue that no worker serves, and is handed back.
const UNSTAFFED: Life = Life {
    settings: ONE,
    first: &[
        LOOKS,
        Step::Deal(Deal::Unstaffed(5)),
        Step::Call(Call::Stop(0, 1)),
    ],
    findings: &[Finding::Unstaffed, Finding::HandedBack(1)],
    ..LIFE
};

static REFUSED: [Life; 1] = [Life {
    manner: Manner {
        consents: 0,
        ..MANNER
    },
    ..UNSTAFFED
}];

#[test]
fn factory_that_refuses_keeps_tasks_queued(rt: HostRuntime) -> Result<(), Fail> {
    lives(rt, rt.alloc(), &REFUSED)
}

static UNMADE: [Life; 1] = [Life {
    manner: Manner {
        stack: usize::MAX,
        ..MANNER
    },
    ..UNSTAFFED
}];

#[test]
fn thread_that_cannot_be_made_is_a_worker_that_is_not(rt: HostRuntime) -> Result<(), Fail> {
    lives(rt, rt.alloc(), &UNMADE)
}

static BOUNDED: [Life; 1] = [Life {
    settings: Config {
        core: 1,
        maximum: 2,
        queue: QueueKind::Bounded(1),
        ..SETTINGS
    },
    manner: HELD_ONE,
    first: &[LOOKS, LOOKS, REJECTED, SHUTS_DOWN, LETS_GO],
    findings: &[
        Finding::Told(1, Did::Verdict(TaskId(2), Verdict::Abort, Ruled::Rejected)),
        Finding::Run(2),
        Finding::Rejected(1),
    ],
    ..LIFE
}];

#[test]
fn third_task_is_rejected(rt: HostRuntime) -> Result<(), Fail> {
    lives(rt, rt.alloc(), &BOUNDED)
}

const LATE: Step = Step::Hand(Kind::Plain, Work::Urgent(5), Answer::Accepted);

const EARLY: Step = Step::Hand(Kind::Plain, Work::Urgent(2), Answer::Accepted);

// Tasks with priorities of their own come while the one worker is held. The least is taken first, and of equals the one that came
// first.
static BY_PRIORITY: [Life; 1] = [Life {
    settings: Config {
        queue: QueueKind::Priority,
        ..ONE
    },
    manner: HELD,
    first: &[LOOKS, LATE, EARLY, LATE, SHUTS_DOWN, LETS_GO],
    findings: &[
        Finding::Told(1, Did::Submit(TaskId(1), Kind::Plain, 5, Looked::Queue)),
        Finding::Told(1, Did::Submit(TaskId(2), Kind::Plain, 2, Looked::Queue)),
        Finding::Told(1, Did::Submit(TaskId(3), Kind::Plain, 5, Looked::Queue)),
        Finding::Taken([2, 1, 3]),
        Finding::Run(4),
    ],
    ..LIFE
}];

#[test]
fn least_priority_is_taken_first(rt: HostRuntime) -> Result<(), Fail> {
    lives(rt, rt.alloc(), &BY_PRIORITY)
}
