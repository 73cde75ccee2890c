//! Waits of a second caller, which the first one's calls end; and waits by the clock.

use super::HELD_ONE;
use crate::harness::boards::Signal;
use crate::harness::calls::Call;
use crate::harness::chores::Work;
use crate::harness::findings::Finding;
use crate::harness::lives::lives;
use crate::harness::scripts::{
    CAME, Cue, FIRST, LETS_GO, Life, Many, ONE_WORKER, SHUTS_DOWN, Step, TELLS, View,
};
use std::test::Fail;
use tp_types::configs::{Config, Policy, QueueKind};
use tp_types::ids::TaskId;
use tp_types::refusals::PoolError;
use tp_types::tasks::{Fate, Kind};

// Two callers of a pool whose worker is held.
const HELD_PAIR: Life = Life {
    callers: 2,
    ..HELD_ONE
};

const GROUP: Kind = Kind::Group(3);

const ONE_JOB: [Work; 1] = [Work::End(Ok(8))];

const READY: Step = Step::Cue(Cue::Put(Signal::Ready, 1));

// The second caller is about to wait.
const IT_WAITS: Step = Step::Cue(Cue::Reaches(Signal::Waits, 1));

// How long the second caller has to fall asleep.
const A_WHILE: Step = Step::Cue(Cue::Rest(2_000));

// The second caller has done what it does.
const IT_IS_OVER: Step = Step::Cue(Cue::Reaches(Signal::Told, 1));

// The second caller's lines before its wait, and after it.
const WAITS: [Step; 2] = [
    Step::Cue(Cue::Reaches(Signal::Ready, 1)),
    Step::Cue(Cue::Put(Signal::Waits, 1)),
];

const OVER: [Step; 1] = [TELLS];

// The queue has one place; where that is taken, its oldest task is dropped. Task 0 is held, and goes on at last.
const LEFT: Life = Life {
    settings: Config {
        queue: QueueKind::Bounded(1),
        policy: Policy::DiscardOldest,
        ..ONE_WORKER
    },
    last: &[LETS_GO, SHUTS_DOWN],
    ..HELD_PAIR
};

// The first caller queues task 1 itself, or the second one does.
const SINGLE: Life = Life {
    first: &[FIRST, CAME, Step::Submit(GROUP, Work::Look, 1), READY],
    ..LEFT
};

const MANY: Life = Life {
    first: &[FIRST, CAME, READY],
    ..LEFT
};

// After a while task 1 leaves the queue, in one of three ways.
const REMOVED: [Step; 4] = [
    IT_WAITS,
    Step::Becomes(View::Queued(1)),
    A_WHILE,
    Step::Call(Call::Remove(TaskId(1))),
];

const DRAINED: [Step; 4] = [
    IT_WAITS,
    Step::Becomes(View::Queued(1)),
    A_WHILE,
    Step::Call(Call::Stop(1, 2)),
];

const DISCARDED: [Step; 4] = [
    IT_WAITS,
    Step::Becomes(View::Queued(1)),
    A_WHILE,
    Step::Submit(Kind::Future, Work::Look, 2),
];

// The second caller finds it lost.
const LOST_REMOVED: [Step; 1] = [Step::Get(1, Err(PoolError::Lost(Fate::Removed)))];

const LOST_DRAINED: [Step; 1] = [Step::Get(1, Err(PoolError::Lost(Fate::HandedBack)))];

const LOST_DISCARDED: [Step; 1] = [Step::Get(1, Err(PoolError::Lost(Fate::Discarded)))];

static LOST_TO_A_GET: [Life; 3] = [
    Life {
        middle: &REMOVED,
        beside: &[&WAITS, &LOST_REMOVED],
        ..SINGLE
    },
    Life {
        middle: &DRAINED,
        beside: &[&WAITS, &LOST_DRAINED],
        ..SINGLE
    },
    Life {
        middle: &DISCARDED,
        beside: &[&WAITS, &LOST_DISCARDED],
        ..SINGLE
    },
];

#[test]
fn lost_future_ends_a_get(rt: HostRuntime) -> Result<(), Fail> {
    lives(rt, rt.alloc(), &LOST_TO_A_GET)
}

// Task 0 is held. A wait by the clock ends, and no step is made. Then the task goes on, and the pool ends.
static CLOCKED: [Life; 2] = [
    Life {
        first: &[
            FIRST,
            CAME,
            Step::Is(View::Steps(4)),
            Step::GetFor(0, 20_000, Err(PoolError::TimedOut)),
            Step::GetFor(0, 0, Err(PoolError::TimedOut)),
            SHUTS_DOWN,
            Step::EndFor(20_000, Err(PoolError::TimedOut)),
            Step::Is(View::Steps(5)),
            LETS_GO,
            Step::GetFor(0, 60_000_000, Ok(6)),
            Step::EndFor(60_000_000, Ok(())),
        ],
        // A wait for what is known answers at once.
        last: &[
            Step::GetFor(0, 0, Ok(6)),
            Step::GetFor(9, 0, Err(PoolError::UnknownTask)),
        ],
        findings: &[Finding::Submitted(1), Finding::Run(1)],
        ..HELD_ONE
    },
    // The same for a group, and for many jobs: the one behind task 0 is cancelled, and a later one runs.
    Life {
        first: &[
            Step::Submit(GROUP, Work::End(Ok(6)), 0),
            CAME,
            Step::TakeFor(3, 20_000, Err(PoolError::TimedOut)),
            Step::TakeFor(4, 20_000, Err(PoolError::NothingOpen)),
            Step::Is(View::Steps(4)),
            Step::Many(Many::AllFor(&ONE_JOB, 20_000, 1)),
            LETS_GO,
            Step::TakeFor(3, 60_000_000, Ok(TaskId(0))),
            Step::Many(Many::AllFor(&ONE_JOB, 60_000_000, 2)),
            SHUTS_DOWN,
        ],
        findings: &[
            Finding::Submitted(3),
            Finding::Run(2),
            Finding::Cancelled(1),
        ],
        ..HELD_ONE
    },
];

#[test]
fn waits_by_the_clock_end(rt: HostRuntime) -> Result<(), Fail> {
    lives(rt, rt.alloc(), &CLOCKED)
}

const TAKES: [Step; 1] = [Step::Take(3, Err(PoolError::NothingOpen))];

static LOST_TO_A_TAKE: [Life; 3] = [
    Life {
        middle: &REMOVED,
        beside: &[&WAITS, &TAKES],
        ..SINGLE
    },
    Life {
        middle: &DRAINED,
        beside: &[&WAITS, &TAKES],
        ..SINGLE
    },
    Life {
        middle: &DISCARDED,
        beside: &[&WAITS, &TAKES],
        ..SINGLE
    },
];

#[test]
fn lost_task_ends_a_take(rt: HostRuntime) -> Result<(), Fail> {
    lives(rt, rt.alloc(), &LOST_TO_A_TAKE)
}

const INVOKES_ALL: [Step; 1] = [Step::Many(Many::All(&ONE_JOB, 1))];

static LOST_TO_ALL: [Life; 3] = [
    Life {
        middle: &REMOVED,
        beside: &[&WAITS, &INVOKES_ALL, &LOST_REMOVED],
        ..MANY
    },
    Life {
        middle: &DRAINED,
        beside: &[&WAITS, &INVOKES_ALL, &LOST_DRAINED],
        ..MANY
    },
    Life {
        middle: &DISCARDED,
        beside: &[&WAITS, &INVOKES_ALL, &LOST_DISCARDED],
        ..MANY
    },
];

#[test]
fn lost_task_ends_an_invocation_of_all(rt: HostRuntime) -> Result<(), Fail> {
    lives(rt, rt.alloc(), &LOST_TO_ALL)
}

const INVOKES_ANY: [Step; 1] = [Step::Many(Many::Any(&ONE_JOB, Err(PoolError::AllFailed(None))))];

static LOST_TO_ANY: [Life; 3] = [
    Life {
        middle: &REMOVED,
        beside: &[&WAITS, &INVOKES_ANY],
        ..MANY
    },
    Life {
        middle: &DRAINED,
        beside: &[&WAITS, &INVOKES_ANY],
        ..MANY
    },
    Life {
        middle: &DISCARDED,
        beside: &[&WAITS, &INVOKES_ANY],
        ..MANY
    },
];

#[test]
fn lost_task_ends_an_invocation_of_any(rt: HostRuntime) -> Result<(), Fail> {
    lives(rt, rt.alloc(), &LOST_TO_ANY)
}

// Task 0 is held while the second caller falls asleep, and then ends.
const ENDS: Life = Life {
    first: &[
        Step::Submit(GROUP, Work::End(Ok(6)), 0),
        CAME,
        READY,
        IT_WAITS,
        A_WHILE,
        LETS_GO,
        IT_IS_OVER,
        SHUTS_DOWN,
    ],
    findings: &[Finding::Cancelled(0)],
    ..HELD_PAIR
};

static ENDED: [Life; 7] = [
    Life {
        beside: &[&WAITS, &[Step::Get(0, Ok(6))], &OVER],
        ..ENDS
    },
    Life {
        beside: &[&WAITS, &[Step::GetUntil(0, 9, Ok(6))], &OVER],
        ..ENDS
    },
    Life {
        beside: &[&WAITS, &[Step::Take(3, Ok(TaskId(0)))], &OVER],
        ..ENDS
    },
    Life {
        beside: &[&WAITS, &[Step::Many(Many::All(&ONE_JOB, 1))], &OVER],
        ..ENDS
    },
    Life {
        beside: &[&WAITS, &[Step::Many(Many::AllUntil(&ONE_JOB, 9, 1))], &OVER],
        ..ENDS
    },
    Life {
        beside: &[&WAITS, &[Step::Many(Many::Any(&ONE_JOB, Ok(8)))], &OVER],
        ..ENDS
    },
    Life {
        beside: &[&WAITS, &[Step::Call(Call::WaitStep(4, 5))], &OVER],
        ..ENDS
    },
];

#[test]
fn end_of_a_task_ends_waits(rt: HostRuntime) -> Result<(), Fail> {
    lives(rt, rt.alloc(), &ENDED)
}

static STEPPED: [Life; 1] = [Life {
    first: &[
        Step::Submit(Kind::Future, Work::Look, 0),
        CAME,
        Step::Is(View::Steps(4)),
        Step::Call(Call::WaitStep(3, 4)),
        Step::Call(Call::WaitStep(0, 4)),
        READY,
        IT_WAITS,
        A_WHILE,
        Step::Call(Call::Tick(1)),
        IT_IS_OVER,
        LETS_GO,
        SHUTS_DOWN,
    ],
    beside: &[
        &WAITS,
        &[Step::Call(Call::WaitStep(4, 5)), Step::Is(View::Steps(5))],
        &OVER,
    ],
    findings: &[Finding::Run(1)],
    ..HELD_PAIR
}];

// While the first task is held, the record has four entries: `submit`, `open`, `take` and `begin`. A wait for the fourth ends at once,
// and one for the fifth with the next step.
#[test]
fn step_ends_a_wait_for_it(rt: HostRuntime) -> Result<(), Fail> {
    lives(rt, rt.alloc(), &STEPPED)
}

const TICKS: Life = Life {
    first: &[
        Step::Submit(Kind::Future, Work::Look, 0),
        CAME,
        READY,
        IT_WAITS,
        A_WHILE,
        Step::Call(Call::Tick(4)),
        A_WHILE,
        Step::Call(Call::Tick(5)),
        IT_IS_OVER,
        LETS_GO,
        SHUTS_DOWN,
    ],
    ..HELD_PAIR
};

static TICKED: [Life; 2] = [
    Life {
        beside: &[
            &WAITS,
            &[Step::GetUntil(0, 5, Err(PoolError::TimedOut))],
            &OVER,
        ],
        findings: &[Finding::Run(1), Finding::Cancelled(0)],
        ..TICKS
    },
    Life {
        beside: &[&WAITS, &[Step::Many(Many::AllUntil(&ONE_JOB, 5, 1))], &OVER],
        findings: &[Finding::Run(1), Finding::Cancelled(1)],
        ..TICKS
    },
];

// A tick ends the wait for one future whose deadline it reaches, and the wait for many: the job that is open then is cancelled.
#[test]
fn tick_ends_waits(rt: HostRuntime) -> Result<(), Fail> {
    lives(rt, rt.alloc(), &TICKED)
}
