//! The end of pools whose workers end them.

use crate::harness::boards::Signal;
use crate::harness::calls::Call;
use crate::harness::chores::Work;
use crate::harness::findings::Finding;
use crate::harness::lives::lives;
use crate::harness::scripts::{
    AWAITS_END, Answer, Cue, LIFE, LOOKS, Life, PAIR, SETTINGS, SHUTS_DOWN, Step, TELLS, View,
    WAITS, Yields,
};
use crate::harness::users::{MANNER, Manner};
use std::test::Fail;
use tp_record::entries::Did;
use tp_types::configs::Config;
use tp_types::ids::TaskId;
use tp_types::states::RunState;
use tp_types::tasks::Kind;

// The second caller waits for the end, without a limit.
const AWAITED: Life = Life {
    beside: &[&[
        Step::Cue(Cue::Put(Signal::Waits, 1)),
        AWAITS_END,
        Step::Is(View::State(RunState::Terminated)),
    ]],
    ..PAIR
};

const WAITED: Step = Step::Cue(Cue::Reaches(Signal::Waits, 1));

// A worker ends the pool and so wakes the second caller, which waits for the end. The worker's task goes on once that caller has had
// some time to fall asleep.
static ENDED_BY_A_WORKER: [Life; 1] = [Life {
    times: 50,
    first: &[
        WAITS,
        Step::Cue(Cue::Reaches(Signal::Begun, 1)),
        SHUTS_DOWN,
        WAITED,
        Step::Cue(Cue::RestLonger(20)),
        TELLS,
    ],
    findings: &[
        Finding::Noted(Signal::Ends, 1),
        Finding::Told(1, Did::Ended),
        Finding::Run(1),
    ],
    ..AWAITED
}];

#[test]
fn worker_that_ends_the_pool_wakes_who_waits(rt: HostRuntime) -> Result<(), Fail> {
    lives(rt, rt.alloc(), &ENDED_BY_A_WORKER)
}

// The queue of a pool that is shut down keeps a future for which no worker is made.
const FUTURE: Step = Step::Hand(Kind::Future, Work::Look, Answer::Accepted);

// Gives the second caller some time to fall asleep.
const RESTS: Step = Step::Cue(Cue::RestLonger(40));

const UNSTAFFED: Life = Life {
    manner: Manner {
        consents: 0,
        ..MANNER
    },
    yields: Yields::Never,
    times: 20,
    ..AWAITED
};

// There is no worker that could end the pool. The step that takes the last task out of the queue ends it, and wakes the second caller.
static EMPTIED: [Life; 2] = [
    Life {
        first: &[
            FUTURE,
            SHUTS_DOWN,
            WAITED,
            RESTS,
            Step::Call(Call::Remove(TaskId(0))),
        ],
        findings: &[
            Finding::Told(1, Did::Remove(TaskId(0), true)),
            Finding::Told(1, Did::Ended),
        ],
        ..UNSTAFFED
    },
    Life {
        first: &[
            FUTURE,
            Step::Call(Call::Cancel(TaskId(0), false, true)),
            SHUTS_DOWN,
            WAITED,
            RESTS,
            Step::Call(Call::Purge(1)),
        ],
        findings: &[
            Finding::Told(1, Did::Purge(1)),
            Finding::Cancelled(1),
            Finding::Told(1, Did::Ended),
        ],
        ..UNSTAFFED
    },
];

#[test]
fn step_that_empties_the_queue_wakes_who_waits(rt: HostRuntime) -> Result<(), Fail> {
    lives(rt, rt.alloc(), &EMPTIED)
}

const FOUR: Life = Life {
    settings: Config {
        core: 4,
        maximum: 4,
        ..SETTINGS
    },
    yields: Yields::Always,
    times: 25,
    first: &[LOOKS, LOOKS, LOOKS, LOOKS, SHUTS_DOWN],
    findings: &[Finding::Run(4), Finding::Told(1, Did::Ended)],
    ..LIFE
};

// A pool of one to four workers, with a task each, is closed as soon as it has ended. The workers' threads still end then.
static CLOSED_AT_ONCE: [Life; 4] = [
    FOUR,
    Life {
        yields: Yields::Never,
        first: &[LOOKS, LOOKS, LOOKS, SHUTS_DOWN],
        findings: &[Finding::Run(3), Finding::Told(1, Did::Ended)],
        ..FOUR
    },
    Life {
        first: &[LOOKS, LOOKS, SHUTS_DOWN],
        findings: &[Finding::Run(2), Finding::Told(1, Did::Ended)],
        ..FOUR
    },
    Life {
        yields: Yields::Never,
        first: &[LOOKS, SHUTS_DOWN],
        findings: &[Finding::Run(1), Finding::Told(1, Did::Ended)],
        ..FOUR
    },
];

#[test]
fn close_waits_for_threads_that_end(rt: HostRuntime) -> Result<(), Fail> {
    lives(rt, rt.alloc(), &CLOSED_AT_ONCE)
}
