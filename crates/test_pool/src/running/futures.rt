//! Futures that are cancelled.

use crate::harness::boards::{Hook, Signal};
use crate::harness::calls::Call;
use crate::harness::chores::Work;
use crate::harness::findings::Finding;
use crate::harness::lives::lives;
use crate::harness::scripts::{
    Answer, Cue, HELD, LETS_GO, LIFE, LOOKS, Life, ONE_WORKER, SHUTS_DOWN, Step, TELLS,
};
use std::test::Fail;
use tp_record::entries::{Did, Started};
use tp_types::ids::{SlotId, TaskId};
use tp_types::tasks::Kind;

const ONE: Life = Life {
    settings: ONE_WORKER,
    ..LIFE
};

const FUTURE: Step = Step::Hand(Kind::Future, Work::Wait, Answer::Accepted);

const FIRST: TaskId = TaskId(0);

const SECOND: TaskId = TaskId(1);

const SKIPPED: Life = Life {
    manner: HELD,
    first: &[
        LOOKS,
        FUTURE,
        Step::Call(Call::Cancel(SECOND, true, true)),
        Step::Call(Call::Cancel(SECOND, true, false)),
        LETS_GO,
        SHUTS_DOWN,
    ],
    findings: &[
        Finding::Told(1, Did::Begin(SlotId(0), Started::Skip(SECOND))),
        Finding::Noted(Signal::Begun, 0),
        Finding::Run(1),
        Finding::Cancelled(1),
        Finding::Completed(2),
        Finding::Noted(Signal::Hooked(Hook::Before, FIRST), 1),
        Finding::Noted(Signal::Hooked(Hook::Before, SECOND), 1),
        Finding::Noted(Signal::Hooked(Hook::Ran, FIRST), 1),
        Finding::Noted(Signal::Hooked(Hook::Ran, SECOND), 0),
        Finding::Noted(Signal::Hooked(Hook::Skipped, FIRST), 0),
        Finding::Noted(Signal::Hooked(Hook::Skipped, SECOND), 1),
        Finding::Noted(Signal::Ends, 1),
    ],
    ..ONE
};

// A future is queued behind a task that is held, and is cancelled, with its flag or without it. It is skipped, with both hooks and no
// body.
static ALL_SKIPPED: [Life; 2] = [
    SKIPPED,
    Life {
        first: &[
            LOOKS,
            FUTURE,
            Step::Call(Call::Cancel(SECOND, false, true)),
            Step::Call(Call::Cancel(SECOND, false, false)),
            LETS_GO,
            SHUTS_DOWN,
        ],
        ..SKIPPED
    },
];

#[test]
fn cancelled_future_is_skipped(rt: HostRuntime) -> Result<(), Fail> {
    lives(rt, rt.alloc(), &ALL_SKIPPED)
}

const RUNS: Step = Step::Cue(Cue::Reaches(Signal::Begun, 1));

// A future that runs is cancelled. It finds its flag set where the cancel asks for that, and else not.
static FLAGGED: [Life; 2] = [
    Life {
        first: &[
            FUTURE,
            RUNS,
            Step::Call(Call::Cancel(FIRST, true, true)),
            TELLS,
            SHUTS_DOWN,
        ],
        findings: &[
            Finding::Ended(0, Ok(1)),
            Finding::Run(0),
            Finding::Cancelled(1),
            Finding::Completed(1),
            Finding::Noted(Signal::Hooked(Hook::Ran, FIRST), 1),
        ],
        ..ONE
    },
    Life {
        first: &[
            FUTURE,
            RUNS,
            Step::Call(Call::Cancel(FIRST, false, true)),
            TELLS,
            SHUTS_DOWN,
        ],
        findings: &[
            Finding::Ended(0, Ok(0)),
            Finding::Run(0),
            Finding::Cancelled(1),
            Finding::Completed(1),
            Finding::Noted(Signal::Hooked(Hook::Ran, FIRST), 1),
        ],
        ..ONE
    },
];

#[test]
fn future_that_runs_sees_the_flag_of_a_cancel(rt: HostRuntime) -> Result<(), Fail> {
    lives(rt, rt.alloc(), &FLAGGED)
}
