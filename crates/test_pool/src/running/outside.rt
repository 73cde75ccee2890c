//! Callbacks are called outside the lock. Each of them waits until another thread has read the pool.

use crate::harness::boards::Signal;
use crate::harness::calls::Call;
use crate::harness::chores::Work;
use crate::harness::findings::Finding;
use crate::harness::lives::lives;
use crate::harness::scripts::{
    AWAITS_END, Answer, Cue, Deal, IS_OVER, Life, PAIR, SETTINGS, SHUTS_DOWN, Step, TELLS, WAITS,
    Yields,
};
use crate::harness::users::{MANNER, Manner, Stance};
use std::test::Fail;
use tp_types::configs::{Config, Policy, QueueKind};
use tp_types::tasks::Kind;

// The factory is asked twice and the handler once. Two tasks have two hooks each. Then there are the hook of the end, and the body of
// one job.
const CALLS: u64 = 2 + 1 + 4 + 1 + 1;

const TALKS: Manner = Manner {
    talks: true,
    ..MANNER
};

// One task runs, the handler rejects a second, a third runs beside the first, and the pool ends.
const READ: Life = Life {
    settings: Config {
        core: 0,
        maximum: 1,
        queue: QueueKind::Handoff,
        policy: Policy::Own,
        ..SETTINGS
    },
    manner: TALKS,
    first: &[
        WAITS,
        Step::Cue(Cue::Reaches(Signal::Begun, 1)),
        Step::Hand(Kind::Plain, Work::Talk, Answer::Rejected),
        Step::Call(Call::Maximum(2)),
        Step::Hand(Kind::Plain, Work::Talk, Answer::Accepted),
        TELLS,
        SHUTS_DOWN,
        AWAITS_END,
        IS_OVER,
    ],
    beside: &[&[Step::Deal(Deal::Answers)]],
    findings: &[
        Finding::Noted(Signal::Missed, 0),
        Finding::Noted(Signal::Asked, CALLS),
        Finding::Run(2),
    ],
    ..PAIR
};

static CALLBACKS: [Life; 1] = [READ];

#[test]
fn pool_is_read_while_callbacks_wait(rt: HostRuntime) -> Result<(), Fail> {
    lives(rt, rt.alloc(), &CALLBACKS)
}

// Each of the two workers passes the gate four times: at the three points of its turn, and before the take at which it leaves.
static GATES: [Life; 1] = [Life {
    manner: Manner {
        stance: Stance::Talks,
        ..TALKS
    },
    yields: Yields::Never,
    times: 1,
    findings: &[
        Finding::Noted(Signal::Missed, 0),
        Finding::Noted(Signal::Asked, CALLS + 8),
        Finding::Run(2),
    ],
    ..READ
}];

#[test]
fn pool_is_read_while_gates_wait(rt: HostRuntime) -> Result<(), Fail> {
    lives(rt, rt.alloc(), &GATES)
}
