//! Workers that sleep are woken for tasks, and no task waits for a worker that is held.

use crate::harness::boards::Signal;
use crate::harness::calls::Call;
use crate::harness::chores::Work;
use crate::harness::findings::Finding;
use crate::harness::lives::lives;
use crate::harness::scripts::{
    Answer, Cue, LIFE, LOOKS, Life, ONE_WORKER, SETTINGS, SHUTS_DOWN, Step, View,
};
use crate::harness::users::{MANNER, Manner, Stance};
use std::test::Fail;
use tp_types::configs::Config;
use tp_types::tasks::Kind;

const VARIES: Step = Step::Cue(Cue::Vary);

const ALL_DONE: Step = Step::Becomes(View::AllCompleted);

const TWO_START: Step = Step::Call(Call::StartAll(2));

// One of two tasks that wait for each other.
const MEETS: Step = Step::Hand(Kind::Plain, Work::Meet(0, 2), Answer::Accepted);

// One task after the other, each once the last one is completed.
static WOKEN: [Life; 1] = [Life {
    settings: ONE_WORKER,
    rounds: 500,
    middle: &[LOOKS, ALL_DONE, VARIES],
    last: &[SHUTS_DOWN],
    findings: &[Finding::Run(500), Finding::NoFault],
    ..LIFE
}];

#[test]
fn sleeping_worker_is_woken(rt: HostRuntime) -> Result<(), Fail> {
    lives(rt, rt.alloc(), &WOKEN)
}

// Two sleeping workers get two tasks that wait for each other, so many times.
const PAIRS: Life = Life {
    first: &[TWO_START],
    middle: &[VARIES, MEETS, MEETS, ALL_DONE],
    last: &[SHUTS_DOWN],
    ..LIFE
};

static BOTH_WOKEN: [Life; 1] = [Life {
    settings: Config {
        record_limit: 16_384,
        ..SETTINGS
    },
    rounds: 500,
    findings: &[Finding::Run(1000), Finding::NoFault, Finding::Largest(2)],
    ..PAIRS
}];

#[test]
fn two_sleeping_workers_are_woken(rt: HostRuntime) -> Result<(), Fail> {
    lives(rt, rt.alloc(), &BOTH_WOKEN)
}

// A new worker is signalled that its slot is live. That signal may be left over when the worker sleeps for the first time.
static NEW_WOKEN: [Life; 1] = [Life {
    times: 50,
    rounds: 3,
    findings: &[Finding::Run(6), Finding::NoFault, Finding::Largest(2)],
    ..PAIRS
}];

#[test]
fn new_workers_are_woken(rt: HostRuntime) -> Result<(), Fail> {
    lives(rt, rt.alloc(), &NEW_WOKEN)
}

// Two workers have passed the gate before their takes, and have had time to sleep. The gate is shut behind them.
const SHUT: Life = Life {
    manner: Manner {
        stance: Stance::Shut,
        ..MANNER
    },
    first: &[
        Step::Cue(Cue::Put(Signal::Limit, 2)),
        TWO_START,
        Step::Cue(Cue::Reaches(Signal::Passed, 2)),
        Step::Cue(Cue::Rest(5000)),
    ],
    ..LIFE
};

const OPENS: Step = Step::Cue(Cue::Put(Signal::Limit, u64::MAX));

// Two tasks that wait for each other meet all the same: a worker that is woken takes its task without passing the gate again.
static MET: [Life; 1] = [Life {
    last: &[
        MEETS,
        MEETS,
        Step::Becomes(View::Completed(2)),
        Step::Cue(Cue::Is(Signal::Passed, 2)),
        OPENS,
        SHUTS_DOWN,
    ],
    findings: &[Finding::Run(2), Finding::NoFault],
    ..SHUT
}];

#[test]
fn woken_workers_pass_no_gate(rt: HostRuntime) -> Result<(), Fail> {
    lives(rt, rt.alloc(), &MET)
}

// A worker that is held before its take looks for no task, so the other is woken for the next one. Where both are held, a task waits
// until one of them may go on.
static HELD_NOBODY: [Life; 1] = [Life {
    last: &[
        LOOKS,
        Step::Cue(Cue::Reaches(Signal::Came, 3)),
        LOOKS,
        Step::Cue(Cue::Reaches(Signal::Came, 4)),
        LOOKS,
        Step::Cue(Cue::Rest(5000)),
        Step::Is(View::Completed(2)),
        Step::Cue(Cue::Put(Signal::Limit, 3)),
        Step::Becomes(View::Completed(3)),
        OPENS,
        SHUTS_DOWN,
    ],
    findings: &[Finding::Run(3), Finding::NoFault],
    ..SHUT
}];

#[test]
fn nobody_waits_for_a_worker_at_its_gate(rt: HostRuntime) -> Result<(), Fail> {
    lives(rt, rt.alloc(), &HELD_NOBODY)
}
