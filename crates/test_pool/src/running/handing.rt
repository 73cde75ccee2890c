//! Tasks that idle workers are given by hand, and idle workers that leave meanwhile.

use crate::harness::boards::Signal;
use crate::harness::chores::Work;
use crate::harness::findings::Finding;
use crate::harness::lives::lives;
use crate::harness::scripts::{Cue, Deal, LIFE, Life, SETTINGS, SHUTS_DOWN, Step, View};
use std::test::Fail;
use tp_types::configs::{Config, QueueKind};

const ROOMY: Config = Config {
    core: 0,
    queue: QueueKind::Handoff,
    record_limit: 262_144,
    ..SETTINGS
};

const GIVES: Step = Step::Deal(Deal::Give(Work::Look));

// One of two tasks that wait for each other.
const GIVES_MEETING: Step = Step::Deal(Deal::Give(Work::Meet(0, 2)));

const ALL_DONE: Step = Step::Becomes(View::AllCompleted);

// The one worker gets one task after the other, each once it is idle: all but the first by hand.
static GIVEN: [Life; 1] = [Life {
    settings: Config {
        maximum: 1,
        ..ROOMY
    },
    rounds: 500,
    middle: &[GIVES, ALL_DONE, Step::Cue(Cue::Vary)],
    last: &[SHUTS_DOWN],
    findings: &[Finding::Run(500), Finding::Largest(1), Finding::ByHand(499)],
    ..LIFE
}];

#[test]
fn idle_worker_is_given_tasks(rt: HostRuntime) -> Result<(), Fail> {
    lives(rt, rt.alloc(), &GIVEN)
}

// In each round a tick finds two workers idle beyond their keep-alive. One of them may get a task by hand before it leaves. The other
// leaves all the same.
static LEFT_BESIDE: [Life; 1] = [Life {
    settings: ROOMY,
    rounds: 20,
    middle: &[
        GIVES_MEETING,
        GIVES_MEETING,
        ALL_DONE,
        Step::Cue(Cue::Rest(5000)),
        Step::Deal(Deal::Pass(3 * SETTINGS.keep)),
        GIVES,
        ALL_DONE,
        Step::Deal(Deal::OneLeaves),
    ],
    last: &[SHUTS_DOWN],
    findings: &[Finding::Run(60), Finding::NotedSome(Signal::Telling)],
    ..LIFE
}];

#[test]
fn idle_worker_leaves_beside_one_that_is_given_a_task(rt: HostRuntime) -> Result<(), Fail> {
    lives(rt, rt.alloc(), &LEFT_BESIDE)
}
