//! Jobs that hear of a stop or of a cancel: in a worker's slot, and at their submitter.

use crate::harness::boards::Signal;
use crate::harness::calls::Call;
use crate::harness::chores::Work;
use crate::harness::findings::Finding;
use crate::harness::lives::lives;
use crate::harness::scripts::{
    Answer, Cue, HELD, IS_OVER, LETS_GO, LIFE, LOOKS, Life, PAIR, SETTINGS, SHUTS_DOWN, Step, TELLS,
};
use crate::harness::users::{MANNER, Manner, Stance};
use std::test::Fail;
use tp_record::entries::Did;
use tp_types::configs::{Config, Policy, QueueKind};
use tp_types::ids::TaskId;
use tp_types::tasks::Kind;

const SHUT: Life = Life {
    manner: Manner {
        stance: Stance::Shut,
        ..MANNER
    },
    ..LIFE
};

const STOPS: Step = Step::Call(Call::Stop(0, 0));

// A stop sets the flag of each job that has a slot: one that is held before its body, and one whose worker is held before its first
// take.
static FLAGGED: [Life; 2] = [
    Life {
        first: &[LOOKS, STOPS, LETS_GO],
        findings: &[Finding::Ended(0, Ok(1)), Finding::Run(1)],
        manner: HELD,
        ..LIFE
    },
    Life {
        first: &[
            LOOKS,
            Step::Cue(Cue::Reaches(Signal::Came, 1)),
            STOPS,
            Step::Cue(Cue::Put(Signal::Limit, u64::MAX)),
        ],
        findings: &[Finding::Ended(0, Ok(1)), Finding::Run(1)],
        ..SHUT
    },
];

#[test]
fn stopped_job_sees_its_flag(rt: HostRuntime) -> Result<(), Fail> {
    lives(rt, rt.alloc(), &FLAGGED)
}

// The one worker is held, so the submitter of a second task runs that one itself.
const AT_SUBMITTER: Life = Life {
    settings: Config {
        core: 0,
        maximum: 1,
        queue: QueueKind::Handoff,
        policy: Policy::CallerRuns,
        ..SETTINGS
    },
    manner: HELD,
    ..PAIR
};

// A stop reaches the task in the worker's slot. It does not reach the one that the submitter runs meanwhile.
static SPARED: [Life; 1] = [Life {
    first: &[
        LOOKS,
        Step::Hand(Kind::Plain, Work::Wait, Answer::RanHere(Ok(0))),
        Step::Cue(Cue::Reaches(Signal::Over, 1)),
        LETS_GO,
    ],
    beside: &[&[
        Step::Cue(Cue::Reaches(Signal::Begun, 1)),
        STOPS,
        TELLS,
        IS_OVER,
    ]],
    findings: &[
        Finding::Ended(0, Ok(1)),
        Finding::Told(1, Did::CallerEnd(TaskId(1), Ok(0))),
        Finding::Run(1),
        Finding::Caller(1),
    ],
    ..AT_SUBMITTER
}];

#[test]
fn stop_spares_the_submitters_own_run(rt: HostRuntime) -> Result<(), Fail> {
    lives(rt, rt.alloc(), &SPARED)
}

// A future that its submitter runs finds its flag set once it is cancelled with the flag.
static REACHED: [Life; 1] = [Life {
    first: &[
        LOOKS,
        Step::Hand(Kind::Future, Work::Wait, Answer::RanHere(Ok(1))),
        Step::Cue(Cue::Reaches(Signal::Over, 1)),
        LETS_GO,
        SHUTS_DOWN,
    ],
    beside: &[&[
        Step::Cue(Cue::Reaches(Signal::Begun, 1)),
        Step::Call(Call::Cancel(TaskId(1), true, true)),
        TELLS,
        IS_OVER,
    ]],
    findings: &[
        Finding::Ended(0, Ok(0)),
        Finding::Told(1, Did::CallerEnd(TaskId(1), Ok(1))),
        Finding::Run(1),
        Finding::Caller(0),
        Finding::Cancelled(1),
    ],
    ..AT_SUBMITTER
}];

#[test]
fn cancel_reaches_the_submitters_own_run(rt: HostRuntime) -> Result<(), Fail> {
    lives(rt, rt.alloc(), &REACHED)
}
