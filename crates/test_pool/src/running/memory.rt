//! Submissions and starts of workers, with ample memory and where one allocation fails.

use crate::harness::calls::Call;
use crate::harness::findings::Finding;
use crate::harness::lives::lives_again;
use crate::harness::scripts::{Deal, LIFE, Life, SETTINGS, SHUTS_DOWN, Step, View, Yields};
use std::test::Fail;
use tp_types::configs::Config;

const TASK: Step = Step::Deal(Deal::InsistsTask(5));

const OTHER: Step = Step::Deal(Deal::InsistsTask(6));

// Waits until workers change nothing any more.
const ALL_DONE: Step = Step::Becomes(View::AllCompleted);

const ONE_MORE: Step = Step::Deal(Deal::Insists(Call::StartOne(true), Ok(true)));

const THREE_CORE: Step = Step::Deal(Deal::Insists(Call::Core(3), Ok(true)));

// With ample memory each call succeeds. Where any one allocation of a call fails, it answers 4, with the job and with nothing changed;
// or its step `fail` says that a worker was not made.
static BOTH_RAN: Life = Life {
    settings: Config {
        core: 3,
        maximum: 3,
        ..SETTINGS
    },
    yields: Yields::Never,
    first: &[
        TASK,
        ALL_DONE,
        OTHER,
        ALL_DONE,
        ONE_MORE,
        THREE_CORE,
        Step::Call(Call::Maximum(3)),
        SHUTS_DOWN,
    ],
    findings: &[Finding::Submitted(2), Finding::Run(2)],
    ..LIFE
};

#[test]
fn ample_memory_succeeds(rt: HostRuntime) -> Result<(), Fail> {
    lives_again(rt, rt.alloc(), &BOTH_RAN)
}

// The same of starts of workers.
static ONE_RAN: Life = Life {
    settings: Config {
        core: 1,
        maximum: 3,
        ..SETTINGS
    },
    yields: Yields::Never,
    first: &[
        ONE_MORE,
        THREE_CORE,
        Step::Deal(Deal::Insists(Call::StartAll(2), Ok(true))),
        Step::Is(View::Live(3)),
        TASK,
        SHUTS_DOWN,
    ],
    findings: &[Finding::Run(1), Finding::Largest(3)],
    ..LIFE
};

#[test]
fn want_of_memory_makes_no_worker(rt: HostRuntime) -> Result<(), Fail> {
    lives_again(rt, rt.alloc(), &ONE_RAN)
}
