//! What becomes of workers whose plain tasks fault.

use crate::compare::same;
use crate::harness::boards::Board;
use crate::harness::calls::Call;
use crate::harness::chores::{Work, chores};
use crate::harness::findings::Finding;
use crate::harness::lives::lives;
use crate::harness::scripts::{
    Answer, LIFE, LOOKS, Life, ONE_WORKER, SETTINGS, SHUTS_DOWN, Step, View,
};
use crate::harness::users::{MANNER, Manner};
use std::test::Fail;
use tp_pool::defaults::Defaults;
use tp_pool::{faulted, run_all};
use tp_types::tasks::Kind;

const FAULTS: Step = Step::Hand(Kind::Plain, Work::End(Err(7)), Answer::Accepted);

// One worker, three tasks that fault, and a good one.
const FOUR: Life = Life {
    settings: ONE_WORKER,
    first: &[FAULTS, FAULTS, FAULTS, LOOKS],
    ..LIFE
};

const REPLACED: Life = Life {
    last: &[SHUTS_DOWN],
    findings: &[
        Finding::Ended(0, Err(7)),
        Finding::Ended(1, Err(7)),
        Finding::Ended(2, Err(7)),
        Finding::Ended(3, Ok(0)),
        Finding::Replaced(3),
        Finding::Submitted(4),
        Finding::Run(4),
        Finding::Largest(1),
    ],
    ..FOUR
};

// Each worker that faults has another made in its place, until all tasks have run. The pool is shut down before that or after it.
static ALL_REPLACED: [Life; 2] = [
    REPLACED,
    Life {
        last: &[
            Step::Becomes(View::Completed(4)),
            Step::Is(View::Live(1)),
            SHUTS_DOWN,
        ],
        ..REPLACED
    },
];

#[test]
fn worker_that_faults_is_replaced(rt: HostRuntime) -> Result<(), Fail> {
    lives(rt, rt.alloc(), &ALL_REPLACED)
}

// The one worker faults, and none is made in its place. The tasks that are left are handed back.
static UNREPLACED: [Life; 1] = [Life {
    manner: Manner {
        consents: 1,
        ..MANNER
    },
    last: &[Step::Becomes(View::Live(0)), Step::Call(Call::Stop(1, 4))],
    findings: &[
        Finding::Ended(0, Err(7)),
        Finding::Unreplaced(1),
        Finding::Run(1),
        Finding::HandedBack(3),
    ],
    ..FOUR
}];

#[test]
fn worker_that_is_not_replaced_leaves_its_tasks(rt: HostRuntime) -> Result<(), Fail> {
    lives(rt, rt.alloc(), &UNREPLACED)
}

// Two of these jobs fault.
const FOUR_JOBS: [Work; 4] = [
    Work::End(Err(0)),
    Work::End(Ok(1)),
    Work::Look,
    Work::End(Err(u32::MAX)),
];

#[test]
fn faulted_counts_jobs_that_fault(rt: HostRuntime) -> Result<(), Fail> {
    let board = Board::new(rt.alloc())?;
    let jobs = chores(rt.alloc(), &board, &FOUR_JOBS)?;
    let (_, report) = run_all(&rt, rt.alloc(), SETTINGS, Defaults, jobs)?;
    same(&rt, 0, &faulted(&report), &2);
    Ok(())
}
