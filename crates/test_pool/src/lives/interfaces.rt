//! What users write, called through its interfaces.

use crate::compare::same;
use crate::harness::boards::Board;
use crate::harness::chores::{Chore, Work};
use std::alloc::Global;
use std::process::Abort;
use std::test::Fail;
use tp_pool::factories::{Consenting, ThreadFactory};
use tp_pool::gates::{Gate, OpenGate, Point};
use tp_pool::handlers::{OneVerdict, RejectionHandler};
use tp_pool::hooks::{Hooks, NoHooks};
use tp_pool::jobs::{Boxed, Job};
use tp_pool::{Any, Body};
use tp_protocols::flags::CancelFlag;
use tp_types::configs::Verdict;
use tp_types::ids::{SlotId, TaskId};
use tp_types::refusals::PoolError;
use tp_types::states::RunState;
use tp_types::tasks::{Outcome, Promise, WIDEST};

// Calls each interface once, through its bound.
fn turn<J: Job, F: ThreadFactory, H: Hooks, P: Gate>(
    mut job: J,
    cancel: &CancelFlag,
    factory: &mut F,
    hooks: &mut H,
    gate: &P,
) -> (bool, Promise, Outcome) {
    let (w, t) = (SlotId(0), TaskId(0));
    let allowed = factory.allow(w);
    let promise = job.promise();
    gate.before(Point::Take, w);
    hooks.before(w, t);
    gate.before(Point::Body, w);
    let outcome = job.call(cancel);
    hooks.after(w, t, Some(&outcome));
    gate.before(Point::End, w);
    hooks.terminated();
    (allowed, promise, outcome)
}

// A job that looks at its flag.
fn looking(alloc: Global) -> Result<Chore, PoolError> {
    Chore::new(&Board::new(alloc)?, Work::Look)
}

// A boxed job that looks at this flag has this outcome.
fn has_a_turn(
    rt: &(impl Abort + AllocGlobal),
    flag: &CancelFlag,
    outcome: Outcome,
) -> Result<(), Fail> {
    let job: Box<dyn Job> = Box::new(rt.alloc(), looking(rt.alloc())?)?;
    let job = Boxed { job };
    let had = turn(job, flag, &mut Consenting, &mut NoHooks, &OpenGate);
    same(rt, 0, &had, &(true, WIDEST, outcome));
    Ok(())
}

#[test]
fn boxed_job_has_a_turn(rt: HostRuntime) -> Result<(), Fail> {
    let flag = CancelFlag::new(rt.alloc())?;
    has_a_turn(&rt, &flag, Ok(0))?;
    flag.set();
    has_a_turn(&rt, &flag, Ok(1))
}

// A body that names its priority.
#[derive(Drop)]
struct Urgent;

impl Body for Urgent {
    ghost urgency = { λ _. 3 };

    fn priority(&self) -> u32 {
        3
    }

    fn run(&mut self, _cancel: &CancelFlag) -> Outcome {
        Ok(0)
    }
}

fn priority_of<J: Job>(job: &J) -> u32 {
    job.priority()
}

#[test]
fn boxes_and_bodies_keep_their_priorities(rt: HostRuntime) -> Result<(), Fail> {
    let plain: Box<dyn Job> = Box::new(rt.alloc(), looking(rt.alloc())?)?;
    let urgent: Box<dyn Job> = Box::new(rt.alloc(), Any(Urgent))?;
    let found = (
        priority_of(&Any(Urgent)),
        priority_of(&Boxed { job: plain }),
        priority_of(&Boxed { job: urgent }),
    );
    same(&rt, 0, &found, &(3, 0, 3));
    Ok(())
}

fn ruled<H: RejectionHandler>(mut handler: H) -> Verdict {
    handler.verdict(TaskId(0), RunState::Shutdown)
}

const VERDICTS: [Verdict; 4] = [
    Verdict::Abort,
    Verdict::CallerRuns,
    Verdict::Discard,
    Verdict::DiscardOldest,
];

#[test]
fn one_verdict_for_all(rt: HostRuntime) {
    for (at, verdict) in VERDICTS.iter().enumerate() {
        let verdict = *verdict;
        same(&rt, at, &ruled(OneVerdict { verdict }), &verdict);
    }
}
