//! What the futures of single jobs, of many jobs and of groups answer.

use super::ONE;
use crate::harness::chores::Work;
use crate::harness::findings::Finding;
use crate::harness::lives::lives;
use crate::harness::scripts::{FIRST, Life, Many, SHUTS_DOWN, Step};
use std::test::Fail;
use tp_types::ids::TaskId;
use tp_types::refusals::PoolError;
use tp_types::tasks::Kind;

const SINGLE: [Step; 18] = [
    FIRST,
    Step::Get(0, Ok(6)),
    Step::GetUntil(0, 0, Ok(6)),
    Step::TryGet(0, Ok(Some(6))),
    Step::Submit(Kind::Future, Work::End(Err(7)), 1),
    Step::Get(1, Err(PoolError::Faulted(7))),
    Step::GetUntil(1, 0, Err(PoolError::Faulted(7))),
    Step::TryGet(1, Err(PoolError::Faulted(7))),
    Step::Submit(Kind::Plain, Work::End(Ok(1)), 2),
    Step::Get(2, Err(PoolError::NotFuture)),
    Step::GetUntil(2, 0, Err(PoolError::NotFuture)),
    Step::TryGet(2, Err(PoolError::NotFuture)),
    Step::Get(99, Err(PoolError::UnknownTask)),
    Step::GetUntil(99, 0, Err(PoolError::UnknownTask)),
    Step::TryGet(99, Err(PoolError::UnknownTask)),
    Step::Submit(Kind::Future, Work::Least, 3),
    Step::Get(3, Ok(i64::MIN)),
    SHUTS_DOWN,
];

static SINGLES: [Life; 1] = [Life {
    first: &SINGLE,
    findings: &[Finding::Submitted(4), Finding::Run(4)],
    ..ONE
}];

// A value, a fault, a plain task, and a number that no task has.
#[test]
fn future_answers_its_job(rt: HostRuntime) -> Result<(), Fail> {
    lives(rt, rt.alloc(), &SINGLES)
}

const TWO: [Work; 2] = [Work::End(Ok(1)), Work::End(Err(2))];

const FAILING: [Work; 2] = [Work::End(Err(7)), Work::End(Err(9))];

const ONE_SUCCEEDS: [Work; 2] = [Work::End(Err(7)), Work::End(Ok(3))];

const TOGETHER: [Step; 11] = [
    Step::Many(Many::All(&TWO, 0)),
    Step::TryGet(0, Ok(Some(1))),
    Step::TryGet(1, Err(PoolError::Faulted(2))),
    Step::Many(Many::All(&[], 2)),
    Step::Many(Many::AllUntil(&TWO, u64::MAX, 2)),
    Step::TryGet(2, Ok(Some(1))),
    Step::TryGet(3, Err(PoolError::Faulted(2))),
    Step::Many(Many::Any(&[], Err(PoolError::NoTasks))),
    Step::Many(Many::Any(&FAILING, Err(PoolError::AllFailed(Some(9))))),
    Step::Many(Many::Any(&ONE_SUCCEEDS, Ok(3))),
    SHUTS_DOWN,
];

static ALL_TOGETHER: [Life; 1] = [Life {
    first: &TOGETHER,
    findings: &[
        Finding::Submitted(8),
        Finding::Run(8),
        Finding::Cancelled(0),
    ],
    ..ONE
}];

#[test]
fn many_jobs_answer_together(rt: HostRuntime) -> Result<(), Fail> {
    lives(rt, rt.alloc(), &ALL_TOGETHER)
}

const GROUP: [Step; 16] = [
    Step::Poll(3, Ok(None)),
    Step::Take(3, Err(PoolError::NothingOpen)),
    Step::Submit(Kind::Group(3), Work::End(Ok(1)), 0),
    Step::Submit(Kind::Group(3), Work::End(Err(2)), 1),
    Step::Submit(Kind::Group(4), Work::End(Ok(4)), 2),
    Step::Submit(Kind::Group(3), Work::End(Ok(3)), 3),
    Step::Take(3, Ok(TaskId(0))),
    Step::Take(3, Ok(TaskId(1))),
    Step::Take(3, Ok(TaskId(3))),
    Step::Poll(3, Ok(None)),
    Step::Take(3, Err(PoolError::NothingOpen)),
    Step::Poll(4, Ok(Some(TaskId(2)))),
    Step::Poll(4, Ok(None)),
    Step::TryGet(1, Err(PoolError::Faulted(2))),
    Step::Get(3, Ok(3)),
    SHUTS_DOWN,
];

static GROUPED: [Life; 1] = [Life {
    first: &GROUP,
    findings: &[Finding::Run(4)],
    ..ONE
}];

// Three jobs of a group come in the order in which they were submitted, and then none is open.
#[test]
fn group_comes_in_order(rt: HostRuntime) -> Result<(), Fail> {
    lives(rt, rt.alloc(), &GROUPED)
}
