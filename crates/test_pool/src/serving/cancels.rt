//! Futures that are open, and what becomes of those that are cancelled, removed or handed back.

use super::{HELD_ONE, ONE};
use crate::harness::boards::{Hook, Signal};
use crate::harness::calls::Call;
use crate::harness::chores::Work;
use crate::harness::findings::Finding;
use crate::harness::lives::lives;
use crate::harness::scripts::{CAME, Cue, FIRST, LETS_GO, Life, Many, SHUTS_DOWN, Step, TELLS};
use std::test::Fail;
use tp_types::ids::TaskId;
use tp_types::refusals::PoolError;
use tp_types::tasks::{Fate, Kind};

const CANCELLED: PoolError = PoolError::CancelledTask;

// Job 0 is held, and those behind it are cancelled; one of them by a call whose deadline has come. The worker that takes them later
// calls both hooks for each, and no body.
const OPEN: [Step; 18] = [
    FIRST,
    Step::TryGet(0, Ok(None)),
    Step::GetUntil(0, 0, Err(PoolError::TimedOut)),
    Step::Submit(Kind::Future, Work::Look, 1),
    Step::Call(Call::Cancel(TaskId(1), false, true)),
    Step::Call(Call::Cancel(TaskId(1), true, false)),
    Step::Get(1, Err(CANCELLED)),
    Step::GetUntil(1, 0, Err(CANCELLED)),
    Step::TryGet(1, Err(CANCELLED)),
    Step::Many(Many::AllUntil(&[Work::End(Ok(1))], 0, 2)),
    Step::Get(2, Err(CANCELLED)),
    Step::Submit(Kind::Group(3), Work::Look, 3),
    Step::Poll(3, Ok(None)),
    Step::Call(Call::Cancel(TaskId(3), true, true)),
    Step::Take(3, Ok(TaskId(3))),
    LETS_GO,
    Step::Get(0, Ok(6)),
    SHUTS_DOWN,
];

const HOOKED: [Finding; 14] = [
    Finding::Run(1),
    Finding::Cancelled(3),
    Finding::Noted(Signal::Hooked(Hook::Before, TaskId(0)), 1),
    Finding::Noted(Signal::Hooked(Hook::Ran, TaskId(0)), 1),
    Finding::Noted(Signal::Hooked(Hook::Skipped, TaskId(0)), 0),
    Finding::Noted(Signal::Hooked(Hook::Before, TaskId(1)), 1),
    Finding::Noted(Signal::Hooked(Hook::Ran, TaskId(1)), 0),
    Finding::Noted(Signal::Hooked(Hook::Skipped, TaskId(1)), 1),
    Finding::Noted(Signal::Hooked(Hook::Before, TaskId(2)), 1),
    Finding::Noted(Signal::Hooked(Hook::Ran, TaskId(2)), 0),
    Finding::Noted(Signal::Hooked(Hook::Skipped, TaskId(2)), 1),
    Finding::Noted(Signal::Hooked(Hook::Before, TaskId(3)), 1),
    Finding::Noted(Signal::Hooked(Hook::Ran, TaskId(3)), 0),
    Finding::Noted(Signal::Hooked(Hook::Skipped, TaskId(3)), 1),
];

static CANCELLED_ONES: [Life; 1] = [Life {
    first: &OPEN,
    findings: &HOOKED,
    ..HELD_ONE
}];

#[test]
fn open_futures_are_cancelled(rt: HostRuntime) -> Result<(), Fail> {
    lives(rt, rt.alloc(), &CANCELLED_ONES)
}

const LEFT: [Step; 13] = [
    FIRST,
    Step::Submit(Kind::Future, Work::Look, 1),
    Step::Submit(Kind::Future, Work::Look, 2),
    Step::Call(Call::Remove(TaskId(1))),
    Step::Get(1, Err(PoolError::Lost(Fate::Removed))),
    Step::TryGet(1, Err(PoolError::Lost(Fate::Removed))),
    Step::Call(Call::Cancel(TaskId(1), true, false)),
    CAME,
    Step::Call(Call::Stop(2, 3)),
    Step::Get(2, Err(PoolError::Lost(Fate::HandedBack))),
    Step::GetUntil(2, 0, Err(PoolError::Lost(Fate::HandedBack))),
    LETS_GO,
    Step::Get(0, Ok(6)),
];

static LOST: [Life; 1] = [Life {
    first: &LEFT,
    findings: &[Finding::Run(1)],
    ..HELD_ONE
}];

// One task is removed, and the other handed back.
#[test]
fn tasks_that_leave_are_lost(rt: HostRuntime) -> Result<(), Fail> {
    lives(rt, rt.alloc(), &LOST)
}

// A job is held before its body, and its future is cancelled.
const CANCELS: Life = Life {
    first: &[Step::Submit(Kind::Future, Work::Look, 0), CAME],
    last: &[Step::Get(0, Err(CANCELLED)), LETS_GO, SHUTS_DOWN],
    ..HELD_ONE
};

static FLAGGED: [Life; 2] = [
    Life {
        middle: &[Step::Call(Call::Cancel(TaskId(0), true, true))],
        findings: &[Finding::Ended(0, Ok(1)), Finding::Cancelled(1)],
        ..CANCELS
    },
    Life {
        middle: &[Step::Call(Call::Cancel(TaskId(0), false, true))],
        findings: &[Finding::Ended(0, Ok(0)), Finding::Cancelled(1)],
        ..CANCELS
    },
];

// The job finds its flag set where the cancel asks for that, and else not.
#[test]
fn held_job_finds_its_flag(rt: HostRuntime) -> Result<(), Fail> {
    lives(rt, rt.alloc(), &FLAGGED)
}

const UNLOOKING: [Step; 6] = [
    Step::Submit(Kind::Future, Work::WaitBlind, 0),
    Step::Cue(Cue::Reaches(Signal::Begun, 1)),
    Step::Call(Call::Cancel(TaskId(0), true, true)),
    Step::Get(0, Err(CANCELLED)),
    TELLS,
    SHUTS_DOWN,
];

static ENDED_UNLOOKING: [Life; 1] = [Life {
    first: &UNLOOKING,
    findings: &[
        Finding::Ended(0, Ok(5)),
        Finding::Cancelled(1),
        Finding::Noted(Signal::Hooked(Hook::Ran, TaskId(0)), 1),
        Finding::Noted(Signal::Hooked(Hook::Ran, TaskId(1)), 0),
    ],
    ..ONE
}];

// The job's future is cancelled, and the job still ends.
#[test]
fn job_that_never_looks_still_ends(rt: HostRuntime) -> Result<(), Fail> {
    lives(rt, rt.alloc(), &ENDED_UNLOOKING)
}

const REST: [Step; 5] = [
    Step::Many(Many::Any(&[Work::End(Ok(3)), Work::WaitBlind], Ok(3))),
    Step::Get(0, Ok(3)),
    Step::Get(1, Err(CANCELLED)),
    TELLS,
    SHUTS_DOWN,
];

static REST_CANCELLED: [Life; 1] = [Life {
    first: &REST,
    findings: &[Finding::Run(1), Finding::Cancelled(1)],
    ..ONE
}];

// One job succeeds. The other is open then, and is cancelled.
#[test]
fn rest_is_cancelled_where_one_succeeds(rt: HostRuntime) -> Result<(), Fail> {
    lives(rt, rt.alloc(), &REST_CANCELLED)
}
