//! Many jobs at once. A cancel that these calls ask for and that is refused is left undone: the answer of the
//! call says nothing of it.
ghost use Rattle.std.specs.Prelude.{◌≡◌, vec_len, Any, IsTrue, IfOk, IfErr, IfSome};
ghost use Rattle.tp_pool_holds.specs.declared.tasks.Payload.{Payload};
ghost use Rattle.tp_book.specs.PassView.{PassView};
ghost use Rattle.tp_pool_holds.specs.Passes.{AddsNone, LooksOnly};
ghost use Rattle.tp_service.specs.Futures.{later_fault as later_fault_of, Closes, CloseAll, HasValue, HaveFailed, IsLate, IsOverdue};
ghost use Rattle.tp_service.specs.Submitted.{AddsCancel, AddsCancels, AddsSubmissions, AreTurnedBack, HasNoValue, IsAll, IsAllUntil, IsAnyValue, IsOneLate};

use crate::futures::submit;
use crate::leaving::Leaving;
use std::alloc::Global;
use std::sync::Wait;
use std::thread::Threads;
use std::time::{Clock, Duration};
use tp_book::passes::Pass;
use tp_machine::machine::releases::Keeper;
use tp_pool::edges::Edge;
use tp_pool::jobs::Job;
use tp_pool::names::PoolNaming;
use tp_pool::pool::PoolOf;
use tp_pool::timed::Timer;
use tp_types::ids::TaskId;
use tp_types::refusals::PoolError;

// A pool without a record looks at so many abandoned tasks for each task of a call. So it forgets more than are abandoned.
const LOOKS: usize = 2;

// Has a task cancelled with its flag, where its future is open. Between the look and the cancel the task may
// end: the cancel then has no effect. A cancel that is refused is left undone. Before it looks, it has the pool forget
// abandoned tasks.
fn cancel_open<G: PoolNaming, J: Job, E: Edge, K: Leaving<G, J, E, R>, R: Wait>(
    pool: &PoolOf<G, J, E, K>,
    rt: &R,
    t: TaskId,
    pass: &mut Pass<G>,
)
    ensures { AddsCancel (Payload J) K.RECEIPTS (K.terms G.config) t pass.old pass.new }
{
    K::forget_abandoned(pool, rt, LOOKS, pass);
    if pool.result_with(rt, t, pass) != Ok(None) {
        return;
    }
    let _ = pool.cancel(rt, t, true, pass);
}

// Has each of these tasks cancelled likewise.
fn cancel_all<G: PoolNaming, J: Job, E: Edge, K: Leaving<G, J, E, R>, R: Wait>(
    pool: &PoolOf<G, J, E, K>,
    rt: &R,
    tasks: &[TaskId],
    pass: &mut Pass<G>,
)
    ensures { AddsCancels (Payload J) K.RECEIPTS (K.terms G.config) tasks.now pass.old pass.new }
{
    for t in tasks {
        cancel_open(pool, rt, *t, pass);
    }
}

// Waits until a future is not open any more.
fn await_closed<G: PoolNaming, J: Job, E: Edge, K: Keeper, R: Wait>(
    pool: &PoolOf<G, J, E, K>,
    rt: &R,
    t: TaskId,
    pass: &mut Pass<G>,
)
    ensures { Closes (Payload J) K.RECEIPTS (K.terms G.config) t pass.old pass.new }
{
    let _ = pool.await_result_with(rt, t, None, pass);
}

// Waits until none of these futures is open.
fn await_all<G: PoolNaming, J: Job, E: Edge, K: Keeper, R: Wait>(
    pool: &PoolOf<G, J, E, K>,
    rt: &R,
    tasks: &[TaskId],
    pass: &mut Pass<G>,
)
    ensures { CloseAll (Payload J) K.RECEIPTS (K.terms G.config) tasks.now pass.old pass.new }
{
    for t in tasks {
        await_closed(pool, rt, *t, pass);
    }
}

// Waits until a future is not open any more, and answers whether that comes before now has reached the
// deadline.
fn closes_by<G: PoolNaming, J: Job, E: Edge, K: Keeper, R: Wait>(
    pool: &PoolOf<G, J, E, K>,
    rt: &R,
    t: TaskId,
    deadline: u64,
    pass: &mut Pass<G>,
) -> bool
    ensures closed { IsTrue result → Closes (Payload J) K.RECEIPTS (K.terms G.config) t pass.old pass.new }
    ensures late { ¬ IsTrue result → LooksOnly (K.terms G.config) pass.old pass.new × IsLate (Payload J) (K.terms G.config) deadline pass.new t }
{
    pool.await_result_with(rt, t, Some(deadline), pass) != Err(PoolError::TimedOut)
}

// Waits until none of these futures is open, or the deadline has come for one of them.
fn all_close_by<G: PoolNaming, J: Job, E: Edge, K: Keeper, R: Wait>(
    pool: &PoolOf<G, J, E, K>,
    rt: &R,
    tasks: &[TaskId],
    deadline: u64,
    pass: &mut Pass<G>,
) -> bool
    ensures closed { IsTrue result → CloseAll (Payload J) K.RECEIPTS (K.terms G.config) tasks.now pass.old pass.new }
    ensures late { ¬ IsTrue result → IsOneLate (IsLate (Payload J) (K.terms G.config) deadline) tasks.now pass.old pass.new }
{
    for t in tasks {
        if !closes_by(pool, rt, *t, deadline, pass) {
            return false;
        }
    }
    true
}

// Waits until a future is not open any more, and answers whether that comes before the time is over.
fn closes_in<G: PoolNaming, J: Job, E: Edge, K: Keeper, R: Wait + Clock>(
    pool: &PoolOf<G, J, E, K>,
    rt: &R,
    t: TaskId,
    timer: Timer,
    pass: &mut Pass<G>,
) -> bool
    ensures closed { IsTrue result → Closes (Payload J) K.RECEIPTS (K.terms G.config) t pass.old pass.new }
    ensures late { ¬ IsTrue result → LooksOnly (K.terms G.config) pass.old pass.new × IsOverdue (Payload J) (K.terms G.config) pass.new t }
{
    let left = timer.left(rt).unwrap_or(Duration::ZERO);
    pool.await_result_for(rt, t, left, pass) != Err(PoolError::TimedOut)
}

// Waits until none of these futures is open, or the time is over.
fn all_close_in<G: PoolNaming, J: Job, E: Edge, K: Keeper, R: Wait + Clock>(
    pool: &PoolOf<G, J, E, K>,
    rt: &R,
    tasks: &[TaskId],
    timer: Timer,
    pass: &mut Pass<G>,
) -> bool
    ensures closed { IsTrue result → CloseAll (Payload J) K.RECEIPTS (K.terms G.config) tasks.now pass.old pass.new }
    ensures late { ¬ IsTrue result → IsOneLate (IsOverdue (Payload J) (K.terms G.config)) tasks.now pass.old pass.new }
{
    for t in tasks {
        if !closes_in(pool, rt, *t, timer, pass) {
            return false;
        }
    }
    true
}

// The last fault so far, once this refusal came after that one.
fn later_fault(before: Option<u32>, error: PoolError) -> Option<u32>
    ensures { result ≡ later_fault_of before error }
{
    match error {
        PoolError::Faulted(code) => Some(code),
        _ => before,
    }
}

// The answer of these futures together: the value of the first that has one; none while one is open; else
// that all failed, with the last fault in their order.
fn any_of<G: PoolNaming, J: Job, E: Edge, K: Keeper, R: Wait>(
    pool: &PoolOf<G, J, E, K>,
    rt: &R,
    tasks: &[TaskId],
    pass: &mut Pass<G>,
) -> Option<Result<i64, PoolError>>
    ensures value { IfSome result (λ r. IfOk r (λ v. Any (HasValue (Payload J) (K.terms G.config) v pass.new) tasks.now)) }
    ensures failed { IfSome result (λ r. IfErr r (λ e. HaveFailed (Payload J) K.RECEIPTS (K.terms G.config) tasks.now e pass.old pass.new)) }
    ensures looks { AddsNone pass.old pass.new }
{
    let mut open = false;
    let mut fault = None;
    for t in tasks {
        let found = pool.result_with(rt, *t, pass).transpose();
        match found {
            None => open = true,
            Some(Ok(_)) => return found,
            Some(Err(error)) => fault = later_fault(fault, error),
        }
    }
    if open {
        return None;
    }
    Some(Err(PoolError::AllFailed(fault)))
}

// Waits until one of these futures has a value, or none is open. The record's length is read before each
// look, so that no step falls unseen between a look and the sleep.
fn await_any<G: PoolNaming, J: Job, E: Edge, K: Keeper, R: Wait>(
    pool: &PoolOf<G, J, E, K>,
    rt: &R,
    tasks: &[TaskId],
    pass: &mut Pass<G>,
) -> Result<i64, PoolError>
    ensures value { IfOk result (λ v. Any (HasValue (Payload J) (K.terms G.config) v pass.new) tasks.now) }
    ensures failed { IfErr result (λ e. (mid : PassView) × AddsNone pass.old mid × HaveFailed (Payload J) K.RECEIPTS (K.terms G.config) tasks.now e mid pass.new) }
    ensures looks { AddsNone pass.old pass.new }
{
    for _ in rt.forever() {
        let seen = pool.steps(rt);
        if let Some(answer) = any_of(pool, rt, tasks, pass) {
            return answer;
        }
        pool.wait_step(rt, seen);
    }
    unreachable!()
}

// Submits jobs with futures in this order. The answer's memory is taken first. Where one is refused, the
// earlier ones are cancelled with their flags, and it and the later ones are dropped.
fn submit_all<
    G: PoolNaming + Send + Sync + 'static,
    J: Job + 'static,
    E: Edge + Send + Sync + 'static,
    K: Leaving<G, J, E, R> + Send + 'static,
    R: Threads + Wait + Copy + Send + 'static,
>(
    pool: &PoolOf<G, J, E, K>,
    rt: &R,
    alloc: Global,
    jobs: Vec<J>,
    pass: &mut Pass<G>,
) -> Result<Vec<TaskId>, PoolError>
    ensures count { IfOk result (λ tasks. vec_len tasks ≡ vec_len jobs) }
    ensures submitted { IfOk result (λ tasks. AddsSubmissions (K.terms G.config) J.promised J.urgency jobs.items tasks.items pass.old pass.new) }
    ensures refused { IfErr result (λ e. AreTurnedBack K.RECEIPTS (K.terms G.config) J.promised J.urgency jobs.items e pass.old pass.new) }
{
    let Ok(mut tasks) = Vec::with_capacity(alloc, jobs.len()) else {
        return Err(PoolError::NoMemory);
    };
    for job in jobs {
        match submit(pool, rt, job, pass) {
            Ok(t) => tasks.push_reserved(t),
            Err(refused) => {
                let earlier = tasks.as_slice();
                cancel_all(pool, rt, earlier, pass);
                K::abandon(pool, rt, earlier);
                return Err(refused.error);
            }
        }
    }
    Ok(tasks)
}

/// Submits these jobs in their order and waits until no future of theirs is open, as
/// `ExecutorService.invokeAll`. The answer has their numbers, in the same order.
///
/// NoMemory (4) for the answer, before the first job is submitted. Else the first submission that is refused
/// ends the call, with NoMemory (4), BookFull (5), Rejected (12) or TornRecord (22): the earlier jobs are
/// cancelled with their flags where they are open, and it and the later ones are dropped. A pool that keeps no record forgets
/// the earlier jobs' tasks, as `invoke_any` says; the one that was rejected is for the caller to release.
pub fn invoke_all<
    G: PoolNaming + Send + Sync + 'static,
    J: Job + 'static,
    E: Edge + Send + Sync + 'static,
    K: Leaving<G, J, E, R> + Send + 'static,
    R: Threads + Wait + Copy + Send + 'static,
>(
    pool: &PoolOf<G, J, E, K>,
    rt: &R,
    alloc: Global,
    jobs: Vec<J>,
    pass: &mut Pass<G>,
) -> Result<Vec<TaskId>, PoolError>
    ensures count { IfOk result (λ tasks. vec_len tasks ≡ vec_len jobs) }
    ensures all { IfOk result (λ tasks. IsAll K.RECEIPTS (K.terms G.config) J.promised J.urgency jobs.items tasks.items pass.old pass.new) }
    ensures refused { IfErr result (λ e. AreTurnedBack K.RECEIPTS (K.terms G.config) J.promised J.urgency jobs.items e pass.old pass.new) }
{
    let tasks = submit_all(pool, rt, alloc, jobs, pass)?;
    await_all(pool, rt, tasks.as_slice(), pass);
    Ok(tasks)
}

/// As `invoke_all`, but until now has reached this moment, in ticks, as `invokeAll` with a timeout. All jobs
/// are submitted. The tasks that are open at the deadline are cancelled with their flags, and the numbers are
/// answered. Refused as `invoke_all`.
pub fn invoke_all_until<
    G: PoolNaming + Send + Sync + 'static,
    J: Job + 'static,
    E: Edge + Send + Sync + 'static,
    K: Leaving<G, J, E, R> + Send + 'static,
    R: Threads + Wait + Copy + Send + 'static,
>(
    pool: &PoolOf<G, J, E, K>,
    rt: &R,
    alloc: Global,
    jobs: Vec<J>,
    deadline: u64,
    pass: &mut Pass<G>,
) -> Result<Vec<TaskId>, PoolError>
    ensures count { IfOk result (λ tasks. vec_len tasks ≡ vec_len jobs) }
    ensures all { IfOk result (λ tasks. IsAllUntil K.RECEIPTS (K.terms G.config) J.promised J.urgency (IsLate (Payload J) (K.terms G.config) deadline) jobs.items tasks.items pass.old pass.new) }
    ensures refused { IfErr result (λ e. AreTurnedBack K.RECEIPTS (K.terms G.config) J.promised J.urgency jobs.items e pass.old pass.new) }
{
    let tasks = submit_all(pool, rt, alloc, jobs, pass)?;
    if all_close_by(pool, rt, tasks.as_slice(), deadline, pass) {
        return Ok(tasks);
    }
    cancel_all(pool, rt, tasks.as_slice(), pass);
    Ok(tasks)
}

/// As `invoke_all`, but for at most so long by the clock, as `invokeAll` with a timeout. All jobs are submitted, and the time begins
/// before the first. The tasks that are open when it is over, or the clock can't be read, are cancelled with their flags, and the
/// numbers are answered. Refused as `invoke_all`. The call makes no tick.
pub fn invoke_all_for<
    G: PoolNaming + Send + Sync + 'static,
    J: Job + 'static,
    E: Edge + Send + Sync + 'static,
    K: Leaving<G, J, E, R> + Send + 'static,
    R: Threads + Wait + Clock + Copy + Send + 'static,
>(
    pool: &PoolOf<G, J, E, K>,
    rt: &R,
    alloc: Global,
    jobs: Vec<J>,
    most: Duration,
    pass: &mut Pass<G>,
) -> Result<Vec<TaskId>, PoolError>
    ensures count { IfOk result (λ tasks. vec_len tasks ≡ vec_len jobs) }
    ensures all { IfOk result (λ tasks. IsAllUntil K.RECEIPTS (K.terms G.config) J.promised J.urgency (IsOverdue (Payload J) (K.terms G.config)) jobs.items tasks.items pass.old pass.new) }
    ensures refused { IfErr result (λ e. AreTurnedBack K.RECEIPTS (K.terms G.config) J.promised J.urgency jobs.items e pass.old pass.new) }
{
    let timer = Timer::new(rt, most);
    let tasks = submit_all(pool, rt, alloc, jobs, pass)?;
    if all_close_in(pool, rt, tasks.as_slice(), timer, pass) {
        return Ok(tasks);
    }
    cancel_all(pool, rt, tasks.as_slice(), pass);
    Ok(tasks)
}

/// Submits these jobs in their order, waits for one that succeeds, and answers its value, as
/// `ExecutorService.invokeAny`. The other tasks are cancelled with their flags where they are open. A pool that keeps no record
/// forgets all these tasks: each once it is gone, at this call or a later one of many jobs.
///
/// NoTasks (17) of no jobs; AllFailed (18) where none succeeded, with the last fault in the order given, if
/// there was one; else a refused submission, as in `invoke_all`: NoMemory (4), BookFull (5), Rejected (12) or
/// TornRecord (22).
pub fn invoke_any<
    G: PoolNaming + Send + Sync + 'static,
    J: Job + 'static,
    E: Edge + Send + Sync + 'static,
    K: Leaving<G, J, E, R> + Send + 'static,
    R: Threads + Wait + Copy + Send + 'static,
>(
    pool: &PoolOf<G, J, E, K>,
    rt: &R,
    alloc: Global,
    jobs: Vec<J>,
    pass: &mut Pass<G>,
) -> Result<i64, PoolError>
    ensures value { IfOk result (λ v. IsAnyValue K.RECEIPTS (K.terms G.config) J.promised J.urgency jobs.items v pass.old pass.new) }
    ensures refused { IfErr result (λ e. HasNoValue K.RECEIPTS (K.terms G.config) J.promised J.urgency jobs.items e pass.old pass.new) }
{
    if jobs.is_empty() {
        return Err(PoolError::NoTasks);
    }
    let tasks = match submit_all(pool, rt, alloc, jobs, pass) {
        Ok(tasks) => tasks,
        Err(error) => return Err(error),
    };
    K::forget_abandoned(pool, rt, LOOKS.saturating_mul(tasks.len()), pass);
    let answer = await_any(pool, rt, tasks.as_slice(), pass);
    K::abandon(pool, rt, tasks.as_slice());
    if answer.is_err() {
        return answer;
    }
    cancel_all(pool, rt, tasks.as_slice(), pass);
    answer
}
