//! What callers ask of a pool, as lines of a table. None of these functions says a clause, since nobody reads it.

use crate::harness::chores::Chore;
use crate::harness::users::Users;
use std::sync::Wait;
use tp_book::passes::Pass;
use tp_machine::machine::releases::Keeper;
use tp_pool::answers::{Drained, Removal};
use tp_pool::callers::{PoolName, Runtime};
use tp_pool::pool::PoolOf;
use tp_record::recorders::Full;
use tp_types::ids::TaskId;
use tp_types::refusals::PoolError;
use tp_types::states::RunState;

/// A test's pool.
pub type Tested<G, K = Full> = PoolOf<G, Chore, Users, K>;

/// A call, with what it says where it is not refused.
#[derive(Clone, Copy)]
pub enum Call {
    Core(u32),
    Maximum(u32),
    Keep(u64),
    CoreTimeout(bool),
    Tick(u64),
    /// How many workers are started, or whether one is.
    StartAll(u32),
    StartOne(bool),
    /// How many cancelled tasks leave the queue.
    Purge(u32),
    /// The task leaves the queue, and comes back with its job.
    Remove(TaskId),
    /// With or without the flag, and whether the task could be cancelled.
    Cancel(TaskId, bool, bool),
    Shutdown,
    /// The tasks from one number to below another are handed back, with their jobs.
    Stop(u32, u32),
    Await(u64),
    /// A done task of this group, which is this one.
    TakeDone(u32, TaskId),
    AwaitDone(u32),
    Fate(TaskId),
    Result(TaskId),
    AwaitResult(TaskId, u64),
    /// Waits until the pool has made more steps than the first number; it has made as many as the second at least.
    WaitStep(u64, u64),
    /// The run state that is published is this one or a later one.
    Sees(RunState),
}

// Whether these are the tasks from one number to below another, with their jobs.
fn are_handed_back<J>(drained: &[Drained<J>], from: u32, to: u32) -> bool {
    let mut next = from;
    for back in drained {
        if back.task.0 != next || back.job.is_none() {
            return false;
        }
        next = next.saturating_add(1);
    }
    next == to
}

// Whether what is answered, where nothing is refused, is this.
fn is<T: PartialEq + Copy>(answer: Result<T, PoolError>, wanted: T) -> Result<bool, PoolError> {
    match answer {
        Ok(found) => Ok(found == wanted),
        Err(error) => Err(error),
    }
}

fn is_made<T: Drop>(answer: Result<T, PoolError>) -> Result<bool, PoolError> {
    match answer {
        Ok(_) => Ok(true),
        Err(error) => Err(error),
    }
}

fn is_removed<J: Drop>(answer: Result<Removal<J>, PoolError>) -> Result<bool, PoolError> {
    match answer {
        Ok(removal) => Ok(matches!(removal, Removal::Yes(Some(_)))),
        Err(error) => Err(error),
    }
}

fn stops<G: PoolName, K: Keeper + Send + 'static, R: Wait>(
    rt: &R,
    pool: &Tested<G, K>,
    from: u32,
    to: u32,
    pass: &mut Pass<G>,
) -> Result<bool, PoolError> {
    match pool.shutdown_now(rt, pass) {
        Ok(drained) => Ok(are_handed_back(drained.as_slice(), from, to)),
        Err(error) => Err(error),
    }
}

fn goes_on<G: PoolName, K: Keeper + Send + 'static, R: Wait>(
    rt: &R,
    pool: &Tested<G, K>,
    seen: u64,
    least: u64,
) -> bool {
    let steps = pool.wait_step(rt, seen);
    steps > seen && steps >= least
}

// Makes a call that asks for a result, or waits.
fn asks<G: PoolName, K: Keeper + Send + 'static, R: Wait>(
    rt: &R,
    pool: &Tested<G, K>,
    call: Call,
    pass: &mut Pass<G>,
) -> Result<bool, PoolError> {
    match call {
        Call::TakeDone(group, t) => is(pool.take_done(rt, group, pass), t),
        Call::AwaitDone(group) => is_made(pool.await_done(rt, group, pass)),
        Call::Fate(t) => is_made(pool.fate(rt, t)),
        Call::Result(t) => is_made(pool.result(rt, t)),
        Call::AwaitResult(t, deadline) => is_made(pool.await_result(rt, t, Some(deadline))),
        Call::WaitStep(seen, least) => Ok(goes_on(rt, pool, seen, least)),
        Call::Sees(state) => Ok(pool.glance(pass).rank() >= state.rank()),
        _ => Ok(false),
    }
}

// Makes a call that starts no worker.
fn controls<G: PoolName, K: Keeper + Send + 'static, R: Wait>(
    rt: &R,
    pool: &Tested<G, K>,
    call: Call,
    pass: &mut Pass<G>,
) -> Result<bool, PoolError> {
    match call {
        Call::Maximum(maximum) => is_made(pool.set_maximum(rt, maximum, pass)),
        Call::Keep(keep) => is_made(pool.set_keep(rt, keep, pass)),
        Call::CoreTimeout(on) => is_made(pool.allow_core_timeout(rt, on, pass)),
        Call::Tick(now) => is_made(pool.tick(rt, now, pass)),
        Call::Purge(cancelled) => is(pool.purge(rt, pass), cancelled),
        Call::Remove(t) => is_removed(pool.remove(rt, t, pass)),
        Call::Cancel(t, flag, could) => is(pool.cancel(rt, t, flag, pass), could),
        Call::Stop(from, to) => stops(rt, pool, from, to, pass),
        Call::Await(deadline) => is_made(pool.await_termination(rt, deadline, pass)),
        _ => asks(rt, pool, call, pass),
    }
}

/// Makes the call: whether it says what is wanted.
pub fn make<G: PoolName, K: Keeper + Send + 'static, R: Runtime>(
    rt: &R,
    pool: &Tested<G, K>,
    call: Call,
    pass: &mut Pass<G>,
) -> Result<bool, PoolError> {
    match call {
        Call::Core(core) => is_made(pool.set_core(rt, core, pass)),
        Call::StartAll(live) => is(pool.prestart_all(rt, pass), live),
        Call::StartOne(live) => is(pool.prestart_core(rt, pass), live),
        Call::Shutdown => is_made(pool.shutdown(rt, pass)),
        _ => controls(rt, pool, call, pass),
    }
}
