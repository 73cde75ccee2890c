//! What callers ask of futures, of many jobs and of groups, and what a thread sees that watches.

use crate::harness::boards::Board;
use crate::harness::calls::Tested;
use crate::harness::chores::{Chore, Work, chores};
use crate::harness::playing::handed;
use crate::harness::scripts::{Many, Seen, Step};
use crate::harness::users::Users;
use std::alloc::Global;
use std::sync::{Arc, Wait};
use std::time::{Clock, Duration};
use tp_book::passes::Pass;
use tp_machine::machine::releases::Keeper;
use tp_pool::answers::Refused;
use tp_pool::callers::{PoolName, Runtime};
use tp_pool::snapshots::Busy;
use tp_pool::task_of;
use tp_service::completions::CompletionService;
use tp_service::futures::{
    get, get_for, get_until, get_until_with, get_with, submit, try_get, try_get_with,
};
use tp_service::invoking::{invoke_all, invoke_all_for, invoke_all_until, invoke_any};
use tp_service::leaving::Leaving;
use tp_types::ids::{SlotId, TaskId};
use tp_types::refusals::PoolError;
use tp_types::tasks::Kind;

// Submits a job of this kind.
fn submitted<G: PoolName, K: Keeper + Send + 'static, R: Runtime>(
    rt: &R,
    pool: &Tested<G, K>,
    kind: Kind,
    job: Chore,
    pass: &mut Pass<G>,
) -> Result<TaskId, Refused<Chore>> {
    match kind {
        Kind::Plain => handed(rt, pool, kind, job, pass).map(task_of),
        Kind::Future => submit(pool, rt, job, pass),
        Kind::Group(group) => CompletionService::new(group).submit(pool, rt, job, pass),
    }
}

fn submits<G: PoolName, K: Keeper + Send + 'static, R: Runtime>(
    rt: &R,
    pool: &Tested<G, K>,
    board: &Arc<Board>,
    (kind, deed, number): (Kind, Work, u32),
    pass: &mut Pass<G>,
) -> bool {
    let Ok(job) = Chore::new(board, deed) else {
        return false;
    };
    match submitted(rt, pool, kind, job, pass) {
        Ok(t) => t.0 == number,
        Err(_) => false,
    }
}

// Asks a future without a wait by the clock: twice, without a pass and with it.
fn gets<G: PoolName, K: Keeper + Send + 'static, R: Wait>(
    rt: &R,
    pool: &Tested<G, K>,
    step: Step,
    pass: &mut Pass<G>,
) -> bool {
    match step {
        Step::Get(t, answer) => {
            let t = TaskId(t);
            [get(pool, rt, t), get_with(pool, rt, t, pass)] == [answer, answer]
        }
        Step::GetUntil(t, at, answer) => {
            let t = TaskId(t);
            let with_pass = get_until_with(pool, rt, t, at, pass);
            [get_until(pool, rt, t, at), with_pass] == [answer, answer]
        }
        Step::TryGet(t, answer) => {
            let t = TaskId(t);
            [try_get(pool, rt, t), try_get_with(pool, rt, t, pass)] == [answer, answer]
        }
        _ => false,
    }
}

/// Asks this: whether it is answered as it says.
pub fn asked<G: PoolName, K: Keeper + Send + 'static, R: Clock + Runtime>(
    rt: &R,
    pool: &Tested<G, K>,
    board: &Arc<Board>,
    step: Step,
    pass: &mut Pass<G>,
) -> bool {
    match step {
        Step::Submit(kind, deed, number) => submits(rt, pool, board, (kind, deed, number), pass),
        Step::GetFor(t, micros, answer) => {
            get_for(pool, rt, TaskId(t), Duration::from_micros(micros), pass) == answer
        }
        Step::EndFor(micros, answer) => {
            pool.await_end_for(rt, Duration::from_micros(micros), pass) == answer
        }
        Step::TakeFor(group, micros, answer) => {
            pool.await_done_for(rt, group, Duration::from_micros(micros), pass) == answer
        }
        Step::Take(group, answer) => CompletionService::new(group).take(pool, rt, pass) == answer,
        Step::Poll(group, answer) => CompletionService::new(group).poll(pool, rt, pass) == answer,
        _ => gets(rt, pool, step, pass),
    }
}

// Whether these are the numbers from this one on, so many of them.
fn are_numbers(tasks: &[TaskId], from: u32, count: usize) -> bool {
    let mut next = from;
    for t in tasks {
        if t.0 != next {
            return false;
        }
        next = next.saturating_add(1);
    }
    tasks.len() == count
}

fn are_answered(found: Result<Vec<TaskId>, PoolError>, from: u32, count: usize) -> bool {
    match found {
        Ok(tasks) => are_numbers(tasks.as_slice(), from, count),
        Err(_) => false,
    }
}

fn is_refused(found: Result<Vec<TaskId>, PoolError>, error: PoolError) -> bool {
    match found {
        Ok(_) => false,
        Err(refused) => refused == error,
    }
}

fn jobs_of(many: Many) -> &'static [Work] {
    match many {
        Many::All(deeds, _)
        | Many::AllUntil(deeds, _, _)
        | Many::AllFor(deeds, _, _)
        | Many::AllRefused(deeds, _)
        | Many::Any(deeds, _) => deeds,
    }
}

/// Has many jobs run: whether that is answered as it says.
pub fn invokes<G: PoolName, K: Leaving<G, Chore, Users, R> + Send + 'static, R: Clock + Runtime>(
    rt: &R,
    alloc: Global,
    pool: &Tested<G, K>,
    board: &Arc<Board>,
    many: Many,
    pass: &mut Pass<G>,
) -> bool {
    let deeds = jobs_of(many);
    let Ok(jobs) = chores(alloc, board, deeds) else {
        return false;
    };
    match many {
        Many::All(_, from) => {
            are_answered(invoke_all(pool, rt, alloc, jobs, pass), from, deeds.len())
        }
        Many::AllUntil(_, deadline, from) => {
            let found = invoke_all_until(pool, rt, alloc, jobs, deadline, pass);
            are_answered(found, from, deeds.len())
        }
        Many::AllFor(_, micros, from) => {
            let most = Duration::from_micros(micros);
            let found = invoke_all_for(pool, rt, alloc, jobs, most, pass);
            are_answered(found, from, deeds.len())
        }
        Many::AllRefused(_, error) => is_refused(invoke_all(pool, rt, alloc, jobs, pass), error),
        Many::Any(_, answer) => invoke_any(pool, rt, alloc, jobs, pass) == answer,
    }
}

// Whether just these slots have a task, each this one.
fn are_busy(seen: &[Busy], wanted: &[(usize, u32)]) -> bool {
    seen.len() == wanted.len()
        && seen.iter().zip(wanted).all(|(busy, &(slot, task))| (busy.slot, busy.task)
            == (SlotId(slot), TaskId(task)))
}

/// Whether a sight that has caught up sees the pool so, in each of its three ways. Nobody makes a step meanwhile.
pub fn watches<G: PoolName, R: Wait>(
    rt: &R,
    alloc: Global,
    pool: &Tested<G>,
    wanted: Seen,
    pass: &mut Pass<G>,
) -> bool {
    let mut sight = pool.sight(pass);
    pool.catch_up(rt, &mut sight, pass);
    let reading = pool.look_by(rt, &mut sight);
    let Ok(seen) = pool.snapshot_by(rt, alloc, &mut sight) else {
        return false;
    };
    let from = wanted.steps.saturating_sub(1);
    let Ok(latest) = pool.record_since_by(rt, alloc, from, &mut sight) else {
        return false;
    };
    (reading.state, reading.steps, reading.counts.queued)
        == (wanted.state, wanted.steps, wanted.queued)
        && (seen.state, seen.steps, seen.counts) == (wanted.state, wanted.steps, reading.counts)
        && are_busy(seen.busy.as_slice(), wanted.busy)
        && latest.len() == 1
}
