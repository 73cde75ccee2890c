//! How a caller's lines are played.

use crate::compare::same;
use crate::harness::boards::{Board, Signal};
use crate::harness::calls::{Tested, make};
use crate::harness::chores::{Chore, Work};
use crate::harness::dealing::deals;
use crate::harness::scripts::{Answer, Cue, Step, View};
use crate::harness::serving::{asked, invokes, watches};
use std::alloc::Global;
use std::process::Abort;
use std::sync::{Arc, Wait};
use std::thread;
use std::time::{Clock, Duration};
use tp_book::passes::Pass;
use tp_machine::machine::releases::Keeper;
use tp_pool::answers::{Admitted, Refused};
use tp_pool::callers::{PoolName, Runtime};
use tp_pool::task_of;
use tp_types::ids::TaskId;
use tp_types::refusals::PoolError;
use tp_types::states::Counts;
use tp_types::tasks::Kind;

/// Sleeps for so many microseconds, or a little longer.
pub fn rest<R: Clock>(rt: &R, micros: u64) {
    thread::sleep(rt, Duration::from_micros(micros));
}

/// Hands in a job.
pub fn handed<G: PoolName, K: Keeper + Send + 'static, R: Runtime>(
    rt: &R,
    pool: &Tested<G, K>,
    kind: Kind,
    job: Chore,
    pass: &mut Pass<G>,
) -> Result<Admitted, Refused<Chore>> {
    pool.execute_as(rt, kind, job, pass)
}

fn is_admission(admitted: Admitted, answer: Answer) -> bool {
    match (answer, admitted) {
        (Answer::Accepted, Admitted::Accepted(_)) => true,
        (Answer::Discarded, Admitted::Discarded(_)) => true,
        (Answer::RanHere(outcome), Admitted::RanHere(_, ran)) => ran == outcome,
        (Answer::Taken, _) => true,
        _ => false,
    }
}

// Whether the task was rejected, and comes back: its number.
fn rejected(refused: &Refused<Chore>) -> Option<TaskId> {
    match refused.error {
        PoolError::Rejected(t) if refused.job.is_some() => Some(t),
        _ => None,
    }
}

// Whether this is the answer of the task of this number.
fn is_answer(found: &Result<Admitted, Refused<Chore>>, number: u64, answer: Answer) -> bool {
    let task = match found {
        Ok(admitted) if is_admission(*admitted, answer) => Some(task_of(*admitted)),
        Err(refused) if matches!(answer, Answer::Rejected) => rejected(refused),
        _ => None,
    };
    task.is_some_and(|t| u64::from(t.0) == number)
}

fn hands<G: PoolName, K: Keeper + Send + 'static, R: Runtime>(
    rt: &R,
    pool: &Tested<G, K>,
    board: &Arc<Board>,
    (kind, deed, answer): (Kind, Work, Answer),
    pass: &mut Pass<G>,
) -> bool {
    let Ok(job) = Chore::new(board, deed) else {
        return false;
    };
    let found = handed(rt, pool, kind, job, pass);
    is_answer(&found, board.raise(Signal::Handed), answer)
}

fn counts_show(counts: Counts, view: View) -> bool {
    match view {
        View::Live(workers) => counts.live == workers,
        View::Completed(tasks) => counts.completed == tasks,
        View::Queued(tasks) => counts.queued == tasks,
        View::AllCompleted => {
            counts.completed == counts.submitted.saturating_sub(counts.rejected)
        }
        View::NoTasks => counts == Counts::default(),
        _ => false,
    }
}

fn shows<G: PoolName, K: Keeper + Send + 'static, R: Wait>(
    rt: &R,
    pool: &Tested<G, K>,
    view: View,
) -> bool {
    match view {
        View::State(state) => pool.state(rt) == state,
        View::Now(moment) => pool.now(rt) == moment,
        View::Steps(steps) => pool.steps(rt) == steps,
        _ => counts_show(pool.counts(rt), view),
    }
}

/// Waits until the pool shows this, for so many looks of 200 microseconds or more; whether that came to be.
pub fn comes<G: PoolName, K: Keeper + Send + 'static, R: Wait + Clock>(
    rt: &R,
    pool: &Tested<G, K>,
    view: View,
    looks: u32,
) -> bool {
    for look in 0..looks {
        if shows(rt, pool, view) {
            return true;
        }
        if look < 50 {
            thread::yield_now();
        } else {
            rest(rt, 200);
        }
    }
    false
}

/// How often a test looks for what comes within some seconds.
pub const SOME_SECONDS: u32 = 20_000;

fn hears<R: Clock>(rt: &R, board: &Board, cue: Cue) -> bool {
    match cue {
        Cue::Put(signal, to) => board.put(signal, to),
        Cue::Reaches(signal, to) => return board.reaches(signal, to),
        Cue::Is(signal, to) => return board.read(signal) == to,
        Cue::Rest(micros) => rest(rt, micros),
        Cue::RestLonger(micros) => rest(rt, board.read(Signal::Lives).saturating_mul(micros)),
        Cue::Vary => rest(rt, board.raise(Signal::Rounds) % 10 * 20),
    }
    true
}

/// Makes the step, of a pool with a record or without one: whether it is answered as it says.
pub fn does<G: PoolName, K: Keeper + Send + 'static, R: Clock + Runtime>(
    rt: &R,
    pool: &Tested<G, K>,
    board: &Arc<Board>,
    step: Step,
    pass: &mut Pass<G>,
) -> bool {
    match step {
        Step::Hand(kind, deed, answer) => hands(rt, pool, board, (kind, deed, answer), pass),
        Step::Call(call) => make(rt, pool, call, pass) == Ok(true),
        Step::Refused(call, error) => make(rt, pool, call, pass) == Err(error),
        Step::Is(view) => shows(rt, pool, view),
        Step::Becomes(view) => comes(rt, pool, view, SOME_SECONDS),
        Step::Cue(cue) => hears(rt, board, cue),
        Step::Deal(deal) => deals(rt, pool, board, deal, pass),
        _ => asked(rt, pool, board, step, pass),
    }
}

/// Makes the step, of a pool with a record.
pub fn makes<G: PoolName, R: Clock + Runtime>(
    rt: &R,
    alloc: Global,
    pool: &Tested<G>,
    board: &Arc<Board>,
    step: Step,
    pass: &mut Pass<G>,
) -> bool {
    match step {
        Step::Many(many) => invokes(rt, alloc, pool, board, many, pass),
        Step::Watch(seen) => watches(rt, alloc, pool, seen, pass),
        _ => does(rt, pool, board, step, pass),
    }
}

/// Plays these lines, each of which must be answered as it says.
pub fn play<G: PoolName, R: Abort + Clock + Runtime>(
    rt: &R,
    alloc: Global,
    pool: &Tested<G>,
    board: &Arc<Board>,
    steps: &[Step],
    pass: &mut Pass<G>,
) {
    for (line, step) in steps.iter().enumerate() {
        let made = makes(rt, alloc, pool, board, *step, pass);
        same(rt, line, &made, &true);
    }
}
