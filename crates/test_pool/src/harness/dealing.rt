//! What takes more than one call.

use crate::harness::boards::{Board, Signal};
use crate::harness::calls::{Call, Tested, make};
use crate::harness::chores::{Chore, Work};
use crate::harness::findings::is_unstaffed_at;
use crate::harness::playing::{SOME_SECONDS, comes, handed, rest};
use crate::harness::scripts::{Deal, SETTINGS, View};
use std::sync::{Arc, Wait};
use std::thread;
use std::time::Clock;
use tp_book::passes::Pass;
use tp_machine::machine::releases::Keeper;
use tp_pool::answers::{Admitted, Refused};
use tp_pool::callers::{PoolName, Runtime};
use tp_record::entries::{Did, Failed};
use tp_record::packed::Packed;
use tp_types::refusals::PoolError;
use tp_types::states::{Counts, RunState};
use tp_types::tasks::Kind;

// Whether a task is accepted, or rejected and comes back.
fn is_given(answer: &Result<Admitted, Refused<Chore>>) -> Option<bool> {
    match answer {
        Ok(Admitted::Accepted(_)) => Some(true),
        Ok(_) => None,
        Err(refused) if refused.job.is_none() => None,
        Err(refused) => match refused.error {
            PoolError::Rejected(_) => Some(false),
            _ => None,
        },
    }
}

// Hands in a plain task. It is accepted, or rejected and comes back: whether it is accepted.
fn gives_once<G: PoolName, K: Keeper + Send + 'static, R: Runtime>(
    rt: &R,
    pool: &Tested<G, K>,
    board: &Arc<Board>,
    deed: Work,
    pass: &mut Pass<G>,
) -> Option<bool> {
    let job = Chore::new(board, deed).ok()?;
    board.raise(Signal::Handed);
    is_given(&handed(rt, pool, Kind::Plain, job, pass))
}

// Hands in a plain task until a worker is there for it, or for half a second.
fn gives<G: PoolName, K: Keeper + Send + 'static, R: Clock + Runtime>(
    rt: &R,
    pool: &Tested<G, K>,
    board: &Arc<Board>,
    deed: Work,
    pass: &mut Pass<G>,
) -> bool {
    for _ in 0..1000u32 {
        match gives_once(rt, pool, board, deed, pass) {
            Some(true) => return true,
            Some(false) => rest(rt, 500),
            None => return false,
        }
    }
    false
}

// Reads the pool where a callback waits for that.
fn reads<G: PoolName, K: Keeper + Send + 'static, R: Wait>(
    rt: &R,
    pool: &Tested<G, K>,
    board: &Board,
) -> bool {
    let asked = board.read(Signal::Asked);
    if board.read(Signal::Answered) < asked {
        let counts = pool.counts(rt);
        let state = pool.state(rt);
        board.put(Signal::Answered, asked);
        return counts.submitted <= 3 && state <= RunState::Tidying;
    }
    true
}

// Reads the pool until the other caller is over.
fn answers<G: PoolName, K: Keeper + Send + 'static, R: Wait>(
    rt: &R,
    pool: &Tested<G, K>,
    board: &Board,
) -> bool {
    for _ in 0..10_000_000u32 {
        if !reads(rt, pool, board) {
            return false;
        }
        if board.read(Signal::Over) > 0 {
            return true;
        }
        thread::yield_now();
    }
    false
}

// The tick after which the moment is later by so many ticks.
fn later(board: &Board, ticks: u64) -> Call {
    let now = board.read(Signal::Moment).saturating_add(ticks);
    board.put(Signal::Moment, now);
    Call::Tick(now)
}

// A tick too soon for a worker that fell idle after the last one: whether no worker leaves. One that was idle at the last tick, and did
// not hear of it, would leave now.
fn nobody_leaves<G: PoolName, K: Keeper + Send + 'static, R: Clock + Runtime>(
    rt: &R,
    pool: &Tested<G, K>,
    board: &Board,
    pass: &mut Pass<G>,
) -> bool {
    let live = pool.counts(rt).live;
    if make(rt, pool, later(board, 1), pass) != Ok(true) {
        return false;
    }
    rest(rt, 200_000);
    pool.counts(rt).live == live
}

// Lets the keep-alive pass until so many workers live. It passes once more where a worker was not idle at the tick.
fn times_out<G: PoolName, K: Keeper + Send + 'static, R: Clock + Runtime>(
    rt: &R,
    pool: &Tested<G, K>,
    board: &Board,
    stay: u32,
    pass: &mut Pass<G>,
) -> bool {
    for _ in 0..9u32 {
        if make(rt, pool, later(board, 2 * SETTINGS.keep), pass) != Ok(true) {
            return false;
        }
        if comes(rt, pool, View::Live(stay), SOME_SECONDS) {
            return true;
        }
        if !nobody_leaves(rt, pool, board, pass) {
            return false;
        }
    }
    false
}

// One of two workers leaves where both were idle at the last tick; else none does.
fn one_leaves<G: PoolName, K: Keeper + Send + 'static, R: Clock + Runtime>(
    rt: &R,
    pool: &Tested<G, K>,
    board: &Board,
    pass: &mut Pass<G>,
) -> bool {
    if comes(rt, pool, View::Live(1), 5_000) {
        board.raise(Signal::Telling);
        return true;
    }
    nobody_leaves(rt, pool, board, pass)
}

// What a call that is refused for want of memory leaves as it is.
type Before = (RunState, Counts, usize);

fn seen<G: PoolName, K: Keeper + Send + 'static, R: Wait>(
    rt: &R,
    pool: &Tested<G, K>,
    pass: &Pass<G>,
) -> Before {
    (pool.state(rt), pool.counts(rt), pass.receipts().len())
}

// The job of this number, where it came back for want of memory and nothing has changed.
fn back_unchanged(refused: Refused<Chore>, number: u32, unchanged: bool) -> Option<Chore> {
    if refused.error != PoolError::NoMemory || !unchanged {
        return None;
    }
    let job = refused.job?;
    if job.priority == number {
        Some(job)
    } else {
        None
    }
}

// Hands in a plain task whose job has this number. Where memory is wanted that very job comes back, nothing has changed, and it is
// handed in once more.
fn insists_task<G: PoolName, K: Keeper + Send + 'static, R: Runtime>(
    rt: &R,
    pool: &Tested<G, K>,
    board: &Arc<Board>,
    number: u32,
    pass: &mut Pass<G>,
) -> bool {
    let Ok(job) = Chore::new(board, Work::Urgent(number)) else {
        return false;
    };
    let before = seen(rt, pool, pass);
    let refused = match handed(rt, pool, Kind::Plain, job, pass) {
        Ok(admitted) => return matches!(admitted, Admitted::Accepted(_)),
        Err(refused) => refused,
    };
    let unchanged = seen(rt, pool, pass) == before;
    let Some(job) = back_unchanged(refused, number, unchanged) else {
        return false;
    };
    let again = handed(rt, pool, Kind::Plain, job, pass);
    matches!(again, Ok(Admitted::Accepted(_)))
}

// Whether the last step of the pass says that no worker was made.
fn has_failed(last: Option<Did>) -> bool {
    matches!(last, Some(Did::Fail(_, Failed::Nothing)))
}

// Whether memory was wanted: nothing has changed, or the step `fail` says that a worker was not made.
fn is_wanting(answer: Result<bool, PoolError>, unchanged: bool, failed: bool) -> bool {
    match answer {
        Err(PoolError::NoMemory) => unchanged,
        Ok(false) => failed,
        _ => false,
    }
}

// What is left to be started, where so many more workers live by now.
fn left_of(call: Call, more: u32) -> Call {
    match call {
        Call::StartAll(live) => Call::StartAll(live.saturating_sub(more)),
        _ => call,
    }
}

// Makes the call. Where memory was wanted, it makes what is left of the call. The last answer counts.
fn insists<G: PoolName, K: Keeper + Send + 'static, R: Runtime>(
    rt: &R,
    pool: &Tested<G, K>,
    call: Call,
    pass: &mut Pass<G>,
) -> Result<bool, PoolError> {
    let before = seen(rt, pool, pass);
    let answer = make(rt, pool, call, pass);
    let after = seen(rt, pool, pass);
    let last = pass.receipts().last().map(|packed| packed.unpack().did);
    if !is_wanting(answer, after == before, has_failed(last)) {
        return answer;
    }
    let more = after.1.live.saturating_sub(before.1.live);
    make(rt, pool, left_of(call, more), pass)
}

// Whether these are the first entries of the unstaffed pool, so many of them, by the first caller.
fn are_unstaffed(receipts: &[Packed], wanted: usize) -> bool {
    for (at, packed) in receipts.iter().enumerate() {
        if !is_unstaffed_at(&packed.unpack(), at) {
            return false;
        }
    }
    receipts.len() == wanted
}

// Whether the pass has so many receipts, and the pool has made as many steps.
fn counts<G: PoolName, K: Keeper + Send + 'static, R: Wait>(
    rt: &R,
    pool: &Tested<G, K>,
    steps: u64,
    pass: &Pass<G>,
) -> bool {
    (pass.receipts().len() as u64, pool.steps(rt)) == (steps, steps)
}

/// Makes the deal: whether it comes to what it says.
pub fn deals<G: PoolName, K: Keeper + Send + 'static, R: Clock + Runtime>(
    rt: &R,
    pool: &Tested<G, K>,
    board: &Arc<Board>,
    deal: Deal,
    pass: &mut Pass<G>,
) -> bool {
    match deal {
        Deal::Give(deed) => gives(rt, pool, board, deed, pass),
        Deal::Unstaffed(entries) => are_unstaffed(pass.receipts(), entries),
        Deal::Answers => answers(rt, pool, board),
        Deal::TimesOut(stay) => times_out(rt, pool, board, stay, pass),
        Deal::OneLeaves => one_leaves(rt, pool, board, pass),
        Deal::InsistsTask(number) => insists_task(rt, pool, board, number, pass),
        Deal::Insists(call, answer) => insists(rt, pool, call, pass) == answer,
        Deal::Counts(call, answer, steps) => {
            insists(rt, pool, call, pass) == answer && counts(rt, pool, steps, pass)
        }
        Deal::Pass(ticks) => make(rt, pool, later(board, ticks), pass) == Ok(true),
    }
}
