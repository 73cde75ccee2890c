//! The moves: what an ask that may come next makes of a state.
ghost use Rattle.std.specs.Prelude.{◌≡◌, IfOk, IfSome, IsOkUnless, map, set};
ghost use Rattle.std.specs.List.{All};
ghost use Rattle.tp_record.specs.State as states;
ghost use Rattle.tp_rules.specs.PlainState.{shown, IsSmall};
ghost use Rattle.tp_explore.specs.Moves as spec;
ghost use Rattle.tp_explore.specs.Situation.{bare, calls_of as situation_calls, seen as seen_state};

use crate::callers::{Caller, Doing};
use crate::deeds::{Mover, NextAsk, calls_of, deeds, moved_on};
use crate::plans::{Call, Plan};
use crate::states::State;
use std::alloc::Global;
use tp_record::entries::{Ask, Did};
use tp_rules::answer::free_slot;
use tp_rules::lists::copy_of;
use tp_rules::next::next;
use tp_rules::plain_state::PlainState;
use tp_rules::step::step;
use tp_types::ids::{SlotId, TaskId};
use tp_types::refusals::PoolError;

/// A move: what was asked, what was done unless the ask was refused, and the state that it leads to.
#[derive(Debug, Drop)]
pub struct Move {
    /// What was asked, and by whom.
    pub deed: NextAsk,
    /// What was done, or the refusal.
    pub answer: Result<Did, PoolError>,
    /// The state that it leads to.
    pub after: State,
}

/// The number that a slot gets which the ask makes: that of the worker that leaves, else the least one that is no slot. The model lets
/// a new slot have any free number, and with the least one more states are the same. The pool gives the number that was freed last, so
/// a way that is told for it is renumbered.
pub fn new_slot(pool: &PlainState, ask: Ask) -> SlotId
    ensures { result.0 ≡ spec.new_slot (shown pool.now) ask }
{
    match ask {
        Ask::Leave(w) => w,
        _ => free_slot(pool),
    }
}

// The pool after an entry, without what no step asks for.
fn pool_after(alloc: Global, pool: &PlainState, did: Did) -> Result<PlainState, PoolError>
    requires { IsSmall 1048576 (shown pool.now) }
    ensures after { IfOk result (λ p. shown p ≡ bare (states.next (shown pool.now) did)) }
    ensures refused { IsOkUnless result PoolError.NoMemory }
{
    let mut after = next(alloc, pool, did)?;
    after.completions = 0;
    after.largest = 0;
    Ok(after)
}

// The same pool.
fn copy_pool(alloc: Global, pool: &PlainState) -> Result<PlainState, PoolError>
    ensures same { IfOk result (λ p. shown p ≡ shown pool.now) }
    ensures refused { IsOkUnless result PoolError.NoMemory }
{
    Ok(PlainState {
        steps: pool.steps,
        rank: pool.rank,
        core: pool.core,
        maximum: pool.maximum,
        keep: pool.keep,
        core_timeout: pool.core_timeout,
        moment: pool.moment,
        tasks: copy_of(alloc, &pool.tasks)?,
        ranked: pool.ranked,
        queue: copy_of(alloc, &pool.queue)?,
        slots: copy_of(alloc, &pool.slots)?,
        idling: copy_of(alloc, &pool.idling)?,
        done: copy_of(alloc, &pool.done)?,
        completions: pool.completions,
        largest: pool.largest,
    })
}

// A list, with another element in place `i`.
fn with_at<T: Copy + Drop>(alloc: Global, list: &[T], i: usize, x: T) -> Result<Vec<T>, PoolError>
    ensures items { IfOk result (λ v. v.items ≡ set list.now i x) }
    ensures refused { IsOkUnless result PoolError.NoMemory }
{
    let mut copy = copy_of(alloc, list)?;
    if i < copy.len() {
        copy[i] = x;
    }
    Ok(copy)
}

// Caller `i` when it asks.
fn moved_on_at(plan: &Plan, state: &State, i: usize) -> Caller
    ensures { result ≡ spec.moved_on_at plan.now (seen_state state.now) i }
{
    let caller = match state.callers.get(i) {
        None => Caller::before(0),
        Some(caller) => *caller,
    };
    moved_on(state, calls_of(plan, i), caller)
}

// The call that caller `i` makes when it asks.
fn call_of(plan: &Plan, i: usize, caller: Caller) -> Option<Call>
    ensures { result ≡ spec.call_at (situation_calls plan.now i) caller.left }
{
    let calls = calls_of(plan, i);
    Some(*calls.get(calls.len().saturating_sub(caller.left))?)
}

// The tasks of the submissions after an answer to caller `i`.
fn numbers_after(
    alloc: Global,
    plan: &Plan,
    state: &State,
    i: usize,
    did: Did,
) -> Result<Vec<Option<TaskId>>, PoolError>
    ensures numbers { IfOk result (λ v. v.items ≡ spec.numbers_after plan.now (seen_state state.now) i did) }
    ensures refused { IsOkUnless result PoolError.NoMemory }
{
    let Did::Submit(t, _, _, _) = did else {
        return copy_of(alloc, &state.numbers);
    };
    match call_of(plan, i, moved_on_at(plan, state, i)) {
        Some(Call::Submit(submission)) => with_at(alloc, &state.numbers, submission, Some(t)),
        _ => copy_of(alloc, &state.numbers),
    }
}

// The state after an answer to caller `i`.
fn caller_moved(
    alloc: Global,
    plan: &Plan,
    state: &State,
    i: usize,
    did: Did,
) -> Result<State, PoolError>
    requires { IsSmall 1048576 (shown state.now.pool) }
    ensures after { IfOk result (λ s. seen_state s ≡ spec.accepted plan.now (seen_state state.now) (Mover.Caller i) did) }
    ensures refused { IsOkUnless result PoolError.NoMemory }
{
    let pool = pool_after(alloc, &state.pool, did)?;
    let caller = moved_on_at(plan, state, i).after(&pool, did);
    let numbers = numbers_after(alloc, plan, state, i, did)?;
    let callers = with_at(alloc, &state.callers, i, caller)?;
    Ok(State {
        pool,
        callers,
        numbers,
    })
}

// The state after an answer to a worker or the house.
fn pool_moved(alloc: Global, state: &State, did: Did) -> Result<State, PoolError>
    requires { IsSmall 1048576 (shown state.now.pool) }
    ensures after { (plan : Plan) → IfOk result (λ s. seen_state s ≡ spec.accepted plan (seen_state state.now) Mover.Pool did) }
    ensures refused { IsOkUnless result PoolError.NoMemory }
{
    Ok(State {
        pool: pool_after(alloc, &state.pool, did)?,
        callers: copy_of(alloc, &state.callers)?,
        numbers: copy_of(alloc, &state.numbers)?,
    })
}

// The state after an answer.
fn accepted(
    alloc: Global,
    plan: &Plan,
    state: &State,
    by: Mover,
    did: Did,
) -> Result<State, PoolError>
    requires { IsSmall 1048576 (shown state.now.pool) }
    ensures after { IfOk result (λ s. seen_state s ≡ spec.accepted plan.now (seen_state state.now) by did) }
    ensures refused { IsOkUnless result PoolError.NoMemory }
{
    match by {
        Mover::Pool => pool_moved(alloc, state, did),
        Mover::Caller(i) => caller_moved(alloc, plan, state, i, did),
    }
}

// The state in which caller `i` has given up its call.
fn given_up(alloc: Global, state: &State, i: usize, caller: Caller) -> Result<State, PoolError>
    ensures after { IfOk result (λ s. seen_state s ≡ record (seen_state state.now) { callers = set state.now.callers.items i caller }) }
    ensures refused { IsOkUnless result PoolError.NoMemory }
{
    Ok(State {
        pool: copy_pool(alloc, &state.pool)?,
        callers: with_at(alloc, &state.callers, i, caller)?,
        numbers: copy_of(alloc, &state.numbers)?,
    })
}

// A call whose first step is refused is over, as is a start that is.
fn refused(alloc: Global, plan: &Plan, state: &State, by: Mover) -> Result<Option<State>, PoolError>
    ensures after { IfOk result (λ o. spec.situations_of o ≡ spec.refused plan.now (seen_state state.now) by) }
    ensures refused { IsOkUnless result PoolError.NoMemory }
{
    let Mover::Caller(i) = by else {
        return Ok(None);
    };
    let caller = moved_on_at(plan, state, i);
    match caller.doing {
        Doing::Nothing | Doing::Starting(_) => {
            Ok(Some(given_up(alloc, state, i, caller.next_call())?))
        }
        Doing::Submitting(_) | Doing::Staffing(_, _) => Ok(None),
    }
}

/// What a deed makes of a state; None where it is no move. NoMemory (4) where there is none.
pub fn made(
    alloc: Global,
    plan: &Plan,
    state: &State,
    deed: NextAsk,
) -> Result<Option<Move>, PoolError>
    requires { IsSmall 1048576 (shown state.now.pool) }
    ensures after { IfOk result (λ o. spec.moved o ≡ spec.made plan.now (seen_state state.now) deed) }
    ensures answer { IfOk result (λ o. IfSome o (λ m. (m.deed ≡ deed) × (spec.answer plan.now (seen_state state.now) deed ≡ m.answer))) }
    ensures refused { IsOkUnless result PoolError.NoMemory }
{
    let w = new_slot(&state.pool, deed.ask);
    let answer = step(alloc, &plan.config, &state.pool, w, deed.ask);
    let after = match answer {
        Ok(did) => Some(accepted(alloc, plan, state, deed.by, did)?),
        Err(PoolError::NoMemory) => return Err(PoolError::NoMemory),
        Err(_) => refused(alloc, plan, state, deed.by)?,
    };
    match after {
        None => Ok(None),
        Some(after) => Ok(Some(Move {
            deed,
            answer,
            after,
        })),
    }
}

/// All moves from a state, in the order of the deeds. NoMemory (4) where there is none for them.
pub fn moves(alloc: Global, plan: &Plan, state: &State) -> Result<Vec<Move>, PoolError>
    requires { IsSmall 1048576 (shown state.now.pool) }
    ensures after { IfOk result (λ v. map (λ m. seen_state m.after) v.items ≡ spec.moves plan.now (seen_state state.now)) }
    ensures each { IfOk result (λ v. All (λ m. spec.IsMove plan.now (seen_state state.now) m) v.items) }
    ensures refused { IsOkUnless result PoolError.NoMemory }
{
    let mut moves = Vec::new(alloc);
    for deed in &deeds(alloc, plan, state)? {
        match made(alloc, plan, state, *deed)? {
            None => {}
            Some(made) => moves.push(made)?,
        }
    }
    Ok(moves)
}
