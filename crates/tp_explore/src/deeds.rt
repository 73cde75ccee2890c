//! What may be asked next, and by whom.
ghost use Rattle.std.specs.Prelude.{◌≡◌, ◌++◌, IfOk, OnOk, map};
ghost use Rattle.std.specs.List.{list_any};
ghost use Rattle.tp_explore.specs.Moves as moves;
ghost use Rattle.tp_explore.specs.Situation as situation;
ghost use Rattle.tp_explore.specs.Situation.{seen};

use crate::callers::{Caller, Doing};
use crate::plans::{Call, Factory, Plan};
use crate::states::State;
use std::alloc::{AllocError, Global};
use tp_record::entries::Ask;
use tp_record::rows::SlotRow;
use tp_rules::next::task_at;
use tp_types::configs::{Policy, Verdict};
use tp_types::ids::{SlotId, TaskId};
use tp_types::tasks::{Outcome, Place};

/// Who asks.
#[derive(Clone, Copy, Debug, PartialEq, Eq)]
pub enum Mover {
    /// The caller of this number, from 0.
    Caller(usize),
    /// A worker, or the pool itself.
    Pool,
}

/// An ask that may come next.
#[derive(Clone, Copy, Debug, PartialEq, Eq)]
pub struct NextAsk {
    /// Who asks.
    pub by: Mover,
    /// What is asked.
    pub ask: Ask,
}

// How the body of task `t` ends.
fn outcome(plan: &Plan, state: &State, t: TaskId) -> Option<Outcome>
    ensures { result ≡ situation.outcome_of plan.now (seen state.now) t.0 }
{
    let submission = state.submission(t)?;
    Some(plan.submissions.get(submission)?.outcome)
}

// Whether a caller that waits so goes on.
fn is_over(state: &State, call: Call) -> bool
    ensures { result ≡ situation.is_over (seen state.now) call }
{
    match call {
        Call::Await(submission) => match state.number(submission) {
            None => false,
            Some(t) => task_at(&state.pool, t).fate().is_some(),
        },
        Call::AwaitEnd => state.pool.rank == 4,
        _ => false,
    }
}

// How many of these calls stand before the first that is not a wait which is over.
fn waits_over(state: &State, calls: &[Call]) -> usize
    ensures { result ≡ situation.waits_over (seen state.now) calls.now }
{
    for (n, call) in calls.iter().enumerate() {
        if !is_over(state, *call) {
            return n;
        }
    }
    calls.len()
}

// Before the last so many calls, or behind the first of these that are waits which are over.
fn waited(state: &State, calls: &[Call], left: usize) -> Caller
    ensures { result ≡ moves.waited (seen state.now) calls.now left }
{
    let over = waits_over(state, &calls[calls.len().saturating_sub(left)..]);
    Caller::before(left.saturating_sub(over))
}

/// The caller after what it does without a step: it waits no longer where a wait is over, and starts no more workers where no task is
/// queued.
pub fn moved_on(state: &State, calls: &[Call], caller: Caller) -> Caller
    ensures { result ≡ moves.moved_on (seen state.now) calls.now caller }
{
    match caller.doing {
        Doing::Nothing => waited(state, calls, caller.left),
        Doing::Starting(_) if state.pool.queue.is_empty() => {
            waited(state, calls, caller.left.saturating_sub(1))
        }
        _ => caller,
    }
}

// The ask with which a call begins.
fn first_ask(plan: &Plan, state: &State, call: Call) -> Option<Ask>
    ensures { moves.asks_of result ≡ moves.call_asks plan.now (seen state.now) call }
{
    match call {
        Call::Submit(submission) => {
            let job = plan.submissions.get(submission)?;
            Some(Ask::Submit(job.kind, job.priority))
        }
        Call::Control(ask) => Some(ask),
        Call::Cancel(submission, flag) => Some(Ask::Cancel(state.number(submission)?, flag)),
        Call::Remove(submission) => Some(Ask::Remove(state.number(submission)?)),
        Call::Await(_) | Call::AwaitEnd => None,
    }
}

// An ask, where there is one.
fn one(alloc: Global, ask: Option<Ask>) -> Result<Vec<Ask>, AllocError>
    ensures { IfOk result (λ v. v.items ≡ moves.asks_of ask) }
{
    let mut asks = Vec::new(alloc);
    if let Some(ask) = ask {
        asks.push(ask)?;
    }
    Ok(asks)
}

// What may come of a slot whose worker is to be made.
fn staff(alloc: Global, factory: Factory, w: SlotId) -> Result<Vec<Ask>, AllocError>
    ensures { IfOk result (λ v. v.items ≡ moves.staff factory w) }
{
    let mut asks = Vec::new(alloc);
    if factory != Factory::Refuses {
        asks.push(Ask::Open(w))?;
    }
    if factory != Factory::Consents {
        asks.push(Ask::Fail(w))?;
    }
    Ok(asks)
}

// The verdicts that a policy may give.
fn verdicts(policy: Policy) -> &'static [Verdict]
    ensures { result.now ≡ moves.verdicts policy }
{
    match policy {
        Policy::Abort => &[Verdict::Abort],
        Policy::CallerRuns => &[Verdict::CallerRuns],
        Policy::Discard => &[Verdict::Discard],
        Policy::DiscardOldest => &[Verdict::DiscardOldest],
        Policy::Own => &[
            Verdict::Abort,
            Verdict::CallerRuns,
            Verdict::Discard,
            Verdict::DiscardOldest,
        ],
    }
}

// Each of these verdicts for a refused task.
fn judge(alloc: Global, verdicts: &[Verdict], t: TaskId) -> Result<Vec<Ask>, AllocError>
    ensures { IfOk result (λ v. v.items ≡ map (λ r. Ask.Verdict t r) verdicts.now) }
{
    let mut asks = Vec::new(alloc);
    for verdict in verdicts {
        asks.push(Ask::Verdict(t, *verdict))?;
    }
    Ok(asks)
}

// The ask by which a submitter tells how its task ended.
fn caller_end(plan: &Plan, state: &State, t: TaskId) -> Option<Ask>
    ensures { moves.asks_of result ≡ moves.caller_end plan.now (seen state.now) t }
{
    Some(Ask::CallerEnd(t, outcome(plan, state, t)?))
}

// What its submitter may ask for a task in this place.
fn place_asks(
    alloc: Global,
    plan: &Plan,
    state: &State,
    t: TaskId,
    place: Place,
) -> Result<Vec<Ask>, AllocError>
    ensures { IfOk result (λ v. v.items ≡ moves.place_asks plan.now (seen state.now) t place) }
{
    match place {
        Place::Looking => one(alloc, Some(Ask::Look(t))),
        Place::ToOffer => one(alloc, Some(Ask::Offer(t))),
        Place::ToGrow => one(alloc, Some(Ask::Grow(t))),
        Place::Refused => judge(alloc, verdicts(plan.config.policy), t),
        Place::Caller => one(alloc, caller_end(plan, state, t)),
        Place::Held(w) => staff(alloc, plan.factory, w),
        Place::Queued | Place::Taken(_) | Place::Running(_) | Place::Gone => one(alloc, None),
    }
}

// What its submitter may ask for a task.
fn task_asks(alloc: Global, plan: &Plan, state: &State, t: TaskId) -> Result<Vec<Ask>, AllocError>
    ensures { IfOk result (λ v. v.items ≡ moves.task_asks plan.now (seen state.now) t) }
{
    let row = task_at(&state.pool, t);
    if row.second {
        one(alloc, Some(Ask::Second(t)))
    } else {
        place_asks(alloc, plan, state, t, row.place)
    }
}

// The ask with which the first of the last so many calls begins.
fn next_ask(plan: &Plan, state: &State, calls: &[Call], left: usize) -> Option<Ask>
    ensures { moves.asks_of result ≡ moves.first_call (moves.call_at calls.now left) (moves.call_asks plan.now (seen state.now)) }
{
    let call = *calls.get(calls.len().saturating_sub(left))?;
    first_ask(plan, state, call)
}

/// What a caller that has moved on may ask.
pub fn caller_asks(
    alloc: Global,
    plan: &Plan,
    state: &State,
    calls: &[Call],
    caller: Caller,
) -> Result<Vec<Ask>, AllocError>
    ensures { IfOk result (λ v. v.items ≡ moves.caller_asks plan.now (seen state.now) calls.now caller) }
{
    match caller.doing {
        Doing::Nothing => one(alloc, next_ask(plan, state, calls, caller.left)),
        Doing::Submitting(t) => task_asks(alloc, plan, state, t),
        Doing::Starting(_) => one(alloc, Some(Ask::Prestart)),
        Doing::Staffing(w, _) => staff(alloc, plan.factory, w),
    }
}

// The ask by which a worker tells how its task ended.
fn end(plan: &Plan, state: &State, w: SlotId, row: SlotRow) -> Option<Ask>
    ensures { moves.asks_of result ≡ moves.end_asks plan.now (seen state.now) w row.task }
{
    Some(Ask::End(w, outcome(plan, state, row.task?)?))
}

// What the worker of a live slot may ask.
fn worker_asks(
    alloc: Global,
    plan: &Plan,
    state: &State,
    w: SlotId,
    row: SlotRow,
) -> Result<Vec<Ask>, AllocError>
    ensures { IfOk result (λ v. v.items ≡ moves.worker_asks plan.now (seen state.now) w row) }
{
    let mut asks = vec![in alloc; Ask::Take(w), Ask::Begin(w), Ask::Leave(w)]?;
    if let Some(ask) = end(plan, state, w, row) {
        asks.push(ask)?;
    }
    Ok(asks)
}

// Whether a caller has this slot's worker made.
fn is_staffed(state: &State, w: SlotId) -> bool
    ensures { result ≡ list_any (situation.staffs (seen state.now).pool w.0) state.now.callers.items }
{
    state
        .callers
        .iter()
        .any(|caller| caller.staffs(&state.pool, w))
}

// What may be asked of a slot, apart from the caller that has its worker made.
fn slot_asks(
    alloc: Global,
    plan: &Plan,
    state: &State,
    w: SlotId,
    slot: Option<SlotRow>,
) -> Result<Vec<Ask>, AllocError>
    ensures { IfOk result (λ v. v.items ≡ moves.slot_asks plan.now (seen state.now) w.0 slot) }
{
    match slot {
        None => one(alloc, None),
        Some(row) if !row.stage.is_reserved() => worker_asks(alloc, plan, state, w, row),
        Some(_) if is_staffed(state, w) => one(alloc, None),
        Some(_) => staff(alloc, plan.factory, w),
    }
}

// Adds asks of one mover.
fn add(deeds: &mut Vec<NextAsk>, by: Mover, asks: &[Ask]) -> Result<(), AllocError>
    ensures { OnOk result (deeds.new.items ≡ deeds.old.items ++ moves.deeds_by by asks.now) }
{
    for ask in asks {
        deeds.push(NextAsk { by, ask: *ask })?;
    }
    Ok(())
}

/// The calls of caller `i`.
pub fn calls_of(plan: &Plan, i: usize) -> &[Call]
    ensures { result.now ≡ situation.calls_of plan.now i }
{
    match plan.callers.get(i) {
        None => &[],
        Some(calls) => calls.as_slice(),
    }
}

// What each caller may ask.
fn add_callers(
    alloc: Global,
    plan: &Plan,
    state: &State,
    deeds: &mut Vec<NextAsk>,
) -> Result<(), AllocError>
    ensures { OnOk result (deeds.new.items ≡ deeds.old.items ++ moves.callers_deeds plan.now (seen state.now) 0 state.now.callers.items) }
{
    for (i, caller) in state.callers.iter().enumerate() {
        let calls = calls_of(plan, i);
        let asks = caller_asks(alloc, plan, state, calls, moved_on(state, calls, *caller))?;
        add(deeds, Mover::Caller(i), asks.as_slice())?;
    }
    Ok(())
}

// What may be asked of each slot.
fn add_slots(
    alloc: Global,
    plan: &Plan,
    state: &State,
    deeds: &mut Vec<NextAsk>,
) -> Result<(), AllocError>
    ensures { OnOk result (deeds.new.items ≡ deeds.old.items ++ moves.slots_deeds plan.now (seen state.now) 0 state.now.pool.slots.items) }
{
    for (w, slot) in state.pool.slots.iter().enumerate() {
        let asks = slot_asks(alloc, plan, state, SlotId(w), *slot)?;
        add(deeds, Mover::Pool, asks.as_slice())?;
    }
    Ok(())
}

/// All asks that may come next: each caller's, each worker's, and the house's. AllocError where there is no memory for them.
pub fn deeds(alloc: Global, plan: &Plan, state: &State) -> Result<Vec<NextAsk>, AllocError>
    ensures { IfOk result (λ v. v.items ≡ moves.deeds plan.now (seen state.now)) }
{
    let mut deeds = Vec::new(alloc);
    add_callers(alloc, plan, state, &mut deeds)?;
    add_slots(alloc, plan, state, &mut deeds)?;
    add(&mut deeds, Mover::Pool, &[Ask::Tidy, Ask::Ended])?;
    Ok(deeds)
}
