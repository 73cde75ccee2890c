//! The plain state after one more entry.

ghost use Rattle.std.specs.Prelude.{◌≡◌, ◌≤◌, ◌<◌, ℕ, filter, length, vec_len, ◌+◌, IfOk, IsOkUnless};
ghost use Rattle.tp_record.specs.Effects as effects;
ghost use Rattle.tp_record.specs.Lists as lists;
ghost use Rattle.tp_record.specs.State as states;
ghost use Rattle.tp_rules.specs.PlainState.{shown, IsSmall};

use crate::effects::{
    cancel_said, closed_by, completed_by, core_said, core_timeout_said, ending_said, hand_out_said,
    handed_back, hold_said, idled_by, is_completion, is_plain_fault, is_submit, keep_said,
    kind_said, maximum_said, moved_to, now_said, outcome_said, priority_said, queued_by, reaches,
    reserved_by, retry_said, seat_said, second_said, swept, turned_to, woken,
};
use crate::lists::{copy_of, push, put_task_at_end, with_room};
use crate::plain_state::PlainState;
use crate::slots::live_of;
use crate::weights::slot_at;
use std::alloc::Global;
use tp_record::entries::Did;
use tp_record::rows::{SlotRow, Stage, TaskRow};
use tp_types::ids::{SlotId, TaskId};
use tp_types::refusals::PoolError;
use tp_types::tasks::{Kind, Place};

/// What is read of a task that was never submitted.
pub const NO_ROW: TaskRow = TaskRow {
    kind: Kind::Plain,
    priority: 0,
    place: Place::Gone,
    second: false,
    cancelled: false,
    ending: None,
    outcome: None,
    retries: 0,
};

/// The row of task `t`.
pub fn task_at(state: &PlainState, t: TaskId) -> TaskRow
    ensures { result ≡ states.task_at (shown state.now) t.0 }
{
    let t = t.0 as usize;
    if t < state.tasks.len() {
        state.tasks[t]
    } else {
        NO_ROW
    }
}

/// Slot `w`, None where it is no slot.
pub fn slot_of(state: &PlainState, w: SlotId) -> Option<SlotRow>
    ensures { result ≡ states.slot_at state.now.slots.items w.0 }
{
    slot_at(&state.slots, w.0)
}

/// The row of task `t` after an entry.
pub fn row_after(did: Did, t: TaskId, row: TaskRow) -> TaskRow
    requires { row.retries < 4294967295 }
    ensures after { result ≡ states.row_after did t.0 row }
    ensures retries { result.retries ≤ row.retries + 1 }
{
    TaskRow {
        kind: kind_said(did, t).unwrap_or(row.kind),
        priority: priority_said(did, t).unwrap_or(row.priority),
        place: moved_to(did, t).unwrap_or(swept(did, row.cancelled, row.place)),
        second: second_said(did, t).unwrap_or(row.second),
        cancelled: cancel_said(did, t).unwrap_or(row.cancelled),
        ending: ending_said(did, t).unwrap_or(handed_back(did, row.place, row.ending)),
        outcome: outcome_said(did, t).unwrap_or(row.outcome),
        retries: match retry_said(did, t) {
            None => row.retries,
            Some(false) => 0,
            Some(true) => row.retries + 1,
        },
    }
}

/// The tasks after an entry.
pub fn tasks_after(alloc: Global, did: Did, state: &PlainState) -> Result<Vec<TaskRow>, PoolError>
    requires { IsSmall 1048576 (shown state.now) }
    ensures rows { IfOk result (λ v. v.items ≡ states.tasks_after did state.now.tasks.items) }
    ensures refused { IsOkUnless result PoolError.NoMemory }
{
    let count = state.tasks.len() as u32;
    let mut after = with_room(alloc, count as usize + 1)?;
    for t in 0..count {
        push(
            &mut after,
            row_after(did, TaskId(t), task_at(state, TaskId(t))),
        )?;
    }
    if is_submit(did) {
        push(&mut after, row_after(did, TaskId(count), NO_ROW))?;
    }
    Ok(after)
}

/// Whether a task that was queued stays in the queue.
pub fn stays_queued(did: Did, state: &PlainState, t: u32) -> bool
    ensures { result ≡ states.stays_queued did state.now.tasks.items t }
{
    let cancelled = task_at(state, TaskId(t)).cancelled;
    moved_to(did, TaskId(t)).unwrap_or(swept(did, cancelled, Place::Queued)) == Place::Queued
}

/// Keeps those tasks of a queue that stay in it.
fn keep_staying(did: Did, state: &PlainState, queue: &mut Vec<u32>)
    ensures { queue.new.items ≡ filter (states.stays_queued did state.now.tasks.items) queue.old.items }
{
    queue.retain(|t| stays_queued(did, state, *t));
}

/// Task `t` behind all of a line whose priority is not greater. As in the definition, no line is taken to be sorted.
fn put_behind(
    alloc: Global,
    state: &PlainState,
    t: u32,
    line: &[u32],
) -> Result<Vec<u32>, PoolError>
    ensures tasks { IfOk result (λ v. v.items
        ≡ lists.put_behind (λ u. (states.row_at state.now.tasks.items u).priority) t line.now) }
    ensures refused { IsOkUnless result PoolError.NoMemory }
{
    let number = task_at(state, TaskId(t)).priority;
    let mut after = with_room(alloc, line.len())?;
    for u in line {
        if task_at(state, TaskId(*u)).priority <= number {
            push(&mut after, *u)?;
        }
    }
    push(&mut after, t)?;
    for u in line {
        if number < task_at(state, TaskId(*u)).priority {
            push(&mut after, *u)?;
        }
    }
    Ok(after)
}

/// The queue after an entry.
pub fn queue_after(alloc: Global, did: Did, state: &PlainState) -> Result<Vec<u32>, PoolError>
    ensures tasks { IfOk result (λ v. v.items
        ≡ states.queue_after state.now.ranked did state.now.tasks.items state.now.queue.items) }
    ensures refused { IsOkUnless result PoolError.NoMemory }
{
    let mut after = copy_of(alloc, &state.queue)?;
    keep_staying(did, state, &mut after);
    if let Some(t) = queued_by(did) {
        if state.ranked {
            return put_behind(alloc, state, t, &after);
        }
        push(&mut after, t)?;
    }
    Ok(after)
}

/// Whether an entry ends a plain task with a fault.
pub fn is_fault_in(state: &PlainState, did: Did) -> bool
    ensures { result ≡ effects.is_plain_fault did (λ t. (states.task_at (shown state.now) t).kind) }
{
    match closed_by(did) {
        Some(t) => is_plain_fault(did, task_at(state, t).kind),
        None => false,
    }
}

/// The row of slot `w`, which stays or is new, after an entry.
pub fn seat_after(did: Did, state: &PlainState, w: SlotId, row: SlotRow) -> SlotRow
    ensures { result ≡ states.seat_after did (shown state.now) w.0 row }
{
    SlotRow {
        stage: turned_to(state.moment, is_fault_in(state, did), did, w).unwrap_or(woken(
            did, row.stage,
        )),
        task: seat_said(did, w).unwrap_or(row.task),
    }
}

/// Slot `w` after an entry.
pub fn slot_after(did: Did, state: &PlainState, w: SlotId, slot: Option<SlotRow>) -> Option<SlotRow>
    ensures { result ≡ states.slot_after did (shown state.now) w.0 slot }
{
    let no_seat = SlotRow {
        stage: Stage::Working,
        task: None,
    };
    match (hold_said(did, w), slot) {
        (Some(true), _) => Some(seat_after(did, state, w, no_seat)),
        (Some(false), _) => None,
        (None, Some(row)) => Some(seat_after(did, state, w, row)),
        (None, None) => None,
    }
}

/// How many places the slot table has after an entry. A table of 2^32 places or more counts as refused memory.
pub fn slot_places(did: Did, state: &PlainState) -> Result<u32, PoolError>
    requires { length state.now.slots.items < 4294967296 }
    ensures places { IfOk result (λ n. n ≡ length (lists.long_enough (effects.reserves did) None state.now.slots.items)) }
    ensures refused { IsOkUnless result PoolError.NoMemory }
{
    let places = state.slots.len() as u32;
    match reserved_by(did) {
        None => Ok(places),
        Some(w) if w >= 4_294_967_295 => Err(PoolError::NoMemory),
        Some(w) => Ok(places.max(w as u32 + 1)),
    }
}

/// The slots after an entry.
pub fn slots_after(
    alloc: Global,
    did: Did,
    state: &PlainState,
) -> Result<Vec<Option<SlotRow>>, PoolError>
    requires { length state.now.slots.items < 4294967296 }
    ensures rows { IfOk result (λ v. v.items ≡ states.slots_after did (shown state.now)) }
    ensures bound { IfOk result (λ v. vec_len v < 4294967296) }
    ensures refused { IsOkUnless result PoolError.NoMemory }
{
    let places = slot_places(did, state)?;
    let mut after = with_room(alloc, places as usize)?;
    for w in 0..places {
        let w = SlotId(w as usize);
        push(&mut after, slot_after(did, state, w, slot_of(state, w)))?;
    }
    Ok(after)
}

/// Whether a slot that was idle stays idle.
pub fn stays_idle(did: Did, state: &PlainState, w: usize) -> bool
    ensures { result ≡ states.stays_idle did (shown state.now) w }
{
    match slot_after(did, state, SlotId(w), slot_of(state, SlotId(w))) {
        Some(row) => row.is_idle(),
        None => false,
    }
}

/// Keeps those slots of a list that stay idle.
fn keep_idle(did: Did, state: &PlainState, slots: &mut Vec<usize>)
    ensures { slots.new.items ≡ filter (states.stays_idle did (shown state.now)) slots.old.items }
{
    slots.retain(|w| stays_idle(did, state, *w));
}

/// The idle slots after an entry.
pub fn idling_after(alloc: Global, did: Did, state: &PlainState) -> Result<Vec<usize>, PoolError>
    ensures slots { IfOk result (λ v. v.items ≡ states.idling_after did (shown state.now)) }
    ensures refused { IsOkUnless result PoolError.NoMemory }
{
    let mut after = copy_of(alloc, &state.idling)?;
    keep_idle(did, state, &mut after);
    if let Some(w) = idled_by(did) {
        push(&mut after, w)?;
    }
    Ok(after)
}

/// The task of a group that an entry completes: by its cancel, or by its end where it is not cancelled.
pub fn completed_in(state: &PlainState, did: Did) -> Option<u32>
    ensures { result ≡ effects.completes did (λ t. (states.task_at (shown state.now) t).kind)
        (λ t. (states.task_at (shown state.now) t).cancelled) }
{
    match closed_by(did) {
        Some(t) => {
            let row = task_at(state, t);
            completed_by(did, row.kind, row.cancelled)
        }
        None => None,
    }
}

/// Keeps those completions of a list that an entry does not hand out.
fn keep_done(did: Did, tasks: &mut Vec<u32>)
    ensures { tasks.new.items ≡ filter (states.stays_done did) tasks.old.items }
{
    tasks.retain(|t| hand_out_said(did, TaskId(*t)).unwrap_or(true));
}

/// The completions that are not handed out after an entry.
pub fn done_after(alloc: Global, did: Did, state: &PlainState) -> Result<Vec<u32>, PoolError>
    ensures tasks { IfOk result (λ v. v.items ≡ states.done_after did (shown state.now)) }
    ensures refused { IsOkUnless result PoolError.NoMemory }
{
    let mut after = copy_of(alloc, &state.done)?;
    keep_done(did, &mut after);
    if let Some(t) = completed_in(state, did) {
        put_task_at_end(&mut after, t)?;
    }
    Ok(after)
}

/// The plain state after one more entry.
pub fn next(alloc: Global, state: &PlainState, did: Did) -> Result<PlainState, PoolError>
    requires { IsSmall 1048576 (shown state.now) }
    ensures next { IfOk result (λ s. shown s ≡ states.next (shown state.now) did) }
    ensures small { IfOk result (λ s. IsSmall 1048577 (shown s)) }
    ensures refused { IsOkUnless result PoolError.NoMemory }
{
    let slots = slots_after(alloc, did, state)?;
    let largest = live_of(&slots).max(state.largest);
    Ok(PlainState {
        steps: state.steps + 1,
        rank: reaches(did).max(state.rank),
        core: core_said(did).unwrap_or(state.core),
        maximum: maximum_said(did).unwrap_or(state.maximum),
        keep: keep_said(did).unwrap_or(state.keep),
        core_timeout: core_timeout_said(did).unwrap_or(state.core_timeout),
        moment: now_said(did).unwrap_or(state.moment),
        tasks: tasks_after(alloc, did, state)?,
        ranked: state.ranked,
        queue: queue_after(alloc, did, state)?,
        slots,
        idling: idling_after(alloc, did, state)?,
        done: done_after(alloc, did, state)?,
        completions: if is_completion(did) {
            state.completions + 1
        } else {
            state.completions
        },
        largest,
    })
}
