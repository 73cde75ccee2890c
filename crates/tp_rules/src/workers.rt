//! The rules of workers' steps.

ghost use Rattle.std.specs.Prelude.{ℕ, ◌≡◌, ◌==◌, ◌&&◌, ◌||◌, nat_le, nat_lt, length, Some, Ok, Err, MatchResult, IfOk, IfErr, IfSome};
ghost use Rattle.tp_record.specs.Effects.{Outcome};
ghost use Rattle.tp_record.specs.State.{State, slot_at, task_at};
ghost use Rattle.tp_record.specs.Step as steps;
ghost use Rattle.tp_rules.specs.Answers.{no_settings, Answers, AnswersAt, Says};

use crate::readings::{Readings, seated, wants_worker};
use tp_record::entries::{Ask, Did, Failed, Opened, Started, Took};
use tp_record::rows::{Stage, TaskRow};
use tp_types::ids::{SlotId, TaskId};
use tp_types::refusals::PoolError;
use tp_types::tasks::Place;

/// The factory made a worker: the slot is live, or it is freed and its first task refused. UnknownSlot (7) or NotThere (8).
pub fn open<S: Readings>(state: &S, v: SlotId) -> Result<Opened, PoolError>
    ensures { Answers (S.shows state.now) (Ask.Open v) (λ x. Did.Open v x) result }
{
    let row = seated(state, v)?;
    if !row.stage.is_reserved() {
        return Err(PoolError::NotThere);
    }
    // A bare slot is live at a shutdown too: it may be the only one, reserved for tasks that wait in the queue.
    if state.rank() == 0 || (state.rank() == 1 && row.task.is_none()) {
        return Ok(Opened::Live);
    }
    match row.task {
        Some(t) => Ok(Opened::GivenUpRefuse(t)),
        None => Ok(Opened::GivenUp),
    }
}

/// The factory made no worker: what becomes of the slot's first task. UnknownSlot (7) or NotThere (8).
pub fn fail<S: Readings>(state: &S, v: SlotId) -> Result<Failed, PoolError>
    ensures { Answers (S.shows state.now) (Ask.Fail v) (λ x. Did.Fail v x) result }
{
    let row = seated(state, v)?;
    if !row.stage.is_reserved() {
        return Err(PoolError::NotThere);
    }
    match row.task {
        None => Ok(Failed::Nothing),
        Some(t) if row.stage.is_for_core() && state.rank() == 0 => Ok(Failed::Offer(t)),
        Some(t) => Ok(Failed::Refuse(t)),
    }
}

/// What a worker takes: the task that its slot holds, before all else, and else what the queue has for it. UnknownSlot (7) where
/// there is no such slot, NotThere (8) where its worker is not made, dying or busy with a task that it took, and where an idle
/// worker stays idle.
#[inline(always)]
pub fn take<S: Readings>(state: &S, v: SlotId) -> Result<Took, PoolError>
    ensures { Answers (S.shows state.now) (Ask.Take v) (λ x. Did.Take v x) result }
{
    let row = seated(state, v)?;
    match (row.stage, row.task) {
        (Stage::Working, Some(t)) => first_task(state, v, t),
        (Stage::Working | Stage::Idle(_), None) => next_task(state, v, row.stage),
        _ => Err(PoolError::NotThere),
    }
}

/// What a worker takes whose slot holds this task.
#[inline(always)]
fn first_task<S: Readings>(state: &S, v: SlotId, t: TaskId) -> Result<Took, PoolError>
    ensures { Says (S.shows state.now) (λ s. steps.held_answer v t (task_at s t.0).place) (λ x. Did.Take v x) result }
{
    match state.task(t) {
        Some(
            TaskRow {
                place: Place::Held(_),
                ..
            },
        ) => Ok(Took::Held(t)),
        _ => Err(PoolError::NotThere),
    }
}

/// What a worker takes whose slot holds no task.
#[inline(always)]
fn next_task<S: Readings>(state: &S, v: SlotId, stage: Stage) -> Result<Took, PoolError>
    ensures { Says (S.shows state.now) (λ s. steps.take_next s v stage) (λ x. Did.Take v x) result }
{
    if retires(state) {
        return Ok(Took::Leave);
    }
    // The queue comes before the timeout: a worker that timed out may be the last one, and would leave a queued task to nobody.
    match state.head() {
        Some(t) => Ok(Took::Head(TaskId(t))),
        None if timed_out(state, stage) => Ok(Took::Leave),
        None if stage.is_idle() => Err(PoolError::NotThere),
        None => Ok(Took::Idle),
    }
}

/// Whether a worker without a task leaves whatever time it has waited: where its pool is stopped, or shut down with nothing
/// queued, and where there are more slots than the maximum.
#[inline(always)]
fn retires<S: Readings>(state: &S) -> bool
    ensures { (s : State) → S.shows state.now s → result ≡
        ((nat_le 2 s.rank || (s.rank == 1 && length s.queue == 0))
        || (nat_lt s.maximum (steps.slot_count s) && (nat_lt 1 (steps.slot_count s) || length s.queue == 0))) }
{
    let is_empty = state.queued() == 0;
    let is_over = state.rank() >= 2 || (state.rank() == 1 && is_empty);
    let count = state.slot_count();
    // The bracket always holds, since the maximum is at least 1: it is what `getTask` asks, in its order.
    is_over || (count > state.maximum() as usize && (count > 1 || is_empty))
}

/// Whether a worker may time out and has waited its keep-alive.
#[inline(always)]
fn timed_out<S: Readings>(state: &S, stage: Stage) -> bool
    ensures { (s : State) → S.shows state.now s → result ≡ steps.timed_out s stage }
{
    let may = state.slot_count() > state.core() as usize || state.core_timeout();
    may && state.keep() <= state.moment().saturating_sub(since(state, stage))
}

/// Since when a worker waits: since its entry where it is idle, else since now.
#[inline(always)]
fn since<S: Readings>(state: &S, stage: Stage) -> u64
    ensures { (s : State) → S.shows state.now s → result ≡ steps.since s stage }
{
    match stage {
        Stage::Idle(moment) => moment,
        _ => state.moment(),
    }
}

/// The task that a slot holds whose worker works, and its row. UnknownSlot (7) where there is no such slot, NotThere (8) where its
/// worker has none.
#[inline(always)]
fn at_work<S: Readings>(state: &S, v: SlotId) -> Result<(TaskId, TaskRow), PoolError>
    ensures slot { IfOk result (λ x. (s : State) → S.shows state.now s → slot_at s.slots v.0 ≡ Some (record { stage = Stage.Working; task = Some x.0 })) }
    ensures row { IfOk result (λ x. (s : State) → S.shows state.now s → task_at s x.0.0 ≡ x.1) }
    ensures begins { IfErr result (λ e. (s : State) → S.shows state.now s → steps.fitting no_settings s 0 (Ask.Begin v) ≡ Err e) }
    ensures ends { IfErr result (λ e. (o : Outcome) (s : State) → S.shows state.now s → steps.fitting no_settings s 0 (Ask.End v o) ≡ Err e) }
{
    let row = seated(state, v)?;
    let (Stage::Working, Some(t)) = (row.stage, row.task) else {
        return Err(PoolError::NotThere);
    };
    match state.task(t) {
        Some(row) => Ok((t, row)),
        None => Err(PoolError::NotThere),
    }
}

/// What a worker begins: the task that it took, or nothing, where that was cancelled. UnknownSlot (7) where there is no such slot,
/// NotThere (8) where its worker has taken no task.
#[inline(always)]
pub fn begin<S: Readings>(state: &S, v: SlotId) -> Result<Started, PoolError>
    ensures { Answers (S.shows state.now) (Ask.Begin v) (λ x. Did.Begin v x) result }
{
    let (t, row) = at_work(state, v)?;
    match row.place {
        // A cancel may have come since the task was taken. One that comes after this can no longer keep the body from running.
        Place::Taken(_) if row.cancelled => Ok(Started::Skip(t)),
        Place::Taken(_) => Ok(Started::Run(t)),
        _ => Err(PoolError::NotThere),
    }
}

/// Which task a worker ends, whatever its outcome. UnknownSlot (7) where there is no such slot, NotThere (8) where its worker
/// runs no task.
#[inline(always)]
pub fn end<S: Readings>(state: &S, v: SlotId) -> Result<TaskId, PoolError>
    ensures { MatchResult result
        (λ t. (o : Outcome) (s : State) → S.shows state.now s → steps.fitting no_settings s 0 (Ask.End v o) ≡ Ok (Did.End v t o))
        (λ e. (o : Outcome) (s : State) → S.shows state.now s → steps.fitting no_settings s 0 (Ask.End v o) ≡ Err e) }
{
    let (t, row) = at_work(state, v)?;
    match row.place {
        Place::Running(_) => Ok(t),
        _ => Err(PoolError::NotThere),
    }
}

/// Whether a dying worker that leaves is followed by another one, whose slot gets the number `w`: where the pool wants a worker
/// and the other slots are below the maximum. UnknownSlot (7) or NotThere (8).
pub fn leave<S: Readings>(state: &S, w: SlotId, v: SlotId) -> Result<Option<SlotId>, PoolError>
    ensures answers { AnswersAt (S.shows state.now) w.0 (Ask.Leave v) (λ x. Did.Leave v x) result }
    ensures next { IfOk result (λ o. IfSome o (λ x. x ≡ w)) }
{
    let row = seated(state, v)?;
    let Stage::Dying = row.stage else {
        return Err(PoolError::NotThere);
    };
    // The place is taken in the same step as it is left: else tasks that wait in the queue could be without a worker.
    let others = state.slot_count().saturating_sub(1);
    if wants_worker(state) && others < state.maximum() as usize {
        Ok(Some(w))
    } else {
        Ok(None)
    }
}
