//! The rules of controllers' steps.

ghost use Rattle.std.specs.Prelude.{◌≡◌, ◌&&◌, nat_lt, Ok, IfSome};
ghost use Rattle.tp_record.specs.State.{State};
ghost use Rattle.tp_record.specs.Step as steps;
ghost use Rattle.tp_rules.specs.Answers.{Answers};

use crate::readings::{Readings, known, wants_worker};
use tp_record::entries::{Ask, Did};
use tp_types::configs::are_good_sizes;
use tp_types::ids::{SlotId, TaskId};
use tp_types::refusals::PoolError;
use tp_types::tasks::{Kind, Place};

/// A pool without slots, and with nothing queued that could run, goes on to its terminated hook: at stop nothing can. NotThere (8).
pub fn tidy<S: Readings>(state: &S) -> Result<(), PoolError>
    ensures { Answers (S.shows state.now) Ask.Tidy (λ x. Did.Tidy) result }
{
    // A queued task would be left to nobody: its second look reserves a slot for it
    let is_over = state.rank() == 2 || (state.rank() == 1 && state.queued() == 0);
    if state.slot_count() == 0 && is_over {
        Ok(())
    } else {
        Err(PoolError::NotThere)
    }
}

/// The terminated hook has run. NotThere (8).
pub fn ended<S: Readings>(state: &S) -> Result<(), PoolError>
    ensures { Answers (S.shows state.now) Ask.Ended (λ x. Did.Ended) result }
{
    if state.rank() == 3 {
        Ok(())
    } else {
        Err(PoolError::NotThere)
    }
}

/// Whether the task is in the queue, so that it can be removed. UnknownTask (6).
pub fn remove<S: Readings>(state: &S, t: TaskId) -> Result<bool, PoolError>
    ensures { Answers (S.shows state.now) (Ask.Remove t) (λ b. Did.Remove t b) result }
{
    let row = known(state, t)?;
    Ok(row.place == Place::Queued)
}

/// Whether the cancel of a future has effect: it has no fate yet. UnknownTask (6) or NotFuture (9).
pub fn cancel<S: Readings>(state: &S, t: TaskId, flag: bool) -> Result<bool, PoolError>
    ensures { Answers (S.shows state.now) (Ask.Cancel t flag) (λ b. Did.Cancel t flag b) result }
{
    let row = known(state, t)?;
    if row.kind == Kind::Plain {
        return Err(PoolError::NotFuture);
    }
    Ok(row.is_open())
}

/// The group's task that was completed first and is not handed out. NotThere (8).
pub fn take_done<S: Readings>(state: &S, group: u32) -> Result<TaskId, PoolError>
    ensures { Answers (S.shows state.now) (Ask.TakeDone group) (λ t. Did.TakeDone group t) result }
{
    match state.first_done(group) {
        Some(t) => Ok(TaskId(t)),
        None => Err(PoolError::NotThere),
    }
}

/// How many prestarts a core size asks for: as many as it is larger, but no more than there are tasks in the queue. BadSizes (1)
/// where the maximum is smaller.
pub fn core<S: Readings>(state: &S, size: u32) -> Result<u32, PoolError>
    ensures { Answers (S.shows state.now) (Ask.Core size) (λ n. Did.Core size n) result }
{
    if state.maximum() < size {
        return Err(PoolError::BadSizes);
    }
    let increase = size.saturating_sub(state.core()) as usize;
    Ok(increase.min(state.queued()) as u32)
}

/// The maximum size may be so many workers. BadSizes (1) where it is 0, above 1,024 or below the core size.
pub fn maximum<S: Readings>(state: &S, size: u32) -> Result<(), PoolError>
    ensures { Answers (S.shows state.now) (Ask.Maximum size) (λ x. Did.Maximum size) result }
{
    if are_good_sizes(state.core(), size) {
        Ok(())
    } else {
        Err(PoolError::BadSizes)
    }
}

/// The keep-alive may be so many ticks. KeepZero (11) where it is 0 and core workers time out.
pub fn keep<S: Readings>(state: &S, ticks: u64) -> Result<(), PoolError>
    ensures { Answers (S.shows state.now) (Ask.Keep ticks) (λ x. Did.Keep ticks) result }
{
    if ticks == 0 && state.core_timeout() {
        return Err(PoolError::KeepZero);
    }
    Ok(())
}

/// Core workers may time out, or not. KeepZero (11) where the keep-alive is 0 and they are to.
pub fn core_timeout<S: Readings>(state: &S, on: bool) -> Result<(), PoolError>
    ensures { Answers (S.shows state.now) (Ask.CoreTimeout on) (λ x. Did.CoreTimeout on) result }
{
    if on && state.keep() == 0 {
        return Err(PoolError::KeepZero);
    }
    Ok(())
}

/// The moment may be this tick. ClockBack (10) where it was later already.
pub fn tick<S: Readings>(state: &S, moment: u64) -> Result<(), PoolError>
    ensures { Answers (S.shows state.now) (Ask.Tick moment) (λ x. Did.Tick moment) result }
{
    if moment < state.moment() {
        return Err(PoolError::ClockBack);
    }
    Ok(())
}

/// Whether a core worker is missing that the pool wants.
fn lacks_core_worker<S: Readings>(state: &S) -> bool
    ensures { (s : State) → S.shows state.now s → result ≡ (nat_lt (steps.slot_count s) s.core && steps.wants_worker s) }
{
    state.slot_count() < state.core() as usize && wants_worker(state)
}

/// The bare slot that a prestart reserves, `w`, where a core worker is missing that the pool wants.
pub fn prestart<S: Readings>(state: &S, w: SlotId) -> Option<SlotId>
    ensures answers { (s : State) → S.shows state.now s → steps.prestart_answer s w.0 ≡ Ok (Did.Prestart result) }
    ensures next { IfSome result (λ v. v ≡ w) }
{
    if lacks_core_worker(state) {
        Some(w)
    } else {
        None
    }
}
