//! The rules of submitters' steps.

ghost use Rattle.std.specs.Prelude.{ℕ, ◌≡◌, ◌<◌, true, List, Ok, Err, None, IfOk, IfErr, IfSome, slice_get};
ghost use Rattle.tp_types.specs.declared.configs.Config.{Config};
ghost use Rattle.tp_record.specs.Effects.{Outcome, reserves, reserved_looked};
ghost use Rattle.tp_record.specs.State.{State, task_at};
ghost use Rattle.tp_record.specs.Step as steps;
ghost use Rattle.tp_rules.specs.Answers.{no_settings, Answers, AnswersAt, AnswersBy};

use crate::readings::{Readings, known, wants_worker};
use tp_record::entries::{Ask, Did, Grown, Looked, Offered, Ruled, Seconded};
use tp_record::rows::TaskRow;
use tp_types::configs::{Policy, QueueKind, Verdict};
use tp_types::ids::{SlotId, TaskId};
use tp_types::limits::MAX_RETRIES;
use tp_types::refusals::PoolError;
use tp_types::tasks::Place;

/// What a look for a core slot answers, as the first branch of `execute`: above running the task is refused, below the core
/// size the slot `w` is reserved for it, and else it is to be offered.
#[inline(always)]
pub fn look<S: Readings>(state: &S, w: SlotId) -> Looked
    ensures looked { (s : State) → S.shows state.now s → result ≡ steps.look s w.0 }
    ensures next { IfSome (reserved_looked result) (λ v. v ≡ w.0) }
{
    if state.rank() > 0 {
        Looked::Refuse
    } else if state.slot_count() < state.core() as usize {
        Looked::Reserve(w)
    } else {
        Looked::Queue
    }
}

/// A look after a retry. UnknownTask (6) or NotThere (8).
#[inline(always)]
pub fn look_again<S: Readings>(state: &S, w: SlotId, t: TaskId) -> Result<Looked, PoolError>
    ensures answers { AnswersAt (S.shows state.now) w.0 (Ask.Look t) (λ l. Did.Look t l) result }
    ensures next { IfOk result (λ l. IfSome (reserves (Did.Look t l)) (λ v. v ≡ w.0)) }
{
    let row = known(state, t)?;
    match row.place {
        Place::Looking => Ok(look(state, w)),
        _ => Err(PoolError::NotThere),
    }
}

/// Where an offered task goes: to a worker, to the queue, or to neither. UnknownTask (6) or NotThere (8).
#[inline(always)]
pub fn offer<S: Readings>(state: &S, queue: QueueKind, t: TaskId) -> Result<Offered, PoolError>
    ensures { AnswersBy (S.shows state.now) (record no_settings { queue = queue }) (Ask.Offer t) (λ o. Did.Offer t o) result }
{
    let row = known(state, t)?;
    match row.place {
        Place::ToOffer => Ok(offer_to(state, queue)),
        _ => Err(PoolError::NotThere),
    }
}

/// Where it goes, whichever task it is. The run state is not looked at: a shutdown may come right after any test of it, so it is
/// the second look that does.
#[inline(always)]
fn offer_to<S: Readings>(state: &S, queue: QueueKind) -> Offered
    ensures { (t : TaskId) (s : State) → S.shows state.now s → steps.offer_to queue s t ≡ Ok (Did.Offer t result) }
{
    match queue {
        QueueKind::Handoff => match state.longest_idle() {
            Some(w) => Offered::Hand(SlotId(w)),
            None => Offered::Full,
        },
        QueueKind::Bounded(capacity) if state.queued() >= capacity as usize => Offered::Full,
        QueueKind::Bounded(_) | QueueKind::Unbounded | QueueKind::Priority => Offered::Queued,
    }
}

/// The second look after an offer. UnknownTask (6) or NotThere (8).
#[inline(always)]
pub fn second<S: Readings>(state: &S, w: SlotId, t: TaskId) -> Result<Seconded, PoolError>
    ensures answers { AnswersAt (S.shows state.now) w.0 (Ask.Second t) (λ x. Did.Second t x) result }
    ensures next { IfOk result (λ x. IfSome (reserves (Did.Second t x)) (λ v. v ≡ w.0)) }
{
    let row = known(state, t)?;
    if !row.second {
        return Err(PoolError::NotThere);
    }
    // The shutdown may have come after the look and before the offer, which does not see it: such a task is refused after
    // all, unless a worker took it meanwhile.
    if state.rank() > 0 && row.place == Place::Queued {
        return Ok(Seconded::Back);
    }
    // The last worker may have left after the look and before the offer: then nobody would ever take the task.
    if state.slot_count() == 0 && wants_worker(state) {
        return Ok(Seconded::StayReserve(w));
    }
    Ok(Seconded::Stay)
}

/// Whether a slot is made up to the maximum for a task, or it is refused. UnknownTask (6) or NotThere (8).
#[inline(always)]
pub fn grow<S: Readings>(state: &S, w: SlotId, t: TaskId) -> Result<Grown, PoolError>
    ensures answers { AnswersAt (S.shows state.now) w.0 (Ask.Grow t) (λ x. Did.Grow t x) result }
    ensures next { IfOk result (λ x. IfSome (reserves (Did.Grow t x)) (λ v. v ≡ w.0)) }
{
    let row = known(state, t)?;
    let Place::ToGrow = row.place else {
        return Err(PoolError::NotThere);
    };
    // Reserved and live slots count together, so that no two submitters fill the same gap.
    if state.rank() == 0 && state.slot_count() < state.maximum() as usize {
        Ok(Grown::Reserve(w))
    } else {
        Ok(Grown::Refuse)
    }
}

/// Whether a policy lets this verdict be said: the pool's own, or any where a handler answers.
fn allows(policy: Policy, verdict: Verdict) -> bool
    ensures { result ≡ steps.allows policy verdict }
{
    match policy {
        Policy::Own => true,
        Policy::Abort => verdict == Verdict::Abort,
        Policy::CallerRuns => verdict == Verdict::CallerRuns,
        Policy::Discard => verdict == Verdict::Discard,
        Policy::DiscardOldest => verdict == Verdict::DiscardOldest,
    }
}

/// The row of a refused task on which a policy lets this verdict be said. UnknownTask (6) or NotThere (8).
pub fn refused<S: Readings>(
    state: &S,
    policy: Policy,
    t: TaskId,
    verdict: Verdict,
) -> Result<TaskRow, PoolError>
    ensures row { IfOk result (λ r. (s : State) → S.shows state.now s → (steps.is_known s t.0 ≡ true) × (task_at s t.0 ≡ r)) }
    ensures place { IfOk result (λ r. r.place ≡ Place.Refused) }
    ensures allowed { IfOk result (λ r. steps.allows policy verdict ≡ true) }
    ensures denies { IfErr result (λ e. (c : Config) (s : State) → S.shows state.now s
        → steps.fitting (record c { policy = policy }) s 0 (Ask.Verdict t verdict) ≡ Err e) }
{
    let row = known(state, t)?;
    let Place::Refused = row.place else {
        return Err(PoolError::NotThere);
    };
    if allows(policy, verdict) {
        Ok(row)
    } else {
        Err(PoolError::NotThere)
    }
}

/// What a verdict makes of a refused task with this row, None where it is to retry if there is room. Once the pool is shut
/// down, only rejected and discarded are left.
pub fn rule<S: Readings>(state: &S, row: TaskRow, verdict: Verdict) -> Option<Ruled>
    ensures ruled { IfSome result (λ r. (c : Config) (t : TaskId) (s : State) → S.shows state.now s → r ≡ steps.rule c s t row verdict) }
    ensures retries { result ≡ None → verdict ≡ Verdict.DiscardOldest }
    ensures few { result ≡ None → row.retries < 64 }
    ensures runs { result ≡ None → (s : State) → S.shows state.now s → s.rank ≡ 0 }
{
    match verdict {
        Verdict::Abort => Some(Ruled::Rejected),
        Verdict::Discard => Some(Ruled::Discarded),
        Verdict::CallerRuns if state.rank() > 0 => Some(Ruled::Discarded),
        Verdict::CallerRuns if row.cancelled => Some(Ruled::Skip),
        Verdict::CallerRuns => Some(Ruled::Caller),
        Verdict::DiscardOldest if state.rank() > 0 => Some(Ruled::Discarded),
        Verdict::DiscardOldest if row.retries >= MAX_RETRIES => Some(Ruled::Discarded),
        Verdict::DiscardOldest => None,
    }
}

/// The retry that there is: it drops the queue's head, where there is one.
pub fn retry_of(head: Option<u32>) -> Ruled
    ensures { (queue : List ℕ) → head ≡ slice_get queue 0 → result ≡ steps.retry_of queue }
{
    match head {
        Some(t) => Ruled::RetryDrop(TaskId(t)),
        None => Ruled::Retry,
    }
}

/// A submitter has run its task itself. UnknownTask (6) or NotThere (8).
pub fn caller_end<S: Readings>(state: &S, t: TaskId) -> Result<(), PoolError>
    ensures { (o : Outcome) → Answers (S.shows state.now) (Ask.CallerEnd t o) (λ x. Did.CallerEnd t o) result }
{
    let row = known(state, t)?;
    match row.place {
        Place::Caller => Ok(()),
        _ => Err(PoolError::NotThere),
    }
}
