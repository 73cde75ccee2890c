//! The answers to asks, over what is read of a pool.

ghost use Rattle.std.specs.Prelude.{ℕ, ◌≡◌, ◌+◌, length, nat_le, Ok, Err, MatchResult, IfOk, IsOkUnless, OnErr, ⊤};
ghost use Rattle.tp_record.specs.State as states;
ghost use Rattle.tp_record.specs.State.{State};
ghost use Rattle.tp_record.specs.Step as steps;
ghost use Rattle.tp_rules.specs.Answers.{IsRefused};
ghost use Rattle.tp_rules.specs.PlainState.{shown, IsAnswer, IsSmall};

use crate::controllers::{
    cancel, core, core_timeout, ended, keep, maximum, prestart, remove, take_done, tick, tidy,
};
use crate::next::next;
use crate::plain_state::PlainState;
use crate::readings::{FullReadings, Readings};
use crate::submitters::{
    caller_end, grow, look, look_again, offer, refused, retry_of, rule, second,
};
use crate::weights::due;
use crate::workers::{begin, end, fail, leave, open, take};
use std::alloc::Global;
use tp_record::entries::{Ask, Did, Ruled};
use tp_record::rows::TaskRow;
use tp_types::configs::{Config, Verdict};
use tp_types::ids::{SlotId, TaskId};
use tp_types::refusals::PoolError;
use tp_types::tasks::Kind;

/// Whether there is room for what is owed.
pub fn has_room(config: &Config, state: &PlainState) -> bool
    requires { IsSmall 1048577 (shown state.now) }
    ensures { result ≡ nat_le ((shown state.now).steps + states.due (shown state.now)) config.now.record_limit }
{
    u64::from(state.steps) + due(state) <= u64::from(config.record_limit)
}

/// Whether the room left after this entry is at least what is owed then.
pub fn leaves_room(
    alloc: Global,
    config: &Config,
    state: &PlainState,
    did: Did,
) -> Result<bool, PoolError>
    requires { IsSmall 1048576 (shown state.now) }
    ensures leaves { IfOk result (λ b. b ≡ steps.leaves_room config.now (shown state.now) did) }
    ensures refused { IsOkUnless result PoolError.NoMemory }
{
    let after = next(alloc, state, did)?;
    Ok(has_room(config, &after))
}

/// What an allowed verdict makes of a refused task with this row.
fn ruled<S: FullReadings>(
    alloc: Global,
    config: &Config,
    state: &S,
    t: TaskId,
    row: TaskRow,
    verdict: Verdict,
) -> Result<Ruled, PoolError>
    requires stands { S.stands state.now config.now }
    requires refused { (s : State) → S.shows state.now s → IsRefused s t.0 row }
    ensures ruled { IfOk result (λ r. (s : State) → S.shows state.now s → r ≡ steps.rule config.now s t row verdict) }
    ensures memory { IsOkUnless result PoolError.NoMemory }
    ensures lacks { OnErr result S.lacks }
{
    if let Some(ruled) = rule(state, row, verdict) {
        return Ok(ruled);
    }
    if state.may_retry(alloc, config, t)? {
        Ok(retry_of(state.head()))
    } else {
        Ok(Ruled::Discarded)
    }
}

/// The answer to a verdict.
fn verdict_answer<S: FullReadings>(
    alloc: Global,
    config: &Config,
    state: &S,
    t: TaskId,
    verdict: Verdict,
) -> Result<Did, PoolError>
    requires { S.stands state.now config.now }
    ensures { (s : State) → S.shows state.now s → IsAnswer S.lacks result (steps.fitting config.now s 0 (Ask.Verdict t verdict)) }
{
    let row = match refused(state, config.policy, t, verdict) {
        Ok(row) => row,
        Err(refusal) => return Err(refusal),
    };
    let ruled = ruled(alloc, config, state, t, row, verdict)?;
    Ok(Did::Verdict(t, verdict, ruled))
}

/// The answer to a submission. BookFull (5) where the task's number would be 4,294,967,295.
fn submit_answer<S: Readings>(
    state: &S,
    w: SlotId,
    kind: Kind,
    priority: u32,
) -> Result<Did, PoolError>
    ensures { (s : State) → S.shows state.now s → result ≡ steps.submit_answer s w.0 kind priority }
{
    let count = state.submitted();
    if count < 4_294_967_295 {
        let t = TaskId(count as u32);
        Ok(Did::Submit(t, kind, priority, look(state, w)))
    } else {
        Err(PoolError::BookFull)
    }
}

/// The entry where the step fits that makes it.
fn told(answer: Result<(), PoolError>, did: Did) -> Result<Did, PoolError>
    ensures { MatchResult answer (λ x. result ≡ Ok did) (λ e. result ≡ Err e) }
{
    answer?;
    Ok(did)
}

/// The answer where the step fits, without a look at the room; a slot that is made gets the number `w`.
pub fn fitting<S: FullReadings>(
    alloc: Global,
    config: &Config,
    state: &S,
    w: SlotId,
    ask: Ask,
) -> Result<Did, PoolError>
    requires { S.stands state.now config.now }
    ensures { (s : State) → S.shows state.now s → IsAnswer S.lacks result (steps.fitting config.now s w.0 ask) }
{
    match ask {
        Ask::Submit(kind, priority) => submit_answer(state, w, kind, priority),
        Ask::Look(t) => Ok(Did::Look(t, look_again(state, w, t)?)),
        Ask::Offer(t) => Ok(Did::Offer(t, offer(state, config.queue, t)?)),
        Ask::Second(t) => Ok(Did::Second(t, second(state, w, t)?)),
        Ask::Grow(t) => Ok(Did::Grow(t, grow(state, w, t)?)),
        Ask::Verdict(t, verdict) => verdict_answer(alloc, config, state, t, verdict),
        Ask::CallerEnd(t, outcome) => told(caller_end(state, t), Did::CallerEnd(t, outcome)),
        Ask::Open(v) => Ok(Did::Open(v, open(state, v)?)),
        Ask::Fail(v) => Ok(Did::Fail(v, fail(state, v)?)),
        Ask::Take(v) => Ok(Did::Take(v, take(state, v)?)),
        Ask::Begin(v) => Ok(Did::Begin(v, begin(state, v)?)),
        Ask::End(v, outcome) => Ok(Did::End(v, end(state, v)?, outcome)),
        Ask::Leave(v) => Ok(Did::Leave(v, leave(state, w, v)?)),
        Ask::Shutdown => Ok(Did::Shutdown),
        Ask::Stop => Ok(Did::Stop(state.waiting(config))),
        Ask::Tidy => told(tidy(state), Did::Tidy),
        Ask::Ended => told(ended(state), Did::Ended),
        Ask::Remove(t) => Ok(Did::Remove(t, remove(state, t)?)),
        Ask::Purge => Ok(Did::Purge(state.cancelled_count(config))),
        Ask::Cancel(t, flag) => Ok(Did::Cancel(t, flag, cancel(state, t, flag)?)),
        Ask::TakeDone(group) => Ok(Did::TakeDone(group, take_done(state, group)?)),
        Ask::Core(size) => Ok(Did::Core(size, core(state, size)?)),
        Ask::Maximum(size) => told(maximum(state, size), Did::Maximum(size)),
        Ask::Keep(ticks) => told(keep(state, ticks), Did::Keep(ticks)),
        Ask::CoreTimeout(on) => told(core_timeout(state, on), Did::CoreTimeout(on)),
        Ask::Tick(moment) => told(tick(state, moment), Did::Tick(moment)),
        Ask::Prestart => Ok(Did::Prestart(prestart(state, w))),
    }
}

/// The answer to an ask over a plain state, where a slot that is made gets the number `w`.
pub fn step(
    alloc: Global,
    config: &Config,
    state: &PlainState,
    w: SlotId,
    ask: Ask,
) -> Result<Did, PoolError>
    requires { IsSmall 1048576 (shown state.now) }
    ensures { IsAnswer ⊤ result (steps.step config.now (shown state.now) w.0 ask) }
{
    let did = fitting(alloc, config, state, w, ask)?;
    if leaves_room(alloc, config, state, did)? {
        Ok(did)
    } else {
        Err(PoolError::BookFull)
    }
}
