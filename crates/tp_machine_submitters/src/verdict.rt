//! What becomes of a task that the pool refused, as its `RejectedExecutionHandler` says.

ghost use Rattle.std.specs.Prelude.{ℕ, ◌≡◌, ◌≤◌, true, is_some, List, Some, None};
ghost use Rattle.tp_record.specs.declared.entries.Entry.{Entry};
ghost use Rattle.tp_record.specs.Left.{mark};
ghost use Rattle.tp_record.specs.State.{State, state, task_at};
ghost use Rattle.tp_record.specs.Step.{Legal, is_known, rule};
ghost use Rattle.tp_machine_state.specs.Payloads.{Keeps, HandsOut};
ghost use Rattle.tp_machine_state.specs.Shows.{Reads};
ghost use Rattle.tp_machine_state.specs.Steps.{Stands, Accepts, Leads};
ghost use Rattle.tp_machine_state.specs.Terms.{terms};
ghost use Rattle.tp_machine_submitters.specs.Owed.{retry_rise};

use tp_machine_state::parts::Parts;
use tp_machine_state::step::Step;
use tp_record::entries::{Ask, Did, Ruled};
use tp_record::owed::{AT_CALLER, LOOKING, QUEUED, REFUSED};
use tp_record::rows::TaskRow;
use tp_rules::readings::Readings;
use tp_rules::submitters::{refused, retry_of, rule};
use tp_types::configs::Verdict;
use tp_types::ids::TaskId;
use tp_types::refusals::PoolError;
use tp_types::tasks::{Fate, Place};

/// The policy or a handler says what becomes of a refused task.
#[derive(Clone, Copy)]
pub struct Judge(pub TaskId, pub Verdict);

impl<P> Step<P> for Judge {
    ghost use Rattle.tp_record.specs.declared.entries.Ask.TheVariants as ask;
    ghost use Rattle.tp_record.specs.declared.entries.Did.TheVariants as did;
    ghost use Rattle.tp_record.specs.declared.entries.Ruled.TheVariants as ruled;
    ghost use Rattle.tp_machine_submitters.specs.Verdicts.{Yields};

    /// What the verdict makes of the refused task. There is room for it, also where it is a retry.
    type Answer = Ruled;

    /// The payload of the task that waits no more, if it still had one: the refused task's own, or the dropped head's where
    /// the refused task is to look again.
    type Out = Option<P>;

    ghost ask = { λ s. ask.Verdict s.0 s.1 };

    ghost did = { λ s x. did.Verdict s.0 s.1 x };

    ghost fits = { λ s x p. Accepts p (ask.Verdict s.0 s.1) (did.Verdict s.0 s.1 x) };

    ghost moves = { λ s x o old new. Yields old new s.0 x o × (x ≡ ruled.Caller → is_some o ≡ true) };

    ghost accepts = { λ s x p stands fits. fits };

    fn ask(self) -> Ask {
        Ask::Verdict(self.0, self.1)
    }

    fn did(self, answer: &Ruled) -> Did {
        Did::Verdict(self.0, self.1, *answer)
    }

    // UnknownTask (6) where there is no such task, NotThere (8) where it awaits no verdict or the policy does not allow this
    // one.
    fn answer(self, parts: &Parts<P>) -> Result<Ruled, PoolError> {
        match refused(parts, parts.config.policy, self.0, self.1) {
            Ok(row) => Ok(ruled(parts, self.0, row, self.1)),
            Err(e) => Err(e),
        }
    }

    fn apply(self, parts: &mut Parts<P>, ruled: Ruled) -> Option<P> {
        match ruled {
            Ruled::Rejected => reject(parts, self.0, self.1),
            Ruled::Discarded => discard(parts, self.0, self.1),
            Ruled::Caller => Some(run(parts, self.0, self.1)),
            Ruled::Skip => {
                skip(parts, self.0, self.1);
                None
            }
            Ruled::Retry => {
                retry(parts, self.0, self.1);
                None
            }
            Ruled::RetryDrop(head) => retry_drop(parts, self.0, self.1, head),
        }
    }
}

/// What an allowed verdict makes of a refused task with this row. A retry owes anew all that may follow a look, so its room is
/// tested here. Where there is none the task is discarded: a refusal would leave its submitter with nothing to do.
fn ruled<P>(parts: &Parts<P>, t: TaskId, row: TaskRow, verdict: Verdict) -> Ruled
    requires stands { Stands parts.now }
    requires known { (s : State) → Reads parts.now s → (is_known s t.0 ≡ true) × (task_at s t.0 ≡ row) }
    requires refused { row.place ≡ Place.Refused }
    ensures { (h : List Entry) (rs : List ℕ) → Legal (terms parts.now) h → Reads parts.now (mark rs (state (terms parts.now) h)) →
        result ≡ rule (terms parts.now) (mark rs (state (terms parts.now) h)) t row verdict }
{
    match rule(parts, row, verdict) {
        Some(ruled) => ruled,
        None => {
            let retry = retry_of(parts.head());
            if parts.has_room(0, rise(retry)) {
                retry
            } else {
                Ruled::Discarded
            }
        }
    }
}

/// How many more entries are owed after this retry.
fn rise(retry: Ruled) -> u64
    ensures rise { result ≡ retry_rise retry }
    ensures bound { result ≤ 11 }
{
    match retry {
        Ruled::RetryDrop(_) => LOOKING - REFUSED - QUEUED,
        _ => LOOKING - REFUSED,
    }
}

/// The task is gone, rejected.
fn reject<P>(parts: &mut Parts<P>, t: TaskId, verdict: Verdict) -> Option<P>
    requires stands { Stands parts.old }
    requires accepts { Accepts parts.old (Ask.Verdict t verdict) (Did.Verdict t verdict Ruled.Rejected) }
    ensures leads { Leads parts.old (Did.Verdict t verdict Ruled.Rejected) parts.new }
    ensures payloads { HandsOut parts.old.tasks parts.new.tasks t.0 result }
{
    parts.count_entry(REFUSED);
    parts.finish_task(t, Fate::Rejected)
}

/// The task is gone, discarded.
fn discard<P>(parts: &mut Parts<P>, t: TaskId, verdict: Verdict) -> Option<P>
    requires stands { Stands parts.old }
    requires accepts { Accepts parts.old (Ask.Verdict t verdict) (Did.Verdict t verdict Ruled.Discarded) }
    ensures leads { Leads parts.old (Did.Verdict t verdict Ruled.Discarded) parts.new }
    ensures payloads { HandsOut parts.old.tasks parts.new.tasks t.0 result }
{
    parts.count_entry(REFUSED);
    parts.finish_task(t, Fate::Discarded)
}

/// The submitter runs the task, and has its payload.
fn run<P>(parts: &mut Parts<P>, t: TaskId, verdict: Verdict) -> P
    requires stands { Stands parts.old }
    requires accepts { Accepts parts.old (Ask.Verdict t verdict) (Did.Verdict t verdict Ruled.Caller) }
    ensures leads { Leads parts.old (Did.Verdict t verdict Ruled.Caller) parts.new }
    ensures payloads { HandsOut parts.old.tasks parts.new.tasks t.0 (Some result) }
{
    parts.count_entry(REFUSED - AT_CALLER);
    parts.begin_task(t, Place::Caller)
}

/// The task was cancelled: it is gone, and its payload went out with the cancel.
fn skip<P>(parts: &mut Parts<P>, t: TaskId, verdict: Verdict)
    requires stands { Stands parts.old }
    requires accepts { Accepts parts.old (Ask.Verdict t verdict) (Did.Verdict t verdict Ruled.Skip) }
    ensures leads { Leads parts.old (Did.Verdict t verdict Ruled.Skip) parts.new }
    ensures payloads { HandsOut parts.old.tasks parts.new.tasks t.0 None }
{
    parts.count_entry(REFUSED);
    parts.place_task(t, Place::Gone);
}

/// The task is to look again.
fn retry<P>(parts: &mut Parts<P>, t: TaskId, verdict: Verdict)
    requires stands { Stands parts.old }
    requires accepts { Accepts parts.old (Ask.Verdict t verdict) (Did.Verdict t verdict Ruled.Retry) }
    ensures leads { Leads parts.old (Did.Verdict t verdict Ruled.Retry) parts.new }
    ensures payloads { Keeps parts.old.tasks parts.new.tasks }
{
    parts.count_rising_entry(rise(Ruled::Retry));
    parts.retry_task(t);
}

/// The task is to look again in place of the queue's head, which is gone, discarded.
fn retry_drop<P>(parts: &mut Parts<P>, t: TaskId, verdict: Verdict, head: TaskId) -> Option<P>
    requires stands { Stands parts.old }
    requires accepts { Accepts parts.old (Ask.Verdict t verdict) (Did.Verdict t verdict (Ruled.RetryDrop head)) }
    ensures leads { Leads parts.old (Did.Verdict t verdict (Ruled.RetryDrop head)) parts.new }
    ensures payloads { HandsOut parts.old.tasks parts.new.tasks head.0 result }
{
    parts.count_rising_entry(rise(Ruled::RetryDrop(head)));
    parts.dequeue();
    let payload = parts.finish_task(head, Fate::Discarded);
    parts.retry_task(t);
    payload
}
