//! A worker has run its task, as where the task's `run` returns in `runWorker`, and `afterExecute` ran.

ghost use Rattle.std.specs.Prelude.{◌≡◌, ◌↔◌, refl, true, false, IfSome, IsSome, IsTrue};
ghost use Rattle.tp_types.specs.Promise.{FitsPromise};
ghost use Rattle.tp_record.specs.Effects.{Outcome, is_plain_fault};
ghost use Rattle.tp_record.specs.State.{State, task_at};
ghost use Rattle.tp_tasks.specs.Tasks.{promise_of, row_of};
ghost use Rattle.tp_machine_state.specs.Outcomes.{FitsThere};
ghost use Rattle.tp_machine_state.specs.Payloads.{Keeps};
ghost use Rattle.tp_machine_state.specs.Shows.{Shows};
ghost use Rattle.tp_machine_state.specs.Steps.{Stands, Fits, Leads};

use crate::owed::owed_at_take;
use tp_machine_state::parts::Parts;
use tp_machine_state::step::Step;
use tp_record::entries::{Ask, Did};
use tp_record::owed::{DYING, RUNNING, WORKING};
use tp_record::rows::{SlotRow, Stage};
use tp_rules::workers::end;
use tp_types::ids::{SlotId, TaskId};
use tp_types::refusals::PoolError;
use tp_types::tasks::{Fate, Kind, Outcome, Place};

/// A worker has run its task.
#[derive(Clone, Copy)]
pub struct End(pub SlotId, pub Outcome);

impl<P> Step<P> for End {
    ghost use Rattle.tp_record.specs.declared.entries.Ask.TheVariants as ask;
    ghost use Rattle.tp_record.specs.declared.entries.Did.TheVariants as did;
    ghost use Rattle.tp_machine_state.proofs.Standing.{accepts_owed};

    /// Which task the worker ends.
    type Answer = TaskId;

    type Out = ();

    ghost ask = { λ s. ask.End s.0 s.1 };

    ghost did = { λ s x. did.End s.0 x s.1 };

    ghost fits = { λ s x p. Fits p (ask.End s.0 s.1) (did.End s.0 x s.1) × IfSome (promise_of p.tasks x.0) (λ k. FitsPromise k s.1) };

    ghost accepts = { λ s x p stands fits. accepts_owed p stands (ask.End s.0 s.1) (did.End s.0 x s.1) (λ n. refl) fits.0 };

    #[inline(always)]
    fn ask(self) -> Ask {
        Ask::End(self.0, self.1)
    }

    #[inline(always)]
    fn did(self, answer: &TaskId) -> Did {
        Did::End(self.0, *answer, self.1)
    }

    // UnknownSlot (7) where there is no such slot, NotThere (8) where its worker runs no task, TornRecord (22) where the outcome is
    // not as the task promised.
    #[inline(always)]
    fn answer(self, parts: &Parts<P>) -> Result<TaskId, PoolError> {
        if fits_there(parts, self.0, &self.1) {
            end(parts, self.0)
        } else {
            Err(PoolError::TornRecord)
        }
    }

    // The worker's task ended with this outcome, which is as it promised.
    #[inline(always)]
    fn apply(self, parts: &mut Parts<P>, t: TaskId) {
        if is_plain_fault(parts, t, self.1) {
            dies(parts, self.0, t, self.1);
        } else {
            works(parts, self.0, t, self.1);
        }
    }
}

/// Whether the outcome is as the task promised that runs in this slot, where one does. The `end` of a task that is only held or
/// taken is refused with NotThere (8), whatever the outcome.
#[inline(always)]
pub fn fits_there<P>(parts: &Parts<P>, w: SlotId, outcome: &Outcome) -> bool
    ensures { IsTrue result ↔ FitsThere parts.now w outcome.now }
{
    let Some(SlotRow { task: Some(t), .. }) = parts.slots.get(w) else {
        return true;
    };
    match (parts.tasks.row(t), parts.tasks.promise(t)) {
        (Some(row), Some(promise)) if row.place == Place::Running(w) => promise.fits(outcome),
        _ => true,
    }
}

/// Whether the task is plain, so that nobody keeps its fault, and this is one. It ends the worker, as an exception that
/// leaves `run` does.
#[inline(always)]
fn is_plain_fault<P>(parts: &Parts<P>, t: TaskId, outcome: Outcome) -> bool
    requires known { IsSome (row_of parts.now.tasks t.0) }
    ensures { (s : State) (w : SlotId) → Shows parts.now s →
        result ≡ is_plain_fault (Did.End w t outcome) (λ u. (task_at s u).kind) }
{
    let Some(row) = parts.tasks.row(t) else {
        unreachable!()
    };
    row.kind == Kind::Plain && outcome.is_err()
}

/// The worker ends its task, and is about to take.
#[inline(always)]
fn works<P>(parts: &mut Parts<P>, w: SlotId, t: TaskId, outcome: Outcome)
    requires stands { Stands parts.old }
    requires fits { Fits parts.old (Ask.End w outcome) (Did.End w t outcome) }
    requires promised { IfSome (promise_of parts.old.tasks t.0) (λ p. FitsPromise p outcome) }
    requires lives { (s : State) → Shows parts.old s →
        is_plain_fault (Did.End w t outcome) (λ u. (task_at s u).kind) ≡ false }
    ensures leads { Leads parts.old (Did.End w t outcome) parts.new }
    ensures payloads { Keeps parts.old.tasks parts.new.tasks }
{
    parts.count_entry(RUNNING + WORKING - owed_at_take(parts.state));
    parts.complete_task(t, Fate::Run, outcome);
    parts.set_slot(
        w,
        SlotRow {
            stage: Stage::Working,
            task: None,
        },
    );
    parts.count_completion();
}

/// The worker ends a plain task with a fault, and is about to leave.
#[inline(never)]
fn dies<P>(parts: &mut Parts<P>, w: SlotId, t: TaskId, outcome: Outcome)
    requires stands { Stands parts.old }
    requires fits { Fits parts.old (Ask.End w outcome) (Did.End w t outcome) }
    requires promised { IfSome (promise_of parts.old.tasks t.0) (λ p. FitsPromise p outcome) }
    requires dies { (s : State) → Shows parts.old s →
        is_plain_fault (Did.End w t outcome) (λ u. (task_at s u).kind) ≡ true }
    ensures leads { Leads parts.old (Did.End w t outcome) parts.new }
    ensures payloads { Keeps parts.old.tasks parts.new.tasks }
{
    parts.count_entry(RUNNING + WORKING - DYING);
    parts.complete_task(t, Fate::Run, outcome);
    parts.set_slot(
        w,
        SlotRow {
            stage: Stage::Dying,
            task: None,
        },
    );
    parts.count_completion();
}
