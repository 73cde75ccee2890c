//! A submitter has run its task itself, as under `CallerRunsPolicy`.

ghost use Rattle.std.specs.Prelude.{refl, IfSome};
ghost use Rattle.tp_types.specs.Promise.{FitsPromise};
ghost use Rattle.tp_record.specs.Effects.{Outcome};
ghost use Rattle.tp_tasks.specs.Tasks.{promise_of};
ghost use Rattle.tp_machine_state.specs.Payloads.{Keeps};
ghost use Rattle.tp_machine_state.specs.Steps.{Stands, Fits, Leads};

use tp_machine_state::parts::Parts;
use tp_machine_state::step::Step;
use tp_record::entries::{Ask, Did};
use tp_record::owed::AT_CALLER;
use tp_types::ids::TaskId;
use tp_types::refusals::PoolError;
use tp_types::tasks::{Fate, Outcome, Place};

/// The task's caller ran it to this outcome.
#[derive(Clone, Copy)]
pub struct CallerEnd(pub TaskId, pub Outcome);

impl<P> Step<P> for CallerEnd {
    ghost use Rattle.tp_record.specs.declared.entries.Ask.TheVariants as ask;
    ghost use Rattle.tp_record.specs.declared.entries.Did.TheVariants as did;
    ghost use Rattle.tp_machine_state.proofs.Standing.{accepts_owed};

    type Answer = ();

    type Out = ();

    ghost ask = { λ s. ask.CallerEnd s.0 s.1 };

    ghost did = { λ s x. did.CallerEnd s.0 s.1 };

    ghost fits = { λ s x p. Fits p (ask.CallerEnd s.0 s.1) (did.CallerEnd s.0 s.1) × IfSome (promise_of p.tasks s.0.0) (λ k. FitsPromise k s.1) };

    ghost accepts = { λ s x p stands fits. accepts_owed p stands (ask.CallerEnd s.0 s.1) (did.CallerEnd s.0 s.1) (λ n. refl) fits.0 };

    fn ask(self) -> Ask {
        Ask::CallerEnd(self.0, self.1)
    }

    fn did(self, _answer: &()) -> Did {
        Did::CallerEnd(self.0, self.1)
    }

    // UnknownTask (6) where there is no such task, NotThere (8) where its submitter does not run it.
    fn answer(self, parts: &Parts<P>) -> Result<(), PoolError> {
        match parts.tasks.row(self.0) {
            None => Err(PoolError::UnknownTask),
            Some(row) if row.place == Place::Caller => match parts.tasks.promise(self.0) {
                Some(promise) if !promise.fits(&self.1) => Err(PoolError::TornRecord),
                _ => Ok(()),
            },
            Some(_) => Err(PoolError::NotThere),
        }
    }

    fn apply(self, parts: &mut Parts<P>, _answer: ()) {
        apply(parts, self.0, self.1)
    }
}

/// Makes an accepted answer: the submitter ended its task with this outcome, which is as its job promised. The task is
/// gone, with the fate run by its caller, unless it was cancelled meanwhile.
fn apply<P>(parts: &mut Parts<P>, t: TaskId, outcome: Outcome)
    requires stands { Stands parts.old }
    requires fits { Fits parts.old (Ask.CallerEnd t outcome) (Did.CallerEnd t outcome) }
    requires promised { IfSome (promise_of parts.old.tasks t.0) (λ p. FitsPromise p outcome) }
    ensures leads { Leads parts.old (Did.CallerEnd t outcome) parts.new }
    ensures payloads { Keeps parts.old.tasks parts.new.tasks }
{
    parts.count_entry(AT_CALLER);
    parts.complete_task(t, Fate::RunByCaller, outcome);
}
