//! A pool without slots goes on to its terminated hook, as `tryTerminate` does.

ghost use Rattle.std.specs.Prelude.{refl};
ghost use Rattle.tp_machine_state.specs.Steps.{Fits};

use tp_machine_state::parts::Parts;
use tp_machine_state::step::Step;
use tp_record::entries::{Ask, Did};
use tp_rules::controllers::tidy;
use tp_types::refusals::PoolError;
use tp_types::states::RunState;

/// A pool without slots goes on to its terminated hook.
#[derive(Clone, Copy)]
pub struct Tidy;

impl<P> Step<P> for Tidy {
    ghost use Rattle.tp_record.specs.declared.entries.Ask.TheVariants as ask;
    ghost use Rattle.tp_record.specs.declared.entries.Did.TheVariants as did;
    ghost use Rattle.tp_machine_state.proofs.Standing.{accepts_owed};

    type Answer = ();

    type Out = ();

    ghost ask = { λ s. ask.Tidy };

    ghost did = { λ s x. did.Tidy };

    ghost fits = { λ s x p. Fits p ask.Tidy did.Tidy };

    ghost accepts = { λ s x p stands fits. accepts_owed p stands ask.Tidy did.Tidy (λ n. refl) fits };

    fn ask(self) -> Ask {
        Ask::Tidy
    }

    fn did(self, _answer: &()) -> Did {
        Did::Tidy
    }

    // No slot may be left, and nothing queued that could run: at stop nothing can. NotThere (8).
    fn answer(self, parts: &Parts<P>) -> Result<(), PoolError> {
        tidy(parts)
    }

    // The pool is tidying: its terminated hook is to run.
    fn apply(self, parts: &mut Parts<P>, _answer: ()) {
        parts.count_entry(parts.owed_until(RunState::Tidying));
        parts.reach(RunState::Tidying);
    }
}
