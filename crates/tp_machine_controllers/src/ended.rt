//! The terminated hook has run, as at the end of `tryTerminate`.

ghost use Rattle.std.specs.Prelude.{refl};
ghost use Rattle.tp_machine_state.specs.Steps.{Fits};

use tp_machine_state::parts::Parts;
use tp_machine_state::step::Step;
use tp_record::entries::{Ask, Did};
use tp_rules::controllers::ended;
use tp_types::refusals::PoolError;
use tp_types::states::RunState;

/// The terminated hook has run.
#[derive(Clone, Copy)]
pub struct Ended;

impl<P> Step<P> for Ended {
    ghost use Rattle.tp_record.specs.declared.entries.Ask.TheVariants as ask;
    ghost use Rattle.tp_record.specs.declared.entries.Did.TheVariants as did;
    ghost use Rattle.tp_machine_state.proofs.Standing.{accepts_owed};

    type Answer = ();

    type Out = ();

    ghost ask = { λ s. ask.Ended };

    ghost did = { λ s x. did.Ended };

    ghost fits = { λ s x p. Fits p ask.Ended did.Ended };

    ghost accepts = { λ s x p stands fits. accepts_owed p stands ask.Ended did.Ended (λ n. refl) fits };

    fn ask(self) -> Ask {
        Ask::Ended
    }

    fn did(self, _answer: &()) -> Did {
        Did::Ended
    }

    // NotThere (8).
    fn answer(self, parts: &Parts<P>) -> Result<(), PoolError> {
        ended(parts)
    }

    fn apply(self, parts: &mut Parts<P>, _answer: ()) {
        parts.count_entry(parts.owed_until(RunState::Terminated));
        parts.reach(RunState::Terminated);
    }
}
