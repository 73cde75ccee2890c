//! The pool is shut down, as `shutdown` does: earlier tasks run, and no new one is accepted.

ghost use Rattle.tp_machine_state.specs.Steps.{Accepts};

use tp_machine_state::parts::Parts;
use tp_machine_state::step::Step;
use tp_record::entries::{Ask, Did};
use tp_types::refusals::PoolError;
use tp_types::states::RunState;

/// `shutdown`.
#[derive(Clone, Copy)]
pub struct Shutdown;

impl<P> Step<P> for Shutdown {
    ghost use Rattle.tp_record.specs.declared.entries.Ask.TheVariants as ask;
    ghost use Rattle.tp_record.specs.declared.entries.Did.TheVariants as did;

    type Answer = ();

    type Out = ();

    ghost ask = { λ s. ask.Shutdown };

    ghost did = { λ s x. did.Shutdown };

    ghost fits = { λ s x p. Accepts p ask.Shutdown did.Shutdown };

    ghost accepts = { λ s x p stands fits. fits };

    fn ask(self) -> Ask {
        Ask::Shutdown
    }

    fn did(self, _answer: &()) -> Did {
        Did::Shutdown
    }

    // A shutdown always fits, a second one too. BookFull (5), which only a pool that is shut down answers.
    fn answer(self, parts: &Parts<P>) -> Result<(), PoolError> {
        parts.in_room(Ok(()), parts.owed_until(RunState::Shutdown), 0)
    }

    // The pool is shut down, unless it has come further, and idle workers wake: each is to see that it leaves, or that tasks are
    // left.
    fn apply(self, parts: &mut Parts<P>, _answer: ()) {
        parts.count_entry(parts.owed_until(RunState::Shutdown));
        parts.reach(RunState::Shutdown);
        parts.wake_all();
    }
}
