//! The moment is later: time is ticks that callers hand in.

ghost use Rattle.tp_machine_state.specs.Steps.{Accepts};

use tp_machine_state::parts::Parts;
use tp_machine_state::step::Step;
use tp_record::entries::{Ask, Did};
use tp_rules::controllers::tick;
use tp_types::refusals::PoolError;

/// The moment, in ticks.
#[derive(Clone, Copy)]
pub struct Tick(pub u64);

impl<P> Step<P> for Tick {
    ghost use Rattle.tp_record.specs.declared.entries.Ask.TheVariants as ask;
    ghost use Rattle.tp_record.specs.declared.entries.Did.TheVariants as did;

    type Answer = ();

    type Out = ();

    ghost ask = { λ s. ask.Tick s.0 };

    ghost did = { λ s x. did.Tick s.0 };

    ghost fits = { λ s x p. Accepts p (ask.Tick s.0) (did.Tick s.0) };

    ghost accepts = { λ s x p stands fits. fits };

    fn ask(self) -> Ask {
        Ask::Tick(self.0)
    }

    fn did(self, _answer: &()) -> Did {
        Did::Tick(self.0)
    }

    // ClockBack (10) where it was later already, else BookFull (5).
    fn answer(self, parts: &Parts<P>) -> Result<(), PoolError> {
        parts.in_room(tick(parts, self.0), 0, 0)
    }

    fn apply(self, parts: &mut Parts<P>, _answer: ()) {
        parts.count_entry(0);
        parts.set_moment(self.0);
    }
}
