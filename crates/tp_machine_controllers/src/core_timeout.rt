//! Core workers time out or do not, as `allowCoreThreadTimeOut` says.

ghost use Rattle.tp_machine_state.specs.Steps.{Accepts};

use tp_machine_state::parts::Parts;
use tp_machine_state::step::Step;
use tp_record::entries::{Ask, Did};
use tp_rules::controllers::core_timeout;
use tp_types::refusals::PoolError;

/// `allowCoreThreadTimeOut`.
#[derive(Clone, Copy)]
pub struct CoreTimeout(pub bool);

impl<P> Step<P> for CoreTimeout {
    ghost use Rattle.tp_record.specs.declared.entries.Ask.TheVariants as ask;
    ghost use Rattle.tp_record.specs.declared.entries.Did.TheVariants as did;

    type Answer = ();

    type Out = ();

    ghost ask = { λ s. ask.CoreTimeout s.0 };

    ghost did = { λ s x. did.CoreTimeout s.0 };

    ghost fits = { λ s x p. Accepts p (ask.CoreTimeout s.0) (did.CoreTimeout s.0) };

    ghost accepts = { λ s x p stands fits. fits };

    fn ask(self) -> Ask {
        Ask::CoreTimeout(self.0)
    }

    fn did(self, _answer: &()) -> Did {
        Did::CoreTimeout(self.0)
    }

    // KeepZero (11) where the keep-alive is 0 and core workers are to time out, else BookFull (5).
    fn answer(self, parts: &Parts<P>) -> Result<(), PoolError> {
        parts.in_room(core_timeout(parts, self.0), 0, 0)
    }

    fn apply(self, parts: &mut Parts<P>, _answer: ()) {
        parts.count_entry(0);
        parts.set_core_timeout(self.0);
    }
}
