//! The core size is set, as `setCorePoolSize` does.

ghost use Rattle.tp_machine_state.specs.Steps.{Accepts};

use tp_machine_state::parts::Parts;
use tp_machine_state::step::Step;
use tp_record::entries::{Ask, Did};
use tp_rules::controllers::core;
use tp_types::refusals::PoolError;

/// `setCorePoolSize`, in workers.
#[derive(Clone, Copy)]
pub struct Core(pub u32);

impl<P> Step<P> for Core {
    ghost use Rattle.tp_record.specs.declared.entries.Ask.TheVariants as ask;
    ghost use Rattle.tp_record.specs.declared.entries.Did.TheVariants as did;

    /// For how many workers ahead of tasks the core size asks: as many as it is larger, but no more than there are tasks in the queue.
    type Answer = u32;

    type Out = ();

    ghost ask = { λ s. ask.Core s.0 };

    ghost did = { λ s x. did.Core s.0 x };

    ghost fits = { λ s x p. Accepts p (ask.Core s.0) (did.Core s.0 x) };

    ghost accepts = { λ s x p stands fits. fits };

    fn ask(self) -> Ask {
        Ask::Core(self.0)
    }

    fn did(self, answer: &u32) -> Did {
        Did::Core(self.0, *answer)
    }

    // BadSizes (1) where the maximum is smaller, else BookFull (5).
    fn answer(self, parts: &Parts<P>) -> Result<u32, PoolError> {
        parts.in_room(core(parts, self.0), 0, 0)
    }

    fn apply(self, parts: &mut Parts<P>, _added: u32) {
        parts.count_entry(0);
        parts.set_core(self.0);
    }
}
