//! A worker is started ahead of tasks, as `prestartCoreThread` does.

ghost use Rattle.tp_machine_state.specs.Steps.{Accepts};

use tp_machine_state::parts::Parts;
use tp_machine_state::step::Step;
use tp_record::entries::{Ask, Did};
use tp_record::owed::RESERVED;
use tp_record::rows::Stage;
use tp_rules::controllers::prestart;
use tp_types::ids::SlotId;
use tp_types::refusals::PoolError;

/// A worker is started ahead of tasks.
#[derive(Clone, Copy)]
pub struct Prestart;

impl<P> Step<P> for Prestart {
    ghost use Rattle.tp_record.specs.declared.entries.Ask.TheVariants as ask;
    ghost use Rattle.tp_record.specs.declared.entries.Did.TheVariants as did;

    /// The bare slot that is to be reserved, the next one, where there are fewer slots than the core size and the pool wants
    /// a worker.
    type Answer = Option<SlotId>;

    type Out = ();

    ghost ask = { λ s. ask.Prestart };

    ghost did = { λ s x. did.Prestart x };

    ghost fits = { λ s x p. Accepts p ask.Prestart (did.Prestart x) };

    ghost accepts = { λ s x p stands fits. fits };

    fn ask(self) -> Ask {
        Ask::Prestart
    }

    fn did(self, answer: &Option<SlotId>) -> Did {
        Did::Prestart(*answer)
    }

    // BookFull (5).
    fn answer(self, parts: &Parts<P>) -> Result<Option<SlotId>, PoolError> {
        let slot = prestart(parts, parts.slots.next_number());
        parts.in_room(Ok(slot), 0, RESERVED * u64::from(slot.is_some()))
    }

    // The next slot is reserved, for a worker without a first task, where one is to be.
    fn apply(self, parts: &mut Parts<P>, slot: Option<SlotId>) {
        match slot {
            None => parts.count_entry(0),
            Some(_) => {
                parts.count_rising_entry(RESERVED);
                parts.reserve(Stage::ReservedBare, None);
            }
        }
    }
}
