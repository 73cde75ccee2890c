//! The factory made no worker for a reserved slot, as `addWorkerFailed`.

ghost use Rattle.std.specs.Prelude.{refl};
ghost use Rattle.tp_machine_state.specs.Steps.{Stands, Fits, Leads};
ghost use Rattle.tp_machine_state.specs.Payloads.{Keeps};

use crate::freed::{give_back, turn_away};
use tp_machine_state::parts::Parts;
use tp_machine_state::step::Step;
use tp_record::entries::{Ask, Did, Failed};
use tp_record::owed::{HELD_FOR_CORE, RESERVED, TO_OFFER};
use tp_rules::workers::fail;
use tp_types::ids::{SlotId, TaskId};
use tp_types::refusals::PoolError;
use tp_types::tasks::Place;

/// No worker was made for a reserved slot.
#[derive(Clone, Copy)]
pub struct Fail(pub SlotId);

impl<P> Step<P> for Fail {
    ghost use Rattle.tp_record.specs.declared.entries.Ask.TheVariants as ask;
    ghost use Rattle.tp_record.specs.declared.entries.Did.TheVariants as did;
    ghost use Rattle.tp_machine_state.proofs.Standing.{accepts_owed};

    /// What becomes of the slot's first task: offered to the queue, where the slot was of the core and the pool runs, else
    /// refused.
    type Answer = Failed;

    type Out = ();

    ghost ask = { λ s. ask.Fail s.0 };

    ghost did = { λ s x. did.Fail s.0 x };

    ghost fits = { λ s x p. Fits p (ask.Fail s.0) (did.Fail s.0 x) };

    ghost accepts = { λ s x p stands fits. accepts_owed p stands (ask.Fail s.0) (did.Fail s.0 x) (λ n. refl) fits };

    fn ask(self) -> Ask {
        Ask::Fail(self.0)
    }

    fn did(self, answer: &Failed) -> Did {
        Did::Fail(self.0, *answer)
    }

    // UnknownSlot (7) or NotThere (8).
    fn answer(self, parts: &Parts<P>) -> Result<Failed, PoolError> {
        fail(parts, self.0)
    }

    // The slot is freed, and its first task is to be offered, or refused.
    fn apply(self, parts: &mut Parts<P>, failed: Failed) {
        match failed {
            Failed::Nothing => give_back(parts, self.0),
            Failed::Offer(t) => offer(parts, self.0, t),
            Failed::Refuse(t) => turn_away(parts, self.0, t),
        }
    }
}

/// A slot of the core is freed, and its first task is to be offered to the queue.
fn offer<P>(parts: &mut Parts<P>, w: SlotId, t: TaskId)
    requires stands { Stands parts.old }
    requires fits { Fits parts.old (Ask.Fail w) (Did.Fail w (Failed.Offer t)) }
    ensures leads { Leads parts.old (Did.Fail w (Failed.Offer t)) parts.new }
    ensures payloads { Keeps parts.old.tasks parts.new.tasks }
{
    parts.count_entry(HELD_FOR_CORE + RESERVED - TO_OFFER);
    parts.place_task(t, Place::ToOffer);
    parts.give_up(w);
}
