//! A worker leaves after its plain task faulted, as `processWorkerExit` of a worker that completed abruptly.

ghost use Rattle.std.specs.Prelude.{refl, Some, None};
ghost use Rattle.tp_machine_state.specs.Steps.{Stands, Fits, Leads};
ghost use Rattle.tp_machine_state.specs.Payloads.{Keeps};

use tp_machine_state::parts::Parts;
use tp_machine_state::step::Step;
use tp_record::entries::{Ask, Did};
use tp_record::owed::{DYING, RESERVED};
use tp_record::rows::Stage;
use tp_rules::workers::leave;
use tp_types::ids::SlotId;
use tp_types::refusals::PoolError;

/// A worker whose plain task faulted leaves.
#[derive(Clone, Copy)]
pub struct Leave(pub SlotId);

impl<P> Step<P> for Leave {
    ghost use Rattle.tp_record.specs.declared.entries.Ask.TheVariants as ask;
    ghost use Rattle.tp_record.specs.declared.entries.Did.TheVariants as did;
    ghost use Rattle.tp_machine_state.proofs.Standing.{accepts_owed};

    /// The bare slot that is reserved in the worker's place, where the pool wants a worker and the other slots are below the
    /// maximum. It has the number that the leaving worker frees.
    type Answer = Option<SlotId>;

    type Out = ();

    ghost ask = { λ s. ask.Leave s.0 };

    ghost did = { λ s x. did.Leave s.0 x };

    ghost fits = { λ s x p. Fits p (ask.Leave s.0) (did.Leave s.0 x) };

    ghost accepts = { λ s x p stands fits. accepts_owed p stands (ask.Leave s.0) (did.Leave s.0 x) (λ n. refl) fits };

    fn ask(self) -> Ask {
        Ask::Leave(self.0)
    }

    fn did(self, answer: &Option<SlotId>) -> Did {
        Did::Leave(self.0, *answer)
    }

    // UnknownSlot (7) or NotThere (8).
    fn answer(self, parts: &Parts<P>) -> Result<Option<SlotId>, PoolError> {
        leave(parts, self.0, self.0)
    }

    // The slot is freed, and reserved again where a worker is to come in its place.
    fn apply(self, parts: &mut Parts<P>, next: Option<SlotId>) {
        match next {
            None => alone(parts, self.0),
            Some(_) => renewed(parts, self.0),
        }
    }
}

/// The worker leaves, and none comes in its place.
fn alone<P>(parts: &mut Parts<P>, w: SlotId)
    requires stands { Stands parts.old }
    requires fits { Fits parts.old (Ask.Leave w) (Did.Leave w None) }
    ensures leads { Leads parts.old (Did.Leave w None) parts.new }
    ensures payloads { Keeps parts.old.tasks parts.new.tasks }
{
    parts.count_entry(DYING);
    parts.free(w);
}

/// The worker leaves, and a bare slot is reserved under its number.
fn renewed<P>(parts: &mut Parts<P>, w: SlotId)
    requires stands { Stands parts.old }
    requires fits { Fits parts.old (Ask.Leave w) (Did.Leave w (Some w)) }
    ensures leads { Leads parts.old (Did.Leave w (Some w)) parts.new }
    ensures payloads { Keeps parts.old.tasks parts.new.tasks }
{
    parts.count_entry(DYING - RESERVED);
    parts.free(w);
    parts.reserve(Stage::ReservedBare, None);
}
