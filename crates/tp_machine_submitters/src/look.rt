//! The submitter looks for a core slot again, after a retry, as the first branch of `execute`.

ghost use Rattle.std.specs.Prelude.{◌≡◌, refl};
ghost use Rattle.tp_machine_state.specs.Payloads.{Keeps};
ghost use Rattle.tp_machine_state.specs.Steps.{Stands, Fits, Leads};

use tp_machine_state::parts::Parts;
use tp_machine_state::step::Step;
use tp_record::entries::{Ask, Did, Looked};
use tp_record::owed::{HELD_FOR_CORE, LOOKING, REFUSED, RESERVED, TO_OFFER};
use tp_record::rows::Stage;
use tp_rules::submitters::look_again;
use tp_types::ids::{SlotId, TaskId};
use tp_types::refusals::PoolError;
use tp_types::tasks::Place;

/// The submitter looks for a core slot again.
#[derive(Clone, Copy)]
pub struct Look(pub TaskId);

impl<P> Step<P> for Look {
    ghost use Rattle.tp_record.specs.declared.entries.Ask.TheVariants as ask;
    ghost use Rattle.tp_record.specs.declared.entries.Did.TheVariants as did;
    ghost use Rattle.tp_machine_state.proofs.Standing.{accepts_owed};

    /// Whether a core slot is reserved for the task, or it is to be offered, or it is refused.
    type Answer = Looked;

    type Out = ();

    ghost ask = { λ s. ask.Look s.0 };

    ghost did = { λ s x. did.Look s.0 x };

    ghost fits = { λ s x p. Fits p (ask.Look s.0) (did.Look s.0 x) };

    ghost accepts = { λ s x p stands fits. accepts_owed p stands (ask.Look s.0) (did.Look s.0 x) (λ n. refl) fits };

    fn ask(self) -> Ask {
        Ask::Look(self.0)
    }

    fn did(self, answer: &Looked) -> Did {
        Did::Look(self.0, *answer)
    }

    // UnknownTask (6) or NotThere (8).
    fn answer(self, parts: &Parts<P>) -> Result<Looked, PoolError> {
        look_again(parts, parts.slots.next_number(), self.0)
    }

    // The task is held by the next slot, or its submitter is to offer it, or it awaits a verdict.
    fn apply(self, parts: &mut Parts<P>, looked: Looked) {
        match looked {
            Looked::Reserve(w) => reserve(parts, self.0, w),
            Looked::Queue => queue(parts, self.0),
            Looked::Refuse => refuse(parts, self.0),
        }
    }
}

/// A slot is reserved for the core, and holds the task.
fn reserve<P>(parts: &mut Parts<P>, t: TaskId, w: SlotId)
    requires stands { Stands parts.old }
    requires fits { Fits parts.old (Ask.Look t) (Did.Look t (Looked.Reserve w)) }
    requires next { w.0 ≡ parts.old.slots.next }
    ensures leads { Leads parts.old (Did.Look t (Looked.Reserve w)) parts.new }
    ensures payloads { Keeps parts.old.tasks parts.new.tasks }
{
    parts.count_entry(LOOKING - HELD_FOR_CORE - RESERVED);
    parts.place_task(t, Place::Held(w));
    parts.reserve(Stage::ReservedCore, Some(t));
}

/// The task is to be offered to the queue.
fn queue<P>(parts: &mut Parts<P>, t: TaskId)
    requires stands { Stands parts.old }
    requires fits { Fits parts.old (Ask.Look t) (Did.Look t Looked.Queue) }
    ensures leads { Leads parts.old (Did.Look t Looked.Queue) parts.new }
    ensures payloads { Keeps parts.old.tasks parts.new.tasks }
{
    parts.count_entry(LOOKING - TO_OFFER);
    parts.place_task(t, Place::ToOffer);
}

/// The pool is shut down: the task awaits a verdict.
fn refuse<P>(parts: &mut Parts<P>, t: TaskId)
    requires stands { Stands parts.old }
    requires fits { Fits parts.old (Ask.Look t) (Did.Look t Looked.Refuse) }
    ensures leads { Leads parts.old (Did.Look t Looked.Refuse) parts.new }
    ensures payloads { Keeps parts.old.tasks parts.new.tasks }
{
    parts.count_entry(LOOKING - REFUSED);
    parts.place_task(t, Place::Refused);
}
