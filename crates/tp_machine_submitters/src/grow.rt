//! A submitter asks for a slot up to the maximum size, after its offer found the queue full: the last `addWorker` in `execute`.

ghost use Rattle.std.specs.Prelude.{◌≡◌, refl};
ghost use Rattle.tp_machine_state.specs.Payloads.{Keeps};
ghost use Rattle.tp_machine_state.specs.Steps.{Stands, Fits, Leads};

use tp_machine_state::parts::Parts;
use tp_machine_state::step::Step;
use tp_record::entries::{Ask, Did, Grown};
use tp_record::owed::{HELD, REFUSED, RESERVED, TO_GROW};
use tp_record::rows::Stage;
use tp_rules::submitters::grow;
use tp_types::ids::{SlotId, TaskId};
use tp_types::refusals::PoolError;
use tp_types::tasks::Place;

/// The submitter asks for a slot up to the maximum.
#[derive(Clone, Copy)]
pub struct Grow(pub TaskId);

impl<P> Step<P> for Grow {
    ghost use Rattle.tp_record.specs.declared.entries.Ask.TheVariants as ask;
    ghost use Rattle.tp_record.specs.declared.entries.Did.TheVariants as did;
    ghost use Rattle.tp_machine_state.proofs.Standing.{accepts_owed};

    /// Whether a slot is reserved for the task, or it is refused.
    type Answer = Grown;

    type Out = ();

    ghost ask = { λ s. ask.Grow s.0 };

    ghost did = { λ s x. did.Grow s.0 x };

    ghost fits = { λ s x p. Fits p (ask.Grow s.0) (did.Grow s.0 x) };

    ghost accepts = { λ s x p stands fits. accepts_owed p stands (ask.Grow s.0) (did.Grow s.0 x) (λ n. refl) fits };

    fn ask(self) -> Ask {
        Ask::Grow(self.0)
    }

    fn did(self, answer: &Grown) -> Did {
        Did::Grow(self.0, *answer)
    }

    // UnknownTask (6) where there is no such task, NotThere (8) where it is not to grow the pool.
    fn answer(self, parts: &Parts<P>) -> Result<Grown, PoolError> {
        grow(parts, parts.slots.next_number(), self.0)
    }

    fn apply(self, parts: &mut Parts<P>, grown: Grown) {
        match grown {
            Grown::Reserve(w) => reserve(parts, self.0, w),
            Grown::Refuse => refuse(parts, self.0),
        }
    }
}

/// A slot is reserved up to the maximum size, and holds the task.
fn reserve<P>(parts: &mut Parts<P>, t: TaskId, w: SlotId)
    requires stands { Stands parts.old }
    requires fits { Fits parts.old (Ask.Grow t) (Did.Grow t (Grown.Reserve w)) }
    requires next { w.0 ≡ parts.old.slots.next }
    ensures leads { Leads parts.old (Did.Grow t (Grown.Reserve w)) parts.new }
    ensures payloads { Keeps parts.old.tasks parts.new.tasks }
{
    parts.count_entry(TO_GROW - HELD - RESERVED);
    parts.place_task(t, Place::Held(w));
    parts.reserve(Stage::ReservedMaximum, Some(t));
}

/// The pool may not grow: the task awaits a verdict.
fn refuse<P>(parts: &mut Parts<P>, t: TaskId)
    requires stands { Stands parts.old }
    requires fits { Fits parts.old (Ask.Grow t) (Did.Grow t Grown.Refuse) }
    ensures leads { Leads parts.old (Did.Grow t Grown.Refuse) parts.new }
    ensures payloads { Keeps parts.old.tasks parts.new.tasks }
{
    parts.count_entry(TO_GROW - REFUSED);
    parts.place_task(t, Place::Refused);
}
