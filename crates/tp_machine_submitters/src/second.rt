//! The submitter looks a second time, after its offer was taken, as the recheck in `execute`.

ghost use Rattle.std.specs.Prelude.{◌≡◌, refl};
ghost use Rattle.tp_machine_state.specs.Payloads.{Keeps};
ghost use Rattle.tp_machine_state.specs.Steps.{Stands, Fits, Leads};

use tp_machine_state::parts::Parts;
use tp_machine_state::step::Step;
use tp_record::entries::{Ask, Did, Seconded};
use tp_record::owed::{QUEUED, REFUSED, RESERVED, SECOND_LOOK};
use tp_record::rows::Stage;
use tp_rules::submitters::second;
use tp_types::ids::{SlotId, TaskId};
use tp_types::refusals::PoolError;

/// The second look after an offer.
#[derive(Clone, Copy)]
pub struct Second(pub TaskId);

impl<P> Step<P> for Second {
    ghost use Rattle.tp_record.specs.declared.entries.Ask.TheVariants as ask;
    ghost use Rattle.tp_record.specs.declared.entries.Did.TheVariants as did;
    ghost use Rattle.tp_machine_state.proofs.Standing.{accepts_owed};

    /// Whether the task stays, or stays with a slot reserved to serve it, or comes back.
    type Answer = Seconded;

    type Out = ();

    ghost ask = { λ s. ask.Second s.0 };

    ghost did = { λ s x. did.Second s.0 x };

    ghost fits = { λ s x p. Fits p (ask.Second s.0) (did.Second s.0 x) };

    ghost accepts = { λ s x p stands fits. accepts_owed p stands (ask.Second s.0) (did.Second s.0 x) (λ n. refl) fits };

    #[inline(always)]
    fn ask(self) -> Ask {
        Ask::Second(self.0)
    }

    #[inline(always)]
    fn did(self, answer: &Seconded) -> Did {
        Did::Second(self.0, *answer)
    }

    // UnknownTask (6) or NotThere (8).
    #[inline(always)]
    fn answer(self, parts: &Parts<P>) -> Result<Seconded, PoolError> {
        second(parts, parts.slots.next_number(), self.0)
    }

    // The task stays, or stays with the next slot to serve it, or is out of the queue and awaits a verdict.
    #[inline(always)]
    fn apply(self, parts: &mut Parts<P>, seconded: Seconded) {
        match seconded {
            Seconded::Stay => stay(parts, self.0),
            Seconded::StayReserve(w) => reserve(parts, self.0, w),
            Seconded::Back => take_back(parts, self.0),
        }
    }
}

/// The task stays where it is.
#[inline(always)]
fn stay<P>(parts: &mut Parts<P>, t: TaskId)
    requires stands { Stands parts.old }
    requires fits { Fits parts.old (Ask.Second t) (Did.Second t Seconded.Stay) }
    ensures leads { Leads parts.old (Did.Second t Seconded.Stay) parts.new }
    ensures payloads { Keeps parts.old.tasks parts.new.tasks }
{
    parts.count_entry(SECOND_LOOK);
    parts.clear_second(t);
}

/// The task stays where it is, and a bare slot is reserved.
#[inline(never)]
fn reserve<P>(parts: &mut Parts<P>, t: TaskId, w: SlotId)
    requires stands { Stands parts.old }
    requires fits { Fits parts.old (Ask.Second t) (Did.Second t (Seconded.StayReserve w)) }
    requires next { w.0 ≡ parts.old.slots.next }
    ensures leads { Leads parts.old (Did.Second t (Seconded.StayReserve w)) parts.new }
    ensures payloads { Keeps parts.old.tasks parts.new.tasks }
{
    parts.count_entry(SECOND_LOOK - RESERVED);
    parts.clear_second(t);
    parts.reserve(Stage::ReservedBare, None);
}

/// The task is out of the queue, and awaits a verdict.
#[inline(never)]
fn take_back<P>(parts: &mut Parts<P>, t: TaskId)
    requires stands { Stands parts.old }
    requires fits { Fits parts.old (Ask.Second t) (Did.Second t Seconded.Back) }
    ensures leads { Leads parts.old (Did.Second t Seconded.Back) parts.new }
    ensures payloads { Keeps parts.old.tasks parts.new.tasks }
{
    parts.count_entry(QUEUED + SECOND_LOOK - REFUSED);
    parts.unqueue(t);
    parts.return_task(t);
}
