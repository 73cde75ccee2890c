//! The factory made a worker for a reserved slot, as where `ThreadFactory.newThread` in `addWorker` gave a thread.

ghost use Rattle.std.specs.Prelude.{◌≡◌, refl, Some, None};
ghost use Rattle.tp_record.specs.State.{slot_at};
ghost use Rattle.tp_machine_state.specs.Steps.{Stands, Fits, Leads};
ghost use Rattle.tp_machine_state.specs.Payloads.{Keeps};

use crate::freed::{give_back, turn_away};
use crate::owed::owed_at_take;
use tp_machine_state::parts::Parts;
use tp_machine_state::step::Step;
use tp_record::entries::{Ask, Did, Opened};
use tp_record::owed::{HELD, HELD_FOR_CORE, RESERVED, WORKING};
use tp_record::rows::Stage;
use tp_rules::workers::open;
use tp_types::ids::{SlotId, TaskId};
use tp_types::refusals::PoolError;

/// A worker was made for a reserved slot.
#[derive(Clone, Copy)]
pub struct Open(pub SlotId);

impl<P> Step<P> for Open {
    ghost use Rattle.tp_record.specs.declared.entries.Ask.TheVariants as ask;
    ghost use Rattle.tp_record.specs.declared.entries.Did.TheVariants as did;
    ghost use Rattle.tp_machine_state.proofs.Standing.{accepts_owed};

    /// What becomes of the slot: live, or freed, where the pool was shut down while the worker was made; a first task is
    /// refused then.
    type Answer = Opened;

    type Out = ();

    ghost ask = { λ s. ask.Open s.0 };

    ghost did = { λ s x. did.Open s.0 x };

    ghost fits = { λ s x p. Fits p (ask.Open s.0) (did.Open s.0 x) };

    ghost accepts = { λ s x p stands fits. accepts_owed p stands (ask.Open s.0) (did.Open s.0 x) (λ n. refl) fits };

    fn ask(self) -> Ask {
        Ask::Open(self.0)
    }

    fn did(self, answer: &Opened) -> Did {
        Did::Open(self.0, *answer)
    }

    // UnknownSlot (7) or NotThere (8).
    fn answer(self, parts: &Parts<P>) -> Result<Opened, PoolError> {
        open(parts, self.0)
    }

    // The slot is live, or freed and its first task refused.
    fn apply(self, parts: &mut Parts<P>, opened: Opened) {
        match opened {
            Opened::Live => go_live(parts, self.0),
            Opened::GivenUp => give_back(parts, self.0),
            Opened::GivenUpRefuse(t) => turn_away(parts, self.0, t),
        }
    }
}

/// The slot is live, with its first task where it was reserved for one.
fn go_live<P>(parts: &mut Parts<P>, w: SlotId)
    requires stands { Stands parts.old }
    requires fits { Fits parts.old (Ask.Open w) (Did.Open w Opened.Live) }
    ensures leads { Leads parts.old (Did.Open w Opened.Live) parts.new }
    ensures payloads { Keeps parts.old.tasks parts.new.tasks }
{
    let Some(slot) = parts.slots.get(w) else {
        unreachable!()
    };
    match slot.stage {
        Stage::ReservedCore => live_core(parts, w),
        Stage::ReservedMaximum => live_maximum(parts, w),
        _ => live_bare(parts, w),
    }
}

/// A bare slot is live: its worker is about to take a task.
fn live_bare<P>(parts: &mut Parts<P>, w: SlotId)
    requires stands { Stands parts.old }
    requires fits { Fits parts.old (Ask.Open w) (Did.Open w Opened.Live) }
    requires seat { slot_at parts.old.slots.slots w.0 ≡ Some (record { stage = Stage.ReservedBare; task = None }) }
    ensures leads { Leads parts.old (Did.Open w Opened.Live) parts.new }
    ensures payloads { Keeps parts.old.tasks parts.new.tasks }
{
    let owed = owed_at_take(parts.state);
    parts.count_entry(RESERVED - owed);
    parts.open(w);
}

/// A slot of the core is live, with its first task.
fn live_core<P>(parts: &mut Parts<P>, w: SlotId)
    requires stands { Stands parts.old }
    requires fits { Fits parts.old (Ask.Open w) (Did.Open w Opened.Live) }
    requires seat { (t : TaskId) × (slot_at parts.old.slots.slots w.0 ≡ Some (record { stage = Stage.ReservedCore; task = Some t })) }
    ensures leads { Leads parts.old (Did.Open w Opened.Live) parts.new }
    ensures payloads { Keeps parts.old.tasks parts.new.tasks }
{
    parts.count_entry(HELD_FOR_CORE + RESERVED - HELD - WORKING);
    parts.open(w);
}

/// A slot up to the maximum is live, with its first task.
fn live_maximum<P>(parts: &mut Parts<P>, w: SlotId)
    requires stands { Stands parts.old }
    requires fits { Fits parts.old (Ask.Open w) (Did.Open w Opened.Live) }
    requires seat { (t : TaskId) × (slot_at parts.old.slots.slots w.0 ≡ Some (record { stage = Stage.ReservedMaximum; task = Some t })) }
    ensures leads { Leads parts.old (Did.Open w Opened.Live) parts.new }
    ensures payloads { Keeps parts.old.tasks parts.new.tasks }
{
    parts.count_entry(RESERVED - WORKING);
    parts.open(w);
}
