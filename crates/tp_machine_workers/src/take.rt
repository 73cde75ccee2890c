//! A worker asks for its next task, as `getTask`.

ghost use Rattle.std.specs.Prelude.{◌≡◌, ◌==◌, ◌&&◌, not, true, false, nat_le, refl};
ghost use Rattle.tp_record.specs.Fields.{is_idle_row};
ghost use Rattle.tp_record.specs.State.{State, slot_at};
ghost use Rattle.tp_record.specs.Step.{slot_count};
ghost use Rattle.tp_machine_state.specs.Payloads.{Keeps};
ghost use Rattle.tp_machine_state.specs.Shows.{Shows};
ghost use Rattle.tp_machine_state.specs.Steps.{Stands, Fits, Leads};

use crate::owed::owed_at_take;
use tp_machine_state::parts::Parts;
use tp_machine_state::step::Step;
use tp_record::entries::{Ask, Did, Took};
use tp_record::owed::{HELD, IDLE, QUEUED, TAKEN, WORKING};
use tp_record::rows::{SlotRow, Stage};
use tp_rules::workers::take;
use tp_types::ids::{SlotId, TaskId};
use tp_types::refusals::PoolError;
use tp_types::states::RunState;
use tp_types::tasks::Place;

/// A worker asks for its next task.
#[derive(Clone, Copy)]
pub struct Take(pub SlotId);

impl<P> Step<P> for Take {
    ghost use Rattle.tp_record.specs.declared.entries.Ask.TheVariants as ask;
    ghost use Rattle.tp_record.specs.declared.entries.Did.TheVariants as did;
    ghost use Rattle.tp_machine_state.proofs.Standing.{accepts_owed};

    /// What the worker takes: the task that its slot holds, before all else, and else what the queue has for it.
    type Answer = Took;

    // No payload is handed out before the task begins.
    type Out = ();

    ghost ask = { λ s. ask.Take s.0 };

    ghost did = { λ s x. did.Take s.0 x };

    ghost fits = { λ s x p. Fits p (ask.Take s.0) (did.Take s.0 x) };

    ghost accepts = { λ s x p stands fits. accepts_owed p stands (ask.Take s.0) (did.Take s.0 x) (λ n. refl) fits };

    #[inline(always)]
    fn ask(self) -> Ask {
        Ask::Take(self.0)
    }

    #[inline(always)]
    fn did(self, answer: &Took) -> Did {
        Did::Take(self.0, *answer)
    }

    // UnknownSlot (7) where there is no such slot, NotThere (8) where its worker is not made, dying or busy with a task that it
    // took, and where an idle worker stays idle.
    #[inline(always)]
    fn answer(self, parts: &Parts<P>) -> Result<Took, PoolError> {
        take(parts, self.0)
    }

    #[inline(always)]
    fn apply(self, parts: &mut Parts<P>, took: Took) {
        match took {
            Took::Held(t) => held(parts, self.0, t),
            Took::Head(t) if is_idle(parts, self.0) => head_idle(parts, self.0, t),
            Took::Head(t) => head(parts, self.0, t),
            Took::Leave if is_idle(parts, self.0) => leave_idle(parts, self.0),
            Took::Leave => leave(parts, self.0),
            Took::Idle => rest(parts, self.0),
        }
    }
}

/// Whether no idle worker leaves now, whichever it is: while the pool runs, has no more slots than its core and its maximum, and
/// core workers do not time out. It tells sooner than an answer.
#[inline(always)]
pub fn keeps_all<P>(parts: &Parts<P>) -> bool
    ensures { (s : State) → Shows parts.now s → result ≡
        ((s.rank == 0 && nat_le (slot_count s) s.maximum) && (nat_le (slot_count s) s.core && not s.core_timeout)) }
{
    let count = parts.slots.len();
    let is_within = count <= parts.core as usize && !parts.core_timeout;
    parts.state == RunState::Running && count <= parts.maximum as usize && is_within
}

/// Whether the slot's worker is idle.
#[inline(always)]
fn is_idle<P>(parts: &Parts<P>, w: SlotId) -> bool
    ensures { result ≡ is_idle_row (slot_at parts.now.slots.slots w.0) }
{
    match parts.slots.get(w) {
        Some(slot) => slot.is_idle(),
        None => false,
    }
}

/// The worker takes the task that its slot holds.
#[inline(always)]
fn held<P>(parts: &mut Parts<P>, w: SlotId, t: TaskId)
    requires stands { Stands parts.old }
    requires fits { Fits parts.old (Ask.Take w) (Did.Take w (Took.Held t)) }
    ensures leads { Leads parts.old (Did.Take w (Took.Held t)) parts.new }
    ensures payloads { Keeps parts.old.tasks parts.new.tasks }
{
    parts.count_entry(HELD - TAKEN);
    parts.place_task(t, Place::Taken(w));
    parts.set_slot(
        w,
        SlotRow {
            stage: Stage::Working,
            task: Some(t),
        },
    );
}

/// A worker that was not idle takes the queue's head.
#[inline(always)]
fn head<P>(parts: &mut Parts<P>, w: SlotId, t: TaskId)
    requires stands { Stands parts.old }
    requires fits { Fits parts.old (Ask.Take w) (Did.Take w (Took.Head t)) }
    requires busy { is_idle_row (slot_at parts.old.slots.slots w.0) ≡ false }
    ensures leads { Leads parts.old (Did.Take w (Took.Head t)) parts.new }
    ensures payloads { Keeps parts.old.tasks parts.new.tasks }
{
    parts.count_entry(owed_at_take(parts.state));
    parts.dequeue();
    parts.place_task(t, Place::Taken(w));
    parts.set_slot(
        w,
        SlotRow {
            stage: Stage::Working,
            task: Some(t),
        },
    );
}

/// An idle worker takes the queue's head.
#[inline(always)]
fn head_idle<P>(parts: &mut Parts<P>, w: SlotId, t: TaskId)
    requires stands { Stands parts.old }
    requires fits { Fits parts.old (Ask.Take w) (Did.Take w (Took.Head t)) }
    requires idle { is_idle_row (slot_at parts.old.slots.slots w.0) ≡ true }
    ensures leads { Leads parts.old (Did.Take w (Took.Head t)) parts.new }
    ensures payloads { Keeps parts.old.tasks parts.new.tasks }
{
    parts.count_entry(QUEUED + IDLE - TAKEN - WORKING);
    parts.dequeue();
    parts.place_task(t, Place::Taken(w));
    parts.wake(w, Some(t));
}

/// A worker that was not idle leaves.
#[inline(never)]
fn leave<P>(parts: &mut Parts<P>, w: SlotId)
    requires stands { Stands parts.old }
    requires fits { Fits parts.old (Ask.Take w) (Did.Take w Took.Leave) }
    requires busy { is_idle_row (slot_at parts.old.slots.slots w.0) ≡ false }
    ensures leads { Leads parts.old (Did.Take w Took.Leave) parts.new }
    ensures payloads { Keeps parts.old.tasks parts.new.tasks }
{
    parts.count_entry(owed_at_take(parts.state));
    parts.free(w);
}

/// An idle worker leaves.
#[inline(never)]
fn leave_idle<P>(parts: &mut Parts<P>, w: SlotId)
    requires stands { Stands parts.old }
    requires fits { Fits parts.old (Ask.Take w) (Did.Take w Took.Leave) }
    requires idle { is_idle_row (slot_at parts.old.slots.slots w.0) ≡ true }
    ensures leads { Leads parts.old (Did.Take w Took.Leave) parts.new }
    ensures payloads { Keeps parts.old.tasks parts.new.tasks }
{
    parts.count_entry(IDLE);
    parts.free(w);
}

/// The worker finds nothing and is idle from now on.
#[inline(always)]
fn rest<P>(parts: &mut Parts<P>, w: SlotId)
    requires stands { Stands parts.old }
    requires fits { Fits parts.old (Ask.Take w) (Did.Take w Took.Idle) }
    ensures leads { Leads parts.old (Did.Take w Took.Idle) parts.new }
    ensures payloads { Keeps parts.old.tasks parts.new.tasks }
{
    parts.count_entry(WORKING - IDLE);
    parts.idle(w);
}
