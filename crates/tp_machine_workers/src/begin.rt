//! A worker begins the task that it took, as `beforeExecute` and the task's `run` do.

ghost use Rattle.std.specs.Prelude.{refl, Some, None};
ghost use Rattle.tp_machine_state.specs.Payloads.{Keeps, HandsOut};
ghost use Rattle.tp_machine_state.specs.Steps.{Stands, Fits, Leads};

use crate::owed::owed_at_take;
use tp_machine_state::parts::Parts;
use tp_machine_state::step::Step;
use tp_record::entries::{Ask, Did, Started};
use tp_record::owed::{RUNNING, TAKEN, WORKING};
use tp_record::rows::{SlotRow, Stage};
use tp_rules::workers::begin;
use tp_types::ids::{SlotId, TaskId};
use tp_types::refusals::PoolError;
use tp_types::tasks::Place;

/// A worker begins the task that it took.
#[derive(Clone, Copy)]
pub struct Begin(pub SlotId);

impl<P> Step<P> for Begin {
    ghost use Rattle.tp_record.specs.declared.entries.Ask.TheVariants as ask;
    ghost use Rattle.tp_record.specs.declared.entries.Did.TheVariants as did;
    ghost use Rattle.tp_machine_state.proofs.Standing.{accepts_owed};
    ghost use Rattle.tp_machine_workers.specs.Begun.{Begins};

    /// What the worker begins: the task that it took, or nothing, where that was cancelled.
    type Answer = Started;

    /// The payload of a task that runs. A skipped task has none.
    type Out = Option<P>;

    ghost ask = { λ s. ask.Begin s.0 };

    ghost did = { λ s x. did.Begin s.0 x };

    ghost fits = { λ s x p. Fits p (ask.Begin s.0) (did.Begin s.0 x) };

    ghost moves = { λ s x o old new. Begins old x new o };

    ghost accepts = { λ s x p stands fits. accepts_owed p stands (ask.Begin s.0) (did.Begin s.0 x) (λ n. refl) fits };

    #[inline(always)]
    fn ask(self) -> Ask {
        Ask::Begin(self.0)
    }

    #[inline(always)]
    fn did(self, answer: &Started) -> Did {
        Did::Begin(self.0, *answer)
    }

    // UnknownSlot (7) where there is no such slot, NotThere (8) where its worker has taken no task.
    #[inline(always)]
    fn answer(self, parts: &Parts<P>) -> Result<Started, PoolError> {
        begin(parts, self.0)
    }

    #[inline(always)]
    fn apply(self, parts: &mut Parts<P>, started: Started) -> Option<P> {
        match started {
            Started::Run(t) => Some(run(parts, self.0, t)),
            Started::Skip(t) => {
                skip(parts, self.0, t);
                None
            }
        }
    }
}

/// The worker begins the task, and has its payload.
#[inline(always)]
fn run<P>(parts: &mut Parts<P>, w: SlotId, t: TaskId) -> P
    requires stands { Stands parts.old }
    requires fits { Fits parts.old (Ask.Begin w) (Did.Begin w (Started.Run t)) }
    ensures leads { Leads parts.old (Did.Begin w (Started.Run t)) parts.new }
    ensures payloads { HandsOut parts.old.tasks parts.new.tasks t.0 (Some result) }
{
    parts.count_entry(TAKEN - RUNNING);
    let payload = parts.begin_task(t, Place::Running(w));
    parts.set_slot(
        w,
        SlotRow {
            stage: Stage::Working,
            task: Some(t),
        },
    );
    payload
}

/// The worker skips the task, which was cancelled, and is about to take.
#[inline(never)]
fn skip<P>(parts: &mut Parts<P>, w: SlotId, t: TaskId)
    requires stands { Stands parts.old }
    requires fits { Fits parts.old (Ask.Begin w) (Did.Begin w (Started.Skip t)) }
    ensures leads { Leads parts.old (Did.Begin w (Started.Skip t)) parts.new }
    ensures payloads { Keeps parts.old.tasks parts.new.tasks }
{
    parts.count_entry(TAKEN + WORKING - owed_at_take(parts.state));
    parts.place_task(t, Place::Gone);
    parts.set_slot(
        w,
        SlotRow {
            stage: Stage::Working,
            task: None,
        },
    );
    parts.count_completion();
}
