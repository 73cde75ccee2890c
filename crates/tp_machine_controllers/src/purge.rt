//! The cancelled tasks leave the queue, as `ThreadPoolExecutor.purge`.

ghost use Rattle.tp_machine_state.specs.Steps.{Accepts};

use tp_machine_state::parts::Parts;
use tp_machine_state::step::Step;
use tp_record::entries::{Ask, Did};
use tp_record::owed::QUEUED;
use tp_types::refusals::PoolError;

/// `purge`.
#[derive(Clone, Copy)]
pub struct Purge;

impl<P> Step<P> for Purge {
    ghost use Rattle.tp_record.specs.declared.entries.Ask.TheVariants as ask;
    ghost use Rattle.tp_record.specs.declared.entries.Did.TheVariants as did;

    /// How many cancelled tasks are in the queue, without a look at any task.
    type Answer = u32;

    type Out = ();

    ghost ask = { λ s. ask.Purge };

    ghost did = { λ s x. did.Purge x };

    ghost fits = { λ s x p. Accepts p ask.Purge (did.Purge x) };

    ghost accepts = { λ s x p stands fits. fits };

    fn ask(self) -> Ask {
        Ask::Purge
    }

    fn did(self, answer: &u32) -> Did {
        Did::Purge(*answer)
    }

    // BookFull (5). The number is part of the answer, and room is tested before anything changes, so it must be known before. The
    // table of tasks counts these tasks at each write to a row, and lists them. A purge costs a search in the queue for each of
    // them, and a look at each task that was cancelled there since the last purge.
    fn answer(self, parts: &Parts<P>) -> Result<u32, PoolError> {
        let cancelled = parts.count_cancelled();
        parts.in_room(Ok(cancelled), QUEUED * u64::from(cancelled), 0)
    }

    // The cancelled tasks, as many as were answered, leave the queue and are gone. They keep the fate cancelled. Their payloads
    // went out where they were cancelled.
    fn apply(self, parts: &mut Parts<P>, cancelled: u32) {
        parts.purge();
        parts.count_entry(QUEUED * u64::from(cancelled));
    }
}
