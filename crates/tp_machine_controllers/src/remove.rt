//! A queued task is removed, as `ThreadPoolExecutor.remove`.

ghost use Rattle.std.specs.Prelude.{◌≡◌, true, false, None};
ghost use Rattle.tp_machine_state.specs.Payloads.{Keeps, HandsOut};
ghost use Rattle.tp_machine_state.specs.Steps.{Stands, Accepts, Leads};

use tp_machine_state::parts::Parts;
use tp_machine_state::step::Step;
use tp_record::entries::{Ask, Did};
use tp_record::owed::QUEUED;
use tp_rules::controllers::remove;
use tp_types::ids::TaskId;
use tp_types::refusals::PoolError;
use tp_types::tasks::Fate;

/// The task leaves the queue and is gone, with the fate removed unless it was cancelled. Its payload is handed out, if it was
/// not cancelled.
fn present<P>(parts: &mut Parts<P>, t: TaskId) -> Option<P>
    requires stands { Stands parts.old }
    requires accepts { Accepts parts.old (Ask.Remove t) (Did.Remove t true) }
    ensures leads { Leads parts.old (Did.Remove t true) parts.new }
    ensures payloads { HandsOut parts.old.tasks parts.new.tasks t.0 result }
{
    parts.count_entry(QUEUED);
    parts.unqueue(t);
    parts.finish_task(t, Fate::Removed)
}

/// The task is not in the queue, and stays where it is: a worker may have taken it before.
fn absent<P>(parts: &mut Parts<P>, t: TaskId)
    requires stands { Stands parts.old }
    requires accepts { Accepts parts.old (Ask.Remove t) (Did.Remove t false) }
    ensures leads { Leads parts.old (Did.Remove t false) parts.new }
    ensures payloads { Keeps parts.old.tasks parts.new.tasks }
{
    parts.count_entry(0);
}

/// `ThreadPoolExecutor.remove`.
#[derive(Clone, Copy)]
pub struct Remove(pub TaskId);

impl<P> Step<P> for Remove {
    ghost use Rattle.std.specs.Bool.{OnTrue, OnFalse};
    ghost use Rattle.tp_record.specs.declared.entries.Ask.TheVariants as ask;
    ghost use Rattle.tp_record.specs.declared.entries.Did.TheVariants as did;

    /// Whether the task is in the queue, so that it can be removed.
    type Answer = bool;

    /// The payload of a task that was queued and not cancelled.
    type Out = Option<P>;

    ghost ask = { λ s. ask.Remove s.0 };

    ghost did = { λ s x. did.Remove s.0 x };

    ghost fits = { λ s x p. Accepts p (ask.Remove s.0) (did.Remove s.0 x) };

    ghost moves = { λ s x o old new. OnTrue x (HandsOut old new s.0.0 o) × OnFalse x (Keeps old new × (o ≡ None)) };

    ghost accepts = { λ s x p stands fits. fits };

    fn ask(self) -> Ask {
        Ask::Remove(self.0)
    }

    fn did(self, answer: &bool) -> Did {
        Did::Remove(self.0, *answer)
    }

    // UnknownTask (6) or BookFull (5).
    fn answer(self, parts: &Parts<P>) -> Result<bool, PoolError> {
        let queued = remove(parts, self.0);
        parts.in_room(queued, QUEUED * u64::from(queued.unwrap_or(false)), 0)
    }

    fn apply(self, parts: &mut Parts<P>, queued: bool) -> Option<P> {
        if queued {
            present(parts, self.0)
        } else {
            absent(parts, self.0);
            None
        }
    }
}
