//! A future is cancelled, as `FutureTask.cancel`.

ghost use Rattle.std.specs.Prelude.{true, false, None};
ghost use Rattle.tp_machine_state.specs.Payloads.{HandsOut};
ghost use Rattle.tp_machine_state.specs.Steps.{Stands, Accepts, Leads};

use tp_machine_state::parts::Parts;
use tp_machine_state::step::Step;
use tp_record::entries::{Ask, Did};
use tp_rules::controllers::cancel;
use tp_types::ids::TaskId;
use tp_types::refusals::PoolError;

/// A future is cancelled; the flag asks that its job is told.
#[derive(Clone, Copy)]
pub struct Cancel(pub TaskId, pub bool);

impl<P> Step<P> for Cancel {
    ghost use Rattle.tp_record.specs.declared.entries.Ask.TheVariants as ask;
    ghost use Rattle.tp_record.specs.declared.entries.Did.TheVariants as did;

    /// Whether the cancel has effect: the task has no fate yet.
    type Answer = bool;

    /// The payload of a task that waited.
    type Out = Option<P>;

    ghost ask = { λ s. ask.Cancel s.0 s.1 };

    ghost did = { λ s x. did.Cancel s.0 s.1 x };

    ghost fits = { λ s x p. Accepts p (ask.Cancel s.0 s.1) (did.Cancel s.0 s.1 x) };

    ghost moves = { λ s x o old new. HandsOut old new s.0.0 o };

    ghost accepts = { λ s x p stands fits. fits };

    fn ask(self) -> Ask {
        Ask::Cancel(self.0, self.1)
    }

    fn did(self, answer: &bool) -> Did {
        Did::Cancel(self.0, self.1, *answer)
    }

    // UnknownTask (6), NotFuture (9) or BookFull (5).
    fn answer(self, parts: &Parts<P>) -> Result<bool, PoolError> {
        parts.in_room(cancel(parts, self.0, self.1), 0, 0)
    }

    fn apply(self, parts: &mut Parts<P>, effective: bool) -> Option<P> {
        if effective {
            in_time(parts, self.0, self.1)
        } else {
            late(parts, self.0, self.1);
            None
        }
    }
}

/// The task has the fate cancelled from now on, and its group has it as completed. It stays where it is: whoever comes to it skips
/// it, and a body that runs already is only asked, by its flag, to end. If the task waited, its payload is handed out.
fn in_time<P>(parts: &mut Parts<P>, t: TaskId, flag: bool) -> Option<P>
    requires stands { Stands parts.old }
    requires accepts { Accepts parts.old (Ask.Cancel t flag) (Did.Cancel t flag true) }
    ensures leads { Leads parts.old (Did.Cancel t flag true) parts.new }
    ensures payloads { HandsOut parts.old.tasks parts.new.tasks t.0 result }
{
    parts.count_entry(0);
    parts.cancel_task(t)
}

/// The task had its fate already, and keeps it: the cancel came after its end, or after another cancel.
fn late<P>(parts: &mut Parts<P>, t: TaskId, flag: bool)
    requires stands { Stands parts.old }
    requires accepts { Accepts parts.old (Ask.Cancel t flag) (Did.Cancel t flag false) }
    ensures leads { Leads parts.old (Did.Cancel t flag false) parts.new }
    ensures payloads { HandsOut parts.old.tasks parts.new.tasks t.0 None }
{
    parts.count_entry(0);
}
