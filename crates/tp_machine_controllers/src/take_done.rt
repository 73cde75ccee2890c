//! A group's next completed task is handed out, as `ExecutorCompletionService.poll`.

ghost use Rattle.tp_machine_state.specs.Steps.{Accepts};

use tp_machine_state::parts::Parts;
use tp_machine_state::step::Step;
use tp_record::entries::{Ask, Did};
use tp_rules::controllers::take_done;
use tp_types::ids::TaskId;
use tp_types::refusals::PoolError;

/// `ExecutorCompletionService.poll` of this group.
#[derive(Clone, Copy)]
pub struct TakeDone(pub u32);

impl<P> Step<P> for TakeDone {
    ghost use Rattle.tp_record.specs.declared.entries.Ask.TheVariants as ask;
    ghost use Rattle.tp_record.specs.declared.entries.Did.TheVariants as did;

    /// The task of the group that was completed first and is not handed out.
    type Answer = TaskId;

    type Out = ();

    ghost ask = { λ s. ask.TakeDone s.0 };

    ghost did = { λ s x. did.TakeDone s.0 x };

    ghost fits = { λ s x p. Accepts p (ask.TakeDone s.0) (did.TakeDone s.0 x) };

    ghost accepts = { λ s x p stands fits. fits };

    fn ask(self) -> Ask {
        Ask::TakeDone(self.0)
    }

    fn did(self, answer: &TaskId) -> Did {
        Did::TakeDone(self.0, *answer)
    }

    // NotThere (8) where none is left, or BookFull (5).
    fn answer(self, parts: &Parts<P>) -> Result<TaskId, PoolError> {
        parts.in_room(take_done(parts, self.0), 0, 0)
    }

    fn apply(self, parts: &mut Parts<P>, _task: TaskId) {
        parts.count_entry(0);
        parts.take_done(self.0);
    }
}
