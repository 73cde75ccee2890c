//! Submitters' steps.

ghost use Rattle.tp_record.specs.declared.entries.Ask.TheVariants as ask;
ghost use Rattle.tp_record.specs.declared.entries.Did.TheVariants as did;
ghost use Rattle.tp_machine_state.specs.Payloads.{PutsIn};
ghost use Rattle.tp_machine.specs.Answers.{IsJudged, IsReturnedAt};

use super::Step;
use crate::answers::Judged;
use crate::machine::Machine;
pub use tp_machine_submitters::callerend::CallerEnd;
pub use tp_machine_submitters::grow::Grow;
pub use tp_machine_submitters::look::Look;
pub use tp_machine_submitters::offer::Offer;
pub use tp_machine_submitters::second::Second;
pub use tp_machine_submitters::verdict::Judge;
use tp_record::entries::{Ask, Did, Looked};
use tp_record::recorders::Recorder;
use tp_types::ids::TaskId;
use tp_types::refusals::PoolError;
use tp_types::tasks::{Kind, Promise};

impl<P> Step<P> for Judge {
    type Load = ();

    type Answer = Judged<P>;

    ghost ask = { λ s. ask.Verdict s.0 s.1 };

    ghost did = { λ s x. x.did };

    ghost moves = { λ s l x old new. IsJudged old new s.0 x };

    ghost says = { λ s x c h. IsReturnedAt s.0 x h };

    #[inline(always)]
    fn ask(self) -> Ask {
        Ask::Verdict(self.0, self.1)
    }

    #[inline(always)]
    fn did(self, answer: &Judged<P>) -> Did {
        answer.did
    }

    #[inline(always)]
    fn make<R: Recorder>(
        self,
        by: u32,
        load: (),
        machine: &mut Machine<P, R>,
    ) -> Result<Judged<P>, (PoolError, ())> {
        match machine.verdict(by, self.0, self.1) {
            Ok(answer) => Ok(answer),
            Err(error) => Err((error, load)),
        }
    }
}

/// A new task of this kind and priority, whose job promises this; its payload comes with the step.
#[derive(Clone, Copy)]
pub struct Submit {
    /// Its kind.
    pub kind: Kind,
    /// Its priority: the task with the least number leaves a priority queue first.
    pub priority: u32,
    /// What its job promises.
    pub promise: Promise,
}

impl<P: Drop> Step<P> for Submit {
    type Load = P;

    type Answer = (TaskId, Looked);

    ghost ask = { λ s. ask.Submit s.kind s.priority };

    ghost did = { λ s x. did.Submit x.0 s.kind s.priority x.1 };

    ghost moves = { λ s l x old new. PutsIn old new x.0.0 s.promise l };

    #[inline(always)]
    fn ask(self) -> Ask {
        Ask::Submit(self.kind, self.priority)
    }

    #[inline(always)]
    fn did(self, answer: &(TaskId, Looked)) -> Did {
        Did::Submit(answer.0, self.kind, self.priority, answer.1)
    }

    #[inline(always)]
    fn make<R: Recorder>(
        self,
        by: u32,
        load: P,
        machine: &mut Machine<P, R>,
    ) -> Result<(TaskId, Looked), (PoolError, P)> {
        machine.make_submit(by, self.kind, self.priority, self.promise, load)
    }
}
