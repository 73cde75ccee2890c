//! Controllers' steps.

ghost use Rattle.std.specs.Prelude.{length, map, All, IfSome, ◌≡◌, ◌<◌, ◌^◌, is_some};
ghost use Rattle.tp_record.specs.declared.entries.Ask.TheVariants as ask;
ghost use Rattle.tp_record.specs.declared.entries.Did.TheVariants as did;
ghost use Rattle.tp_record.specs.Fields.{queue};
ghost use Rattle.tp_machine_state.specs.Payloads.{HandsOut};
ghost use Rattle.tp_machine.specs.Answers.{IsPaidAt, IsRemoval, HandsBack};

use super::Step;
use crate::machine::Machine;
pub use tp_machine_controllers::cancel::Cancel;
pub use tp_machine_controllers::ended::Ended;
pub use tp_machine_controllers::purge::Purge;
pub use tp_machine_controllers::remove::Remove;
pub use tp_machine_controllers::shutdown::Shutdown;
pub use tp_machine_controllers::take_done::TakeDone;
pub use tp_machine_controllers::tidy::Tidy;
use tp_record::entries::{Ask, Did};
use tp_record::recorders::Recorder;
use tp_types::ids::TaskId;
use tp_types::refusals::PoolError;

impl<P> Step<P> for Remove {
    type Load = ();

    type Answer = Option<(TaskId, Option<P>)>;

    ghost ask = { λ s. ask.Remove s.0 };

    ghost did = { λ s x. did.Remove s.0 (is_some x) };

    ghost moves = { λ s l x old new. IsRemoval old new s.0 x };

    ghost says = { λ s x c h. IfSome x (IsPaidAt h) };

    #[inline(always)]
    fn ask(self) -> Ask {
        Ask::Remove(self.0)
    }

    #[inline(always)]
    fn did(self, answer: &Option<(TaskId, Option<P>)>) -> Did {
        Did::Remove(self.0, answer.is_some())
    }

    #[inline(always)]
    fn make<R: Recorder>(
        self,
        by: u32,
        load: (),
        machine: &mut Machine<P, R>,
    ) -> Result<Option<(TaskId, Option<P>)>, (PoolError, ())> {
        match machine.remove(by, self.0) {
            Ok(answer) => Ok(answer),
            Err(error) => Err((error, load)),
        }
    }
}

impl<P> Step<P> for Cancel {
    type Load = ();

    type Answer = (bool, Option<P>);

    ghost ask = { λ s. ask.Cancel s.0 s.1 };

    ghost did = { λ s x. did.Cancel s.0 s.1 x.0 };

    ghost moves = { λ s l x old new. HandsOut old new s.0.0 x.1 };

    #[inline(always)]
    fn ask(self) -> Ask {
        Ask::Cancel(self.0, self.1)
    }

    #[inline(always)]
    fn did(self, answer: &(bool, Option<P>)) -> Did {
        Did::Cancel(self.0, self.1, answer.0)
    }

    #[inline(always)]
    fn make<R: Recorder>(
        self,
        by: u32,
        load: (),
        machine: &mut Machine<P, R>,
    ) -> Result<(bool, Option<P>), (PoolError, ())> {
        match machine.make(by, self) {
            Ok(answer) => Ok(answer),
            Err(error) => Err((error, load)),
        }
    }
}

/// `shutdownNow`.
#[derive(Clone, Copy)]
pub struct Stop;

impl<P> Step<P> for Stop {
    type Load = ();

    type Answer = Vec<(TaskId, Option<P>)>;

    ghost ask = { λ s. ask.Stop };

    ghost did = { λ s x. did.Stop (length x.items) };

    ghost moves = { λ s l x old new. HandsBack old new x.items };

    ghost answers = { λ s x. length x.items < 2 ^ 32 };

    ghost says = { λ s x c h. (map (λ y. y.0.0) x.items ≡ queue c h) × All (IsPaidAt h) x.items };

    #[inline(always)]
    fn ask(self) -> Ask {
        Ask::Stop
    }

    #[inline(always)]
    fn did(self, answer: &Vec<(TaskId, Option<P>)>) -> Did {
        Did::Stop(answer.len() as u32)
    }

    #[inline(always)]
    fn make<R: Recorder>(
        self,
        by: u32,
        load: (),
        machine: &mut Machine<P, R>,
    ) -> Result<Vec<(TaskId, Option<P>)>, (PoolError, ())> {
        match machine.stop_now(by) {
            Ok(answer) => Ok(answer),
            Err(error) => Err((error, load)),
        }
    }
}
