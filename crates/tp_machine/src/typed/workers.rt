//! Workers' steps.

ghost use Rattle.tp_record.specs.declared.entries.Ask.TheVariants as ask;
ghost use Rattle.tp_record.specs.declared.entries.Did.TheVariants as did;
ghost use Rattle.tp_machine_workers.specs.Begun.{Begins};
ghost use Rattle.tp_machine.specs.Answers.{started_of, payload_begun};

use super::Step;
use crate::answers::Begun;
use crate::machine::Machine;
pub use tp_machine_workers::begin::Begin;
pub use tp_machine_workers::end::End;
pub use tp_machine_workers::fail::Fail;
pub use tp_machine_workers::leave::Leave;
pub use tp_machine_workers::open::Open;
pub use tp_machine_workers::take::Take;
use tp_record::entries::{Ask, Did};
use tp_record::recorders::Recorder;
use tp_types::refusals::PoolError;

impl<P> Step<P> for Begin {
    type Load = ();

    type Answer = Begun<P>;

    ghost ask = { λ s. ask.Begin s.0 };

    ghost did = { λ s x. did.Begin s.0 (started_of x) };

    ghost moves = { λ s l x old new. Begins old (started_of x) new (payload_begun x) };

    #[inline(always)]
    fn ask(self) -> Ask {
        Ask::Begin(self.0)
    }

    #[inline(always)]
    fn did(self, answer: &Begun<P>) -> Did {
        Did::Begin(self.0, answer.started())
    }

    #[inline(always)]
    fn make<R: Recorder>(
        self,
        by: u32,
        load: (),
        machine: &mut Machine<P, R>,
    ) -> Result<Begun<P>, (PoolError, ())> {
        match machine.begin(by, self.0) {
            Ok(answer) => Ok(answer),
            Err(error) => Err((error, load)),
        }
    }
}
