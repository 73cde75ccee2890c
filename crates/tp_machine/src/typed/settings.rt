//! Steps of settings, the moment, and prestarts.

ghost use Rattle.tp_record.specs.declared.entries.Ask.TheVariants as ask;
ghost use Rattle.tp_record.specs.declared.entries.Did.TheVariants as did;
ghost use Rattle.tp_machine_state.specs.Payloads.{Keeps};

use super::Step;
use crate::machine::Machine;
pub use tp_machine_controllers::core_size::Core;
pub use tp_machine_controllers::core_timeout::CoreTimeout;
pub use tp_machine_controllers::keep::Keep;
pub use tp_machine_controllers::prestart::Prestart;
pub use tp_machine_controllers::tick::Tick;
use tp_record::entries::{Ask, Did};
use tp_record::recorders::Recorder;
use tp_types::refusals::PoolError;

/// The maximum size.
#[derive(Clone, Copy)]
pub struct Maximum(pub u32);

impl<P> Step<P> for Maximum {
    type Load = ();

    type Answer = ();

    ghost ask = { λ s. ask.Maximum s.0 };

    ghost did = { λ s x. did.Maximum s.0 };

    ghost moves = { λ s l x old new. Keeps old new };

    #[inline(always)]
    fn ask(self) -> Ask {
        Ask::Maximum(self.0)
    }

    #[inline(always)]
    fn did(self, _answer: &()) -> Did {
        Did::Maximum(self.0)
    }

    #[inline(always)]
    fn make<R: Recorder>(
        self,
        by: u32,
        load: (),
        machine: &mut Machine<P, R>,
    ) -> Result<(), (PoolError, ())> {
        match machine.set_max(by, self.0) {
            Ok(()) => Ok(()),
            Err(error) => Err((error, load)),
        }
    }
}
