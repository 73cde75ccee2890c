//! The step of an ask that is known when the program runs.

ghost use Rattle.std.specs.Prelude.{◌≡◌, ◌↔◌, Option, option_map, IsTrue};
ghost use Rattle.tp_types.specs.declared.tasks.Promise.{Promise as PromiseOf};
ghost use Rattle.tp_machine.specs.Stepped.{IsPaid, IsAnswer, FitsOutcome, did_of, Moves};
ghost use Rattle.tp_machine.specs.Typed.{IsOrderAt};

use super::Step;
use crate::machine::Machine;
use crate::steps::Stepped;
use tp_record::entries::{Ask, Did};
use tp_record::recorders::Recorder;
use tp_types::refusals::PoolError;
use tp_types::tasks::Promise;

/// The step of this ask: a submission comes with what its job promises and its payload, any other ask with nothing.
#[derive(Clone, Copy)]
pub struct Asked(pub Ask);

// Whether an outcome that comes with the ask is as the task promised that ends.
fn is_promised<P, R: Recorder>(machine: &Machine<P, R>, ask: &Ask) -> bool
    ensures { IsTrue result ↔ FitsOutcome machine.now ask.now }
{
    match ask {
        Ask::End(w, outcome) => machine.may_end(*w, outcome),
        Ask::CallerEnd(t, outcome) => machine.may_end_at_caller(*t, outcome),
        _ => true,
    }
}

// What came, put together again.
fn returned<P>(promise: Option<Promise>, payload: Option<P>) -> Option<(Promise, P)>
where
    P: Drop,
    ensures { (l : Option (PromiseOf × P)) → promise ≡ option_map (λ x. x.0) l → payload ≡ option_map (λ x. x.1) l → result ≡ l }
{
    match (promise, payload) {
        (Some(promise), Some(payload)) => Some((promise, payload)),
        _ => None,
    }
}

impl<P: Drop> Step<P> for Asked {
    type Load = Option<(Promise, P)>;

    type Answer = Stepped<P>;

    ghost ask = { λ s. s.0 };

    ghost brings = { λ s l. IsPaid s.0 l };

    ghost answers = { λ s x. IsAnswer s.0 x };

    ghost did = { λ s x. did_of s.0 x };

    ghost moves = { λ s l x old new. Moves x s.0 l old new };

    ghost says = { λ s x c h. IsOrderAt x c h };

    fn ask(self) -> Ask {
        self.0
    }

    fn did(self, answer: &Stepped<P>) -> Did {
        answer.did(&self.0)
    }

    fn make<R: Recorder>(
        self,
        by: u32,
        load: Option<(Promise, P)>,
        machine: &mut Machine<P, R>,
    ) -> Result<Stepped<P>, (PoolError, Option<(Promise, P)>)> {
        if !is_promised(machine, &self.0) {
            return Err((PoolError::TornRecord, load));
        }
        let promise = match &load {
            Some((promise, _)) => Some(*promise),
            None => None,
        };
        match machine.step(by, self.0, load) {
            Ok(stepped) => Ok(stepped),
            Err((error, payload)) => Err((error, returned(promise, payload))),
        }
    }
}
