//! One call for all steps that are values.

ghost use Rattle.std.specs.Prelude.{◌≡◌, IfOk, IfErr, OnOk, OnErr};
ghost use Rattle.tp_machine_state.specs.Steps.{Stands};
ghost use Rattle.tp_machine.specs.Stepped.{FitsOutcome};
ghost use Rattle.tp_machine.specs.Steps.{IsStep, IsRefusedBy};
ghost use Rattle.tp_machine.specs.Typed.{IsDeniedBy};

use super::{Machine, note};
use tp_machine_state::step::Step;
use tp_record::recorders::Recorder;
use tp_types::refusals::PoolError;

impl<P, R: Recorder> Machine<P, R> {
    /// Makes a step, with the number of the pass that asks: the machine's structures are read for its answer, the entry is noted,
    /// and the structures change. TornRecord (22) where an outcome is not as the task promised that ends, else refused as the step is:
    /// nothing has changed then.
    #[inline(always)]
    pub fn make<S: Step<P>>(&mut self, by: u32, step: S) -> Result<(S::Answer, S::Out), PoolError>
        ensures promised { OnOk result (FitsOutcome self.old (S.ask step)) }
        ensures step { IfOk result (λ r. IsStep R.tells self.old self.new by (S.ask step) (S.did step r.0)) }
        ensures fits { IfOk result (λ r. S.fits step r.0 self.old.parts) }
        ensures moves { IfOk result (λ r. S.moves step r.0 r.1 self.old.parts.tasks self.new.parts.tasks) }
        ensures denied { IfErr result (λ e. IsDeniedBy R.tells self.old (S.ask step) e) }
        ensures unchanged { OnErr result (self.new ≡ self.old) }
        ensures stands { Stands self.old.parts }
    {
        let answer = match step.answer(&self.parts) {
            Ok(answer) => answer,
            Err(error) => return Err(error),
        };
        let did = step.did(&answer);
        note(&self.parts, &mut self.noted, by, step.ask(), did);
        let out = step.apply(&mut self.parts, answer);
        Ok((answer, out))
    }

    /// As `make`, where an outcome that comes with the step is as the task promised that ends. Refused as the step is, and nothing
    /// has changed then.
    #[inline(always)]
    pub fn call<S: Step<P>>(&mut self, by: u32, step: S) -> Result<(S::Answer, S::Out), PoolError>
        requires promised { FitsOutcome self.old (S.ask step) }
        ensures step { IfOk result (λ r. IsStep R.tells self.old self.new by (S.ask step) (S.did step r.0)) }
        ensures fits { IfOk result (λ r. S.fits step r.0 self.old.parts) }
        ensures moves { IfOk result (λ r. S.moves step r.0 r.1 self.old.parts.tasks self.new.parts.tasks) }
        ensures refused { IfErr result (λ e. IsRefusedBy R.tells self.old (S.ask step) e) }
        ensures unchanged { OnErr result (self.new ≡ self.old) }
        ensures stands { Stands self.old.parts }
    {
        match self.make(by, step) {
            Ok(made) => Ok(made),
            Err(error) => Err(error),
        }
    }
}
