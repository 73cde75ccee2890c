//! One call for all asks.

ghost use Rattle.std.specs.Prelude.{◌≡◌, None, IfOk, IfErr, OnErr, option_map};
ghost use Rattle.tp_machine.specs.Stepped.{IsSubmission, IsOfController, IsSetting};
ghost use Rattle.tp_machine.specs.Stepped.{IsPaid, FitsOutcome, IsAnswer, did_of, Moves, IsInOrder};
ghost use Rattle.tp_machine.specs.Steps.{IsStep, Stays, IsRefusedBy};

use super::Machine;
use crate::steps::Stepped;
use tp_record::entries::Ask;
use tp_record::recorders::Recorder;
use tp_types::refusals::PoolError;
use tp_types::tasks::Promise;

impl<P, R: Recorder> Machine<P, R> {
    /// Makes the step of this ask by its own call, with the number of the pass that asks. A submission comes with what its job
    /// promises and its payload, and where it is refused the payload comes back; no other ask comes with one. The outcome of an
    /// end is as its task promised. The error is that of the ask's own call, and nothing has changed.
    pub fn step(
        &mut self,
        by: u32,
        ask: Ask,
        submitted: Option<(Promise, P)>,
    ) -> Result<Stepped<P>, (PoolError, Option<P>)>
    where
        P: Drop,
        requires payload { IsPaid ask submitted }
        requires outcome { FitsOutcome self.old ask }
        ensures answer { IfOk result (λ s. IsAnswer ask s) }
        ensures step { IfOk result (λ s. IsStep R.tells self.old self.new by ask (did_of ask s)) }
        ensures payloads { IfOk result (λ s. Moves s ask submitted self.old.parts.tasks self.new.parts.tasks) }
        ensures order { IfOk result (IsInOrder R.tells self.old) }
        ensures refused { IfErr result (λ r. IsRefusedBy R.tells self.old ask r.0) }
        ensures returned { IfErr result (λ r. r.1 ≡ option_map (λ x. x.1) submitted) }
        ensures unchanged { OnErr result (Stays R.tells self.old self.new) }
    {
        let Some((promise, payload)) = submitted else {
            return match self.step_without_payload(by, ask) {
                Ok(stepped) => Ok(stepped),
                Err(error) => Err((error, None)),
            };
        };
        let Ask::Submit(kind, priority) = ask else {
            unreachable!()
        };
        match self.submit(by, kind, priority, promise, payload) {
            Ok((t, did)) => Ok(Stepped::Submit(t, did)),
            Err((error, payload)) => Err((error, Some(payload))),
        }
    }

    /// The step of an ask that is no submission.
    fn step_without_payload(&mut self, by: u32, ask: Ask) -> Result<Stepped<P>, PoolError>
        requires other { ¬ IsSubmission ask }
        requires outcome { FitsOutcome self.old ask }
        ensures answer { IfOk result (λ s. IsAnswer ask s) }
        ensures step { IfOk result (λ s. IsStep R.tells self.old self.new by ask (did_of ask s)) }
        ensures payloads { IfOk result (λ s. Moves s ask None self.old.parts.tasks self.new.parts.tasks) }
        ensures order { IfOk result (IsInOrder R.tells self.old) }
        ensures refused { IfErr result (λ e. IsRefusedBy R.tells self.old ask e) }
        ensures unchanged { OnErr result (self.new ≡ self.old) }
    {
        match ask {
            Ask::Submit(..) => unreachable!(),
            Ask::Look(t) => Ok(Stepped::Look(self.look(by, t)?)),
            Ask::Offer(t) => Ok(Stepped::Offer(self.offer(by, t)?)),
            Ask::Second(t) => Ok(Stepped::Second(self.second(by, t)?)),
            Ask::Grow(t) => Ok(Stepped::Grow(self.grow(by, t)?)),
            Ask::Verdict(t, verdict) => Ok(Stepped::Verdict(self.verdict(by, t, verdict)?)),
            Ask::CallerEnd(t, outcome) => {
                self.caller_end(by, t, outcome)?;
                Ok(Stepped::CallerEnd)
            }
            Ask::Open(w) => Ok(Stepped::Open(self.open(by, w)?)),
            Ask::Fail(w) => Ok(Stepped::Fail(self.fail(by, w)?)),
            Ask::Take(w) => Ok(Stepped::Take(self.take(by, w)?)),
            Ask::Begin(w) => Ok(Stepped::Begin(self.begin(by, w)?)),
            Ask::End(w, outcome) => Ok(Stepped::End(self.end(by, w, outcome)?)),
            Ask::Leave(w) => Ok(Stepped::Leave(self.leave(by, w)?)),
            Ask::Shutdown | Ask::Stop | Ask::Tidy | Ask::Ended => self.controllers_step(by, ask),
            Ask::Remove(_) | Ask::Purge | Ask::Cancel(..) => self.controllers_step(by, ask),
            Ask::TakeDone(_) => self.controllers_step(by, ask),
            Ask::Core(_) | Ask::Maximum(_) | Ask::Keep(_) => self.settings_step(by, ask),
            Ask::CoreTimeout(_) | Ask::Tick(_) | Ask::Prestart => self.settings_step(by, ask),
        }
    }

    /// A controller's step on the pool or a task.
    fn controllers_step(&mut self, by: u32, ask: Ask) -> Result<Stepped<P>, PoolError>
        requires wing { IsOfController ask }
        ensures answer { IfOk result (λ s. IsAnswer ask s) }
        ensures step { IfOk result (λ s. IsStep R.tells self.old self.new by ask (did_of ask s)) }
        ensures payloads { IfOk result (λ s. Moves s ask None self.old.parts.tasks self.new.parts.tasks) }
        ensures order { IfOk result (IsInOrder R.tells self.old) }
        ensures refused { IfErr result (λ e. IsRefusedBy R.tells self.old ask e) }
        ensures unchanged { OnErr result (self.new ≡ self.old) }
    {
        match ask {
            Ask::Shutdown => {
                self.shutdown(by)?;
                Ok(Stepped::Shutdown)
            }
            Ask::Stop => Ok(Stepped::Stop(self.stop_now(by)?)),
            Ask::Tidy => {
                self.tidy(by)?;
                Ok(Stepped::Tidy)
            }
            Ask::Ended => {
                self.terminated(by)?;
                Ok(Stepped::Ended)
            }
            Ask::Remove(t) => Ok(Stepped::Remove(self.remove(by, t)?)),
            Ask::Purge => Ok(Stepped::Purge(self.purge(by)?)),
            Ask::Cancel(t, flag) => {
                let (effective, payload) = self.cancel(by, t, flag)?;
                Ok(Stepped::Cancel(effective, payload))
            }
            Ask::TakeDone(g) => Ok(Stepped::TakeDone(self.take_done(by, g)?)),
            _ => unreachable!(),
        }
    }

    /// The step of a setting, the moment or a prestart.
    fn settings_step(&mut self, by: u32, ask: Ask) -> Result<Stepped<P>, PoolError>
        requires wing { IsSetting ask }
        ensures answer { IfOk result (λ s. IsAnswer ask s) }
        ensures step { IfOk result (λ s. IsStep R.tells self.old self.new by ask (did_of ask s)) }
        ensures payloads { IfOk result (λ s. Moves s ask None self.old.parts.tasks self.new.parts.tasks) }
        ensures order { IfOk result (IsInOrder R.tells self.old) }
        ensures refused { IfErr result (λ e. IsRefusedBy R.tells self.old ask e) }
        ensures unchanged { OnErr result (self.new ≡ self.old) }
    {
        match ask {
            Ask::Core(core) => Ok(Stepped::Core(self.set_core(by, core)?)),
            Ask::Maximum(maximum) => {
                self.set_max(by, maximum)?;
                Ok(Stepped::Maximum)
            }
            Ask::Keep(keep) => {
                self.set_keep(by, keep)?;
                Ok(Stepped::Keep)
            }
            Ask::CoreTimeout(on) => {
                self.allow_core_timeout(by, on)?;
                Ok(Stepped::CoreTimeout)
            }
            Ask::Tick(now) => {
                self.tick(by, now)?;
                Ok(Stepped::Tick)
            }
            Ask::Prestart => Ok(Stepped::Prestart(self.prestart(by)?)),
            _ => unreachable!(),
        }
    }
}
