//! Workers' steps.

ghost use Rattle.std.specs.Prelude.{◌≡◌, IfOk, IfErr, OnErr, IfSome, Some, None};
ghost use Rattle.tp_machine_state.specs.Payloads.{Keeps};
ghost use Rattle.tp_machine_workers.specs.Begun.{Begins};
ghost use Rattle.tp_machine.specs.Answers.{started_of, payload_begun};
ghost use Rattle.tp_machine.specs.Seen.{FitsThere};
ghost use Rattle.tp_machine.specs.Steps.{IsStep, IsRefusedBy};

use super::Machine;
use crate::answers::Begun;
use tp_machine_workers::begin::Begin;
use tp_machine_workers::end::End;
use tp_machine_workers::fail::Fail;
use tp_machine_workers::leave::Leave;
use tp_machine_workers::open::Open;
use tp_machine_workers::take::Take;
use tp_record::entries::{Ask, Did};
use tp_record::recorders::Recorder;
use tp_types::ids::SlotId;
use tp_types::refusals::PoolError;
use tp_types::tasks::Outcome;

impl<P, R: Recorder> Machine<P, R> {
    /// The factory made a worker for the reserved slot, as `addWorker` once its thread runs: it is live, or given up where the
    /// pool was shut down meanwhile. UnknownSlot (7) or NotThere (8).
    pub fn open(&mut self, by: u32, w: SlotId) -> Result<Did, PoolError>
        ensures step { IfOk result (λ d. IsStep R.tells self.old self.new by (Ask.Open w) d) }
        ensures refused { IfErr result (λ e. IsRefusedBy R.tells self.old (Ask.Open w) e) }
        ensures unchanged { OnErr result (self.new ≡ self.old) }
        ensures payloads { Keeps self.old.parts.tasks self.new.parts.tasks }
    {
        let (answer, ()) = self.call(by, Open(w))?;
        Ok(Did::Open(w, answer))
    }

    /// No worker was made for the reserved slot, as `addWorkerFailed`: its first task, if it has one, is offered or refused.
    /// UnknownSlot (7) or NotThere (8).
    pub fn fail(&mut self, by: u32, w: SlotId) -> Result<Did, PoolError>
        ensures step { IfOk result (λ d. IsStep R.tells self.old self.new by (Ask.Fail w) d) }
        ensures refused { IfErr result (λ e. IsRefusedBy R.tells self.old (Ask.Fail w) e) }
        ensures unchanged { OnErr result (self.new ≡ self.old) }
        ensures payloads { Keeps self.old.parts.tasks self.new.parts.tasks }
    {
        let (answer, ()) = self.call(by, Fail(w))?;
        Ok(Did::Fail(w, answer))
    }

    /// The worker asks for its next task, as `getTask`: the one that its slot holds, else the queue's head; or it leaves, or is
    /// idle. UnknownSlot (7) or NotThere (8).
    pub fn take(&mut self, by: u32, w: SlotId) -> Result<Did, PoolError>
        ensures step { IfOk result (λ d. IsStep R.tells self.old self.new by (Ask.Take w) d) }
        ensures refused { IfErr result (λ e. IsRefusedBy R.tells self.old (Ask.Take w) e) }
        ensures unchanged { OnErr result (self.new ≡ self.old) }
        ensures payloads { Keeps self.old.parts.tasks self.new.parts.tasks }
    {
        let (answer, ()) = self.call(by, Take(w))?;
        Ok(Did::Take(w, answer))
    }

    /// The worker begins the task that it took, as `beforeExecute` and the task's `run`, and gets its payload; or it skips the
    /// task, where that was cancelled. UnknownSlot (7) or NotThere (8).
    #[inline(always)]
    pub fn begin(&mut self, by: u32, w: SlotId) -> Result<Begun<P>, PoolError>
        ensures step { IfOk result (λ b. IsStep R.tells self.old self.new by (Ask.Begin w) (Did.Begin w (started_of b))) }
        ensures payloads { IfOk result (λ b. Begins self.old.parts.tasks (started_of b) self.new.parts.tasks (payload_begun b)) }
        ensures refused { IfErr result (λ e. IsRefusedBy R.tells self.old (Ask.Begin w) e) }
        ensures unchanged { OnErr result (self.new ≡ self.old) }
    {
        let (started, payload) = self.call(by, Begin(w))?;
        Ok(Begun::of(started, payload))
    }

    /// The worker ran its task to this outcome, which is as the task promised; `afterExecute` ran. UnknownSlot (7) or NotThere
    /// (8).
    pub fn end(&mut self, by: u32, w: SlotId, outcome: Outcome) -> Result<Did, PoolError>
        requires { FitsThere self.old w outcome }
        ensures step { IfOk result (λ d. IsStep R.tells self.old self.new by (Ask.End w outcome) d) }
        ensures refused { IfErr result (λ e. IsRefusedBy R.tells self.old (Ask.End w outcome) e) }
        ensures unchanged { OnErr result (self.new ≡ self.old) }
        ensures payloads { Keeps self.old.parts.tasks self.new.parts.tasks }
    {
        let (t, ()) = self.call(by, End(w, outcome))?;
        Ok(Did::End(w, t, outcome))
    }

    /// The dying worker leaves, as `processWorkerExit`, and its slot may be reserved again for another. UnknownSlot (7) or
    /// NotThere (8).
    pub fn leave(&mut self, by: u32, w: SlotId) -> Result<Did, PoolError>
        ensures step { IfOk result (λ d. IsStep R.tells self.old self.new by (Ask.Leave w) d) }
        ensures refused { IfErr result (λ e. IsRefusedBy R.tells self.old (Ask.Leave w) e) }
        ensures unchanged { OnErr result (self.new ≡ self.old) }
        ensures payloads { Keeps self.old.parts.tasks self.new.parts.tasks }
    {
        let (answer, ()) = self.call(by, Leave(w))?;
        Ok(Did::Leave(w, answer))
    }
}
