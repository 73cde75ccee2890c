//! Submitters' steps.

ghost use Rattle.std.specs.Prelude.{ℕ, ◌≡◌, List, IfOk, IfErr, OnOk, OnErr, Some};
ghost use Rattle.tp_record.specs.declared.entries.Entry.{Entry};
ghost use Rattle.tp_record.specs.Effects.{submits};
ghost use Rattle.tp_machine_state.specs.Payloads.{Keeps, PutsIn};
ghost use Rattle.tp_machine.specs.Answers.{IsJudged, IsReturnedAt};
ghost use Rattle.tp_machine.specs.Seen.{At, FitsAtCaller};
ghost use Rattle.tp_machine.specs.Steps.{IsStep, Stays, IsRefusedBy};

use super::{Machine, note};
use crate::answers::Judged;
use tp_machine_submitters::callerend::CallerEnd;
use tp_machine_submitters::grow::Grow;
use tp_machine_submitters::look::Look;
use tp_machine_submitters::offer::Offer;
use tp_machine_submitters::second::Second;
use tp_machine_submitters::submit;
use tp_machine_submitters::verdict::Judge;
use tp_record::entries::{Ask, Did, Looked};
use tp_record::recorders::Recorder;
use tp_types::configs::Verdict;
use tp_types::ids::TaskId;
use tp_types::refusals::PoolError;
use tp_types::tasks::{Kind, Outcome, Promise};

impl<P, R: Recorder> Machine<P, R> {
    /// Submits a task of this kind and priority, with what its job promises and its payload, and looks at once, as `execute`.
    /// BookFull (5), or NoMemory (4): the payload comes back, and nothing has changed.
    pub fn submit(
        &mut self,
        by: u32,
        kind: Kind,
        priority: u32,
        promise: Promise,
        payload: P,
    ) -> Result<(TaskId, Did), (PoolError, P)>
    where
        P: Drop,
        ensures step { IfOk result (λ r. IsStep R.tells self.old self.new by (Ask.Submit kind priority) r.1) }
        ensures number { IfOk result (λ r. submits r.1 ≡ Some r.0.0) }
        ensures payloads { IfOk result (λ r. PutsIn self.old.parts.tasks self.new.parts.tasks r.0.0 promise payload) }
        ensures refused { IfErr result (λ r. IsRefusedBy R.tells self.old (Ask.Submit kind priority) r.0) }
        ensures returned { IfErr result (λ r. r.1 ≡ payload) }
        ensures unchanged { OnErr result (Stays R.tells self.old self.new) }
    {
        match self.make_submit(by, kind, priority, promise, payload) {
            Ok((t, looked)) => Ok((t, Did::Submit(t, kind, priority, looked))),
            Err(refused) => Err(refused),
        }
    }

    /// The step of `submit`, which answers its own part of the entry alone.
    #[inline(always)]
    pub(crate) fn make_submit(
        &mut self,
        by: u32,
        kind: Kind,
        priority: u32,
        promise: Promise,
        payload: P,
    ) -> Result<(TaskId, Looked), (PoolError, P)>
    where
        P: Drop,
        ensures step { IfOk result (λ r. IsStep R.tells self.old self.new by (Ask.Submit kind priority) (Did.Submit r.0 kind priority r.1)) }
        ensures payloads { IfOk result (λ r. PutsIn self.old.parts.tasks self.new.parts.tasks r.0.0 promise payload) }
        ensures refused { IfErr result (λ r. IsRefusedBy R.tells self.old (Ask.Submit kind priority) r.0) }
        ensures returned { IfErr result (λ r. r.1 ≡ payload) }
        ensures unchanged { OnErr result (Stays R.tells self.old self.new) }
    {
        let looked = match submit::answer(&self.parts, kind, priority) {
            Ok(looked) => looked,
            Err(error) => return Err((error, payload)),
        };
        if let Err(error) = submit::prepare(&mut self.parts, kind) {
            return Err((error, payload));
        }
        let did = Did::Submit(TaskId(self.parts.tasks.submitted()), kind, priority, looked);
        note(
            &self.parts,
            &mut self.noted,
            by,
            Ask::Submit(kind, priority),
            did,
        );
        let t = submit::apply(&mut self.parts, kind, priority, promise, payload, looked);
        Ok((t, looked))
    }

    /// Looks at the pool for a task that was refused and is tried again, as the beginning of `execute`: a core slot is reserved, the task
    /// is to be offered, or it is refused. UnknownTask (6) or NotThere (8).
    pub fn look(&mut self, by: u32, t: TaskId) -> Result<Did, PoolError>
        ensures step { IfOk result (λ d. IsStep R.tells self.old self.new by (Ask.Look t) d) }
        ensures refused { IfErr result (λ e. IsRefusedBy R.tells self.old (Ask.Look t) e) }
        ensures unchanged { OnErr result (self.new ≡ self.old) }
        ensures payloads { Keeps self.old.parts.tasks self.new.parts.tasks }
    {
        let (answer, ()) = self.call(by, Look(t))?;
        Ok(Did::Look(t, answer))
    }

    /// Offers the task to the queue, as `workQueue.offer` in `execute`: it is queued, handed to the worker that is idle longest, or the
    /// queue is full. UnknownTask (6) or NotThere (8).
    pub fn offer(&mut self, by: u32, t: TaskId) -> Result<Did, PoolError>
        ensures step { IfOk result (λ d. IsStep R.tells self.old self.new by (Ask.Offer t) d) }
        ensures refused { IfErr result (λ e. IsRefusedBy R.tells self.old (Ask.Offer t) e) }
        ensures unchanged { OnErr result (self.new ≡ self.old) }
        ensures payloads { Keeps self.old.parts.tasks self.new.parts.tasks }
    {
        let (answer, ()) = self.call(by, Offer(t))?;
        Ok(Did::Offer(t, answer))
    }

    /// Takes the second look that the task owes after its offer, as the recheck in `execute`: a pool that was shut down meanwhile gives a
    /// queued task back, and one without slots reserves a bare one. UnknownTask (6) or NotThere (8).
    pub fn second(&mut self, by: u32, t: TaskId) -> Result<Did, PoolError>
        ensures step { IfOk result (λ d. IsStep R.tells self.old self.new by (Ask.Second t) d) }
        ensures refused { IfErr result (λ e. IsRefusedBy R.tells self.old (Ask.Second t) e) }
        ensures unchanged { OnErr result (self.new ≡ self.old) }
        ensures payloads { Keeps self.old.parts.tasks self.new.parts.tasks }
    {
        let (answer, ()) = self.call(by, Second(t))?;
        Ok(Did::Second(t, answer))
    }

    /// Grows the pool for the task that the full queue did not take, as the last `addWorker` of `execute`, or refuses it. UnknownTask (6)
    /// or NotThere (8).
    pub fn grow(&mut self, by: u32, t: TaskId) -> Result<Did, PoolError>
        ensures step { IfOk result (λ d. IsStep R.tells self.old self.new by (Ask.Grow t) d) }
        ensures refused { IfErr result (λ e. IsRefusedBy R.tells self.old (Ask.Grow t) e) }
        ensures unchanged { OnErr result (self.new ≡ self.old) }
        ensures payloads { Keeps self.old.parts.tasks self.new.parts.tasks }
    {
        let (answer, ()) = self.call(by, Grow(t))?;
        Ok(Did::Grow(t, answer))
    }

    /// What becomes of a refused task, as `RejectedExecutionHandler.rejectedExecution`. It hands out the task's own payload where
    /// the task is gone or begins at its caller, and that of a head that a retry dropped, each just where the task was not cancelled.
    /// UnknownTask (6) or NotThere (8).
    pub fn verdict(&mut self, by: u32, t: TaskId, verdict: Verdict) -> Result<Judged<P>, PoolError>
        ensures step { IfOk result (λ j. IsStep R.tells self.old self.new by (Ask.Verdict t verdict) j.did) }
        ensures payloads { IfOk result (λ j. IsJudged self.old.parts.tasks self.new.parts.tasks t j) }
        ensures returned { IfOk result (λ j. (h : List Entry) (rs : List ℕ) → At R.tells self.old h rs → IsReturnedAt t j h) }
        ensures refused { IfErr result (λ e. IsRefusedBy R.tells self.old (Ask.Verdict t verdict) e) }
        ensures unchanged { OnErr result (self.new ≡ self.old) }
    {
        let (ruled, payload) = self.call(by, Judge(t, verdict))?;
        Ok(Judged::of(Did::Verdict(t, verdict, ruled), ruled, payload))
    }

    /// The task's caller ran it to this outcome, which is as the task promised. UnknownTask (6) or NotThere (8).
    pub fn caller_end(&mut self, by: u32, t: TaskId, outcome: Outcome) -> Result<(), PoolError>
        requires { FitsAtCaller self.old t outcome }
        ensures step { OnOk result (IsStep R.tells self.old self.new by (Ask.CallerEnd t outcome) (Did.CallerEnd t outcome)) }
        ensures refused { IfErr result (λ e. IsRefusedBy R.tells self.old (Ask.CallerEnd t outcome) e) }
        ensures unchanged { OnErr result (self.new ≡ self.old) }
        ensures payloads { Keeps self.old.parts.tasks self.new.parts.tasks }
    {
        let ((), ()) = self.call(by, CallerEnd(t, outcome))?;
        Ok(())
    }
}
