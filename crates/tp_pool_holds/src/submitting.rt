//! The steps of a submission, each in a hold of its own.
ghost use Rattle.std.specs.Prelude.{true, ◌≡◌, ◌+◌, ◌<◌, ◌≤◌, Some, IfSome, IfNone, IfOk, IfErr, OnSome, OnOk, OnErr, ⊤};
ghost use Rattle.tp_record.specs.State.{state};
ghost use Rattle.tp_record.specs.Paths.{Ends, Rejected, follows as what_follows};
ghost use Rattle.tp_machine_state.specs.Payloads.{PutsIn};
ghost use Rattle.tp_pool_holds.specs.Left.{IsLeft};
ghost use Rattle.tp_pool_holds.specs.Passes.{AddsStep, AddsNone, LooksOnly, Refuses};
ghost use Rattle.tp_pool_holds.specs.Steps.{Makes};
ghost use Rattle.tp_pool_holds.specs.declared.tasks.Payload.{Payload as TaskOf};
ghost use Rattle.tp_machine.specs.Answers.{ComesBack};
ghost use Rattle.tp_pool_holds.specs.Submitting.{IsHalted, TakesOut};

use crate::edges::Edge;
use crate::locked::Locked;
use crate::names::PoolNaming;
use crate::shared::{Shared, left_in};
use crate::tasks::Payload;
use std::sync::{MutexGuard, Wait};
use tp_book::passes::Pass;
use tp_machine::machine::releases::Keeper;
use tp_machine::typed::Plain;
use tp_machine::typed::submitters::{Judge, Second, Submit};
use tp_protocols::flags::CancelFlag;
use tp_protocols::rescues::Remains;
use tp_record::entries::{Ask, Did, Looked, Seconded};
use tp_tasks::spaces::Space;
use tp_types::configs::Verdict;
use tp_types::ids::TaskId;
use tp_types::refusals::PoolError;

// What is left to do after a second look: it is looked for only where the task came back.
#[inline(always)]
fn left_by_second<G: PoolNaming, J: Drop, K: Keeper>(
    locked: &Locked<G, J, K>,
    answer: &Result<Seconded, PoolError>,
) -> Remains
    ensures { answer.now ≡ Ok Seconded.Back → IsLeft (state (K.terms G.config) locked.now.book.history) result }
{
    match answer {
        Ok(Seconded::Back) => left_in(locked),
        _ => Remains::Nothing,
    }
}

impl<G: PoolNaming, J: Drop, E: Edge, K: Keeper> Shared<G, J, E, K> {
    /// The first step of a submission, in a hold of its own. NoMemory (4) or BookFull (5), with the job.
    #[inline(always)]
    pub fn submit<R: Wait>(
        &self,
        rt: &R,
        step: Submit,
        job: J,
        pass: &mut Pass<G>,
    ) -> Result<(TaskId, Looked), (PoolError, J)>
        requires room { 0 < pass.old.room }
        ensures makes { IfOk result (λ x. (task : TaskOf J) × (task.job ≡ job) × Makes J (K.terms G.config) pass.old.number pass.old.front (Ask.Submit step.kind step.priority) (Did.Submit x.0 step.kind step.priority x.1) (λ old new. PutsIn old new x.0.0 step.promise task) pass.new.front) }
        ensures step { IfOk result (λ x. AddsStep (K.terms G.config) pass.old (Ask.Submit step.kind step.priority) (Did.Submit x.0 step.kind step.priority x.1) pass.new) }
        ensures left { OnOk result (pass.old.room ≤ pass.new.room + 1) }
        ensures refused { IfErr result (λ r. Refuses true (K.terms G.config) ⊤ pass.new (Ask.Submit step.kind step.priority) r.0) }
        ensures returned { IfErr result (λ r. r.1 ≡ job) }
        ensures unchanged { OnErr result (AddsNone pass.old pass.new) }
    {
        let mut locked = self.hold_with_space(rt);
        let submitted = locked.submit(step, Payload { job }, &self.around.glance, pass);
        self.release(locked);
        match submitted {
            Ok(submitted) => Ok(submitted),
            Err((error, task)) => Err((error, task.into_job())),
        }
    }

    // Takes the lock. Memory for more tasks is made before, with no lock held.
    #[inline(always)]
    fn hold_with_space<R: Wait>(&self, rt: &R) -> MutexGuard<'_, Locked<G, J, K>> {
        let mut locked = self.hold(rt);
        let homes = locked.wants_space();
        if homes > 0 {
            self.release(locked);
            self.make_space(rt, homes);
            locked = self.hold(rt);
        }
        locked
    }

    // Makes memory for so many homes of tasks, and hands it in. What the tasks lay in before is let go of after the hold.
    // Where there is none, the submission takes what it needs, or is refused.
    #[cold]
    #[inline(never)]
    fn make_space<R: Wait>(&self, rt: &R, homes: usize) {
        let Ok(made) = Space::new(self.around.alloc, homes) else {
            return;
        };
        let mut space = made;
        let mut locked = self.hold(rt);
        locked.take_space(&mut space);
        self.release(locked);
    }

    /// The step `second`: what it did, and what is left to do where the task came back.
    #[inline(always)]
    pub fn second<R: Wait>(&self, rt: &R, t: TaskId, pass: &mut Pass<G>) -> (Option<Did>, Remains)
        requires room { 0 < pass.old.room }
        ensures step { IfSome result.0 (λ d. AddsStep (K.terms G.config) pass.old (Ask.Second t) d pass.new) }
        ensures left { OnSome result.0 (pass.old.room ≤ pass.new.room + 1) }
        ensures refused { IfNone result.0 (IsHalted K.RECEIPTS (K.terms G.config) pass.new (Ask.Second t)) }
        ensures unchanged { IfNone result.0 (LooksOnly (K.terms G.config) pass.old pass.new) }
        ensures remains { result.0 ≡ Some (Did.Second t Seconded.Back) → IsLeft (state (K.terms G.config) pass.new.front) result.1 }
    {
        let mut locked = self.hold(rt);
        let answer = locked.step(Plain(Second(t)), &self.around.glance, pass);
        let remains = left_by_second(&locked, &answer);
        self.release(locked);
        match answer {
            Ok(answer) => (Some(Did::Second(t, answer)), remains),
            Err(_) => (None, remains),
        }
    }

    /// The step `verdict`: what it did, and what is left to do. A task that its submitter is to run, or that is
    /// gone, is handed out unless it was cancelled.
    pub fn judge<R: Wait>(
        &self,
        rt: &R,
        t: TaskId,
        verdict: Verdict,
        held: &mut Option<Payload<J>>,
        pass: &mut Pass<G>,
    ) -> (Option<Did>, Remains)
        requires room { 0 < pass.old.room }
        ensures step { IfSome result.0 (λ d. AddsStep (K.terms G.config) pass.old (Ask.Verdict t verdict) d pass.new) }
        ensures left { OnSome result.0 (pass.old.room ≤ pass.new.room + 1) }
        ensures refused { IfNone result.0 (IsHalted K.RECEIPTS (K.terms G.config) pass.new (Ask.Verdict t verdict)) }
        ensures returned { IfSome result.0 (λ d. what_follows t.0 d ≡ Ends Rejected → ComesBack t.0 held.new pass.new.front × TakesOut (K.terms G.config) pass.old.number t.0 held.new pass.old.front pass.new.front) }
        ensures unchanged { IfNone result.0 (LooksOnly (K.terms G.config) pass.old pass.new) }
        ensures remains { IsLeft (state (K.terms G.config) pass.new.front) result.1 }
    {
        let (judged, remains) = self.ask_left(rt, Judge(t, verdict), pass);
        match judged {
            Ok(judged) => {
                *held = judged.payload;
                (Some(judged.did), remains)
            }
            Err(_) => (None, remains),
        }
    }

    /// The flag of a task that this caller runs, as the job has it. The flag for the next one is made here with no lock held,
    /// so that the hold of the next submission need not make it.
    pub fn flag_at_caller<R: Wait>(&self, rt: &R, t: TaskId) -> Option<CancelFlag> {
        let next = CancelFlag::new(self.around.alloc).ok();
        self.hold(rt).flag_at_caller(t, next)
    }
}
