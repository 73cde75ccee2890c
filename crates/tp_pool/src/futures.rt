//! Waits for futures, for done tasks of a group, and for steps. A waiter begins to wait with the guard of the
//! hold in which its look failed, so no step falls between the look and the sleep.
ghost use Rattle.std.specs.Prelude.{◌≡◌, ◌⊎◌, ◌<◌, true, length, IfOk, IfErr, OnErr};
ghost use Rattle.tp_glance.specs.Word.{IsFrontOf};
ghost use Rattle.tp_pool_holds.specs.Passes.{AddsStep, AddsNone, LooksOnly, Refuses};
ghost use Rattle.tp_pool_holds.specs.Moments.{AtFront, BookAtSome, BookOf};
ghost use Rattle.tp_pool_holds.specs.Readings.{got, IsFound, IsUndoneAt};
ghost use Rattle.tp_pool_holds.specs.declared.tasks.Payload.{Payload};
ghost use Rattle.tp_pool.specs.Admissions.{task_of as task_of_admitted};

use crate::pool::PoolOf;
use std::sync::Wait;
use tp_book::passes::Pass;
use tp_machine::machine::releases::Keeper;
use tp_machine::typed::Plain;
use tp_machine::typed::controllers::TakeDone;
use tp_pool_holds::answers::Admitted;
use tp_pool_holds::edges::Edge;
use tp_pool_holds::names::PoolNaming;
use tp_pool_holds::shared::Event;
use tp_record::entries::{Ask, Did};
use tp_types::ids::TaskId;
use tp_types::refusals::PoolError;

/// The task of a submission that was admitted, also of a discarded one.
pub fn task_of(admitted: Admitted) -> TaskId
    ensures { result ≡ task_of_admitted admitted }
{
    match admitted {
        Admitted::Accepted(t) | Admitted::RanHere(t, _) | Admitted::Discarded(t) => t,
    }
}

impl<G: PoolNaming, J: Drop, E: Edge, K: Keeper> PoolOf<G, J, E, K> {
    /// Waits until the task's future is not open any more, and answers its value, as `Future.get`. An outcome
    /// is as the job promised. The call makes no step.
    ///
    /// With a deadline, in ticks, TimedOut (16) once now has reached it, only while the future is open, as a
    /// `TimeoutException`. Else as `result`: UnknownTask (6), NotFuture (9), CancelledTask (13), Faulted (14)
    /// or Lost (15).
    pub fn await_result<R: Wait>(
        &self,
        rt: &R,
        t: TaskId,
        deadline: Option<u64>,
    ) -> Result<i64, PoolError>
        ensures { BookAtSome (Payload J) (K.terms G.config) (λ b. IsFound b t.0 K.RECEIPTS deadline (got result)) }
    {
        let shared = self.shared();
        let mut locked = shared.hold(rt);
        for _ in rt.forever() {
            if let Some(answer) = locked.await_result(t, deadline).transpose() {
                return answer;
            }
            locked = shared.wait_at(rt, Event::Results, locked);
        }
        unreachable!()
    }

    /// As `await_result`, with an answer as it is after the record that the pass knows then. That record goes on
    /// from the one that it knew; the call makes no step.
    pub fn await_result_with<R: Wait>(
        &self,
        rt: &R,
        t: TaskId,
        deadline: Option<u64>,
        pass: &mut Pass<G>,
    ) -> Result<i64, PoolError>
        ensures reads { BookOf (Payload J) (K.terms G.config) pass.new (λ b. IsFound b t.0 K.RECEIPTS deadline (got result)) }
        ensures looks { LooksOnly (K.terms G.config) pass.old pass.new }
        ensures knew { IsFrontOf pass.old.released pass.new.released }
    {
        let shared = self.shared();
        let mut locked = shared.hold(rt);
        for _ in rt.forever() {
            let found = locked.show_awaited(t, deadline, &shared.around.glance, pass);
            if let Some(answer) = found.transpose() {
                return answer;
            }
            locked = shared.wait_at(rt, Event::Results, locked);
        }
        unreachable!()
    }

    /// Takes the task of this group that was done first and was not taken yet, as
    /// `ExecutorCompletionService.poll`. NoMemory (4) for its receipt, else NotThere (8) where there is none,
    /// or BookFull (5). After a refusal nothing was taken.
    pub fn take_done<R: Wait>(
        &self,
        rt: &R,
        group: u32,
        pass: &mut Pass<G>,
    ) -> Result<TaskId, PoolError>
        ensures step { IfOk result (λ t. AddsStep (K.terms G.config) pass.old (Ask.TakeDone group) (Did.TakeDone group t) pass.new) }
        ensures refused { IfErr result (Refuses true (K.terms G.config) (pass.old.room < 1) pass.new (Ask.TakeDone group)) }
        ensures unchanged { OnErr result (AddsNone pass.old pass.new) }
    {
        self.shared().control(rt, Plain(TakeDone(group)), pass)
    }

    /// As `take_done`, but it waits while none is done and one is open, as `ExecutorCompletionService.take`.
    /// NoMemory (4) for its receipt, else NothingOpen (19) where none is done and none is open, or
    /// BookFull (5). After a refusal nothing was taken.
    pub fn await_done<R: Wait>(
        &self,
        rt: &R,
        group: u32,
        pass: &mut Pass<G>,
    ) -> Result<TaskId, PoolError>
        ensures step { IfOk result (λ t. AddsStep (K.terms G.config) pass.old (Ask.TakeDone group) (Did.TakeDone group t) pass.new) }
        ensures refused { IfErr result (λ e. ((e ≡ PoolError.NoMemory) × (pass.old.room < 1)) ⊎ AtFront (K.terms G.config) pass.new.front (λ s. IsUndoneAt (K.terms G.config) s group e)) }
        ensures unchanged { OnErr result (AddsNone pass.old pass.new) }
    {
        if let Err(error) = pass.reserve(1) {
            return Err(error);
        }
        self.shared().await_done(rt, group, pass)
    }

    /// Waits until the record is longer than this, in entries, and answers its length; Java has no such call.
    /// A caller reads `steps`, looks, and waits with the number that it read: a step that falls after the
    /// reading ends the wait.
    pub fn wait_step<R: Wait>(&self, rt: &R, seen: u64) -> u64
        ensures { (seen < result) × BookAtSome (Payload J) (K.terms G.config) (λ b. result ≡ length b.history) }
    {
        let shared = self.shared();
        let mut locked = shared.hold(rt);
        for _ in rt.forever() {
            match locked.await_step(seen) {
                Some(steps) => return steps,
                None => locked = shared.wait_at(rt, Event::Steps, locked),
            }
        }
        unreachable!()
    }
}
