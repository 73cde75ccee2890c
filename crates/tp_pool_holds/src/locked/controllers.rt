//! What controllers do in one hold of the lock.
ghost use Rattle.std.specs.Prelude.{true, false, ◌≡◌, ◌≢◌, ◌⊎◌, ◌+◌, ◌<◌, ◌≤◌, [], List, Option, length, map, vec_len, vec_capacity, IfOk, IfErr, OnOk, OnErr, IsTrue};
ghost use Rattle.tp_types.specs.declared.ids.TaskId.{TaskId as TaskIdOf};
ghost use Rattle.tp_record.specs.Fields.{rank};
ghost use Rattle.tp_machine.specs.Answers.{HandsBack};
ghost use Rattle.tp_machine_state.specs.Payloads.{Keeps};
ghost use Rattle.tp_book.specs.BookView.{state_of, IsDenied, IsUnmoved};
ghost use Rattle.tp_pool_holds.specs.Drains.{drained_of};
ghost use Rattle.tp_pool_holds.specs.Holds.{Holds};
ghost use Rattle.tp_pool_holds.specs.Moments.{AtFront};
ghost use Rattle.tp_pool_holds.specs.Passes.{AddsNone, AddsStep, LooksOnly, Refuses};
ghost use Rattle.tp_pool_holds.specs.Readings.{has_come as come};
ghost use Rattle.tp_pool_holds.specs.Steps.{Stops};
ghost use Rattle.tp_pool_holds.specs.declared.tasks.Payload.{Payload as TaskOf};

use super::Locked;
use super::readings::has_come;
use crate::answers::Drained;
use crate::names::PoolNaming;
use crate::tasks::Payload;
use std::alloc::Global;
use tp_book::passes::Pass;
use tp_glance::glance::Glance;
use tp_machine::machine::releases::Keeper;
use tp_machine::typed::Plain;
use tp_machine::typed::controllers::{Stop, Tidy};
use tp_record::entries::{Ask, Did};
use tp_types::ids::TaskId;
use tp_types::refusals::PoolError;
use tp_types::states::RunState;

/// What a look of a wait for the pool's end found.
#[derive(Clone, Copy, Debug, PartialEq, Eq)]
pub enum EndSeen {
    /// The pool is terminated.
    Terminated,
    /// It is not, and now has reached the deadline.
    Late,
    /// It could end, and the look made the step `tidy`.
    Tidied,
    /// None of these: the thread that looked is to wait.
    Waits,
}

// A task that a stop handed back.
fn drained_from<J>(t: TaskId, task: Option<Payload<J>>) -> Drained<J>
    ensures { result ≡ drained_of (t, task) }
{
    match task {
        Some(task) => Drained {
            task: t,
            job: Some(task.into_job()),
        },
        None => Drained { task: t, job: None },
    }
}

// Moves the tasks that a stop handed back to an empty list with room for them.
#[tactic(auto, using(std::proofs::lemmas::List::map_push))]
fn listed<J: Drop>(
    handed: Vec<(TaskId, Option<Payload<J>>)>,
    mut drained: Vec<Drained<J>>,
) -> Vec<Drained<J>>
    requires empty { drained.items ≡ [] }
    requires room { vec_len handed ≤ vec_capacity drained }
    ensures { result.items ≡ map drained_of handed.items }
{
    for (t, task) in handed {
        drained.push_reserved(drained_from(t, task));
    }
    drained
}

impl<G: PoolNaming, J: Drop, R: Keeper> Locked<G, J, R> {
    /// Stops the pool, with the memory of the whole answer taken before the step: the tasks that were
    /// queued, in the queue's order, each with its job unless it was cancelled. NoMemory (4) comes only where a
    /// task is queued.
    pub fn stop(
        &mut self,
        alloc: Global,
        glance: &Glance<G>,
        pass: &mut Pass<G>,
    ) -> Result<Vec<Drained<J>>, PoolError>
        requires room { 0 < pass.old.room }
        ensures holds { IfOk result (λ drained. (handed : List (TaskIdOf × Option (TaskOf J))) × Holds R.RECEIPTS self.old self.new pass.old.number Ask.Stop (Did.Stop (length handed)) (λ old new. HandsBack old new handed) × (drained.items ≡ map drained_of handed)) }
        ensures stops { IfOk result (λ drained. Stops J (R.terms G.config) pass.old.number pass.old.front drained.items pass.new.front) }
        ensures step { IfOk result (λ drained. AddsStep (R.terms G.config) pass.old Ask.Stop (Did.Stop (length drained.items)) pass.new) }
        ensures left { OnOk result (pass.old.room ≤ pass.new.room + 1) }
        ensures stands { OnErr result (IsUnmoved self.old.book self.new.book × (self.new.waking ≡ self.old.waking)) }
        ensures threads { self.new.roster ≡ self.old.roster }
        ensures denied { IfErr result (λ e. (e ≡ PoolError.NoMemory) ⊎ IsDenied R.RECEIPTS self.old.book Ask.Stop e) }
        ensures refused { IfErr result (Refuses R.RECEIPTS (R.terms G.config) (AtFront (R.terms G.config) pass.new.front (λ s. 0 < length s.queue)) pass.new Ask.Stop) }
        ensures unchanged { OnErr result (AddsNone pass.old pass.new) }
    {
        self.law_is_book();
        let queued = self.book.counts().queued as usize;
        let Ok(drained) = Vec::with_capacity(alloc, queued) else {
            self.show(glance, pass);
            return Err(PoolError::NoMemory);
        };
        match self.step(Stop, glance, pass) {
            Ok(handed) => Ok(listed(handed, drained)),
            Err(error) => Err(error),
        }
    }

    /// One look of a wait for the pool's end, in this order: the pool is terminated; now has reached the deadline,
    /// if there is one; the pool can end. Where the thread is to wait, it has said so.
    pub fn look(&mut self, deadline: Option<u64>, glance: &Glance<G>, pass: &mut Pass<G>) -> EndSeen
        requires room { 0 < pass.old.room }
        ensures terminated { result ≡ EndSeen.Terminated → rank pass.new.front ≡ 4 }
        ensures late { result ≡ EndSeen.Late → AtFront (R.terms G.config) pass.new.front (λ s. (come deadline s.now ≡ true) × ¬ (s.rank ≡ 4)) }
        ensures past { result ≡ EndSeen.Late → come deadline (state_of self.old.book).now ≡ true }
        ensures early { result ≡ EndSeen.Waits → come deadline (state_of self.old.book).now ≡ false }
        ensures unended { result ≡ EndSeen.Waits → ¬ ((state_of self.old.book).rank ≡ 4) }
        ensures untidy { result ≡ EndSeen.Waits → (e : PoolError) × IsDenied R.RECEIPTS self.old.book Ask.Tidy e }
        ensures awaits { result ≡ EndSeen.Waits → IsTrue self.new.waking.awaited.end }
        ensures holds { result ≡ EndSeen.Tidied → Holds R.RECEIPTS self.old self.new pass.old.number Ask.Tidy Did.Tidy Keeps }
        ensures tidied { result ≡ EndSeen.Tidied → AddsStep (R.terms G.config) pass.old Ask.Tidy Did.Tidy pass.new }
        ensures left { result ≡ EndSeen.Tidied → pass.old.room ≤ pass.new.room + 1 }
        ensures others { result ≢ EndSeen.Tidied → LooksOnly (R.terms G.config) pass.old pass.new }
        ensures asleep { result ≢ EndSeen.Tidied → self.new.waking ≡ record self.old.waking { awaited = self.new.waking.awaited } }
        ensures unmoved { result ≢ EndSeen.Tidied → IsUnmoved self.old.book self.new.book }
        ensures threads { self.new.roster ≡ self.old.roster }
    {
        self.law_is_book();
        if self.show(glance, pass) == RunState::Terminated {
            return EndSeen::Terminated;
        }
        if has_come(deadline, self.book.now()) {
            return EndSeen::Late;
        }
        match self.step(Plain(Tidy), glance, pass) {
            Ok(()) => return EndSeen::Tidied,
            Err(_) => {}
        }
        self.waking.await_end();
        EndSeen::Waits
    }
}
