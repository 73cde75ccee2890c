//! Jobs of a group, taken in the order in which they are done.
ghost use Rattle.std.specs.Prelude.{true, ◌≡◌, ◌≢◌, ◌⊎◌, ◌<◌, IfOk, IfErr, IfSome, IfNone, OnErr};
ghost use Rattle.tp_types.specs.declared.tasks.Kind.TheVariants.{Group};
ghost use Rattle.tp_pool_holds.specs.Passes.{AddsNone, AddsStep, IsRefusal, Refuses};
ghost use Rattle.tp_pool_holds.specs.Moments.{AtFront};
ghost use Rattle.tp_pool_holds.specs.Readings.{IsUndoneAt};
ghost use Rattle.tp_pool.specs.Admissions.{AtPriority, IsTurnedAway};
ghost use Rattle.tp_pool.specs.Submissions.{AddsJob};

use std::sync::Wait;
use std::thread::Threads;
use tp_book::passes::Pass;
use tp_machine::machine::releases::Keeper;
use tp_pool::answers::Refused;
use tp_pool::edges::Edge;
use tp_pool::jobs::Job;
use tp_pool::names::PoolNaming;
use tp_pool::pool::PoolOf;
use tp_pool::task_of;
use tp_record::entries::{Ask, Did};
use tp_types::ids::TaskId;
use tp_types::refusals::PoolError;
use tp_types::tasks::Kind;

/// A completion service, as `ExecutorCompletionService`. A number names its group, and two services of one
/// number share one queue of done tasks.
#[derive(Clone, Copy, Debug, PartialEq, Eq)]
pub struct CompletionService {
    /// The group's number, any u32.
    pub group: u32,
}

impl CompletionService {
    /// Makes the service of this group. It takes no memory and makes no step.
    pub fn new(group: u32) -> CompletionService
        ensures { result.group ≡ group }
    {
        CompletionService { group }
    }

    /// Submits a job of the group, as `CompletionService.submit`, and answers its task's number. Refused as
    /// `futures::submit`: NoMemory (4), BookFull (5), Rejected (12) or TornRecord (22).
    pub fn submit<
        G: PoolNaming + Send + Sync + 'static,
        J: Job + 'static,
        E: Edge + Send + Sync + 'static,
        K: Keeper + Send + 'static,
        R: Threads + Wait + Copy + Send + 'static,
    >(
        &self,
        pool: &PoolOf<G, J, E, K>,
        rt: &R,
        job: J,
        pass: &mut Pass<G>,
    ) -> Result<TaskId, Refused<J>>
        ensures submitted { IfOk result (λ t. AddsJob (K.terms G.config) (Group self.now.group) job (J.promised job) (J.urgency job) t pass.old pass.new) }
        ensures refused { IfErr result (λ r. AtPriority (J.urgency job) (λ p. IsTurnedAway K.RECEIPTS (K.terms G.config) (Group self.now.group) p job (J.promised job) pass.old pass.new r)) }
    {
        match pool.execute_as(rt, Kind::Group(self.group), job, pass) {
            Ok(admitted) => Ok(task_of(admitted)),
            Err(refused) => Err(refused),
        }
    }

    /// Waits for the next done task and takes it, cancelled ones too, in the order of completion, as
    /// `CompletionService.take`.
    ///
    /// NoMemory (4) for its receipt, else NothingOpen (19) where no task of the group is done and none is
    /// open, at which Java waits, or BookFull (5). A refused call takes nothing and makes no step.
    pub fn take<G: PoolNaming, J: Job, E: Edge, K: Keeper, R: Wait>(
        &self,
        pool: &PoolOf<G, J, E, K>,
        rt: &R,
        pass: &mut Pass<G>,
    ) -> Result<TaskId, PoolError>
        ensures step { IfOk result (λ t. AddsStep (K.terms G.config) pass.old (Ask.TakeDone self.now.group) (Did.TakeDone self.now.group t) pass.new) }
        ensures refused { IfErr result (λ e. ((e ≡ PoolError.NoMemory) × (pass.old.room < 1)) ⊎ AtFront (K.terms G.config) pass.new.front (λ s. IsUndoneAt (K.terms G.config) s self.now.group e)) }
        ensures unchanged { OnErr result (AddsNone pass.old pass.new) }
    {
        pool.await_done(rt, self.group, pass)
    }

    /// Takes the next done task without waiting, as `CompletionService.poll`: None where no task of the group
    /// is done. NoMemory (4) for its receipt, else BookFull (5). A call that is refused or answers None makes
    /// no step.
    pub fn poll<G: PoolNaming, J: Job, E: Edge, K: Keeper, R: Wait>(
        &self,
        pool: &PoolOf<G, J, E, K>,
        rt: &R,
        pass: &mut Pass<G>,
    ) -> Result<Option<TaskId>, PoolError>
        ensures step { IfOk result (λ o. IfSome o (λ t. AddsStep (K.terms G.config) pass.old (Ask.TakeDone self.now.group) (Did.TakeDone self.now.group t) pass.new)) }
        ensures none { IfOk result (λ o. IfNone o (IsRefusal true (K.terms G.config) pass.new (Ask.TakeDone self.now.group) PoolError.NotThere × AddsNone pass.old pass.new)) }
        ensures refused { IfErr result (λ e. (e ≢ PoolError.NotThere) × Refuses true (K.terms G.config) (pass.old.room < 1) pass.new (Ask.TakeDone self.now.group) e) }
        ensures unchanged { OnErr result (AddsNone pass.old pass.new) }
    {
        match pool.take_done(rt, self.group, pass) {
            Ok(t) => Ok(Some(t)),
            Err(PoolError::NotThere) => Ok(None),
            Err(error) => Err(error),
        }
    }
}
