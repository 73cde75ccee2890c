//! The calls that end a pool, and the wait for its end. A thread that finds that the pool can end makes the
//! step `tidy`, calls the terminated hook with no lock held, and makes the step `ended`.
ghost use Rattle.std.specs.Prelude.{◌≡◌, ◌⊎◌, ◌<◌, ◌≤◌, true, [], ◌∷◌, List, length, IfOk, IfErr, OnOk, OnErr};
ghost use Rattle.tp_record.specs.declared.entries.Entry.{Entry};
ghost use Rattle.tp_record.specs.Fields.{rank};
ghost use Rattle.tp_glance.specs.Word.{IsFrontOf};
ghost use Rattle.tp_pool_holds.specs.Moments.{AtFront};
ghost use Rattle.tp_pool_holds.specs.Passes.{Adds, AddsNone, Refuses, tidied, ended};
ghost use Rattle.tp_pool_holds.specs.Readings.{has_come};
ghost use Rattle.tp_pool_holds.specs.Steps.{Stops};
ghost use Rattle.tp_pool_holds.specs.Endings.{AddsAndEnds, IsBarred};

use crate::orders::{Order, rescue_tasks_by};
use crate::pool::PoolOf;
use std::sync::Wait;
use std::thread::Threads;
use tp_book::passes::Pass;
use tp_machine::machine::releases::Keeper;
use tp_machine::typed::Plain;
use tp_machine::typed::controllers::Shutdown;
use tp_pool_holds::answers::Drained;
use tp_pool_holds::edges::Edge;
use tp_pool_holds::names::PoolNaming;
use tp_protocols::jobs::Job;
use tp_record::entries::{Ask, Did};
use tp_types::refusals::PoolError;

impl<
    G: PoolNaming + Send + Sync + 'static,
    J: Job + 'static,
    E: Edge + Send + Sync + 'static,
    K: Keeper + Send + 'static,
> PoolOf<G, J, E, K> {
    /// Shuts the pool down, as `ThreadPoolExecutor.shutdown`: it takes no more tasks, and runs those that it
    /// has. Where it can end at once, this call ends it. Where tasks are queued, no worker is there and the core
    /// size is above 0, this call has a worker made for them. The pass has then seen the shutdown.
    ///
    /// A pool that is shut down ends by itself: a later call whose step leaves it to nobody does the same, with a
    /// pass of the pool's own. Java's pool never ends there. What can still hold the end up:
    ///
    /// - Tasks are stranded (`is_stranded`). A factory refuses as many workers as tasks are queued, as a
    ///   `ThreadFactory.newThread` that answers null; no thread can be made, at which Java throws `OutOfMemoryError`; a full
    ///   record has no room for a worker; or there is no memory for that pass. At core size 0 (`corePoolSize`) the pool asks
    ///   for no worker of its own: there one worker that was not made is enough, and so is a slot of another task that was
    ///   given up after the second look of a queued one. The way out is `remove` or `shutdown_now`. Where a worker can be made
    ///   meanwhile, it is also `prestart_core`, or at core size 0 `set_core`, which starts workers only where it raises the
    ///   core size.
    /// - Jobs of all workers wait for a task that is queued (`Future.get` within a task of a single worker). The way out is
    ///   `cancel` of what they wait for, or `shutdown_now`.
    /// - A hook, the handler or the factory waits for the end (`awaitTermination` within `terminated`). There is no way out.
    ///
    /// NoMemory (4) for its receipts, else BookFull (5), which does not come while the pool runs. A refused
    /// call makes no step.
    pub fn shutdown<R: Threads + Wait + Copy + Send + 'static>(
        &self,
        rt: &R,
        pass: &mut Pass<G>,
    ) -> Result<(), PoolError>
        ensures steps { OnOk result (AddsAndEnds (K.terms G.config) pass.old Ask.Shutdown Did.Shutdown pass.new) }
        ensures seen { OnOk result (1 ≤ rank pass.new.front) }
        ensures refused { IfErr result (Refuses true (K.terms G.config) (pass.old.room < 3) pass.new Ask.Shutdown) }
        ensures unchanged { OnErr result (AddsNone pass.old pass.new) }
    {
        self.shutdown_by(rt, &|order| self.obey(*rt, order), pass)
    }
}

impl<G: PoolNaming, J: Drop, E: Edge, K: Keeper> PoolOf<G, J, E, K> {
    /// As `shutdown`, for a caller whose workers are made so.
    pub fn shutdown_by<R: Wait, F: Fn(Order) -> bool>(
        &self,
        rt: &R,
        make: &F,
        pass: &mut Pass<G>,
    ) -> Result<(), PoolError>
        requires make { F.IsAlwaysCallable make.now }
        ensures steps { OnOk result (AddsAndEnds (K.terms G.config) pass.old Ask.Shutdown Did.Shutdown pass.new) }
        ensures seen { OnOk result (1 ≤ rank pass.new.front) }
        ensures refused { IfErr result (Refuses true (K.terms G.config) (pass.old.room < 3) pass.new Ask.Shutdown) }
        ensures unchanged { OnErr result (AddsNone pass.old pass.new) }
    {
        if let Err(error) = pass.reserve(3) {
            return Err(error);
        }
        let shared = self.shared();
        let (shut, remains) = shared.ask_left(rt, Plain(Shutdown), pass);
        match shut {
            Ok(()) => {
                shared.try_end(rt, pass);
                rescue_tasks_by(make, remains);
                Ok(())
            }
            Err(error) => Err(error),
        }
    }

    /// Stops the pool, as `shutdownNow`: the tasks in its queue are handed back in their order and never
    /// begin. The cancel flags of tasks in slots are set, and a job that runs goes on. Where the pool can end
    /// at once, this call ends it. The pass has then seen the stop.
    ///
    /// NoMemory (4) for its receipts, else BookFull (5), which does not come before the pool is stopped, or
    /// NoMemory (4) for its answer, where a task is queued. A refused call makes no step. The answer's memory
    /// is taken before the step, so a job is handed back or still queued, and never lost.
    pub fn shutdown_now<R: Wait>(
        &self,
        rt: &R,
        pass: &mut Pass<G>,
    ) -> Result<Vec<Drained<J>>, PoolError>
        ensures handed { IfOk result (λ drained. (mid : List Entry) × Stops J (K.terms G.config) pass.old.number pass.old.front drained.items mid × IsFrontOf mid pass.new.front) }
        ensures steps { IfOk result (λ drained. AddsAndEnds (K.terms G.config) pass.old Ask.Stop (Did.Stop (length drained.items)) pass.new) }
        ensures seen { OnOk result (2 ≤ rank pass.new.front) }
        ensures refused { IfErr result (Refuses true (K.terms G.config) ((pass.old.room < 3) ⊎ AtFront (K.terms G.config) pass.new.front (λ s. 0 < length s.queue)) pass.new Ask.Stop) }
        ensures unchanged { OnErr result (AddsNone pass.old pass.new) }
    {
        if let Err(error) = pass.reserve(3) {
            return Err(error);
        }
        let shared = self.shared();
        match shared.stop(rt, pass) {
            Ok(drained) => {
                shared.try_end(rt, pass);
                Ok(drained)
            }
            Err(error) => Err(error),
        }
    }

    /// Waits until the pool is terminated, as `awaitTermination`; where the pool can end, this call ends it.
    /// The pass has then seen the end. The deadline is a moment in ticks. Nobody has to wait: a pool that is
    /// shut down ends by itself, but for what `shutdown` says.
    ///
    /// NoMemory (4) for its receipts, else TimedOut (16) once now has reached the deadline, at once where it
    /// has already: these calls make no step. TornRecord (22) where the book does not take its step `ended`
    /// after its own `tidy`.
    pub fn await_termination<R: Wait>(
        &self,
        rt: &R,
        deadline: u64,
        pass: &mut Pass<G>,
    ) -> Result<(), PoolError>
        ensures steps { OnOk result (Adds (K.terms G.config) pass.old [] pass.new ⊎ Adds (K.terms G.config) pass.old (tidied pass.old.number ∷ ended pass.old.number ∷ []) pass.new) }
        ensures seen { OnOk result (rank pass.new.front ≡ 4) }
        ensures late { IfErr result (λ e. e ≡ PoolError.TimedOut → AtFront (K.terms G.config) pass.new.front (λ s. (deadline ≤ s.now) × ¬ (s.rank ≡ 4))) }
        ensures refused { IfErr result (λ e. ((e ≡ PoolError.NoMemory) × (pass.old.room < 2) × AddsNone pass.old pass.new)
            ⊎ ((e ≡ PoolError.TimedOut) × Adds (K.terms G.config) pass.old [] pass.new)
            ⊎ ((e ≡ PoolError.TornRecord) × IsBarred (K.terms G.config) pass.new.front Ask.Ended × Adds (K.terms G.config) pass.old (tidied pass.old.number ∷ []) pass.new)) }
    {
        self.await_end(rt, Some(deadline), pass)
    }

    /// As `await_termination`, with a deadline in ticks or, where it is None, with none. NoMemory (4) for its
    /// receipts, else TimedOut (16) once now has reached the deadline, or TornRecord (22), which does not come
    /// as long as the pool's book is sound.
    pub fn await_end<R: Wait>(
        &self,
        rt: &R,
        deadline: Option<u64>,
        pass: &mut Pass<G>,
    ) -> Result<(), PoolError>
        ensures steps { OnOk result (Adds (K.terms G.config) pass.old [] pass.new ⊎ Adds (K.terms G.config) pass.old (tidied pass.old.number ∷ ended pass.old.number ∷ []) pass.new) }
        ensures seen { OnOk result (rank pass.new.front ≡ 4) }
        ensures late { IfErr result (λ e. e ≡ PoolError.TimedOut → AtFront (K.terms G.config) pass.new.front (λ s. (has_come deadline s.now ≡ true) × ¬ (s.rank ≡ 4))) }
        ensures refused { IfErr result (λ e. ((e ≡ PoolError.NoMemory) × (pass.old.room < 2) × AddsNone pass.old pass.new)
            ⊎ ((e ≡ PoolError.TimedOut) × Adds (K.terms G.config) pass.old [] pass.new)
            ⊎ ((e ≡ PoolError.TornRecord) × IsBarred (K.terms G.config) pass.new.front Ask.Ended × Adds (K.terms G.config) pass.old (tidied pass.old.number ∷ []) pass.new)) }
    {
        if let Err(error) = pass.reserve(2) {
            return Err(error);
        }
        self.shared().await_end(rt, deadline, pass)
    }
}
