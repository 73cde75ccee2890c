//! The controlling calls: settings, the moment, and single tasks. Each makes one step, with one receipt. A
//! refused call makes no step, and its pass gets no receipt. Accepted or refused, the call brings its pass up to
//! the pool's record, and is answered as the pool stands there.
ghost use Rattle.std.specs.Prelude.{◌<◌, ◌≡◌, true, IfOk, IfErr, OnOk, OnErr};
ghost use Rattle.tp_pool_holds.specs.Answers.{is_removed};
ghost use Rattle.tp_pool_holds.specs.Passes.{AddsStep, AddsNone, Refuses};
ghost use Rattle.tp_pool_holds.specs.Steps.{Removes, removal_of};

use crate::pool::PoolOf;
use std::sync::Wait;
use tp_book::passes::Pass;
use tp_machine::machine::releases::Keeper;
use tp_machine::typed::Plain;
use tp_machine::typed::controllers::{Cancel, Purge, Remove};
use tp_machine::typed::settings::{CoreTimeout, Keep, Maximum, Tick};
use tp_pool_holds::answers::Removal;
use tp_pool_holds::edges::Edge;
use tp_pool_holds::names::PoolNaming;
use tp_pool_holds::tasks::Payload;
use tp_record::entries::{Ask, Did};
use tp_types::ids::TaskId;
use tp_types::refusals::PoolError;

// What a remove answers.
fn removal_from<J>(handed: Option<(TaskId, Option<Payload<J>>)>) -> Removal<J>
    ensures { result ≡ removal_of handed }
{
    match handed {
        Some((_, task)) => Removal::Yes(task.map(Payload::into_job)),
        None => Removal::No,
    }
}

impl<G: PoolNaming, J: Drop, E: Edge, K: Keeper> PoolOf<G, J, E, K> {
    /// Sets the maximum size, in workers, as `setMaximumPoolSize`. NoMemory (4) for its receipt, else
    /// BadSizes (1) for 0, above 1,024 or below the core size, else BookFull (5), or NoMemory (4) for the
    /// places of more slots, where this is above the pool's maximum size.
    pub fn set_maximum<R: Wait>(
        &self,
        rt: &R,
        maximum: u32,
        pass: &mut Pass<G>,
    ) -> Result<(), PoolError>
        ensures step { OnOk result (AddsStep (K.terms G.config) pass.old (Ask.Maximum maximum) (Did.Maximum maximum) pass.new) }
        ensures refused { IfErr result (Refuses true (K.terms G.config) (pass.old.room < 1) pass.new (Ask.Maximum maximum)) }
        ensures unchanged { OnErr result (AddsNone pass.old pass.new) }
    {
        self.shared().control(rt, Maximum(maximum), pass)
    }

    /// Sets the keep-alive, in ticks, as `setKeepAliveTime`. NoMemory (4) for its receipt, else KeepZero (11)
    /// for 0 while core workers time out, else BookFull (5).
    pub fn set_keep<R: Wait>(&self, rt: &R, keep: u64, pass: &mut Pass<G>) -> Result<(), PoolError>
        ensures step { OnOk result (AddsStep (K.terms G.config) pass.old (Ask.Keep keep) (Did.Keep keep) pass.new) }
        ensures refused { IfErr result (Refuses true (K.terms G.config) (pass.old.room < 1) pass.new (Ask.Keep keep)) }
        ensures unchanged { OnErr result (AddsNone pass.old pass.new) }
    {
        self.shared().control(rt, Plain(Keep(keep)), pass)
    }

    /// Says whether core workers time out too, as `allowCoreThreadTimeOut`. NoMemory (4) for its receipt,
    /// else KeepZero (11) for `true` while the keep-alive is 0, else BookFull (5).
    pub fn allow_core_timeout<R: Wait>(
        &self,
        rt: &R,
        on: bool,
        pass: &mut Pass<G>,
    ) -> Result<(), PoolError>
        ensures step { OnOk result (AddsStep (K.terms G.config) pass.old (Ask.CoreTimeout on) (Did.CoreTimeout on) pass.new) }
        ensures refused { IfErr result (Refuses true (K.terms G.config) (pass.old.room < 1) pass.new (Ask.CoreTimeout on)) }
        ensures unchanged { OnErr result (AddsNone pass.old pass.new) }
    {
        self.shared().control(rt, Plain(CoreTimeout(on)), pass)
    }

    /// Sets the moment, in ticks; Java's pool reads a clock instead. Keep-alives and deadlines are measured
    /// by it. NoMemory (4) for its receipt, else ClockBack (10) for a moment below now, else BookFull (5).
    pub fn tick<R: Wait>(&self, rt: &R, now: u64, pass: &mut Pass<G>) -> Result<(), PoolError>
        ensures step { OnOk result (AddsStep (K.terms G.config) pass.old (Ask.Tick now) (Did.Tick now) pass.new) }
        ensures refused { IfErr result (Refuses true (K.terms G.config) (pass.old.room < 1) pass.new (Ask.Tick now)) }
        ensures unchanged { OnErr result (AddsNone pass.old pass.new) }
    {
        self.shared().control(rt, Plain(Tick(now)), pass)
    }

    /// Takes the cancelled tasks out of the queue, as `ThreadPoolExecutor.purge`, and answers how many they
    /// were. Where that leaves a pool that is shut down without a task and a worker, this call ends the pool.
    /// NoMemory (4) for its receipt, else BookFull (5).
    pub fn purge<R: Wait>(&self, rt: &R, pass: &mut Pass<G>) -> Result<u32, PoolError>
        ensures step { IfOk result (λ n. AddsStep (K.terms G.config) pass.old Ask.Purge (Did.Purge n) pass.new) }
        ensures refused { IfErr result (Refuses true (K.terms G.config) (pass.old.room < 1) pass.new Ask.Purge) }
        ensures unchanged { OnErr result (AddsNone pass.old pass.new) }
    {
        self.shared().control_and_end(rt, Plain(Purge), pass)
    }

    /// Takes a task out of the queue, as `ThreadPoolExecutor.remove`, and hands its job back unless it was
    /// cancelled. A task that is not in the queue answers `Removal::No`: a worker may have taken it first.
    /// Where a pool that is shut down is left without a task and a worker, this call ends the pool.
    /// NoMemory (4) for its receipt, else UnknownTask (6) or BookFull (5).
    pub fn remove<R: Wait>(
        &self,
        rt: &R,
        t: TaskId,
        pass: &mut Pass<G>,
    ) -> Result<Removal<J>, PoolError>
        ensures job { IfOk result (λ r. Removes J (K.terms G.config) pass.old.number pass.old.front t r pass.new.front) }
        ensures step { IfOk result (λ r. AddsStep (K.terms G.config) pass.old (Ask.Remove t) (Did.Remove t (is_removed r)) pass.new) }
        ensures refused { IfErr result (Refuses K.RECEIPTS (K.terms G.config) (pass.old.room < 1) pass.new (Ask.Remove t)) }
        ensures unchanged { OnErr result (AddsNone pass.old pass.new) }
    {
        match self.shared().control_and_end(rt, Remove(t), pass) {
            Ok(handed) => Ok(removal_from(handed)),
            Err(error) => Err(error),
        }
    }

    /// Cancels a task's future, as `Future.cancel`, and answers whether that had effect: it has while the
    /// task has no fate. A job that has not begun is then given up. A job that runs hears of it by its cancel
    /// flag, where `flag` asks for that. NoMemory (4) for its receipt, else UnknownTask (6), NotFuture (9)
    /// for a plain task, or BookFull (5).
    pub fn cancel<R: Wait>(
        &self,
        rt: &R,
        t: TaskId,
        flag: bool,
        pass: &mut Pass<G>,
    ) -> Result<bool, PoolError>
        ensures step { IfOk result (λ effective. AddsStep (K.terms G.config) pass.old (Ask.Cancel t flag) (Did.Cancel t flag effective) pass.new) }
        ensures refused { IfErr result (Refuses K.RECEIPTS (K.terms G.config) (pass.old.room < 1) pass.new (Ask.Cancel t flag)) }
        ensures unchanged { OnErr result (AddsNone pass.old pass.new) }
    {
        match self.shared().control(rt, Cancel(t, flag), pass) {
            Ok((effective, _)) => Ok(effective),
            Err(error) => Err(error),
        }
    }
}
