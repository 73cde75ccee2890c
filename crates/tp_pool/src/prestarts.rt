//! Workers that are started before there is a task for them. Each start is two steps: a slot is reserved, and
//! once its thread was made or refused it is opened or given back.
ghost use Rattle.std.specs.Prelude.{ℕ, true, ◌≡◌, ◌+◌, ◌*◌, ◌<◌, ◌≤◌, [], ◌∷◌, IfOk, IfErr, OnOk, OnErr};
ghost use Rattle.tp_record.specs.Step.{Legal};
ghost use Rattle.tp_pool_holds.specs.Passes.{AddsNone, IsRefusal, LooksOnly, Refuses, entry_of};
ghost use Rattle.tp_pool.specs.Prestarts.{is_live as is_live_opening, AddsPrestart, AddsStarts, IsRefusedMore, IsServed};

use crate::orders::{Order, staffed_by};
use crate::pool::PoolOf;
use std::sync::Wait;
use std::thread::Threads;
use tp_book::passes::Pass;
use tp_machine::machine::releases::Keeper;
use tp_machine::typed::Plain;
use tp_machine::typed::settings::{Core, Prestart};
use tp_pool_holds::edges::Edge;
use tp_pool_holds::names::PoolNaming;
use tp_protocols::jobs::Job;
use tp_record::entries::{Ask, Did, Opened};
use tp_types::ids::SlotId;
use tp_types::limits::MAX_WORKERS;
use tp_types::refusals::PoolError;

// Whether a worker was made for this slot and lives after this opening.
fn is_live(w: SlotId, staffed: bool, opened: &Did) -> bool
    ensures { result ≡ is_live_opening w staffed opened.now }
{
    match *opened {
        Did::Open(v, Opened::Live) => staffed && v == w,
        _ => false,
    }
}

impl<G: PoolNaming, J: Drop, E: Edge, K: Keeper> PoolOf<G, J, E, K> {
    /// As `set_core`, for a caller whose workers are made so.
    pub fn set_core_by<R: Wait, F: Fn(Order) -> bool>(
        &self,
        rt: &R,
        core: u32,
        make: &F,
        pass: &mut Pass<G>,
    ) -> Result<(), PoolError>
        requires make { F.IsAlwaysCallable make.now }
        ensures steps { OnOk result ((added most live : ℕ) × (most ≤ added) × (most < added → most < core → 1024 ≤ most) × AddsStarts (K.terms G.config) (IsServed (K.terms G.config)) most (entry_of pass.old.number (Ask.Core core) (Did.Core core added) ∷ []) pass.old live pass.new) }
        ensures refused { IfErr result (Refuses true (K.terms G.config) ((pass.old.room < 1 + 2 * core) × (pass.old.room < 2049)) pass.new (Ask.Core core)) }
        ensures unchanged { OnErr result (AddsNone pass.old pass.new) }
    {
        let most = core.min(MAX_WORKERS);
        if let Err(error) = pass.reserve(1 + 2 * most as usize) {
            return Err(error);
        }
        let added = match self.shared().ask(rt, Plain(Core(core)), pass) {
            Ok(added) => added,
            Err(error) => return Err(error),
        };
        // A size does not grow by more than itself, nor than there may be workers.
        let starts = added.min(most);
        self.prestart_some(rt, starts, make, pass);
        Ok(())
    }

    // Starts a worker for each of so many queued tasks, as far as it goes. The queue is looked at before each
    // start, since the workers that run empty it meanwhile.
    fn prestart_some<R: Wait, F: Fn(Order) -> bool>(
        &self,
        rt: &R,
        most: u32,
        make: &F,
        pass: &mut Pass<G>,
    )
        requires room { 2 * most ≤ pass.old.room }
        requires legal { Legal (K.terms G.config) pass.old.front }
        requires make { F.IsAlwaysCallable make.now }
        ensures { (live : ℕ) × AddsStarts (K.terms G.config) (IsServed (K.terms G.config)) most [] pass.old live pass.new }
    {
        for _ in 0..most {
            if self.look(rt, pass).counts.queued == 0 {
                return;
            }
            match self.prestart(rt, make, pass) {
                Ok(true) => {}
                Ok(false) => return,
                Err(_) => return,
            }
        }
    }

    /// As `prestart_core`, for a caller whose workers are made so.
    pub fn prestart_core_by<R: Wait, F: Fn(Order) -> bool>(
        &self,
        rt: &R,
        make: &F,
        pass: &mut Pass<G>,
    ) -> Result<bool, PoolError>
        requires make { F.IsAlwaysCallable make.now }
        ensures steps { IfOk result (λ live. AddsPrestart (K.terms G.config) pass.old live pass.new) }
        ensures refused { IfErr result (Refuses true (K.terms G.config) (pass.old.room < 2) pass.new Ask.Prestart) }
        ensures unchanged { OnErr result (AddsNone pass.old pass.new) }
    {
        if let Err(error) = pass.reserve(2) {
            return Err(error);
        }
        self.prestart(rt, make, pass)
    }

    // One prestart, with the opening of the slot that it reserved: whether a worker lives. No lock is held
    // between the two, so a stop may fall there, and the slot is then given up.
    fn prestart<R: Wait, F: Fn(Order) -> bool>(
        &self,
        rt: &R,
        make: &F,
        pass: &mut Pass<G>,
    ) -> Result<bool, PoolError>
        requires room { 2 ≤ pass.old.room }
        requires make { F.IsAlwaysCallable make.now }
        ensures steps { IfOk result (λ live. AddsPrestart (K.terms G.config) pass.old live pass.new) }
        ensures left { OnOk result (pass.old.room ≤ pass.new.room + 2) }
        ensures refused { IfErr result (IsRefusal true (K.terms G.config) pass.new Ask.Prestart) }
        ensures unchanged { OnErr result (LooksOnly (K.terms G.config) pass.old pass.new) }
    {
        let w = match self.shared().ask(rt, Plain(Prestart), pass) {
            Ok(Some(w)) => w,
            Ok(None) => return Ok(false),
            Err(error) => return Err(error),
        };
        let staffed = staffed_by(make, w);
        match self.open_by(rt, w, staffed, make, pass) {
            Ok(did) => Ok(is_live(w, staffed, &did)),
            Err(_) => Ok(false),
        }
    }
}

impl<
    G: PoolNaming + Send + Sync + 'static,
    J: Job + 'static,
    E: Edge + Send + Sync + 'static,
    K: Keeper + Send + 'static,
> PoolOf<G, J, E, K> {
    /// Sets the core size, in workers, as `setCorePoolSize`. A larger one starts a worker for each queued
    /// task, at most as many as the size grew. The starts end at the first worker that is not made or not
    /// opened live, at an empty queue, or at a refusal, which is not answered.
    ///
    /// NoMemory (4) for its receipts, else BadSizes (1) above the maximum size, else BookFull (5). A refused
    /// call makes no step.
    pub fn set_core<R: Threads + Wait + Copy + Send + 'static>(
        &self,
        rt: &R,
        core: u32,
        pass: &mut Pass<G>,
    ) -> Result<(), PoolError>
        ensures steps { OnOk result ((added most live : ℕ) × (most ≤ added) × (most < added → most < core → 1024 ≤ most) × AddsStarts (K.terms G.config) (IsServed (K.terms G.config)) most (entry_of pass.old.number (Ask.Core core) (Did.Core core added) ∷ []) pass.old live pass.new) }
        ensures refused { IfErr result (Refuses true (K.terms G.config) ((pass.old.room < 1 + 2 * core) × (pass.old.room < 2049)) pass.new (Ask.Core core)) }
        ensures unchanged { OnErr result (AddsNone pass.old pass.new) }
    {
        self.set_core_by(rt, core, &|order| self.obey(*rt, order), pass)
    }

    /// Starts a core worker, as `prestartCoreThread`, where there are fewer slots than the core size, and
    /// answers whether its slot was opened live. None is started once the pool is stopped, or shut down with
    /// no task queued. Where its worker is not made in a pool that is shut down, this call does what that leaves,
    /// as `shutdown` says. NoMemory (4) for its receipts, else BookFull (5). A refused call makes no step.
    pub fn prestart_core<R: Threads + Wait + Copy + Send + 'static>(
        &self,
        rt: &R,
        pass: &mut Pass<G>,
    ) -> Result<bool, PoolError>
        ensures steps { IfOk result (λ live. AddsPrestart (K.terms G.config) pass.old live pass.new) }
        ensures refused { IfErr result (Refuses true (K.terms G.config) (pass.old.room < 2) pass.new Ask.Prestart) }
        ensures unchanged { OnErr result (AddsNone pass.old pass.new) }
    {
        self.prestart_core_by(rt, &|order| self.obey(*rt, order), pass)
    }

    /// Starts core workers until there are as many slots as the core size, as `prestartAllCoreThreads`, and
    /// answers how many were opened live. It stops after 1,024 reservations, or at the first whose worker is
    /// not made or not opened live.
    ///
    /// NoMemory (4) for its receipts, else BookFull (5) at the first reservation. A refused call makes no
    /// step. A later refusal ends the call and is not answered.
    pub fn prestart_all<R: Threads + Wait + Copy + Send + 'static>(
        &self,
        rt: &R,
        pass: &mut Pass<G>,
    ) -> Result<u32, PoolError>
        ensures steps { IfOk result (λ live. AddsStarts (K.terms G.config) (IsRefusedMore (K.terms G.config)) 1024 [] pass.old live pass.new) }
        ensures asked { OnOk result (pass.old.amount < pass.new.amount) }
        ensures refused { IfErr result (Refuses true (K.terms G.config) (pass.old.room < 2048) pass.new Ask.Prestart) }
        ensures unchanged { OnErr result (AddsNone pass.old pass.new) }
    {
        if let Err(error) = pass.reserve(2 * MAX_WORKERS as usize) {
            return Err(error);
        }
        let make = |order| self.obey(*rt, order);
        for live in 0..MAX_WORKERS {
            match self.prestart(rt, &make, pass) {
                Ok(true) => {}
                Ok(false) => return Ok(live),
                Err(error) if live == 0 => return Err(error),
                Err(_) => return Ok(live),
            }
        }
        Ok(MAX_WORKERS)
    }
}
