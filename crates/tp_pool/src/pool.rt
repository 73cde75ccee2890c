//! The pool as its callers hold it: its making, its callers' passes, and the glance at its run state.
ghost use Rattle.std.specs.Prelude.{◌≡◌, ◌⊎◌, ◌≤◌, [], IfOk, IfErr, OnOk, Err};
ghost use Rattle.tp_types.specs.Config.{IsConfig, checked};
ghost use Rattle.tp_types.specs.RunState.{state_rank};
ghost use Rattle.tp_record.specs.Fields.{rank};
ghost use Rattle.tp_glance.specs.Word.{IsFrontOf};
ghost use Rattle.tp_pool_holds.specs.Moments.{BookAtSome};
ghost use Rattle.tp_pool_holds.specs.declared.tasks.Payload.{Payload};

use crate::boxes::{Boxed, Boxes};
use std::alloc::Global;
use std::sync::{Arc, Wait};
use tp_book::opening::Unopened;
use tp_book::passes::Pass;
use tp_machine::machine::releases::Keeper;
use tp_pool_holds::edges::Edge;
use tp_pool_holds::names::PoolNaming;
use tp_pool_holds::shared::Shared;
use tp_protocols::factories::ThreadFactory;
use tp_protocols::gates::Gate;
use tp_protocols::handlers::RejectionHandler;
use tp_protocols::hooks::Hooks;
use tp_protocols::jobs::Job;
use tp_record::recorders::Full;
use tp_types::configs::Config;
use tp_types::refusals::PoolError;
use tp_types::states::RunState;

/// A pool of threads, as `ThreadPoolExecutor`, over jobs `J` and the caller's objects `E`. What keeps its record is `Full` unless another
/// is named: a pool over `Tally` keeps none, forgets its plain tasks once nothing is owed to them, and serves without end. Its calls take
/// `&self`, so that many threads may share it. A call that makes steps takes a pass: each entry of the record has the number of the pass
/// that asked for it.
///
/// A pool is not `Drop`: a function that lets one go does not compile (`error[linear-value-let-go]`). Its owner closes it (`close`,
/// `close_one`), or says that nobody will (`let_go`). Of further owners each has a `Handle`, which may be dropped.
pub struct PoolOf<G: PoolNaming, J, E, K: Keeper = Full> {
    pub(crate) owner: Owner<G, J, E, K>,
}

/// A pool whose jobs, factory, handler, hooks and gate are boxes of the caller, over `Full` unless `Tally` is named.
pub type Pool<G, R = Full> = PoolOf<G, Boxed, Boxes, R>;

// The pool's value: shared with its threads, or taken back from them by a close that was then refused.
#[derive(Drop)]
pub(crate) enum Owner<G: PoolNaming, J, E, K: Keeper = Full> {
    Shared(Arc<Shared<G, J, E, K>>),
    Sole(Shared<G, J, E, K>),
}

impl<G: PoolNaming, J, E, K: Keeper> PoolOf<G, J, E, K> {
    // The value that the pool's threads share.
    pub(crate) fn shared(&self) -> &Shared<G, J, E, K> {
        match &self.owner {
            Owner::Shared(shared) => &**shared,
            Owner::Sole(shared) => shared,
        }
    }
}

impl<G: PoolNaming, K: Keeper> PoolOf<G, Boxed, Boxes, K> {
    /// Makes a pool with these settings, as `ThreadPoolExecutor`'s constructor, and its first pass, of number
    /// 0. The pool runs, has no tasks, and stands at tick 0.
    ///
    /// Settings that `Config::check` refuses are refused alike: BadSizes (1), BadCapacity (2), BadLimit (3)
    /// or KeepZero (11), where Java throws `IllegalArgumentException`. Good settings are refused with
    /// NoMemory (4) alone.
    pub fn new(
        alloc: Global,
        unopened: Unopened,
        config: Config,
        factory: Box<dyn ThreadFactory>,
        handler: Box<dyn RejectionHandler>,
        hooks: Box<dyn Hooks>,
        gate: Box<dyn Gate>,
    ) -> Result<(Pool<G, K>, Pass<G>), PoolError>
        requires named { unopened ≡ record { ledger = G.name; parts = G.parts; table = G.table } }
        requires settings { config ≡ G.config }
        ensures pass { IfOk result (λ r. r.1 ≡ record { number = 0; amount = 0; front = []; released = []; keeps = K.RECEIPTS; receipts = []; room = r.1.room }) }
        ensures good { OnOk result (IsConfig config) }
        ensures refused { IfErr result (λ e. (checked config ≡ Err e) ⊎ ((e ≡ PoolError.NoMemory) × IsConfig config)) }
    {
        PoolOf::over(
            alloc,
            unopened,
            config,
            Boxes::new(factory, handler, hooks, gate),
        )
    }
}

impl<G: PoolNaming, J: Job, E: Edge, K: Keeper> PoolOf<G, J, E, K> {
    /// As `Pool::new`, with the caller's objects behind one `Edge`.
    pub fn over(
        alloc: Global,
        unopened: Unopened,
        config: Config,
        edge: E,
    ) -> Result<(PoolOf<G, J, E, K>, Pass<G>), PoolError>
        requires named { unopened ≡ record { ledger = G.name; parts = G.parts; table = G.table } }
        requires settings { config ≡ G.config }
        ensures pass { IfOk result (λ r. r.1 ≡ record { number = 0; amount = 0; front = []; released = []; keeps = K.RECEIPTS; receipts = []; room = r.1.room }) }
        ensures good { OnOk result (IsConfig config) }
        ensures refused { IfErr result (λ e. (checked config ≡ Err e) ⊎ ((e ≡ PoolError.NoMemory) × IsConfig config)) }
    {
        match Shared::over(alloc, unopened, config, edge) {
            Ok((shared, pass)) => {
                let owner = Owner::Shared(shared);
                Ok((PoolOf { owner }, pass))
            }
            Err(error) => Err(error),
        }
    }
}

impl<G: PoolNaming, J: Drop, E: Edge, K: Keeper> PoolOf<G, J, E, K> {
    /// Makes a pass for one more caller, which knows what this caller's pass knows; Java's callers need none.
    /// Callers' and workers' passes are numbered from 0, in the order in which they are made.
    /// BookFull (5) where the next number would be 4,294,967,295. This caller's pass stays as it is.
    pub fn split_pass<R: Wait>(&self, rt: &R, pass: &mut Pass<G>) -> Result<Pass<G>, PoolError>
        ensures new { IfOk result (λ p. BookAtSome (Payload J) (K.terms G.config) (λ b. p ≡ record { number = b.accounts.made; amount = 0; front = pass.old.front; released = pass.old.released; keeps = K.RECEIPTS; receipts = []; room = p.room })) }
        ensures refused { IfErr result (λ e. (e ≡ PoolError.BookFull) × BookAtSome (Payload J) (K.terms G.config) (λ b. 4294967295 ≤ b.accounts.made)) }
        ensures same { pass.new ≡ pass.old }
    {
        let shared = self.shared();
        shared
            .hold(rt)
            .split_pass(shared.around.alloc, &shared.around.glance, pass)
    }

    /// The run state that is published now, as `isShutdown` and `isTerminated` tell it. It is read without
    /// the lock, so no step that is under way delays it. It is that of the pool's record at this moment, which
    /// goes on from the one that the pass knew, and which the pass knows then.
    pub fn glance(&self, pass: &mut Pass<G>) -> RunState
        ensures state { state_rank result ≡ rank pass.new.front }
        ensures goes_on { IsFrontOf pass.old.front pass.new.front }
        ensures knew { IsFrontOf pass.old.released pass.new.released }
        ensures same { pass.new ≡ record pass.old { front = pass.new.front; released = pass.new.released } }
    {
        pass.glance(&self.shared().around.glance)
    }
}
