//! Handles of a pool, which may be dropped; and its close with one pass.
ghost use Rattle.std.specs.Prelude.{◌≡◌, ◌⊎◌, [], ◌∷◌, length, IfOk, IfErr};
ghost use Rattle.tp_pool_holds.specs.Closing.{KeepsOpen};
ghost use Rattle.tp_pool_holds.specs.declared.tasks.Payload.{Payload};
ghost use Rattle.tp_pool_holds.specs.Reports.{Closes};

use crate::closing::{CloseFault, Reporter};
use crate::pool::{Owner, PoolOf};
use std::ops::Deref;
use std::sync::{Arc, Wait};
use tp_book::passes::Pass;
use tp_machine::machine::releases::Keeper;
use tp_pool_holds::edges::Edge;
use tp_pool_holds::names::PoolNaming;
use tp_protocols::jobs::Job;
use tp_record::recorders::Full;
use tp_types::refusals::PoolError;

/// The answer of a close with one pass that was refused: the pool comes back, with the pass.
pub type CloseOneFault<G, J, E, K> = CloseFault<G, J, E, K, Pass<G>>;

/// One more hold of a pool, for a thread or an object of its own, as a copied reference in Java. It has the calls of the pool that
/// take `&self`, and may be dropped: the pool stays as it is. The pool's owner alone can close it.
pub struct Handle<G: PoolNaming, J, E, K: Keeper = Full> {
    pool: PoolOf<G, J, E, K>,
}

impl<G: PoolNaming, J, E, K: Keeper> Deref for Handle<G, J, E, K> {
    type Target = PoolOf<G, J, E, K>;

    fn deref(&self) -> &PoolOf<G, J, E, K> {
        &self.pool
    }
}

impl<G: PoolNaming, J: Drop, E: Drop, K: Keeper> Drop for Handle<G, J, E, K> {
    fn drop(self) {
        let Self { pool } = self;
        pool.let_go();
    }
}

impl<G: PoolNaming, J: Job, E: Edge, K: Keeper> PoolOf<G, J, E, K> {
    /// A handle of this pool, for a thread or an object of its own. A close waits until each is dropped. So the pool's own edge is to
    /// keep none, and a job only as long as it runs. NoMemory (4), or TornRecord (22) where a close found the pool's record torn.
    pub fn handle(&self) -> Result<Handle<G, J, E, K>, PoolError>
        ensures refused { IfErr result (λ e. (e ≡ PoolError.NoMemory) ⊎ (e ≡ PoolError.TornRecord)) }
    {
        let Owner::Shared(shared) = &self.owner else {
            return Err(PoolError::TornRecord);
        };
        match Arc::try_clone(shared) {
            Ok(shared) => {
                let owner = Owner::Shared(shared);
                Ok(Handle {
                    pool: PoolOf { owner },
                })
            }
            Err(_) => Err(PoolError::NoMemory),
        }
    }
}

// A close of the pool with this pass that was refused, as the answer of a close with one pass.
fn of_one<G: PoolNaming, J, E, K: Keeper>(
    fault: CloseFault<G, J, E, K>,
) -> CloseOneFault<G, J, E, K>
    requires one { length fault.passes.items ≡ 1 }
    ensures error { result.error ≡ fault.error }
    ensures pass { fault.passes.items ≡ result.passes ∷ [] }
{
    let CloseFault {
        error,
        pool,
        mut passes,
    } = fault;
    let Some(pass) = passes.pop() else {
        unreachable!()
    };
    CloseFault {
        error,
        pool,
        passes: pass,
    }
}

impl<G: PoolNaming, J: Job, E: Edge, K: Keeper> PoolOf<G, J, E, K> {
    // The pool, and this pass in a list. NoMemory (4).
    fn with_one(
        self,
        pass: Pass<G>,
    ) -> Result<(PoolOf<G, J, E, K>, Vec<Pass<G>>), CloseOneFault<G, J, E, K>>
        ensures one { IfOk result (λ r. r.1.items ≡ pass ∷ []) }
        ensures refused { IfErr result (λ f. (f.error ≡ PoolError.NoMemory) × (f.passes ≡ pass)) }
    {
        let mut passes = Vec::new(self.shared().around.alloc);
        match passes.push(pass) {
            Ok(()) => Ok((self, passes)),
            Err(failed) => Err(CloseFault {
                error: PoolError::NoMemory,
                pool: self,
                passes: failed.value,
            }),
        }
    }
}

impl<G: PoolNaming, J: Job, E: Edge, K: Reporter> PoolOf<G, J, E, K> {
    /// As `close`, with the one pass of a pool that has one caller. NoMemory (4) for the list of passes, else
    /// refused as `close`; after a refusal the pool and the pass come back.
    pub fn close_one<R: Wait>(
        self,
        rt: &R,
        pass: Pass<G>,
    ) -> Result<K::Report, CloseOneFault<G, J, E, K>>
        ensures report { IfOk result (Closes K.told K.RECEIPTS G.config (K.terms G.config) (pass ∷ [])) }
        ensures refused { IfErr result (λ f. (f.error ≡ PoolError.NoMemory) ⊎ KeepsOpen (Payload J) (K.terms G.config) (pass ∷ []) f.error) }
        ensures returned { IfErr result (λ f. f.passes ≡ pass) }
    {
        let (pool, passes) = match self.with_one(pass) {
            Ok(one) => one,
            Err(fault) => return Err(fault),
        };
        match pool.close(rt, passes) {
            Ok(report) => Ok(report),
            Err(fault) => Err(of_one(fault)),
        }
    }
}
