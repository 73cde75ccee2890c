//! The close of a pool: its record, with every pass accounted for.
ghost use Rattle.std.specs.Arc.{arc_value};
ghost use Rattle.std.specs.Prelude.{◌≡◌, IfOk, IfErr};
ghost use Rattle.tp_pool_holds.specs.Closing.{KeepsOpen};
ghost use Rattle.tp_pool_holds.specs.Reports.{Closes};
ghost use Rattle.tp_pool_holds.specs.declared.tasks.Payload.{Payload as TaskOf};

use crate::pool::{Owner, PoolOf};
use std::sync::{Arc, Wait};
use std::thread;
use tp_book::passes::Pass;
pub use tp_book::reports::{Report, Reporter, TallyReport};
use tp_machine::machine::releases::Keeper;
use tp_pool_holds::closing::Reopened;
use tp_pool_holds::edges::Edge;
use tp_pool_holds::names::PoolNaming;
use tp_pool_holds::shared::Shared;
use tp_protocols::jobs::Job;
use tp_record::recorders::Full;
use tp_types::refusals::PoolError;

/// The answer of a close that was refused: the pool comes back, with the passes that were handed in, or with the one pass of
/// `close_one`. As the pool, it can't be let go: close the pool once more, or `let_go` of it.
pub struct CloseFault<G: PoolNaming, J, E, K: Keeper = Full, P = Vec<Pass<G>>> {
    /// The refusal: NotTerminated (20), MissingPass (21) or TornRecord (22); of `close_one` NoMemory (4), too.
    pub error: PoolError,
    /// The pool, handed back.
    pub pool: PoolOf<G, J, E, K>,
    /// What was handed in, handed back: the passes in their order, or the pass.
    pub passes: P,
}

impl<G: PoolNaming, J: Job, E: Edge, K: Reporter> PoolOf<G, J, E, K> {
    /// Closes a terminated pool with all passes that its callers got, and answers what is told of it; Java has no such call.
    /// A pool over `Full` answers its record and counters. The record is legal and goes on from what each pass knew, and each
    /// pass's receipts are that pass's entries in it. A pool over `Tally` answers how many steps it made, its counters, and how
    /// many of its tasks have no fate; there is a legal record of so many steps with these counters, which goes on from what
    /// each pass knew.
    ///
    /// NotTerminated (20) comes first, and never with a pass that has seen the pool terminated.
    /// MissingPass (21) comes next, where fewer or more passes come back than callers got. Then the call
    /// waits until no thread has the pool any more, since a worker's thread lets go of it after the last
    /// step, and until each handle of it is dropped. It waits for ever where one is kept: where the pool's own edge (its
    /// factory, handler, hooks or gate) has a handle, or a job that is kept somewhere, as one that `shutdown_now` handed
    /// back. TornRecord (22) comes last, where a pass's receipts are not its own entries. After a refusal the
    /// pool and the passes come back.
    pub fn close<R: Wait>(
        self,
        rt: &R,
        passes: Vec<Pass<G>>,
    ) -> Result<K::Report, CloseFault<G, J, E, K>>
        ensures report { IfOk result (Closes K.told K.RECEIPTS G.config (K.terms G.config) passes.items) }
        ensures refused { IfErr result (λ f. KeepsOpen (TaskOf J) (K.terms G.config) passes.items f.error) }
        ensures returned { IfErr result (λ f. f.passes.items ≡ passes.items) }
    {
        let (shared, passes) = match self.alone(rt, passes) {
            Ok(alone) => alone,
            Err(fault) => return Err(fault),
        };
        match shared.close(passes) {
            Ok(report) => Ok(report),
            Err(reopened) => Err(handed_back(reopened)),
        }
    }
}

impl<G: PoolNaming, J: Job, E: Edge, K: Keeper> PoolOf<G, J, E, K> {
    // The value of a terminated pool, of whose callers these are all passes, once no other thread has it.
    // NotTerminated (20) or MissingPass (21).
    fn alone<R: Wait>(
        self,
        rt: &R,
        passes: Vec<Pass<G>>,
    ) -> Result<(Shared<G, J, E, K>, Vec<Pass<G>>), CloseFault<G, J, E, K>>
        ensures passes { IfOk result (λ r. r.1.items ≡ passes.items) }
        ensures refused { IfErr result (λ f. KeepsOpen (TaskOf J) (K.terms G.config) passes.items f.error) }
        ensures returned { IfErr result (λ f. f.passes.items ≡ passes.items) }
    {
        let mut passes = passes;
        let shared = self.shared();
        let refused = shared
            .hold(rt)
            .may_close(&shared.around.glance, &mut passes);
        if let Err(error) = refused {
            return Err(CloseFault {
                error,
                pool: self,
                passes,
            });
        }
        shared.await_workers(rt);
        let PoolOf { owner } = self;
        let shared = match owner {
            Owner::Shared(shared) => sole(rt, shared),
            Owner::Sole(shared) => shared,
        };
        Ok((shared, passes))
    }
}

// The value that threads share, once no other one has it. A thread that was joined may let go of its share a little later. It waits
// for ever where another share is kept.
fn sole<T, R: Wait>(rt: &R, shared: Arc<T>) -> T
    ensures value { result ≡ arc_value shared }
{
    // A worker's thread lets go of its pool after its pass is handed in.
    let mut shared = shared;
    for _ in rt.forever() {
        match Arc::try_unwrap(shared) {
            Ok(value) => return value,
            Err(others) => shared = others,
        }
        thread::yield_now();
    }
    unreachable!()
}

// The pool whose close the book refused, handed back.
fn handed_back<G: PoolNaming, J, E, K: Keeper>(
    reopened: Reopened<G, J, E, K>,
) -> CloseFault<G, J, E, K>
    ensures error { result.error ≡ reopened.error }
    ensures passes { result.passes ≡ reopened.passes }
{
    let Reopened {
        error,
        shared,
        passes,
    } = reopened;
    let owner = Owner::Sole(shared);
    CloseFault {
        error,
        pool: PoolOf { owner },
        passes,
    }
}
