//! The close of a pool's value, once no other thread has it.
ghost use Rattle.std.specs.Prelude.{◌≡◌, IfOk, IfErr};
ghost use Rattle.tp_types.specs.Config.{IsConfig};
ghost use Rattle.tp_book.specs.BookView.{config};
ghost use Rattle.tp_pool_holds.specs.Closing.{KeepsOpen};
ghost use Rattle.tp_pool_holds.specs.declared.tasks.Payload.{Payload as TaskOf};
ghost use Rattle.tp_pool_holds.specs.Reports.{Closes};

use crate::edges::Edge;
use crate::lock::PoolLock;
use crate::locked::Beside;
use crate::names::PoolNaming;
use crate::shared::{Around, Shared};
use crate::tasks::Payload;
use tp_book::book::Unclosed;
use tp_book::passes::Pass;
use tp_book::reports::Reporter;
use tp_laws::lawful::law_legal_is_lawful;
use tp_machine::machine::releases::Keeper;
use tp_protocols::jobs::Job;
use tp_record::recorders::Full;
use tp_types::refusals::PoolError;

/// The answer of a close that the book refused: the pool's value, put together again, and the passes.
#[derive(Drop)]
pub struct Reopened<G: PoolNaming, J, E, K: Keeper = Full> {
    /// The refusal.
    pub error: PoolError,
    /// The value, handed back.
    pub shared: Shared<G, J, E, K>,
    /// The passes, handed back in their order.
    pub passes: Vec<Pass<G>>,
}

impl<G: PoolNaming, E: Edge> Around<G, E> {
    // The pool's value, put together again around the book that refused its close.
    fn reopened<J: Job, K: Keeper>(
        self,
        beside: Beside,
        unclosed: Unclosed<G, Payload<J>, K>,
    ) -> Reopened<G, J, E, K>
        requires settings { config unclosed.book ≡ (K.terms G.config) }
        requires good { IsConfig G.config }
        ensures error { result.error ≡ unclosed.error }
        ensures passes { result.passes ≡ unclosed.passes }
    {
        let Unclosed {
            error,
            book,
            passes,
            workers,
        } = unclosed;
        let shared = Shared {
            lock: PoolLock::again(self.alloc, book, workers, beside),
            around: self,
        };
        Reopened {
            error,
            shared,
            passes,
        }
    }
}

impl<G: PoolNaming, J: Job, E: Edge, K: Reporter> Shared<G, J, E, K> {
    /// Closes the book with these passes of callers and those of the workers. After a refusal all comes back.
    pub fn close(self, passes: Vec<Pass<G>>) -> Result<K::Report, Reopened<G, J, E, K>>
        ensures report { IfOk result (Closes K.told K.RECEIPTS G.config (K.terms G.config) passes.items) }
        ensures refused { IfErr result (λ f. KeepsOpen (TaskOf J) (K.terms G.config) passes.items f.error) }
        ensures returned { IfErr result (λ f. f.passes.items ≡ passes.items) }
    {
        let Shared { lock, around } = self;
        let (book, workers, beside) = lock.part();
        match book.close(&around.glance, passes, workers) {
            Ok(report) => {
                K::law_limit();
                law_legal_is_lawful();
                Ok(report)
            }
            Err(unclosed) => Err(around.reopened(beside, unclosed)),
        }
    }
}
