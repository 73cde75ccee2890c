//! The making of what a pool's threads share.
ghost use Rattle.std.specs.Prelude.{◌≡◌, ◌⊎◌, [], IfOk, IfErr, OnOk, Err};
ghost use Rattle.tp_types.specs.Config.{IsConfig, checked};

use crate::edges::Edge;
use crate::lock::PoolLock;
use crate::locked::Locked;
use crate::names::PoolNaming;
use crate::policies::PolicyOf;
use crate::shared::{Around, Conditions, Shared};
use std::alloc::{AllocError, Global};
use std::collections::VecDeque;
use std::sync::{Arc, Mutex};
use std::thread::Parker;
use tp_book::book::Book;
use tp_book::opening::Unopened;
use tp_book::passes::Pass;
use tp_glance::glance::Glance;
use tp_machine::machine::releases::Keeper;
use tp_protocols::jobs::Job;
use tp_types::configs::Config;
use tp_types::limits::MAX_WORKERS;
use tp_types::refusals::PoolError;

impl<G: PoolNaming, J: Job, E: Edge, K: Keeper> Shared<G, J, E, K> {
    /// What the threads of a new pool share, and the pool's first pass. Refused as `Config::check` refuses the settings, and
    /// good ones with NoMemory (4) alone.
    pub fn over(
        alloc: Global,
        unopened: Unopened,
        config: Config,
        edge: E,
    ) -> Result<(Arc<Shared<G, J, E, K>>, Pass<G>), PoolError>
        requires named { unopened ≡ record { ledger = G.name; parts = G.parts; table = G.table } }
        requires settings { config ≡ G.config }
        ensures pass { IfOk result (λ r. r.1 ≡ record { number = 0; amount = 0; front = []; released = []; keeps = K.RECEIPTS; receipts = []; room = r.1.room }) }
        ensures good { OnOk result (IsConfig config) }
        ensures refused { IfErr result (λ e. (checked config ≡ Err e) ⊎ ((e ≡ PoolError.NoMemory) × IsConfig config)) }
    {
        let (lock, glance, pass) = match begin(alloc, unopened, config) {
            Ok(begun) => begun,
            Err(error) => return Err(error),
        };
        match share(alloc, lock, glance, edge, PolicyOf::new(&config)) {
            Ok(shared) => Ok((shared, pass)),
            Err(_) => Err(PoolError::NoMemory),
        }
    }
}

// The value that a new pool's lock guards, the word that publishes its run state, and its first pass.
fn begin<G: PoolNaming, J: Drop, K: Keeper>(
    alloc: Global,
    unopened: Unopened,
    config: Config,
) -> Result<(PoolLock<G, J, K>, Glance<G>, Pass<G>), PoolError>
    requires named { unopened ≡ record { ledger = G.name; parts = G.parts; table = G.table } }
    requires settings { config ≡ G.config }
    ensures pass { IfOk result (λ r. r.2 ≡ record { number = 0; amount = 0; front = []; released = []; keeps = K.RECEIPTS; receipts = []; room = r.2.room }) }
    ensures good { OnOk result (IsConfig config) }
    ensures refused { IfErr result (λ e. (checked config ≡ Err e) ⊎ ((e ≡ PoolError.NoMemory) × IsConfig config)) }
{
    let (book, glance, pass) = match Book::open(alloc, unopened, config) {
        Ok(opened) => opened,
        Err(error) => return Err(error),
    };
    match Locked::new(alloc, book) {
        Ok(locked) => Ok((PoolLock::new(locked), glance, pass)),
        Err(error) => Err(error),
    }
}

// What all threads of a new pool share.
fn share<G: PoolNaming, J: Drop, E: Drop, K: Keeper>(
    alloc: Global,
    lock: PoolLock<G, J, K>,
    glance: Glance<G>,
    edge: E,
    policy: PolicyOf<G>,
) -> Result<Arc<Shared<G, J, E, K>>, AllocError> {
    let parkers = parkers(alloc)?;
    let around = Around {
        conditions: Conditions::new(),
        parkers,
        glance,
        edge,
        policy,
        alloc,
        abandoned: Mutex::new(VecDeque::new(alloc)),
    };
    let shared = Shared { lock, around };
    match Arc::new(alloc, shared) {
        Ok(shared) => Ok(shared),
        Err(_) => Err(AllocError),
    }
}

// A place to sleep for the worker of each slot.
fn parkers(alloc: Global) -> Result<Vec<Parker>, AllocError> {
    let mut parkers = Vec::new(alloc);
    parkers.resize_with(MAX_WORKERS as usize, Parker::new)?;
    Ok(parkers)
}
