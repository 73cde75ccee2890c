//! What a thread sees that watches a running pool: all of one moment, read in one hold of the lock. It makes no
//! step and needs no pass.
ghost use Rattle.std.specs.Prelude.{◌≡◌, drop, reverse, IfOk, IfErr};
ghost use Rattle.tp_record.specs.Step.{Legal};
ghost use Rattle.tp_glance.specs.Word.{IsFrontOf};
ghost use Rattle.tp_book.specs.BookView.{state_of};
ghost use Rattle.tp_pool_holds.specs.Moments.{AtFront, AtSome, BookAtSome};
ghost use Rattle.tp_pool_holds.specs.declared.tasks.Payload.{Payload};
ghost use Rattle.tp_pool.specs.Snapshots.{IsSnapshot};

use crate::pool::PoolOf;
use std::alloc::Global;
use std::fmt;
use std::sync::Wait;
use tp_book::sights::Sight;
use tp_glance::glance::Glance;
use tp_machine::machine::releases::Keeper;
use tp_pool_holds::edges::Edge;
pub use tp_pool_holds::locked::Busy;
use tp_pool_holds::locked::Locked;
use tp_pool_holds::names::PoolNaming;
use tp_protocols::jobs::Job;
use tp_record::entries::Entry;
use tp_types::refusals::PoolError;
use tp_types::states::{Counts, RunState};

/// What a pool does, all of one moment. It prints as one line: the run state, the moment, the counters that change
/// while a pool runs, and each slot that has a task.
#[derive(Drop)]
pub struct Snapshot {
    /// The run state.
    pub state: RunState,
    /// The twelve counters: `queued` is the length of the queue.
    pub counts: Counts,
    /// The moment, in ticks.
    pub now: u64,
    /// The record's length, in entries.
    pub steps: u64,
    /// Each slot of a number below 1,024 that has a task, with it, in the order of their numbers.
    pub busy: Vec<Busy>,
}

impl fmt::Display for Snapshot {
    fn fmt<W: fmt::Write>(&self, f: &mut fmt::Formatter<W>) -> fmt::Result {
        let Snapshot {
            state,
            counts,
            now,
            steps,
            busy,
        } = self;
        write!(f, "{} at {now}, {steps} steps: ", state.name())?;
        write!(
            f,
            "{} submitted, {} completed, ",
            counts.submitted, counts.completed
        )?;
        write!(f, "{} queued, {} live", counts.queued, counts.live)?;
        for Busy { slot, task } in busy {
            write!(f, ", w{} t{}", slot.0, task.0)?;
        }
        Ok(())
    }
}

// What is read of the value under the lock.
fn snapshot_of<G: PoolNaming, J: Job, K: Keeper>(
    locked: &Locked<G, J, K>,
    alloc: Global,
) -> Result<Snapshot, PoolError>
    ensures reads { IfOk result (IsSnapshot (state_of locked.now.book)) }
    ensures refused { IfErr result (λ e. e ≡ PoolError.NoMemory) }
{
    match locked.busy(alloc) {
        Ok(busy) => {
            let book = locked.book();
            Ok(Snapshot {
                state: book.state(),
                counts: book.counts(),
                now: book.now(),
                steps: book.steps(),
                busy,
            })
        }
        Err(error) => Err(error),
    }
}

// The same, as it is after the record that the sight knows then.
fn snapshot_shown<G: PoolNaming, J: Job, K: Keeper>(
    locked: &mut Locked<G, J, K>,
    glance: &Glance<G>,
    sight: &mut Sight<G>,
    alloc: Global,
) -> Result<Snapshot, PoolError>
    ensures reads { IfOk result (λ v. AtFront (K.terms G.config) sight.new (λ s. IsSnapshot s v)) }
    ensures refused { IfErr result (λ e. e ≡ PoolError.NoMemory) }
    ensures goes_on { IsFrontOf sight.old sight.new }
{
    locked.law_is_book();
    locked.show_sight(glance, sight);
    snapshot_of(locked, alloc)
}

// The entries from the n-th on, of the value under the lock.
fn entries_since<G: PoolNaming, J: Job>(
    locked: &Locked<G, J>,
    alloc: Global,
    n: u64,
) -> Result<Vec<Entry>, PoolError>
    ensures entries { IfOk result (λ v. BookAtSome (Payload J) G.config (λ b. v.items ≡ drop n (reverse b.history))) }
    ensures refused { IfErr result (λ e. e ≡ PoolError.NoMemory) }
{
    locked.law_is_book();
    locked.record_since(alloc, n)
}

impl<G: PoolNaming, J: Job, E: Edge, K: Keeper> PoolOf<G, J, E, K> {
    /// What the pool does now; Java has `toString` and single getters. NoMemory (4) for the list of slots.
    pub fn snapshot<R: Wait>(&self, rt: &R, alloc: Global) -> Result<Snapshot, PoolError>
        ensures reads { IfOk result (λ v. AtSome (K.terms G.config) (λ s. IsSnapshot s v)) }
        ensures refused { IfErr result (λ e. e ≡ PoolError.NoMemory) }
    {
        let locked = self.shared().hold(rt);
        locked.law_is_book();
        snapshot_of(&locked, alloc)
    }

    /// As `snapshot`, as it is after the record that the sight knows then. That record goes on from the one that
    /// it knew. NoMemory (4) for the list of slots.
    pub fn snapshot_by<R: Wait>(
        &self,
        rt: &R,
        alloc: Global,
        sight: &mut Sight<G>,
    ) -> Result<Snapshot, PoolError>
        ensures reads { IfOk result (λ v. AtFront (K.terms G.config) sight.new (λ s. IsSnapshot s v)) }
        ensures refused { IfErr result (λ e. e ≡ PoolError.NoMemory) }
        ensures goes_on { IsFrontOf sight.old sight.new }
    {
        let shared = self.shared();
        let mut held = shared.hold(rt);
        snapshot_shown(&mut held, &shared.around.glance, sight, alloc)
    }
}

impl<G: PoolNaming, J: Job, E: Edge> PoolOf<G, J, E> {
    /// The entries of the record from the n-th on, counted from 0, the oldest first: a thread that asks with the
    /// number of entries that it has seen gets each entry once. The copy is made in the hold, so who asks for many
    /// holds up the pool. NoMemory (4) for the copy.
    pub fn record_since<R: Wait>(
        &self,
        rt: &R,
        alloc: Global,
        n: u64,
    ) -> Result<Vec<Entry>, PoolError>
        ensures entries { IfOk result (λ v. BookAtSome (Payload J) G.config (λ b. v.items ≡ drop n (reverse b.history))) }
        ensures refused { IfErr result (λ e. e ≡ PoolError.NoMemory) }
    {
        let locked = self.shared().hold(rt);
        entries_since(&locked, alloc, n)
    }

    /// As `record_since`, of the record that the sight knows then. That record goes on from the one that it knew,
    /// and is legal in the pool's settings. NoMemory (4) for the copy.
    pub fn record_since_by<R: Wait>(
        &self,
        rt: &R,
        alloc: Global,
        n: u64,
        sight: &mut Sight<G>,
    ) -> Result<Vec<Entry>, PoolError>
        ensures entries { IfOk result (λ v. v.items ≡ drop n (reverse sight.new)) }
        ensures legal { Legal G.config sight.new }
        ensures refused { IfErr result (λ e. e ≡ PoolError.NoMemory) }
        ensures goes_on { IsFrontOf sight.old sight.new }
    {
        let shared = self.shared();
        let mut held = shared.hold(rt);
        held.law_is_book();
        held.show_sight(&shared.around.glance, sight);
        held.record_since(alloc, n)
    }
}
