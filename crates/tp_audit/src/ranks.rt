//! A work queue by ranks.

ghost use Rattle.std.specs.Prelude.{ℕ, ◌≡◌, ◌^◌, [], length, slice_get, Contains, OnOk, OnErr};
ghost use Rattle.tp_ring.specs.Line.{ids};
ghost use Rattle.tp_ring.specs.Ranks.{key};
ghost use Rattle.tp_record.specs.Lists.{without, put_behind};
ghost use Rattle.tp_audit.specs.Orders.{next_of};
ghost use Rattle.tp_audit.specs.Queued.{HaveRanks};

use indexmap::IndexMap;
use std::alloc::{AllocError, Global};
use std::collections::BTreeMap;
use std::marker::Model;
use std::ops::Bound;

// So many place numbers there are.
const NUMBERS: u128 = 18_446_744_073_709_551_616;

/// The tasks in a work queue from which the task of the least rank leaves first, and of equal ones the one that came first. One
/// is put in, found or taken out at a cost that goes by the logarithm of how many there are. A contract sees the tasks in their
/// order, each with its key.
#[derive(Drop)]
pub struct Ranks {
    // The tasks by their keys, each of which is made of a rank and a place number. An auditor may take memory with each entry, as
    // the pool's offer may not. In a list in order a task that comes among n others moves a quarter of them, and so does each
    // that a purge takes out.
    tasks: BTreeMap<u128, u32>,
    // The key of each task that is there.
    keys: IndexMap<u32, u128>,
    came: u64,
}

impl Model for Ranks {
    ghost use Rattle.std.specs.Prelude.{ℕ, List};
    ghost use Rattle.tp_audit.specs.Ranked.{keyed, AreKept};

    ghost Value = { List (ℕ × ℕ) };

    ghost view = { λ r. keyed r.tasks.entries };

    ghost invariant = { λ r. AreKept r.tasks.entries r.keys r.came };
}

/// The key of a rank and a place number.
fn key_of(rank: u32, number: u64) -> u128
    ensures { result ≡ key rank number }
{
    u128::from(rank) * NUMBERS + u128::from(number)
}

impl Ranks {
    /// An empty queue.
    pub fn new(alloc: Global) -> Ranks
        ensures { result ≡ [] }
    {
        Ranks {
            tasks: BTreeMap::new(alloc),
            keys: IndexMap::new(alloc),
            came: 0,
        }
    }

    /// How many tasks wait.
    pub fn len(&self) -> usize
        ensures { result ≡ length (ids self.now) }
    {
        self.tasks.len()
    }

    /// The head.
    pub fn first(&self) -> Option<u32>
        ensures { result ≡ slice_get (ids self.now) 0 }
    {
        match self.tasks.first_key_value() {
            Some((_, t)) => Some(*t),
            None => None,
        }
    }

    /// The task behind `t`, where both are there: a walk along the queue asks for one after the other.
    pub fn next_after(&self, t: u32) -> Option<u32>
        ensures { result ≡ next_of t (ids self.now) }
    {
        let key = *self.keys.get(&t)?;
        match self
            .tasks
            .range((Bound::Excluded(key), Bound::Unbounded))
            .next()
        {
            Some((_, next)) => Some(*next),
            None => None,
        }
    }

    /// Puts a task behind all whose rank is not greater. Where memory is refused nothing has changed; so it is after 2^64 - 1 of
    /// them.
    pub fn push(&mut self, t: u32, rank: u32) -> Result<(), AllocError>
        requires { Contains (ids self.old) t → ⊥ }
        ensures ok { OnOk result ((ranks : ℕ → ℕ) → ranks t ≡ rank → HaveRanks ranks self.old
            → (ids self.new ≡ put_behind ranks t (ids self.old)) × HaveRanks ranks self.new) }
        ensures err { OnErr result (self.new ≡ self.old) }
    {
        if self.came == u64::MAX {
            return Err(AllocError);
        }
        self.keys.reserve(1)?;
        let key = key_of(rank, self.came);
        if self.tasks.insert(key, t).is_err() {
            return Err(AllocError);
        }
        if self.keys.insert(t, key).is_err() {
            unreachable!()
        }
        self.came += 1;
        Ok(())
    }

    /// Takes a task out, if it is there. The others keep their order.
    pub fn remove(&mut self, t: u32)
        ensures tasks { ids self.new ≡ without t (ids self.old) }
        ensures ranks { (ranks : ℕ → ℕ) → HaveRanks ranks self.old → HaveRanks ranks self.new }
    {
        if let Some(key) = self.keys.swap_remove(&t) {
            self.tasks.remove(&key);
        }
    }
}
