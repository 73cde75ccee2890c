//! Where the tasks lie.

ghost use Rattle.std.specs.Prelude.{◌+◌, ◌<◌, ◌≤◌, ◌^◌, length, nat_eq, vec_capacity};
ghost use Rattle.std.proofs.Props.{props};
ghost use Rattle.indexmap.specs.IndexMap.{IsUnique, index_map_len};
ghost use Rattle.tp_tasks.specs.Homes.{IsSize, ArePlaced, AreApart, AreKept, ArePurgeable, AreNoted};

use crate::table::KeptTask;
use indexmap::IndexMap;

/// A task at its home.
#[derive(Drop)]
pub struct Home<P> {
    /// The task's number.
    pub number: u32,
    /// What is kept of it.
    pub task: KeptTask<P>,
}

/// What is kept of all tasks, by number. A task lies at its home, by the low bits of its number. Only where another one lies
/// there, which is kept for longer, it lies in a table beside, by the hash of its number. So a look is one read and no hash,
/// however many tasks were forgotten before, and a forgotten task moves no other.
#[derive(Drop)]
pub struct Rows<P> {
    /// How many tasks are kept.
    pub count: u32,
    /// How many of them a purge takes: they are queued and cancelled.
    pub purgeable: u32,
    /// Each of these, in any order: a task is noted where a write has a purge take it, and goes off the list where a purge comes
    /// to it. So the list also has tasks that left the queue since, and may have one twice. A task needs not know its place in
    /// the list, and one that leaves the queue otherwise costs nothing here.
    pub noted: Vec<u32>,
    /// The tasks that lie beside.
    pub beside: IndexMap<u32, KeptTask<P>>,
    /// Of each home the task that lies there.
    pub homes: Vec<Option<Home<P>>>,
    ghost sized: { IsSize (length homes.items) },
    ghost placed: { ArePlaced homes.items },
    ghost apart: { AreApart homes.items beside },
    ghost unique: { IsUnique nat_eq beside } by { Prim.hlevel props },
    ghost counted: { AreKept count homes.items beside },
    ghost small: { count < 2 ^ 32 },
    ghost purged: { ArePurgeable purgeable homes.items beside },
    ghost named: { AreNoted noted.items homes.items beside },
    ghost roomy: { length homes.items + index_map_len beside ≤ vec_capacity noted },
}
