//! What callers are generic in, and two callers at once.

use std::sync::Wait;
use std::thread::{self, Threads};
use tp_pool_holds::names::PoolNaming;

/// A pool's name: who is generic in it can call any pool.
pub trait PoolName: PoolNaming + Send + Sync + 'static {}

impl<G: PoolNaming + Send + Sync + 'static> PoolName for G {}

/// A runtime by which a pool starts its threads and waits, as `HostRuntime`.
pub trait Runtime: Threads + Wait + Copy + Send + Sync + 'static {}

impl<R: Threads + Wait + Copy + Send + Sync + 'static> Runtime for R {}

/// Makes both calls, each in a thread of its own, and answers what both came to. Each thread shares `shared`,
/// as the pool, and has what it takes along for itself, as a pass.
// Each type that crosses is a parameter, so that each is shown to cross by itself.
pub fn in_two<
    S: Sync,
    T: Send + Drop,
    U: Send + Drop,
    A: Send + Drop,
    B: Send + Drop,
    F: Fn(&S, T) -> A + Sync,
    H: Fn(&S, U) -> B + Sync,
    R: Threads + Sync,
>(rt: &R, shared: &S, one: T, two: U, f: &F, h: &H) -> (A, B)
    requires first { F.IsAlwaysCallable f.now }
    requires second { H.IsAlwaysCallable h.now }
{
    thread::join(rt, move || f(shared, one), move || h(shared, two))
}
