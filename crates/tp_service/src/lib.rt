//! Futures for a pool's callers, after `ExecutorService`, `FutureTask` and `ExecutorCompletionService`. Each
//! call takes the pool first, and its caller's pass last where it takes one.
#![tactic(auto)]

pub mod completions;
pub mod futures;
pub mod invoking;
pub mod leaving;
