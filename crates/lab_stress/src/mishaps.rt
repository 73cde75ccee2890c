//! What a stress run must not come to.

use std::alloc::AllocError;
use thiserror::Error;
use tp_life::prelude::*;

/// Why a run broke off.
#[derive(Debug, Drop, Error)]
pub enum Mishap {
    #[error("{0}")]
    Refused(#[from] PoolError),
    #[error("no memory")]
    NoMemory(#[from(alloc)] AllocError),
    #[error("entry {0} is illegal")]
    Illegal(usize),
    #[error("{0}")]
    Differs(&'static str),
    #[error("job {0}: {1}")]
    Job(u32, &'static str),
}

/// Where this is not so of the pool, it is what differs.
pub fn ensure(so: bool, differs: &'static str) -> Result<(), Mishap> {
    so.then_some(()).ok_or(Mishap::Differs(differs))
}
