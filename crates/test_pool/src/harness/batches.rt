//! Bodies that answer 7, and the end of a pool with one caller.

use std::alloc::Global;
use tp_pool::edges::Edge;
use tp_pool::prelude::*;

/// A body that answers 7.
#[derive(Drop)]
pub struct Seven;

impl Body for Seven {
    fn run(&mut self, _cancel: &CancelFlag) -> Outcome {
        Ok(7)
    }
}

/// So many of them, as jobs.
pub fn sevens(alloc: Global, count: u32) -> Result<Vec<Any<Seven>>, PoolError> {
    let mut jobs = Vec::new(alloc);
    for _ in 0..count {
        jobs.push(Any(Seven))?;
    }
    Ok(jobs)
}

/// How many of these answers are 7.
pub fn count_sevens(answers: &[Answer]) -> u32 {
    let mut sevens = 0u32;
    for answer in answers {
        if *answer == Ok(7) {
            sevens = sevens.saturating_add(1);
        }
    }
    sevens
}

/// Shuts the pool down with this pass, and closes it at its end.
pub fn ended<G: PoolName, J: Job + 'static, E: Edge + Send + Sync + 'static, R: Runtime>(
    rt: &R,
    pool: PoolOf<G, J, E>,
    pass: Pass<G>,
) -> Result<Report, PoolError> {
    let mut pass = pass;
    if let Err(error) = pass.reserve(4) {
        pool.let_go();
        return Err(error);
    }
    pool.shut(rt, &mut pass);
    if let Err(error) = pool.await_shut(rt, &mut pass) {
        pool.let_go();
        return Err(error);
    }
    pool.close_one(rt, pass).map_err(|fault| fault.let_go())
}
