//! The pool's lock.

use crate::compare::same;
use std::sync::{Mutex, Wait};
use std::test::Fail;
use std::thread;
use tp_pool::lock::polite;
use tp_pool::pauses::WORKER;

// Adds 1 so many times, and takes the lock for each.
fn add<R: Wait>(rt: &R, lock: &Mutex<u64>, times: u32) {
    for _ in 0..times {
        let mut sum = polite(rt, lock, WORKER);
        *sum = sum.saturating_add(1);
    }
}

#[test]
fn two_threads_take_turns(rt: HostRuntime) -> Result<(), Fail> {
    let lock = Mutex::new(0);
    thread::join(&rt, || add(&rt, &lock, 1000), || add(&rt, &lock, 1000));
    same(&rt, 0, &lock.into_inner(), &2000);
    Ok(())
}
