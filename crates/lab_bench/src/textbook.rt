//! A pool as textbooks have it, for comparison alone: one lock, one condition and a queue of boxes. It
//! keeps no record.

use crate::errands::Parcel;
use crate::hosts::Host;
use std::alloc::{AllocError, Global};
use std::collections::VecDeque;
use std::sync::{Arc, Condvar, Mutex};
use std::thread;
use std::thread::JoinHandle;
use tp_protocols::flags::CancelFlag;
use tp_protocols::jobs::Job;
use tp_types::refusals::PoolError;

// What lies under the lock.
#[derive(Drop)]
struct Waiting<R> {
    queue: VecDeque<Parcel<R>>,
    closed: bool,
}

/// What the threads share.
#[derive(Drop)]
pub struct Counter<R> {
    waiting: Mutex<Waiting<R>>,
    changed: Condvar,
}

impl<R: Host> Counter<R> {
    /// Queues a job.
    pub fn execute(&self, rt: &R, job: Parcel<R>) -> Result<(), AllocError> {
        let mut waiting = self.waiting.lock(rt);
        waiting.queue.push_back(job)?;
        drop(waiting);
        self.changed.notify_one();
        Ok(())
    }

    fn next(&self, rt: &R) -> Option<Parcel<R>> {
        let mut waiting = self.waiting.lock(rt);
        for _ in rt.forever() {
            if let Some(job) = waiting.queue.pop_front() {
                return Some(job);
            }
            if waiting.closed {
                return None;
            }
            waiting = self.changed.wait(rt, waiting);
        }
        unreachable!()
    }

    // Runs jobs until the pool is closed; how many it ran.
    fn work(&self, rt: &R, flag: &CancelFlag) -> u64 {
        let mut count = 0u64;
        for _ in rt.forever() {
            let Some(mut job) = self.next(rt) else {
                return count;
            };
            let _ = job.call(flag);
            count = count.saturating_add(1);
        }
        unreachable!()
    }
}

/// The pool, with its workers.
#[derive(Drop)]
pub struct Textbook<R> {
    /// What the threads share.
    pub counter: Arc<Counter<R>>,
    workers: Vec<JoinHandle<u64>>,
}

fn hire<R: Host>(
    rt: R,
    counter: &Arc<Counter<R>>,
    flag: CancelFlag,
) -> Result<JoinHandle<u64>, PoolError> {
    let Ok(theirs) = Arc::try_clone(counter) else {
        return Err(PoolError::NoMemory);
    };
    match thread::spawn(&rt, move || theirs.work(&rt, &flag)) {
        Ok(worker) => Ok(worker),
        Err(_) => Err(PoolError::NoMemory),
    }
}

impl<R: Host> Textbook<R> {
    /// A pool of so many workers. NoMemory (4), also where a thread is not made.
    pub fn new(rt: R, alloc: Global, workers: u32) -> Result<Textbook<R>, PoolError> {
        let waiting = Waiting {
            queue: VecDeque::new(alloc),
            closed: false,
        };
        let counter = Counter {
            waiting: Mutex::new(waiting),
            changed: Condvar::new(),
        };
        let Ok(counter) = Arc::new(alloc, counter) else {
            return Err(PoolError::NoMemory);
        };
        let mut threads = Vec::new(alloc);
        for _ in 0..workers {
            let worker = hire(rt, &counter, CancelFlag::new(alloc)?)?;
            if threads.push(worker).is_err() {
                return Err(PoolError::NoMemory);
            }
        }
        Ok(Textbook {
            counter,
            workers: threads,
        })
    }

    /// Closes the pool and waits until all jobs were run; how many there were.
    pub fn join(self, rt: &R) -> u64 {
        let Textbook { counter, workers } = self;
        counter.waiting.lock(rt).closed = true;
        counter.changed.notify_all();
        let mut count = 0u64;
        for worker in workers {
            count = count.saturating_add(worker.join(rt));
        }
        count
    }
}
