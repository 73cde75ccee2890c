//! What is timed of a pool.

use crate::unmeasured::Unmeasured;
use std::alloc::Global;
use std::thread;
use std::time::{Clock, Duration};

/// Who works, who submits, and how much.
#[derive(Clone, Copy)]
pub struct Crowd {
    /// The workers.
    pub workers: u32,
    /// The submitters, 1 at least.
    pub submitters: u32,
    /// The tasks that each of them submits.
    pub tasks: u32,
    /// How long each task's job takes, in turns of `spin_loop`: 0 of an empty one.
    pub turns: u32,
}

/// What is timed of a pool.
#[derive(Clone, Copy)]
pub enum Course {
    /// From the first submission until the last task has run and the workers have ended.
    Through(Crowd),
    /// The same, from before the pool is made until nothing is left of it. A pool that keeps its record has to be made
    /// anew whenever its record is full.
    Life(Crowd),
    /// From the submission of a task to an idle pool of so many workers until its body begins: the
    /// times of many.
    Start(u32),
    /// From the submission of a task to a pool of so many workers until its submitter has its value: the times of so many,
    /// one behind the other. A textbook's pool has no futures, and no times.
    Answer(u32, u32),
}

impl Crowd {
    /// The tasks of all submitters together.
    pub fn all_tasks(&self) -> u32 {
        self.tasks.saturating_mul(self.submitters)
    }
}

/// The starts of a run.
pub const STARTS: u32 = 200;

/// Lets the workers fall asleep.
pub fn fall_asleep<R: Clock>(rt: &R) {
    thread::sleep(rt, Duration::from_micros(300));
}

/// A list of one time.
pub fn alone(alloc: Global, time: Duration) -> Result<Vec<Duration>, Unmeasured> {
    let mut times = Vec::new(alloc);
    times.push(time)?;
    Ok(times)
}

/// The median of these times, or 0 of none.
pub fn median(times: &mut Vec<Duration>) -> Result<Duration, Unmeasured> {
    times.sort()?;
    let middle = times.get(times.len() / 2).copied();
    Ok(middle.unwrap_or(Duration::ZERO))
}

/// So many nanoseconds.
pub fn nanoseconds(time: Duration) -> u64 {
    u64::try_from(time.as_nanos()).unwrap_or(u64::MAX)
}
