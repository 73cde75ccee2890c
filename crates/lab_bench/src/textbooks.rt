//! The runs of the textbook's pool that are timed.

use crate::courses::{Course, Crowd, STARTS, alone, fall_asleep};
use crate::errands::Parcel;
use crate::hosts::Host;
use crate::textbook::{Counter, Textbook};
use crate::unmeasured::Unmeasured;
use std::alloc::Global;
use std::sync::Arc;
use std::thread;
use std::thread::JoinHandle;
use std::time::{Duration, Instant};

/// The times of the textbook's pool: one, where nothing else is said.
pub fn textbook<R: Host>(
    rt: R,
    alloc: Global,
    course: Course,
) -> Result<Vec<Duration>, Unmeasured> {
    match course {
        Course::Through(crowd) => alone(alloc, through(rt, alloc, crowd)?),
        Course::Life(crowd) => alone(alloc, life(rt, alloc, crowd)?),
        Course::Start(workers) => start(rt, alloc, workers),
        Course::Answer(..) => Ok(Vec::new(alloc)),
    }
}

fn submits<R: Host>(
    rt: &R,
    alloc: Global,
    counter: &Counter<R>,
    crowd: Crowd,
) -> Result<(), Unmeasured> {
    for _ in 0..crowd.tasks {
        let job = Parcel::new(alloc, crowd.turns)?;
        counter.execute(rt, job)?;
    }
    Ok(())
}

fn submits_alone<R: Host>(
    rt: R,
    alloc: Global,
    counter: Arc<Counter<R>>,
    crowd: Crowd,
) -> Result<(), Unmeasured> {
    submits(&rt, alloc, &counter, crowd)
}

fn other<R: Host>(
    rt: R,
    alloc: Global,
    counter: &Arc<Counter<R>>,
    crowd: Crowd,
) -> Result<JoinHandle<Result<(), Unmeasured>>, Unmeasured> {
    let theirs = Arc::try_clone(counter)?;
    match thread::spawn(&rt, move || submits_alone(rt, alloc, theirs, crowd)) {
        Ok(other) => Ok(other),
        Err(_) => Err(Unmeasured::NoThread),
    }
}

fn all_submit<R: Host>(
    rt: R,
    alloc: Global,
    counter: &Arc<Counter<R>>,
    crowd: Crowd,
) -> Result<(), Unmeasured> {
    let mut others = Vec::new(alloc);
    for _ in 1..crowd.submitters {
        others.push(other(rt, alloc, counter, crowd)?)?;
    }
    submits(&rt, alloc, counter, crowd)?;
    for other in others {
        other.join(&rt)?;
    }
    Ok(())
}

fn through<R: Host>(rt: R, alloc: Global, crowd: Crowd) -> Result<Duration, Unmeasured> {
    let pool = Textbook::new(rt, alloc, crowd.workers)?;
    fall_asleep(&rt);
    let start = Instant::now(&rt)?;
    run(rt, alloc, pool, crowd)?;
    Ok(start.elapsed(&rt)?)
}

fn life<R: Host>(rt: R, alloc: Global, crowd: Crowd) -> Result<Duration, Unmeasured> {
    let before = Instant::now(&rt)?;
    let pool = Textbook::new(rt, alloc, crowd.workers)?;
    run(rt, alloc, pool, crowd)?;
    Ok(before.elapsed(&rt)?)
}

// Has the pool run all tasks, and ends it.
fn run<R: Host>(rt: R, alloc: Global, pool: Textbook<R>, crowd: Crowd) -> Result<(), Unmeasured> {
    all_submit(rt, alloc, &pool.counter, crowd)?;
    if pool.join(&rt) == u64::from(crowd.all_tasks()) {
        Ok(())
    } else {
        Err(Unmeasured::Differs)
    }
}

fn start<R: Host>(rt: R, alloc: Global, workers: u32) -> Result<Vec<Duration>, Unmeasured> {
    let pool = Textbook::new(rt, alloc, workers)?;
    let mut times = Vec::new(alloc);
    for _ in 0..STARTS {
        fall_asleep(&rt);
        times.push(one_start(rt, alloc, &pool.counter)?)?;
    }
    pool.join(&rt);
    Ok(times)
}

// From a submission until its body begins.
fn one_start<R: Host>(rt: R, alloc: Global, counter: &Counter<R>) -> Result<Duration, Unmeasured> {
    let (job, watch) = Parcel::timed(rt, alloc)?;
    let submitted = watch.time()?;
    counter.execute(&rt, job)?;
    watch.begun_after(submitted)
}
