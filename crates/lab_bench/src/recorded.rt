//! The runs of the pool that are timed, with its record and without one.
ghost use Rattle.std.specs.Prelude.{◌≡◌};

use crate::courses::{Course, Crowd, STARTS, alone, fall_asleep};
use crate::errands::Parcel;
use crate::hosts::Host;
use crate::unmeasured::Unmeasured;
use std::alloc::Global;
use std::marker::Brand;
use std::thread;
use std::thread::JoinHandle;
use std::time::{Duration, Instant};
use tp_book::opening::Unopened;
use tp_book::passes::Pass;
use tp_machine::machine::releases::Keeper;
use tp_pool::defaults::Defaults;
use tp_pool::names::PoolNaming;
use tp_pool::pool::PoolOf;
use tp_pool::{Handle, task_of};
use tp_types::configs::{Config, Policy, QueueKind};
use tp_types::limits::{DEFAULT_RECORD_LIMIT, MAX_RECORD_LIMIT};
use tp_types::tasks::Kind;

type Recorded<G, K, R> = PoolOf<G, Parcel<R>, Defaults, K>;

// So many workers, a queue that takes any number of tasks, and a record of so many entries.
fn settings_of(workers: u32, record_limit: u32) -> Config {
    Config {
        core: workers,
        maximum: workers,
        queue: QueueKind::Unbounded,
        keep: 1,
        core_timeout: false,
        policy: Policy::Abort,
        record_limit,
    }
}

/// The times of the pool with what keeps its record: one, where nothing else is said.
pub fn recorded<K: Keeper + Send + 'static, R: Host>(
    rt: R,
    alloc: Global,
    course: Course,
) -> Result<Vec<Duration>, Unmeasured> {
    let settings = match course {
        Course::Through(crowd) | Course::Life(crowd) => {
            settings_of(crowd.workers, MAX_RECORD_LIMIT)
        }
        Course::Start(workers) => settings_of(workers, DEFAULT_RECORD_LIMIT),
        Course::Answer(workers, _) => settings_of(workers, MAX_RECORD_LIMIT),
    };
    let unopened = Unopened::new(alloc)?;
    open::<Brand, K, R>(rt, alloc, unopened, settings, course)
}

// Opens a pool under its name.
fn open<G: PoolNaming + Send + Sync + 'static, K: Keeper + Send + 'static, R: Host>(
    rt: R,
    alloc: Global,
    unopened: Unopened,
    settings: Config,
    course: Course,
) -> Result<Vec<Duration>, Unmeasured>
    requires named { unopened ≡ record { ledger = G.name; parts = G.parts; table = G.table } }
    requires settings { settings ≡ G.config }
{
    let before = Instant::now(&rt)?;
    let (pool, first) = Recorded::<G, K, R>::over(alloc, unopened, settings, Defaults)?;
    let measured = measure(rt, alloc, &pool, first, course);
    pool.let_go();
    match course {
        Course::Life(_) => {
            measured?;
            alone(alloc, before.elapsed(&rt)?)
        }
        Course::Through(_) | Course::Start(_) | Course::Answer(..) => measured,
    }
}

// Starts all workers, and measures this course.
fn measure<G: PoolNaming + Send + Sync + 'static, K: Keeper + Send + 'static, R: Host>(
    rt: R,
    alloc: Global,
    pool: &Recorded<G, K, R>,
    first: Pass<G>,
    course: Course,
) -> Result<Vec<Duration>, Unmeasured> {
    let mut pass = first;
    pool.prestart_all(&rt, &mut pass)?;
    match course {
        Course::Through(crowd) => {
            fall_asleep(&rt);
            alone(alloc, through(rt, alloc, pool, pass, crowd)?)
        }
        Course::Life(crowd) => alone(alloc, through(rt, alloc, pool, pass, crowd)?),
        Course::Start(_) => start(rt, alloc, pool, pass),
        Course::Answer(_, tasks) => answers(rt, alloc, pool, pass, tasks),
    }
}

fn submits<G: PoolNaming + Send + Sync + 'static, K: Keeper + Send + 'static, R: Host>(
    rt: R,
    alloc: Global,
    pool: &Recorded<G, K, R>,
    pass: &mut Pass<G>,
    crowd: Crowd,
) -> Result<(), Unmeasured> {
    for _ in 0..crowd.tasks {
        let job = Parcel::new(alloc, crowd.turns)?;
        if let Err(refused) = pool.execute_as(&rt, Kind::Plain, job, pass) {
            return Err(Unmeasured::Refused(refused.error));
        }
    }
    Ok(())
}

fn submits_alone<G: PoolNaming + Send + Sync + 'static, K: Keeper + Send + 'static, R: Host>(
    rt: R,
    alloc: Global,
    pool: Handle<G, Parcel<R>, Defaults, K>,
    pass: Pass<G>,
    crowd: Crowd,
) -> Result<(), Unmeasured> {
    let mut pass = pass;
    submits(rt, alloc, &pool, &mut pass, crowd)
}

fn other<G: PoolNaming + Send + Sync + 'static, K: Keeper + Send + 'static, R: Host>(
    rt: R,
    alloc: Global,
    pool: &Recorded<G, K, R>,
    pass: Pass<G>,
    crowd: Crowd,
) -> Result<JoinHandle<Result<(), Unmeasured>>, Unmeasured> {
    let theirs = pool.handle()?;
    match thread::spawn(&rt, move || submits_alone(rt, alloc, theirs, pass, crowd)) {
        Ok(other) => Ok(other),
        Err(_) => Err(Unmeasured::NoThread),
    }
}

fn all_submit<G: PoolNaming + Send + Sync + 'static, K: Keeper + Send + 'static, R: Host>(
    rt: R,
    alloc: Global,
    pool: &Recorded<G, K, R>,
    pass: &mut Pass<G>,
    theirs: Vec<Pass<G>>,
    crowd: Crowd,
) -> Result<(), Unmeasured> {
    let mut others = Vec::new(alloc);
    for pass in theirs {
        others.push(other(rt, alloc, pool, pass, crowd)?)?;
    }
    submits(rt, alloc, pool, pass, crowd)?;
    for other in others {
        other.join(&rt)?;
    }
    Ok(())
}

// The passes of the other submitters, with room for their receipts.
fn passes_of<G: PoolNaming, K: Keeper + Send + 'static, R: Host>(
    rt: &R,
    alloc: Global,
    pool: &Recorded<G, K, R>,
    pass: &mut Pass<G>,
    crowd: Crowd,
) -> Result<Vec<Pass<G>>, Unmeasured> {
    let mut theirs = Vec::new(alloc);
    for _ in 1..crowd.submitters {
        let mut one = pool.split_pass(rt, pass)?;
        one.reserve(receipts(crowd.tasks))?;
        theirs.push(one)?;
    }
    Ok(theirs)
}

// Its own clock starts once receipts are reserved.
fn through<G: PoolNaming + Send + Sync + 'static, K: Keeper + Send + 'static, R: Host>(
    rt: R,
    alloc: Global,
    pool: &Recorded<G, K, R>,
    pass: Pass<G>,
    crowd: Crowd,
) -> Result<Duration, Unmeasured> {
    let mut pass = pass;
    let theirs = passes_of(&rt, alloc, pool, &mut pass, crowd)?;
    pass.reserve(receipts(crowd.tasks))?;
    let start = Instant::now(&rt)?;
    all_submit(rt, alloc, pool, &mut pass, theirs, crowd)?;
    end(&rt, pool, &mut pass)?;
    let time = start.elapsed(&rt)?;
    if pool.counts(&rt).run != crowd.all_tasks() {
        return Err(Unmeasured::Differs);
    }
    Ok(time)
}

// The receipts of so many submissions, and some more.
fn receipts(tasks: u32) -> usize {
    (tasks as usize).saturating_mul(3).saturating_add(4_096)
}

// Shuts the pool down, and waits for its end.
fn end<G: PoolNaming + Send + Sync + 'static, K: Keeper + Send + 'static, R: Host>(
    rt: &R,
    pool: &Recorded<G, K, R>,
    pass: &mut Pass<G>,
) -> Result<(), Unmeasured> {
    pool.shutdown(rt, pass)?;
    pool.await_termination(rt, u64::MAX, pass)?;
    Ok(())
}

fn start<G: PoolNaming + Send + Sync + 'static, K: Keeper + Send + 'static, R: Host>(
    rt: R,
    alloc: Global,
    pool: &Recorded<G, K, R>,
    pass: Pass<G>,
) -> Result<Vec<Duration>, Unmeasured> {
    let mut pass = pass;
    let mut times = Vec::new(alloc);
    pass.reserve(receipts(STARTS))?;
    for _ in 0..STARTS {
        fall_asleep(&rt);
        times.push(one_start(rt, alloc, pool, &mut pass)?)?;
    }
    end(&rt, pool, &mut pass)?;
    Ok(times)
}

// From a submission until its body begins.
fn one_start<G: PoolNaming + Send + Sync + 'static, K: Keeper + Send + 'static, R: Host>(
    rt: R,
    alloc: Global,
    pool: &Recorded<G, K, R>,
    pass: &mut Pass<G>,
) -> Result<Duration, Unmeasured> {
    let (job, watch) = Parcel::timed(rt, alloc)?;
    let submitted = watch.time()?;
    if let Err(refused) = pool.execute_as(&rt, Kind::Plain, job, pass) {
        return Err(Unmeasured::Refused(refused.error));
    }
    watch.begun_after(submitted)
}

fn answers<G: PoolNaming + Send + Sync + 'static, K: Keeper + Send + 'static, R: Host>(
    rt: R,
    alloc: Global,
    pool: &Recorded<G, K, R>,
    pass: Pass<G>,
    tasks: u32,
) -> Result<Vec<Duration>, Unmeasured> {
    let mut pass = pass;
    let mut times = Vec::new(alloc);
    pass.reserve(receipts(tasks))?;
    for _ in 0..tasks {
        times.push(one_answer(rt, alloc, pool, &mut pass)?)?;
    }
    end(&rt, pool, &mut pass)?;
    Ok(times)
}

// From a submission until its value is there.
fn one_answer<G: PoolNaming + Send + Sync + 'static, K: Keeper + Send + 'static, R: Host>(
    rt: R,
    alloc: Global,
    pool: &Recorded<G, K, R>,
    pass: &mut Pass<G>,
) -> Result<Duration, Unmeasured> {
    let job = Parcel::new(alloc, 0)?;
    let submitted = Instant::now(&rt)?;
    match pool.execute_as(&rt, Kind::Future, job, pass) {
        Ok(admitted) => {
            pool.await_result(&rt, task_of(admitted), None)?;
            Ok(submitted.elapsed(&rt)?)
        }
        Err(refused) => Err(Unmeasured::Refused(refused.error)),
    }
}
