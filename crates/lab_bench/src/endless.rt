//! A pool that keeps no record and serves on and on, for whoever watches its memory from outside.
ghost use Rattle.std.specs.Prelude.{◌≡◌};

use crate::hosts::Host;
use crate::unmeasured::Unmeasured;
use std::alloc::Global;
use std::collections::VecDeque;
use std::marker::Brand;
use std::sync::Wait;
use std::time::Instant;
use std::{io, thread};
use tp_book::opening::Unopened;
use tp_book::passes::Pass;
use tp_pool::closing::TallyReport;
use tp_pool::defaults::Defaults;
use tp_pool::names::PoolNaming;
use tp_pool::pool::PoolOf;
use tp_pool::task_of;
use tp_protocols::flags::CancelFlag;
use tp_protocols::jobs::Job;
use tp_record::recorders::Tally;
use tp_service::invoking::invoke_any;
use tp_types::configs::{Config, Policy, QueueKind};
use tp_types::ids::TaskId;
use tp_types::limits::MIN_RECORD_LIMIT;
use tp_types::refusals::PoolError;
use tp_types::tasks::{Kind, Outcome, Promise, WIDEST, as_widest};

/// What a pool that serves on and on is given.
#[derive(Clone, Copy)]
pub enum Fare {
    /// Plain tasks.
    Plain,
    /// Futures, each released once it is gone.
    Futures,
    /// Futures of which each third is cancelled at once, and all are released once they are gone.
    Cancels,
    /// Plain tasks of which each hundredth faults, so that workers come and go.
    Faults,
    /// Tasks of a group, each taken and released.
    Groups,
    /// Futures in fours, of which one value is asked. The pool forgets them by itself.
    Any,
}

// More tasks wait for their submitter, or for a worker, than these at no time.
const MOST: u32 = 2_048;

// After so many tasks it is told how far the pool has come, and then each time after ten times as many.
const FIRST: u32 = 100_000;

// One that faults, or answers 0.
#[derive(Drop)]
struct Crumb {
    faults: bool,
}

impl Job for Crumb {
    ghost use Rattle.tp_types.specs.declared.tasks.TheConstants.{WIDEST};

    ghost promised = { λ _. WIDEST };

    fn promise(&self) -> Promise {
        WIDEST
    }

    fn call(&mut self, _cancel: &CancelFlag) -> Outcome {
        as_widest(if self.faults { Err(1) } else { Ok(0) })
    }
}

type Endless<G> = PoolOf<G, Crumb, Defaults, Tally>;

// Four workers, a queue without end, and the least record limit that there is.
const SETTINGS: Config = Config {
    core: 4,
    maximum: 4,
    queue: QueueKind::Unbounded,
    keep: 1,
    core_timeout: false,
    policy: Policy::Abort,
    record_limit: MIN_RECORD_LIMIT,
};

/// Has a pool run so many tasks, and tells how far it has come.
pub fn serves<R: Host + Print>(rt: R, alloc: Global, fare: Fare, tasks: u32) -> io::Result<bool> {
    let served = match Unopened::new(alloc) {
        Ok(unopened) => open::<Brand, R>(rt, alloc, unopened, SETTINGS, fare, tasks),
        Err(error) => Err(Unmeasured::Refused(error)),
    };
    match served {
        Ok(report) => {
            println!(&rt;
                "{} submitted, {} run, {} cancelled, {} steps, {} unended",
                report.counts.submitted,
                report.counts.run,
                report.counts.cancelled,
                report.steps,
                report.unended
            )?;
            Ok(report.counts.submitted == tasks && report.unended == 0)
        }
        Err(unmeasured) => {
            println!(&rt; "{unmeasured}")?;
            Ok(false)
        }
    }
}

// The same under a name of the pool's own.
fn open<G: PoolNaming + Send + Sync + 'static, R: Host + Print>(
    rt: R,
    alloc: Global,
    unopened: Unopened,
    settings: Config,
    fare: Fare,
    tasks: u32,
) -> Result<TallyReport, Unmeasured>
    requires named { unopened ≡ record { ledger = G.name; parts = G.parts; table = G.table } }
    requires settings { settings ≡ G.config }
{
    let (pool, first) = Endless::<G>::over(alloc, unopened, settings, Defaults)?;
    let mut pass = first;
    match serve_and_end(rt, alloc, &pool, &mut pass, fare, tasks) {
        Ok(()) => pool
            .close_one(&rt, pass)
            .map_err(|fault| Unmeasured::Refused(fault.let_go())),
        Err(unmeasured) => {
            pool.let_go();
            Err(unmeasured)
        }
    }
}

// Starts all workers, submits so many tasks, and waits for the pool's end.
fn serve_and_end<G: PoolNaming + Send + Sync + 'static, R: Host + Print>(
    rt: R,
    alloc: Global,
    pool: &Endless<G>,
    pass: &mut Pass<G>,
    fare: Fare,
    tasks: u32,
) -> Result<(), Unmeasured> {
    pool.prestart_all(&rt, pass)?;
    serve(rt, alloc, pool, pass, fare, tasks)?;
    pool.shutdown(&rt, pass)?;
    pool.await_termination(&rt, u64::MAX, pass)?;
    Ok(())
}

// Submits so many tasks.
fn serve<G: PoolNaming + Send + Sync + 'static, R: Host + Print>(
    rt: R,
    alloc: Global,
    pool: &Endless<G>,
    pass: &mut Pass<G>,
    fare: Fare,
    tasks: u32,
) -> Result<(), Unmeasured> {
    let start = Instant::now(&rt)?;
    let mut held = VecDeque::new(alloc);
    held.reserve(MOST as usize)?;
    let mut next = FIRST;
    for number in 0..tasks {
        if matches!(fare, Fare::Any) {
            ask_any(rt, alloc, pool, pass, number)?;
        } else {
            let t = submit(rt, pool, pass, fare, number)?;
            keep(&rt, pool, pass, fare, &mut held, t)?;
        }
        if number % 64 == 0 {
            await_workers(&rt, pool);
        }
        if number == next {
            let kept = pool.kept(&rt);
            let time = start.elapsed(&rt)?.as_millis();
            println!(&rt; "at {number} tasks, {kept} kept, after {time} ms")?;
            next = next.saturating_add(if next < 1_000_000 { 900_000 } else { 1_000_000 });
        }
    }
    for t in held {
        release(&rt, pool, pass, fare, t)?;
    }
    Ok(())
}

// What the task of this number is, and its job.
fn fared(fare: Fare, number: u32) -> (Kind, Crumb) {
    let faults = matches!(fare, Fare::Faults) && number % 100 == 0;
    let kind = match fare {
        Fare::Plain | Fare::Faults => Kind::Plain,
        Fare::Futures | Fare::Cancels | Fare::Any => Kind::Future,
        Fare::Groups => Kind::Group(number / 1_000),
    };
    (kind, Crumb { faults })
}

// Asks one value of four tasks, where the last of them is reached.
fn ask_any<G: PoolNaming + Send + Sync + 'static, R: Host>(
    rt: R,
    alloc: Global,
    pool: &Endless<G>,
    pass: &mut Pass<G>,
    number: u32,
) -> Result<(), Unmeasured> {
    if number % 4 < 3 {
        return Ok(());
    }
    let mut jobs = Vec::new(alloc);
    for _ in 0..4 {
        jobs.push(Crumb { faults: false })?;
    }
    invoke_any(pool, &rt, alloc, jobs, pass)?;
    Ok(())
}

// Submits one task, and cancels it where that is its turn.
fn submit<G: PoolNaming + Send + Sync + 'static, R: Host>(
    rt: R,
    pool: &Endless<G>,
    pass: &mut Pass<G>,
    fare: Fare,
    number: u32,
) -> Result<TaskId, Unmeasured> {
    let (kind, job) = fared(fare, number);
    let t = match pool.execute_as(&rt, kind, job, pass) {
        Ok(admitted) => task_of(admitted),
        Err(refused) => return Err(Unmeasured::Refused(refused.error)),
    };
    if matches!(fare, Fare::Cancels) && number % 3 == 0 {
        pool.cancel(&rt, t, true, pass)?;
    }
    Ok(t)
}

// Keeps a future, and releases the one that was kept longest, where there are many.
fn keep<G: PoolNaming + Send + Sync + 'static, R: Wait>(
    rt: &R,
    pool: &Endless<G>,
    pass: &mut Pass<G>,
    fare: Fare,
    held: &mut VecDeque<TaskId>,
    t: TaskId,
) -> Result<(), Unmeasured> {
    if matches!(fare, Fare::Plain | Fare::Faults) {
        return Ok(());
    }
    held.push_back(t)?;
    if held.len() >= MOST as usize {
        if let Some(first) = held.pop_front() {
            release(rt, pool, pass, fare, first)?;
        }
    }
    Ok(())
}

// Releases a future, once it is gone; one of a group is taken first.
fn release<G: PoolNaming + Send + Sync + 'static, R: Wait>(
    rt: &R,
    pool: &Endless<G>,
    pass: &mut Pass<G>,
    fare: Fare,
    t: TaskId,
) -> Result<(), Unmeasured> {
    let _ = pool.await_result(rt, t, None);
    if matches!(fare, Fare::Groups) {
        let taken = pool.await_done(rt, t.0 / 1_000, pass)?;
        return released(rt, pool, pass, taken);
    }
    released(rt, pool, pass, t)
}

// A task that was cancelled is gone only once a worker has skipped it.
fn released<G: PoolNaming + Send + Sync + 'static, R: Wait>(
    rt: &R,
    pool: &Endless<G>,
    pass: &mut Pass<G>,
    t: TaskId,
) -> Result<(), Unmeasured> {
    for _ in rt.forever() {
        match pool.release(rt, t, pass) {
            Ok(()) => return Ok(()),
            Err(PoolError::NotThere) => thread::yield_now(),
            Err(error) => return Err(Unmeasured::Refused(error)),
        }
    }
    unreachable!()
}

// Waits while many tasks wait.
fn await_workers<G: PoolNaming + Send + Sync + 'static, R: Wait>(rt: &R, pool: &Endless<G>) {
    for _ in rt.forever() {
        if pool.counts(rt).queued < MOST {
            return;
        }
        thread::yield_now();
    }
}
