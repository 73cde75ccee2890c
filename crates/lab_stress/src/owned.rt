//! A pool that is opened under a name of its own, whose callers make its own calls: so they can start workers, too.
ghost use Rattle.std.specs.Prelude.{◌≡◌};

use crate::calls::{Call, Event, Line, Seen, back, bears, stopped};
use crate::chores::Chore;
use crate::lives::{Out, Shift};
use crate::mishaps::{Mishap, ensure};
use crate::users::Users;
use std::alloc::Global;
use std::marker::Brand;
use std::thread::{self, Threads};
use std::time::Clock;
use tp_life::prelude::*;
use tp_life::tasks::Held;
use tp_machine::machine::releases::Keeper;
use tp_pool::names::PoolNaming;
use tp_pool::prelude::{Handle, Kind, Pass, PoolName, PoolOf, Reporter, Runtime, Unopened};

type Pool<G, K> = PoolOf<G, Held<Chore>, Users, K>;

// A caller of this number, and what it saw.
#[derive(Drop)]
struct Owned<G: PoolNaming, K: Keeper, R> {
    who: u32,
    pool: Handle<G, Held<Chore>, Users, K>,
    pass: Pass<G>,
    rt: R,
    out: Option<Out>,
}

fn submit<G: PoolName, K: Keeper + Send + 'static, R: Runtime>(
    rt: &R,
    alloc: Global,
    pool: &Pool<G, K>,
    (kind, job): (Kind, Chore),
    pass: &mut Pass<G>,
) -> Seen {
    let Ok((held, value)) = Held::placed(alloc, job) else {
        return Seen::Refused(PoolError::NoMemory, true);
    };
    match pool.execute_as(rt, kind, held, pass) {
        Ok(admitted) => Seen::Entered(admitted, value),
        Err(refused) => Seen::Refused(refused.error, refused.job.is_some()),
    }
}

fn make<G: PoolName, K: Keeper + Send + 'static, R: Runtime + Clock>(
    rt: &R,
    pool: &Pool<G, K>,
    call: Call,
    pass: &mut Pass<G>,
    seen: &mut Vec<Event>,
) -> Result<(), Mishap> {
    match call {
        Call::Remove(t) => if let Removal::Yes(job) = pool.remove(rt, TaskId(t), pass)? {
            back(seen, job, Fate::Removed)?;
        },
        Call::Cancel(t, flag) => if pool.cancel(rt, TaskId(t), flag, pass)? {
            seen.push(Event::Cancelled)?;
        },
        Call::Purge => drop(pool.purge(rt, pass)?),
        Call::Take(group) => drop(pool.await_done_for(rt, group, Duration::from_millis(1), pass)?),
        Call::Set(Setting::Maximum(most)) => pool.set_maximum(rt, most, pass)?,
        Call::Set(Setting::Keep(keep)) => pool.set_keep(rt, keep, pass)?,
        Call::Set(Setting::CoreTimeout(on)) => pool.allow_core_timeout(rt, on, pass)?,
        Call::Set(Setting::Tick(now)) => pool.tick(rt, now, pass)?,
        Call::Core(core) => pool.set_core(rt, core, pass)?,
        Call::StartOne(must) => ensure(pool.prestart_core(rt, pass)? || !must, "no worker came")?,
        Call::StartAll => drop(pool.prestart_all(rt, pass)?),
        Call::Look => drop(pool.look(rt, pass)),
        Call::ShutDown => pool.shutdown(rt, pass)?,
        Call::Stop => {
            let handed = pool.shutdown_now(rt, pass);
            stopped(seen, handed, pool.glance(pass))?;
        }
        Call::Await(most) => pool.await_end_for(rt, Duration::from_millis(most), pass)?,
    }
    Ok(())
}

fn polls<G: PoolName, K: Keeper>(pool: &Pool<G, K>, pass: &mut Pass<G>) -> Result<(), Mishap> {
    for _ in 0..10_000_000 {
        if pool.glance(pass) == RunState::Terminated {
            return Ok(());
        }
        thread::yield_now();
    }
    Err(Mishap::Differs("a pool did not end"))
}

// What the caller of this number saw.
fn plays<G: PoolName, K: Keeper + Send + 'static, R: Runtime + Clock>(
    rt: &R,
    shift: &Shift,
    pool: &Pool<G, K>,
    who: u32,
    pass: &mut Pass<G>,
) -> Out {
    let mut seen = Vec::new(shift.alloc);
    for line in shift.plan.does(shift.alloc, who)? {
        match line {
            Line::Submits(kind, number, work) => {
                let job = shift.job(number, work)?;
                let entered = submit(rt, shift.alloc, pool, (kind, job), pass);
                seen.push(Event::Job(number, entered))?;
            }
            Line::Makes(call) => make(rt, pool, call, pass, &mut seen)?,
            Line::Tries(call) => bears(make(rt, pool, call, pass, &mut seen))?,
            Line::Polls => polls(pool, pass)?,
            line => shift.does(line)?,
        }
    }
    Ok(seen)
}

/// As `with_pool` and `with_tally`, with callers that make the pool's own calls.
pub fn with_owned<K: Reporter + Send + 'static, R: Runtime + Clock>(
    rt: &R,
    shift: &Shift,
    users: Users,
) -> Result<(Vec<Out>, K::Report), Mishap> {
    let unopened = Unopened::new(shift.alloc)?;
    open::<Brand, K, R>(rt, shift, unopened, shift.plan.settings, users)
}

// Opens a pool under its name, and closes it after its life.
fn open<G: PoolNaming + Send + Sync + 'static, K: Reporter + Send + 'static, R: Runtime + Clock>(
    rt: &R,
    shift: &Shift,
    unopened: Unopened,
    settings: Config,
    users: Users,
) -> Result<(Vec<Out>, K::Report), Mishap>
    requires named { unopened ≡ record { ledger = G.name; parts = G.parts; table = G.table } }
    requires settings { settings ≡ G.config }
{
    let (pool, first) = Pool::<G, K>::over(shift.alloc, unopened, settings, users)?;
    match live(rt, shift, &pool, first) {
        Ok((outs, passes)) => match pool.close(rt, passes) {
            Ok(report) => Ok((outs, report)),
            Err(fault) => Err(Mishap::Refused(fault.let_go())),
        },
        Err(mishap) => {
            pool.let_go();
            Err(mishap)
        }
    }
}

// Calls this at each, in a thread of its own where one can be made.
fn in_threads<T: Send, F: Fn(&mut T) + Sync, R: Threads + Sync>(rt: &R, all: &mut [T], f: &F)
    requires { F.IsAlwaysCallable f.now }
{
    let threads = all.len().max(1);
    thread::for_each_mut(rt, all, threads, &|_, one| f(one));
}

// What came of all callers, each in a thread of its own, and all passes, once the pool has ended.
fn live<G: PoolNaming + Send + Sync + 'static, K: Keeper + Send + 'static, R: Runtime + Clock>(
    rt: &R,
    shift: &Shift,
    pool: &Pool<G, K>,
    first: Pass<G>,
) -> Result<(Vec<Out>, Vec<Pass<G>>), Mishap> {
    let mut first = first;
    let mut callers = Vec::new(shift.alloc);
    for who in 0..shift.plan.callers {
        callers.push(Owned {
            who,
            pool: pool.handle()?,
            pass: pool.split_pass(rt, &mut first)?,
            rt: *rt,
            out: None,
        })?;
    }
    in_threads(
        rt,
        callers.as_mut_slice(),
        &|caller: &mut Owned<G, K, R>| lived(shift, caller),
    );
    first.reserve(4)?;
    pool.shut(rt, &mut first);
    pool.await_shut(rt, &mut first)?;
    let (mut outs, mut passes) = (Vec::new(shift.alloc), Vec::new(shift.alloc));
    passes.push(first)?;
    for caller in callers {
        let Owned { pass, out, .. } = caller;
        passes.push(pass)?;
        if let Some(out) = out {
            outs.push(out)?;
        }
    }
    Ok((outs, passes))
}

// The life of this caller.
fn lived<G: PoolNaming + Send + Sync + 'static, K: Keeper + Send + 'static, R: Runtime + Clock>(
    shift: &Shift,
    caller: &mut Owned<G, K, R>,
) {
    let rt = caller.rt;
    let out = plays(&rt, shift, &*caller.pool, caller.who, &mut caller.pass);
    caller.out = Some(out);
}
