//! `lab_waits`: programs whose calls once waited for ever, each with what comes of it now. A factory refuses workers for a while, or all of
//! them, while a caller waits for its task's value; and a batch is larger than its pool's queue.
#![tactic(auto)]

use std::alloc::Global;
use std::sync::Wait;
use std::sync::atomic::{AtomicU64, Ordering};
use std::time::Clock;
use tp_life::prelude::*;
use tp_pool::Runtime;

// The factory refuses so many workers, and consents to all others.
#[derive(Drop)]
struct Refuses {
    count: u64,
    asked: AtomicU64,
}

impl Edge for Refuses {
    fn allow<R: Wait>(&self, _rt: &R, _w: SlotId) -> bool {
        self.asked.fetch_add(1, Ordering::SeqCst) >= self.count
    }
}

// A task that answers 1.
#[derive(Drop)]
struct One;

impl Task for One {
    type Output = u32;

    fn run(&mut self, _cancel: &CancelFlag) -> Result<u32, u32> {
        Ok(1)
    }
}

// A caller that submits one task and waits for its value.
#[derive(Drop)]
struct Asks;

impl Life for Asks {
    type Out = Told<u32>;

    type Task = One;

    fn live<P: Calls<Task = One>>(&self, pool: &mut P, _who: u32) -> Told<u32> {
        pool.run(One)
    }
}

// What a caller is told whose pool has this core size, and whose factory refuses so many workers.
fn told<R: Runtime + Clock>(
    rt: &R,
    alloc: Global,
    core: u32,
    count: u64,
) -> anyhow::Result<Vec<Told<u32>>> {
    let settings = Config { core, ..single() };
    let edge = Refuses {
        count,
        asked: AtomicU64::new(0),
    };
    let (told, _) = with_pool(rt, alloc, settings, edge, 1, &Asks)?;
    Ok(told)
}

// How many of so many tasks are told a value, in a pool with two workers and this queue.
fn answered<R: Runtime>(
    rt: &R,
    alloc: Global,
    queue: QueueKind,
    tasks: u32,
) -> anyhow::Result<u32> {
    let settings = Config::fixed(2).queue(queue);
    let mut batch = Vec::new(alloc);
    for _ in 0..tasks {
        batch.push(One)?;
    }
    let (told, _) = run_tasks_with_tally(rt, alloc, settings, Defaults, batch)?;
    let mut answered = 0u32;
    for one in &told {
        if one.is_ok() {
            answered = answered.saturating_add(1);
        }
    }
    Ok(answered)
}

fn main(rt: HostRuntime) -> anyhow::Result<()> {
    for core in [1, 0] {
        println!(&rt;
            "core {core}, five workers refused: {:?}",
            told(&rt, rt.alloc(), core, 5)?
        )?;
    }
    println!(&rt;
        "core 1, all workers refused: {:?}",
        told(&rt, rt.alloc(), 1, u64::MAX)?
    )?;
    for queue in [QueueKind::Bounded(1), QueueKind::Bounded(64)] {
        println!(&rt;
            "{queue:?}: {} of 10000 answered",
            answered(&rt, rt.alloc(), queue, 10_000)?
        )?;
    }
    Ok(())
}
