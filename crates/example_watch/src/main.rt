//! `example_watch`: one caller hands in four guests, who wait at a door; another caller looks at the pool meanwhile. With a path, the
//! pool's journal is written there while it runs.
#![tactic(auto)]

use std::env;
use std::sync::Arc;
use std::sync::atomic::{AtomicBool, Ordering};
use tp_life::prelude::*;
use tp_life_journal::prelude::*;

// Waits until this is so, for ten seconds at most.
fn wait_for(host: &HostRuntime, sign: &AtomicBool) {
    for _ in 0..10_000 {
        if sign.load(Ordering::SeqCst) {
            break;
        }
        sleep(host, Duration::from_millis(1));
    }
}

/// A guest, who goes through the door once it is open.
#[derive(Drop)]
struct Guest(HostRuntime, Arc<AtomicBool>);

impl Task for Guest {
    type Output = ();

    fn run(&mut self, _cancel: &CancelFlag) -> Result<(), u32> {
        wait_for(&self.0, &self.1);
        Ok(())
    }
}

/// What both callers share: the door, and whether the pool was looked at.
#[derive(Drop)]
struct House {
    host: HostRuntime,
    door: Arc<AtomicBool>,
    seen: AtomicBool,
}

impl House {
    // Hands in the guests, and opens the door once the other caller has looked.
    fn receive<P: Calls<Task = Guest>>(&self, pool: &mut P) -> Result<(), PoolError> {
        let handed = self.hand_in(pool);
        wait_for(&self.host, &self.seen);
        self.door.store(true, Ordering::SeqCst);
        handed
    }

    fn hand_in<P: Calls<Task = Guest>>(&self, pool: &mut P) -> Result<(), PoolError> {
        for _ in 0..4 {
            pool.execute(Guest(self.host, Arc::try_clone(&self.door)?))?;
        }
        Ok(())
    }

    // Looks until two guests are at the door and two in the queue, for ten seconds at most.
    fn watch<P: Calls<Task = Guest>>(&self, pool: &mut P) -> Result<(), PoolError> {
        for _ in 0..10_000 {
            let counts = pool.look().counts;
            if counts.live == 2 && counts.queued == 2 {
                let state = pool.state().name();
                let (submitted, queued) = (counts.submitted, counts.queued);
                return println!(&self.host; "{state}: {submitted} submitted, {queued} queued").or(
                    Err(PoolError::WriteFailed),
                );
            }
            sleep(&self.host, Duration::from_millis(1));
        }
        Ok(())
    }
}

impl Life for House {
    type Out = Result<(), PoolError>;

    type Task = Guest;

    fn live<P: Calls<Task = Guest>>(&self, pool: &mut P, who: u32) -> Self::Out {
        if who == 0 {
            return self.receive(pool);
        }
        let watched = self.watch(pool);
        self.seen.store(true, Ordering::SeqCst);
        watched
    }
}

fn main(rt: HostRuntime) -> anyhow::Result<()> {
    let path = env::args(&rt)?.nth(1);
    let wish = wish_at(&rt, path.as_ref())?;
    let house = House {
        host: rt,
        door: Arc::new(rt.alloc(), AtomicBool::new(false))?,
        seen: AtomicBool::new(false),
    };
    let settings = Config::fixed(2);
    let (outs, report, end) = with_journal(&rt, rt.alloc(), settings, Defaults, 2, &house, wish)?;
    for out in outs {
        out?;
    }
    if let Some(JournalEnd::Cut(_) | JournalEnd::Left) = end {
        println!(&rt; "the journal is cut off")?;
    }
    Ok(println!(&rt; "{} run", report.counts.run)?)
}
