//! `example_urgent`: four letters at an office with one clerk, who takes the most urgent one first. They are handed in before its door
//! opens.
#![tactic(auto)]

use std::sync::Arc;
use std::sync::atomic::{AtomicBool, Ordering};
use tp_life::prelude::*;

/// A letter. It is printed once the door is open, for which it waits for ten seconds at most.
#[derive(Drop)]
struct Letter {
    host: HostRuntime,
    door: Arc<AtomicBool>,
    number: u32,
}

impl Task for Letter {
    type Output = ();

    ghost urgency = { λ l. l.number };

    fn priority(&self) -> u32 {
        self.number
    }

    fn run(&mut self, _cancel: &CancelFlag) -> Result<(), u32> {
        for _ in 0..10_000 {
            if self.door.load(Ordering::SeqCst) {
                break;
            }
            sleep(&self.host, Duration::from_millis(1));
        }
        println!(&self.host; "urgency {}", self.number).or(Err(1u32))
    }
}

/// Who hands in the letters, and opens the door.
#[derive(Drop)]
struct Post(HostRuntime, Arc<AtomicBool>);

impl Post {
    fn hand_in<P: Calls<Task = Letter>>(&self, office: &mut P) -> Result<(), PoolError> {
        for number in [7, 9, 1, 4] {
            office.execute(Letter {
                host: self.0,
                door: Arc::try_clone(&self.1)?,
                number,
            })?;
        }
        Ok(())
    }
}

impl Life for Post {
    type Out = Result<(), PoolError>;

    type Task = Letter;

    fn live<P: Calls<Task = Letter>>(&self, office: &mut P, _who: u32) -> Self::Out {
        let handed = self.hand_in(office);
        self.1.store(true, Ordering::SeqCst);
        handed
    }
}

fn main(rt: HostRuntime) -> anyhow::Result<()> {
    let post = Post(rt, Arc::new(rt.alloc(), AtomicBool::new(false))?);
    let settings = Config::fixed(1).queue(QueueKind::Priority);
    let (outs, report) = with_tally(&rt, rt.alloc(), settings, Defaults, 1, &post)?;
    for out in outs {
        out?;
    }
    Ok(println!(&rt; "{} run", report.counts.run)?)
}
