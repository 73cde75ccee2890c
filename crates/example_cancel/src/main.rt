//! `example_cancel`: a download that runs hears of its cancel, and cleans up. One that waits is never begun.
#![tactic(auto)]

use std::sync::Arc;
use std::sync::atomic::{AtomicBool, Ordering};
use tp_life::prelude::*;

/// A download with a number, which tells that it has begun. It goes on for a minute at most.
#[derive(Drop)]
struct Download(HostRuntime, u32, Arc<AtomicBool>);

impl Task for Download {
    type Output = ();

    fn run(&mut self, cancel: &CancelFlag) -> Result<(), u32> {
        self.2.store(true, Ordering::SeqCst);
        for _ in 0..60_000 {
            if cancel.is_set() {
                return println!(&self.0; "download {}: its file is taken away", self.1).or(Err(
                    1u32,
                ));
            }
            sleep(&self.0, Duration::from_millis(1));
        }
        Ok(())
    }
}

/// Who asks for two downloads, and thinks better of it.
#[derive(Drop)]
struct Client(HostRuntime, Arc<AtomicBool>);

impl Client {
    // Waits until a download has begun, for ten seconds at most.
    fn watch(&self) {
        for _ in 0..10_000 {
            if self.1.load(Ordering::SeqCst) {
                break;
            }
            sleep(&self.0, Duration::from_millis(1));
        }
    }
}

impl Life for Client {
    type Out = Result<(Told<()>, Told<()>), PoolError>;

    type Task = Download;

    fn live<P: Calls<Task = Download>>(&self, pool: &mut P, _who: u32) -> Self::Out {
        let one = pool.submit(Download(self.0, 1, Arc::try_clone(&self.1)?))?;
        let two = pool.submit(Download(self.0, 2, Arc::try_clone(&self.1)?))?;
        self.watch();
        pool.cancel(one.task, true)?;
        pool.cancel(two.task, true)?;
        Ok((pool.get(&one), pool.get(&two)))
    }
}

fn main(rt: HostRuntime) -> anyhow::Result<()> {
    let client = Client(rt, Arc::new(rt.alloc(), AtomicBool::new(false))?);
    let (outs, report) = with_pool(&rt, rt.alloc(), Config::fixed(1), Defaults, 1, &client)?;
    for out in outs {
        let (one, two) = out?;
        for told in [one, two] {
            if let Err(error) = told {
                println!(&rt; "{}", Reason(error))?;
            }
        }
    }
    Ok(println!(&rt; "{} cancelled", report.counts.cancelled)?)
}
