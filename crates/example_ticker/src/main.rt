//! `example_ticker`: workers end that were idle for 80 milliseconds. Two jobs run, each on a worker of its own, and then their caller
//! waits until both workers are gone, for ten seconds at most.
#![tactic(auto)]

use tp_life::prelude::*;

#[derive(Drop)]
struct Nap(HostRuntime);

impl Task for Nap {
    type Output = ();

    fn run(&mut self, _cancel: &CancelFlag) -> Result<(), u32> {
        Ok(sleep(&self.0, Duration::from_millis(20)))
    }
}

impl Life for Nap {
    type Out = Result<Counts, PoolError>;

    type Task = Nap;

    fn live<P: Calls<Task = Nap>>(&self, pool: &mut P, _who: u32) -> Self::Out {
        for _ in 0..2 {
            pool.execute(Nap(self.0))?;
        }
        for _ in 0..10_000 {
            let counts = pool.look().counts;
            if counts.run == 2 && counts.live == 0 {
                break;
            }
            sleep(&self.0, Duration::from_millis(1));
        }
        Ok(pool.look().counts)
    }
}

fn main(rt: HostRuntime) -> anyhow::Result<()> {
    let (ends, _) = with_ticker(&rt, rt.alloc(), cached(80), Defaults, 1, &Nap(rt))?;
    for end in ends {
        match end {
            End::Lived(counts) => {
                let Counts { largest, live, .. } = counts?;
                println!(&rt; "{largest} workers at most, {live} at last")?;
            }
            End::Ticker(Some(error)) => println!(&rt; "the clock stopped: {}", Reason(error))?,
            End::Ticker(None) => println!(&rt; "no tick was refused")?,
        }
    }
    Ok(())
}
