//! `example_early`: a caller gives up after four accepted jobs of 200 ms each. All four run.
#![tactic(auto)]

use tp_life::prelude::*;

#[derive(Drop)]
struct Nap(HostRuntime);

impl Task for Nap {
    type Output = ();

    fn run(&mut self, _cancel: &CancelFlag) -> Result<(), u32> {
        Ok(sleep(&self.0, Duration::from_millis(200)))
    }
}

impl Life for Nap {
    ghost use Rattle.std.specs.Prelude.{◌≤◌, OnOk};
    ghost use Rattle.tp_record.specs.Fields.{rank};

    type Out = Result<(), PoolError>;

    type Task = Nap;

    // A caller that does not give up has seen its pool shut down.
    ghost leaves = { λ _ _ _ _ new out. OnOk out (1 ≤ rank new.front) };

    fn live<P: Calls<Task = Nap>>(&self, pool: &mut P, _who: u32) -> Self::Out {
        for _ in 0..4 {
            pool.execute(Nap(self.0))?;
        }
        pool.cancel(TaskId(9), true)?;
        pool.shutdown()
    }
}

fn main(rt: HostRuntime) -> anyhow::Result<()> {
    let (outs, report) = with_pool(&rt, rt.alloc(), Config::fixed(2), Defaults, 1, &Nap(rt))?;
    for error in outs.into_iter().filter_map(Result::err) {
        println!(&rt; "the caller gave up: {}", Reason(error))?;
    }
    Ok(println!(&rt; "{} ran", report.counts.run)?)
}
