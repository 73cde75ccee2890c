//! `example_wait`: a wait of at most 200 ms for a nap of three seconds, while the record is full. It prints what became of the caller.
#![tactic(auto)]

use tp_life::prelude::*;

#[derive(Drop)]
struct Nap(HostRuntime, u64);

impl Task for Nap {
    type Output = ();

    fn run(&mut self, _cancel: &CancelFlag) -> Result<(), u32> {
        Ok(sleep(&self.0, Duration::from_millis(self.1)))
    }
}

impl Life for Nap {
    type Out = Told<()>;

    type Task = Nap;

    fn live<P: Calls<Task = Nap>>(&self, pool: &mut P, _who: u32) -> Told<()> {
        let slow = pool.submit(Nap(self.0, 3_000))?;
        for _ in 0..4_096 {
            let _ = pool.execute(Nap(self.0, 0));
        }
        pool.get_for(&slow, Duration::from_millis(200))
    }
}

fn main(rt: HostRuntime) -> anyhow::Result<()> {
    let (out, _) = with_pool(&rt, rt.alloc(), single(), Defaults, 1, &Nap(rt, 0))?;
    Ok(println!(&rt; "{out:?}")?)
}
