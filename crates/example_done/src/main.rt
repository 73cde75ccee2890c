//! `example_done`: a caller takes its tasks' values as they are done. With one worker that is the order of their submission.
#![tactic(auto)]

use std::alloc::Global;
use tp_life::prelude::*;

/// A task that answers the root of a square number below 100, and else the fault 1.
#[derive(Drop)]
struct Root(u32);

impl Task for Root {
    type Output = u32;

    fn run(&mut self, _cancel: &CancelFlag) -> Result<u32, u32> {
        (0..10u32).find(|root| root * root == self.0).ok_or(1)
    }
}

#[derive(Drop)]
struct Client(Global);

impl Life for Client {
    type Out = Result<Vec<Told<u32>>, PoolError>;

    type Task = Root;

    fn live<P: Calls<Task = Root>>(&self, pool: &mut P, _who: u32) -> Self::Out {
        let mut group = Group::new(self.0, 1);
        for number in [81, 50, 49] {
            group.submit(pool, Root(number))?;
        }
        Ok(group.results(pool).collect(self.0)?)
    }
}

fn main(rt: HostRuntime) -> anyhow::Result<()> {
    let (outs, _) = with_pool(&rt, rt.alloc(), single(), Defaults, 1, &Client(rt.alloc()))?;
    for out in outs {
        for told in &out? {
            println!(&rt; "{}", InWords(told))?;
        }
    }
    Ok(())
}
