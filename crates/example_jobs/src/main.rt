//! `example_jobs`: runs 2,000 jobs on two workers, and prints how many of them answered.
#![tactic(auto)]

use tp_life::prelude::*;

/// A job that answers twice its number.
#[derive(Drop)]
struct Double(u16);

impl Task for Double {
    type Output = u32;

    fn run(&mut self, _cancel: &CancelFlag) -> Result<u32, u32> {
        Ok(2 * u32::from(self.0))
    }
}

fn main(rt: HostRuntime) -> anyhow::Result<()> {
    let mut jobs = Vec::new(rt.alloc());
    for number in 0..2_000 {
        jobs.push(Double(number))?;
    }
    let (answers, _) = run_tasks(&rt, rt.alloc(), Config::fixed(2), Defaults, jobs)?;
    let answered = answers.iter().filter(|answer| answer.is_ok()).count();
    Ok(println!(&rt; "{answered} of {} answered", answers.len())?)
}
