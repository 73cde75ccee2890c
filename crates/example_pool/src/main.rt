//! `example_pool`: a first pool. Three jobs run on two workers; then what each answered is printed.
#![tactic(auto)]

use tp_pool::prelude::*;
use tp_pool_advice::reasons::Reason;

/// A job that answers twice its number.
#[derive(Drop)]
struct Double(u16);

impl Body for Double {
    fn run(&mut self, _cancel: &CancelFlag) -> Outcome {
        Ok(2 * i64::from(self.0))
    }
}

fn main(rt: HostRuntime) -> anyhow::Result<()> {
    let mut jobs = Vec::new(rt.alloc());
    for number in 7..10 {
        jobs.push(Any(Double(number)))?;
    }
    let (answers, report) = run_all(&rt, rt.alloc(), Config::fixed(2), Defaults, jobs)?;
    for (t, answer) in answers.iter().enumerate() {
        match answer {
            Ok(value) => println!(&rt; "t{t} run value {value}")?,
            Err(error) => println!(&rt; "t{t} {}", Reason(*error))?,
        }
    }
    let counts = report.counts;
    Ok(println!(&rt; "{} submitted, {} run", counts.submitted, counts.run)?)
}
