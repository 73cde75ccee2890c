//! `example_hello`: three closures run on two workers, and what each answered is printed.
#![tactic(auto)]

use tp_life::prelude::*;

fn main(rt: HostRuntime) -> anyhow::Result<()> {
    let mut jobs = Vec::new(rt.alloc());
    for number in 7u16..10 {
        let double = Box::new(rt.alloc(), move |_: &CancelFlag| Ok(2 * i64::from(number)))?;
        jobs.push(job(double))?;
    }
    let (answers, report) = run_tasks(&rt, rt.alloc(), Config::fixed(2), Defaults, jobs)?;
    println!(&rt; "{answers:?}")?;
    Ok(println!(&rt; "{} run", report.counts.run)?)
}
