//! `example_texts`: a hundred jobs answer texts.
#![tactic(auto)]

use tp_life::prelude::*;

/// A job that answers a text with its number.
#[derive(Drop)]
struct Text(HostRuntime, u32);

impl Task for Text {
    type Output = String;

    fn run(&mut self, _cancel: &CancelFlag) -> Result<String, u32> {
        format!(in self.0.alloc(); "text {}", self.1).or(Err(1u32))
    }
}

fn main(rt: HostRuntime) -> anyhow::Result<()> {
    let jobs = Vec::from_iter(rt.alloc(), (0..100).map(|number| Text(rt, number)))?;
    let (answers, _) = run_tasks(&rt, rt.alloc(), Config::fixed(4), Defaults, jobs)?;
    for answer in answers {
        println!(&rt; "{}", answer?)?;
    }
    Ok(())
}
