//! `example_words FILE..`: counts the words of these files on a pool, a job for each file, and prints the counts in the files' order. The
//! status is 1 where a file can't be read.
#![tactic(auto)]

use std::process::ExitCode;
use std::{env, fs};
use tp_life::prelude::*;

/// A task that answers how many words a file has, or the fault 1 where it can't be read as a text.
#[derive(Drop)]
struct Text(HostRuntime, String);

impl Task for Text {
    type Output = usize;

    fn run(&mut self, _cancel: &CancelFlag) -> Result<usize, u32> {
        let text = fs::read_to_string(&self.0, self.1.as_str()).or(Err(1u32))?;
        Ok(text.as_str().split_whitespace().count())
    }
}

fn main(rt: HostRuntime) -> anyhow::Result<ExitCode> {
    let paths = env::args(&rt)?.skip(1).collect::<Vec<String>>(rt.alloc())?;
    let mut tasks = Vec::new(rt.alloc());
    for path in &paths {
        tasks.push(Text(rt, path.clone()?))?;
    }
    // Two to four workers, and a short queue: where it is full, who submits a task runs it.
    let queue = QueueKind::Bounded(2);
    let settings = Config::fixed(2)
        .maximum(4)
        .queue(queue)
        .policy(Policy::CallerRuns);
    let (counts, _) = run_tasks(&rt, rt.alloc(), settings, Defaults, tasks)?;
    let mut words = 0usize;
    let mut status = 0;
    for (path, count) in paths.iter().zip(counts) {
        if let Ok(count) = count {
            words = words.saturating_add(count);
            println!(&rt; "{count:5} {path}")?;
        } else {
            status = 1;
            println!(&rt; "    ? {path}")?;
        }
    }
    println!(&rt; "{words:5} words")?;
    Ok(ExitCode::from(status))
}
