//! Long runs, which end well where nothing fails.

use crate::compare::same;
use crate::scenarios::outcome_from;
use std::alloc::{AllocError, Global};
use tp_types::refusals::PoolError;

/// Whether this is written of a text, where its run goes to its end.
fn is_played(alloc: Global, text: &[u8], output: &[u8]) -> Result<bool, PoolError> {
    let mut reader = text;
    let (written, ending) = outcome_from(alloc, &mut reader);
    ending?;
    Ok(written.as_slice() == output)
}

/// A pool of one worker, to which so many tasks are submitted, offered and looked at again, and then it is stopped.
fn many_tasks(alloc: Global, tasks: u32) -> Result<String, AllocError> {
    let mut text = String::from_str(alloc, "pool 0 1 unbounded keep 0 abort limit 1048576\n")?;
    for task in 0..tasks {
        write!(text, "submit plain 1\noffer {task}\nsecond {task}\n")?;
    }
    text.push_str("stop\nopen 0\ntidy\nended\n")?;
    Ok(text)
}

/// Writes an entry of this number that is of a task.
fn write_of_task(
    text: &mut String,
    number: u64,
    word: &str,
    task: u32,
    answer: &str,
) -> Result<(), AllocError> {
    write!(text, "{number} {word} t{task} {answer}\n")
}

/// Writes the entries of one of them; the first reserves the worker.
fn write_task(text: &mut String, task: u32) -> Result<(), AllocError> {
    let before = u64::from(task) * 3;
    let stay = if task == 0 { "stay reserve w0" } else { "stay" };
    write_of_task(text, before + 1, "submit", task, "plain queue")?;
    write_of_task(text, before + 2, "offer", task, "queued")?;
    write_of_task(text, before + 3, "second", task, stay)
}

/// Writes the numbers of the tasks that are handed back.
fn write_back(text: &mut String, tasks: u32) -> Result<(), AllocError> {
    text.push_str("back")?;
    for task in 0..tasks {
        write!(text, " t{task}")?;
    }
    text.push('\n')
}

/// Writes the entries from the stop on.
fn write_stop(text: &mut String, tasks: u32) -> Result<(), AllocError> {
    let before = u64::from(tasks) * 3;
    let (stop, open, tidy, ended) = (before + 1, before + 2, before + 3, before + 4);
    write!(text, "{stop} stop drained {tasks}\n")?;
    write_back(text, tasks)?;
    write!(text, "{open} open w0 givenup\n{tidy} tidy\n{ended} ended\n")
}

/// What is written of it.
fn many_lines(alloc: Global, tasks: u32) -> Result<String, AllocError> {
    let mut text = String::new(alloc);
    for task in 0..tasks {
        write_task(&mut text, task)?;
    }
    write_stop(&mut text, tasks)?;
    for task in 0..tasks {
        write!(text, "t{task} handedback\n")?;
    }
    write!(
        text,
        "state terminated\ncounts submitted={tasks} run=0 caller=0 rejected=0 discarded=0 handedback={tasks} removed=0 cancelled=0 completed=0 queued=0 live=0 largest=0\n"
    )?;
    Ok(text)
}

/// Whether so many tasks are played, and this is written of them.
fn plays_so_many(alloc: Global, tasks: u32) -> Result<bool, PoolError> {
    let text = many_tasks(alloc, tasks)?;
    let output = many_lines(alloc, tasks)?;
    is_played(alloc, text.as_bytes(), output.as_bytes())
}

const MANY: [u32; 2] = [1, 12_000];

#[test]
fn plays_many_tasks(rt: HostRuntime) {
    for tasks in MANY {
        let is_played = plays_so_many(rt.alloc(), tasks);
        same(&rt, tasks as usize, &is_played, &Ok(true));
    }
}
