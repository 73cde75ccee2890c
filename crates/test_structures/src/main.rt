//! `test_structures`: plays the texts of `data/`, calls of the structures with what they answer, and prints how many rows each file has.
//! Beside the structures stand a worker's turns, a submission's path, settings and names. A row that is not as its text says ends the
//! program, which prints what is seen beside what is wanted, and the row's title.
//!
//! The tests are of what no text says: memory that is wanting, and the published word. All of them stand above the crates that they test,
//! so that none of those is proved twice for its tests.
#![tactic(auto)]

mod calls;
#[cfg(test)]
mod compare;
#[cfg(test)]
mod glances;
mod lines;
#[cfg(test)]
mod memory;
mod names;
mod plays;
mod queues;
mod recorders;
mod slots;
mod tasks;
mod turns;
mod waking;

use anyhow::anyhow;
use calls::Call;
use lines::Values;
use names::Names;
use plays::play;
use recorders::Kept;
use std::alloc::Global;
use std::fs;
use std::sync::Wait;
use test_rows::{is_same, play_rows};
use tp_record::recorders::{Full, Tally};
use tp_waking::sleepers::Sleepers;
use turns::{Path, scripted};
use waking::Pool;

/// The files of rows.
const FILES: [&str; 8] = [
    "queues.txt",
    "lines.txt",
    "slots.txt",
    "tasks.txt",
    "waking.txt",
    "turns.txt",
    "recorders.txt",
    "names.txt",
];

/// Plays the text of a row on what its line `on ..` names.
fn play_on<R: Print + Wait>(
    rt: &R,
    alloc: Global,
    on: &Call<'_>,
    text: &str,
) -> anyhow::Result<()> {
    let size = on.size().unwrap_or(0);
    match on.name {
        "exact" | "queue" => queues::plays(rt, alloc, on, text),
        "line" => play(rt, alloc, Values::new(alloc, size)?, size, text),
        "slots" => play(rt, alloc, slots::Table::new(alloc, size)?, size, text),
        "tasks" => play(rt, alloc, tasks::Table::new(alloc), size, text),
        "sleepers" => play(rt, alloc, Sleepers::new(alloc, size)?, size, text),
        "waking" => play(rt, alloc, Pool::new(alloc)?, size, text),
        "path" => play(rt, alloc, Path(None), size, text),
        "turn" => play(rt, alloc, scripted(rt, alloc, on.first)?, size, text),
        "record" => {
            let kept = Kept(Full::new(alloc, size)?, Vec::new(alloc));
            play(rt, alloc, kept, size, text)
        }
        "tally" => play(rt, alloc, Tally::new(), size, text),
        "names" => play(rt, alloc, Names, size, text),
        _ => Err(anyhow!("no such structure")),
    }
}

/// Plays the text of a row on each structure that it names.
fn play_row<R: Print + Wait>(rt: &R, alloc: Global, text: &str) -> anyhow::Result<()> {
    let mut played = false;
    for line in text.lines() {
        if let Some(on) = line.strip_prefix("on ") {
            play_on(rt, alloc, &Call::of(alloc, on), text)?;
            played = true;
        }
    }
    is_same(rt, 0, &played, &true)
}

fn main(rt: HostRuntime) -> anyhow::Result<()> {
    let alloc = rt.alloc();
    for path in FILES {
        let text = fs::read_to_string(&rt, path)?;
        let play = |_: &str, row: &str| play_row(&rt, alloc, row);
        play_rows(&rt, path, text.as_str(), &play)?;
    }
    Ok(())
}
