//! `test_program`: plays the transcripts of `data/`, and prints how many rows each file has. They call the program by its command lines,
//! over real files. A call that gives something else than its row says ends this program, which prints what it gave, and the row's title.
//!
//! The tests are of what no text says: readers, writers and clocks of their own, bytes that no editor writes, and texts that are long,
//! cut or changed.
#![tactic(auto)]

mod calls;
mod interleavings;
#[cfg(test)]
mod journals;
#[cfg(test)]
mod messages;
#[cfg(test)]
mod progress;
mod transcripts;
#[cfg(test)]
mod unread;

use anyhow::anyhow;
use poolrun_program::hosts::Host;
use std::alloc::Global;
use std::fs;
use test_rows::play_rows;
use transcripts::{plays, transcript_of};

/// The files of rows.
const FILES: [&str; 15] = [
    "program.txt",
    "threads.txt",
    "mistakes.txt",
    "wrong-scenarios.txt",
    "wrong-records.txt",
    "wrong-jobs.txt",
    "wrong-callers.txt",
    "flags.txt",
    "asked.txt",
    "told.txt",
    "beside.txt",
    "differences.txt",
    "drawn.txt",
    "explored.txt",
    INTERLEAVINGS,
];

/// The file of callers whose interleavings are gone through step by step.
const INTERLEAVINGS: &str = "interleavings.txt";

/// Plays the text of a row of this file.
fn play<H: Print + Host>(rt: &H, alloc: Global, path: &str, text: &str) -> anyhow::Result<()> {
    let transcript = match transcript_of(alloc, text)? {
        Ok(transcript) => transcript,
        Err(line) => return Err(anyhow!("this line has no mark: {line}")),
    };
    plays(rt, alloc, &transcript)?;
    if path == INTERLEAVINGS && !interleavings::holds(alloc, transcript.text())? {
        return Err(anyhow!("what is told does not hold step by step"));
    }
    Ok(())
}

fn main(rt: HostRuntime) -> anyhow::Result<()> {
    let alloc = rt.alloc();
    for path in FILES {
        let text = fs::read_to_string(&rt, path)?;
        let play_row = |_: &str, row: &str| play(&rt, alloc, path, row);
        play_rows(&rt, path, text.as_str(), &play_row)?;
    }
    Ok(())
}
