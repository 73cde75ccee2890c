//! Worked scenarios: each is written so from bytes to bytes, its asks answer what its output says, and both auditors call its record
//! legal, and answer the same of each that has one entry wrong.

use crate::neighbours::neighbours_agree;
use crate::rows::{config_of, entries_of, parts};
use std::alloc::{AllocError, Global};
use std::io::Read;
use test_rows::is_same;
use tp_machine::runs::{Run, run_asks};
use tp_record::entries::{Ask, Did, Entry};
use tp_scenario::forms::LineRead;
use tp_scenario::lines::ScenarioLine;
use tp_scenario::run::run;
use tp_scenario::step::Runner;
use tp_scenario::texts::read_line;
use tp_text::ends::refusal_line;
use tp_text::watched::{WatchedReader, WatchedWriter};
use tp_text_record::entries::read_entry;
use tp_text_record::versions::Version;
use tp_types::configs::Config;
use tp_types::refusals::PoolError;

/// What is written of what a reader gives, and how the run ends.
pub fn outcome_from<R: Read>(alloc: Global, reader: &mut R) -> (Vec<u8>, Result<(), PoolError>) {
    let mut written = Vec::new(alloc);
    let mut reader = WatchedReader::new(reader);
    let mut writer = WatchedWriter::new(&mut written);
    let answer = run(alloc, &mut reader, &mut writer);
    (written, answer)
}

/// What is written of a scenario, and behind it the line of the refusal that its run ends in.
fn told(alloc: Global, text: &[u8]) -> Result<Vec<u8>, AllocError> {
    let mut reader = text;
    let (mut written, ending) = outcome_from(alloc, &mut reader);
    if let Err(refusal) = ending {
        written.extend_from_slice(refusal_line(refusal).as_str().as_bytes())?;
    }
    Ok(written)
}

/// This is written of a scenario.
pub fn tells(rt: &impl Print, alloc: Global, text: &[u8], output: &str) -> anyhow::Result<()> {
    let told = told(alloc, text);
    let seen = told.as_ref().map(|bytes| str::from_utf8(bytes.as_slice()));
    is_same(rt, 0, &seen, &Ok(Ok(output)))
}

/// What comes of a list of asks. No clause speaks of the run here, so a test is proved without its long contract.
pub fn run_of(alloc: Global, config: Config, asks: &[(u32, Ask)]) -> Result<Run, PoolError> {
    run_asks(alloc, config, asks)
}

/// A pool with these settings, for lines. No clause speaks of the runner here, so a test is proved without its long contract.
fn runner_of(alloc: Global, config: Config) -> Result<Runner, PoolError> {
    Runner::new(alloc, config)
}

/// What a line asks of the pool as it stands.
fn ask_of(runner: &mut Runner, step: &ScenarioLine) -> Result<Ask, AllocError> {
    match runner.step(step)?.answer {
        Ok(entry) => Ok(entry.ask),
        Err(refusal) => Ok(refusal.ask),
    }
}

/// Notes what a line of a scenario asks, if it is a step.
fn note_ask(asks: &mut Vec<(u32, Ask)>, runner: &mut Runner, line: &str) -> Result<(), AllocError> {
    if let LineRead::Says(step) = read_line::<ScenarioLine>(line.as_bytes()) {
        asks.push((0, ask_of(runner, &step)?))?;
    }
    Ok(())
}

/// What the lines of a scenario ask one after another, each of the pool as it stands then.
pub fn asks_of(alloc: Global, config: Config, text: &str) -> Result<Vec<(u32, Ask)>, PoolError> {
    let mut runner = runner_of(alloc, config)?;
    let mut asks = Vec::new(alloc);
    for line in text.lines() {
        note_ask(&mut asks, &mut runner, line)?;
    }
    Ok(asks)
}

/// Whether an answer is what a line of the output says: an entry, or a refusal. Where no answer is left, the line is one of the ends.
fn is_told(
    alloc: Global,
    answer: Option<&Result<Did, PoolError>>,
    line: &str,
) -> Result<bool, AllocError> {
    match answer {
        Some(Ok(did)) => match read_entry(Version::Two, line.as_bytes()) {
            Some((_, entry)) => Ok(entry.did == *did),
            None => Ok(false),
        },
        Some(Err(refusal)) => {
            let told = format!(in alloc; "{refusal}")?;
            Ok(told.as_str() == line)
        }
        None => Ok(true),
    }
}

/// Whether these answers are what the output says before its ends, line by line.
fn are_told(
    alloc: Global,
    answers: &[Result<Did, PoolError>],
    output: &str,
) -> Result<bool, AllocError> {
    let mut told = 0usize;
    for line in output.lines() {
        if !line.starts_with("back") {
            if !is_told(alloc, answers.get(told), line)? {
                return Ok(false);
            }
            told = told.saturating_add(1);
        }
    }
    Ok(told >= answers.len())
}

/// Whether these asks give the answers that the output says, and this record.
fn are_answered(
    alloc: Global,
    config: Config,
    asks: &[(u32, Ask)],
    output: &str,
    entries: &[Entry],
) -> Result<bool, PoolError> {
    let run = run_of(alloc, config, asks)?;
    Ok(run.entries.as_slice() == entries && are_told(alloc, &run.answers, output)?)
}

/// Whether the asks of a row give its answers and its record again.
fn is_asked_again(
    alloc: Global,
    config: Config,
    text: &str,
    output: &str,
    entries: &[Entry],
) -> Result<bool, PoolError> {
    let asks = asks_of(alloc, config, text)?;
    are_answered(alloc, config, &asks, output, entries)
}

/// Whether the asks of a row give its answers and its record again, and both auditors judge it and its neighbours alike.
pub fn is_judged(alloc: Global, text: &str, output: &str) -> Result<bool, PoolError> {
    let Some(config) = config_of(text) else {
        return Ok(false);
    };
    let entries = entries_of(alloc, output)?;
    Ok(
        is_asked_again(alloc, config, text, output, &entries)?
            && neighbours_agree(alloc, &config, &entries)?,
    )
}

/// A worked scenario is written so, and judged alike with its neighbours.
pub fn plays(rt: &impl Print, alloc: Global, row: &str) -> anyhow::Result<()> {
    let (bytes, output) = parts(row);
    tells(rt, alloc, bytes, output)?;
    let (text, _) = row.split_once("\n\n").unwrap_or((row, ""));
    is_same(rt, 0, &is_judged(alloc, text, output), &Ok(true))
}
