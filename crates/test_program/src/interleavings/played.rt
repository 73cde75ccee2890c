//! Witnesses, played step by step.
ghost use Rattle.std.specs.Prelude.{◌<◌, length};
ghost use Rattle.tp_explore_text.specs.Explored.{IsExplored};

use anyhow::anyhow;
use poolrun_commands::records::Recording;
use std::alloc::Global;
use tp_explore_text::ends::End;
use tp_explore_text::explored::Explored;
use tp_explore_text::texts::witness_text;
use tp_scenario::play::play;
use tp_text::watched::WatchedWriter;
use tp_text_record::judgments::{Judgment, judge_text};

const FATES: [&str; 7] = [
    "run",
    "caller",
    "rejected",
    "discarded",
    "handedback",
    "removed",
    "cancelled",
];

/// How many tasks of an end have this fate.
fn fated(end: &str, fate: &str) -> usize {
    let mut count: usize = 0;
    for part in end.split("; ") {
        let mut words = part.split(' ');
        let _name = words.next();
        if words.next() == Some(fate) {
            count = count.saturating_add(1);
        }
    }
    count
}

/// The counters of the fates, as the end says them.
fn counters(alloc: Global, end: &str) -> anyhow::Result<String> {
    let mut text = String::new(alloc);
    for fate in FATES {
        let count = fated(end, fate);
        write!(text, " {fate}={count}")?;
    }
    Ok(text)
}

/// The run state, as the end says it.
fn state(alloc: Global, end: &str) -> anyhow::Result<String> {
    let name = match end.rsplit_once("; ") {
        Some((_, name)) => name,
        None => end,
    };
    Ok(format!(in alloc; "\nstate {name}\n")?)
}

/// The record of a scenario, which has no bad line.
fn record(alloc: Global, scenario: &[u8]) -> anyhow::Result<Vec<u8>> {
    if scenario.len() > 1_048_576 {
        return Err(anyhow!("a long scenario"));
    }
    let mut recording = Recording::new(alloc);
    let played = play(alloc, scenario, &mut recording);
    played.ending?;
    let mut record = Vec::new(alloc);
    recording.write(alloc, &mut WatchedWriter::new(&mut record))?;
    Ok(record)
}

/// What is judged of the record of a scenario.
fn judged(alloc: Global, scenario: &[u8]) -> anyhow::Result<Judgment> {
    let record = record(alloc, scenario)?;
    if record.len() > 1_048_576 {
        return Err(anyhow!("a long record"));
    }
    Ok(judge_text(alloc, record.as_slice())?)
}

/// Whether the witness of an end has a legal record, at whose end stand the fates and the run state that are told.
fn is_played(alloc: Global, explored: &Explored, end: &End) -> anyhow::Result<bool>
    requires explored { IsExplored explored.now }
    requires within { end.now.place < length explored.now.graph.states.items }
{
    let scenario = witness_text(alloc, explored, end.place)?;
    let judgment = judged(alloc, scenario.as_bytes())?;
    let Ok(lines) = str::from_utf8(judgment.lines.as_slice()) else {
        return Ok(false);
    };
    let told = end.text.as_str();
    let state = state(alloc, told)?;
    let counters = counters(alloc, told)?;
    Ok(judgment.legal && lines.contains(state.as_str()) && lines.contains(counters.as_str()))
}

/// Whether this holds of each end.
pub fn same_played(alloc: Global, explored: &Explored) -> anyhow::Result<bool>
    requires { IsExplored explored.now }
{
    for end in &explored.ends {
        if !is_played(alloc, explored, end)? {
            return Ok(false);
        }
    }
    Ok(true)
}
