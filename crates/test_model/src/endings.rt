//! Lines, each of which ends a text so: behind a line that is said first, or by itself.

use crate::scenarios::outcome_from;
use anyhow::anyhow;
use std::alloc::{AllocError, Global};
use test_rows::is_same;
use tp_scenario::read_jobs;
use tp_text::ends::refusal_line;
use tp_text::watched::WatchedReader;
use tp_types::refusals::PoolError;

/// How a scenario ends.
pub fn ending_of_scenario(alloc: Global, text: &[u8]) -> Result<(), PoolError> {
    let mut reader = text;
    let (_, ending) = outcome_from(alloc, &mut reader);
    ending
}

/// How a file of jobs is read.
pub fn ending_of_jobs(alloc: Global, text: &[u8]) -> Result<(), PoolError> {
    read_jobs(alloc, &mut WatchedReader::new(text))?;
    Ok(())
}

/// A text of this line, behind another one if that is not empty.
fn text_of(alloc: Global, before: &str, line: &str) -> Result<String, AllocError> {
    if before.is_empty() {
        format!(in alloc; "{line}\n")
    } else {
        format!(in alloc; "{before}\n{line}\n")
    }
}

/// The line of a refusal without its line feed, or `well`.
fn told(alloc: Global, ending: Result<(), PoolError>) -> Result<String, AllocError> {
    match ending {
        Ok(()) => String::from_str(alloc, "well"),
        Err(refusal) => String::from_str(alloc, refusal_line(refusal).as_str().trim_end()),
    }
}

/// How the text of a line ends.
fn seen(alloc: Global, are_jobs: bool, before: &str, line: &str) -> Result<String, AllocError> {
    let text = text_of(alloc, before, line)?;
    let ending = if are_jobs {
        ending_of_jobs(alloc, text.as_bytes())
    } else {
        ending_of_scenario(alloc, text.as_bytes())
    };
    told(alloc, ending)
}

/// What stands behind a word at the begin of a line.
fn behind<'a>(line: Option<&'a str>, word: &str) -> Option<&'a str> {
    Some(line?.strip_prefix(word)?.trim_start())
}

/// Each line of a row ends its text as the row says: `ends` and how it ends, `behind` and the line that stands first, and then the
/// lines.
pub fn end_each(rt: &impl Print, alloc: Global, are_jobs: bool, row: &str) -> anyhow::Result<()> {
    let mut lines = row.lines();
    let (Some(ends), Some(before)) = (behind(lines.next(), "ends"), behind(lines.next(), "behind"))
    else {
        return Err(anyhow!("a row does not say how its lines end"));
    };
    for (at, line) in lines.enumerate() {
        let seen = seen(alloc, are_jobs, before, line)?;
        is_same(rt, at, &(line, seen.as_str()), &(line, ends))?;
    }
    Ok(())
}
