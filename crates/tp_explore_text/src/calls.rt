//! The calls of a caller's line.

use std::alloc::{AllocError, Global};
use tp_explore::plans::Submission;
use tp_record::entries::Ask;
use tp_scenario::lines::ScenarioLine;
use tp_scenario::reading::{given, step_of};
use tp_text::commands::{PoolVerb, SizeVerb, TickVerb};
use tp_text::numbers::number;
use tp_text::words::{behind, first_word};
use tp_types::tasks::Kind;

/// A call as a line says it: it names tasks.
#[derive(Clone, Copy, Debug, PartialEq, Eq)]
pub enum SaidCall<'a> {
    /// A job is submitted, under a name where it has one.
    Submit(Option<&'a str>, Submission),
    /// A control.
    Control(Ask),
    /// A task is cancelled, and whether its flag is to be set.
    Cancel(&'a str, bool),
    /// A task is removed.
    Remove(&'a str),
    /// A task's fate is awaited.
    Await(&'a str),
    /// The pool's end is awaited.
    AwaitEnd,
}

// Whether a byte may stand in a name.
fn is_of_name(byte: u8) -> bool {
    byte.is_ascii_alphanumeric() || byte == b'_' || byte == b'-'
}

// A text that may be a task's name: letters, digits, `_` and `-`, a letter first. `end` is none, since a call awaits the pool's end so.
fn name(text: &str) -> Option<&str> {
    let bytes = text.as_bytes();
    if text == "end" || !bytes.first()?.is_ascii_alphabetic() {
        return None;
    }
    for byte in bytes {
        if !is_of_name(*byte) {
            return None;
        }
    }
    Some(text)
}

// The kind of a job, and what stands behind it.
fn kind<'a>(word: &str, rest: &'a str) -> Option<(Kind, &'a str)> {
    match word {
        "execute" => Some((Kind::Plain, rest)),
        "submit" => Some((Kind::Future, rest)),
        "group" => {
            let (group, rest) = first_word(rest);
            Some((Kind::Group(number(group)?), rest?))
        }
        _ => None,
    }
}

// A job.
fn job(text: &str) -> Option<Submission> {
    let (word, rest) = first_word(text);
    let (kind, rest) = kind(word, rest?)?;
    let (outcome, priority) = given(rest)?;
    Some(Submission {
        kind,
        priority: priority.unwrap_or(0),
        outcome,
    })
}

// The control that a scenario's line asks for.
fn control(text: &str) -> Option<Ask> {
    match step_of(text)? {
        ScenarioLine::OfPool(PoolVerb::Shutdown) => Some(Ask::Shutdown),
        ScenarioLine::OfPool(PoolVerb::Stop) => Some(Ask::Stop),
        ScenarioLine::OfPool(PoolVerb::Purge) => Some(Ask::Purge),
        ScenarioLine::OfPool(PoolVerb::Prestart) => Some(Ask::Prestart),
        ScenarioLine::OfSize(SizeVerb::TakeDone, group) => Some(Ask::TakeDone(group)),
        ScenarioLine::OfSize(SizeVerb::Core, size) => Some(Ask::Core(size)),
        ScenarioLine::OfSize(SizeVerb::Maximum, size) => Some(Ask::Maximum(size)),
        ScenarioLine::OfTicks(TickVerb::Keep, ticks) => Some(Ask::Keep(ticks)),
        ScenarioLine::OfTicks(TickVerb::Tick, ticks) => Some(Ask::Tick(ticks)),
        ScenarioLine::CoreTimeout(on) => Some(Ask::CoreTimeout(on)),
        _ => None,
    }
}

// The task that is to be cancelled, and whether its flag is to be set.
fn cancellation(text: &str) -> Option<SaidCall<'_>> {
    let (word, rest) = first_word(text);
    match rest {
        None => Some(SaidCall::Cancel(name(word)?, false)),
        Some("flag") => Some(SaidCall::Cancel(name(word)?, true)),
        Some(_) => None,
    }
}

fn awaited(text: &str) -> Option<SaidCall<'_>> {
    match text {
        "end" => Some(SaidCall::AwaitEnd),
        _ => Some(SaidCall::Await(name(text)?)),
    }
}

// The call of a text that begins with no name.
fn unnamed(text: &str) -> Option<SaidCall<'_>> {
    if let Some(rest) = behind(text, "cancel") {
        return cancellation(rest);
    }
    if let Some(rest) = behind(text, "remove") {
        return Some(SaidCall::Remove(name(rest)?));
    }
    if let Some(rest) = behind(text, "await") {
        return awaited(rest);
    }
    match job(text) {
        Some(job) => Some(SaidCall::Submit(None, job)),
        None => Some(SaidCall::Control(control(text)?)),
    }
}

/// The call that a text says, as `a: execute 5` or `shutdown`.
pub fn call_of(text: &str) -> Option<SaidCall<'_>> {
    let (word, rest) = first_word(text);
    match (word.strip_suffix(':'), rest) {
        (Some(under), Some(rest)) => Some(SaidCall::Submit(Some(name(under)?), job(rest)?)),
        _ => unnamed(text),
    }
}

/// The calls of a caller, with a semicolon and a space between two. None where one is no call; AllocError where there is no memory for
/// them.
pub fn calls_of(alloc: Global, text: &str) -> Result<Option<Vec<SaidCall<'_>>>, AllocError> {
    let mut calls = Vec::new(alloc);
    for said in text.split("; ") {
        match call_of(said) {
            None => return Ok(None),
            Some(call) => calls.push(call)?,
        }
    }
    Ok(Some(calls))
}
