//! Lines that ask for steps.

ghost use Rattle.std.specs.Prelude.{◌≡◌, ◌≢◌, ◌++◌, ◌∷◌, List, ℕ, Option, Some, None, IfSome, MatchOption, codes};
ghost use Rattle.std.specs.Option.{option_map};
ghost use Rattle.std.specs.Fmt.{decimal};
ghost use Rattle.tp_text.specs.Reads.{Any, ReadsAs, spaced};
ghost use Rattle.tp_text.specs.Fits.{Fits32, FitsOutcome};
ghost use Rattle.tp_scenario.specs.Lines.{FitsGiven, FitsLine, FitsSubmission, arguments, command_of, given_text, line_text, outcome_text, priority_text, ruling_text, cancel_text, submission_text, ReadsAfter};

use crate::forms::LineForm;
use crate::lines::ScenarioLine;
use tp_text::commands::Command;
use tp_text::numbers::{index, long_number, number, value};
use tp_text::words::{behind, command, first_word, switch, verdict};
use tp_types::configs::Verdict;
use tp_types::ids::{SlotId, TaskId};
use tp_types::tasks::{Kind, Outcome};

/// What a task's end gives: a value, or a fault's code after an exclamation mark.
#[inline(always)]
pub fn outcome(text: &str) -> Option<Outcome>
    ensures { ReadsAs outcome_text FitsOutcome text.now result }
{
    match text.strip_prefix('!') {
        None => Some(Ok(value(text)?)),
        Some(code) => Some(Err(number(code)?)),
    }
}

/// A priority behind its word.
fn priority(text: &str) -> Option<u32>
    ensures { ReadsAs (λ n. spaced (codes "prio") (decimal n)) Fits32 text.now result }
{
    number(behind(text, "prio")?)
}

/// A priority, where one is said.
fn priority_said(rest: Option<&str>) -> Option<Option<u32>>
    ensures { ReadsAs priority_text (λ p. IfSome p Fits32) (option_map (λ r. r.now) rest.entry) result }
{
    match rest {
        None => Some(None),
        Some(text) => Some(Some(priority(text)?)),
    }
}

/// What a task's end gives, and its priority where one is said.
pub fn given(text: &str) -> Option<(Outcome, Option<u32>)>
    ensures { ReadsAs given_text FitsGiven text.now result }
{
    let (word, rest) = first_word(text);
    Some((outcome(word)?, priority_said(rest)?))
}

/// A group's number, and what a task of the group is given.
fn numbered(text: &str) -> Option<(u32, (Outcome, Option<u32>))>
    ensures { ReadsAs (λ p. spaced (decimal p.0) (given_text p.1)) (λ p. Fits32 p.0 × FitsGiven p.1) text.now result }
{
    let (word, rest) = first_word(text);
    Some((number(word)?, given(rest?)?))
}

/// A task's kind and what it is given.
#[inline(always)]
fn submission(text: &str) -> Option<(Kind, (Outcome, Option<u32>))>
    ensures { ReadsAs submission_text FitsSubmission text.now result }
{
    let (word, rest) = first_word(text);
    let rest = rest?;
    match word {
        "plain" => Some((Kind::Plain, given(rest)?)),
        "future" => Some((Kind::Future, given(rest)?)),
        "group" => {
            let (group, given) = numbered(rest)?;
            Some((Kind::Group(group), given))
        }
        _ => None,
    }
}

/// A task's number and what becomes of it.
fn ruling(text: &str) -> Option<(u32, Verdict)>
    ensures { ReadsAs ruling_text (λ p. Fits32 p.0) text.now result }
{
    let (word, rest) = first_word(text);
    Some((number(word)?, verdict(rest?)?))
}

/// A task's number, and whether its cancel flag is to be set.
fn cancellation(text: &str) -> Option<(u32, bool)>
    ensures { ReadsAs cancel_text (λ p. Fits32 p.0) text.now result }
{
    let (word, rest) = first_word(text);
    let task = number(word)?;
    match rest {
        None => Some((task, false)),
        Some("flag") => Some((task, true)),
        Some(_) => None,
    }
}

/// The line of a command that arguments follow.
#[inline(always)]
fn with_arguments(command: Command, text: &str) -> Option<ScenarioLine>
    ensures { ReadsAfter command (Some text.now) result }
{
    match command {
        Command::Submit => {
            let (kind, (outcome, priority)) = submission(text)?;
            Some(ScenarioLine::Submit(kind, outcome, priority))
        }
        Command::OfTask(verb) => Some(ScenarioLine::OfTask(verb, TaskId(number(text)?))),
        Command::Verdict => {
            let (task, verdict) = ruling(text)?;
            Some(ScenarioLine::Verdict(TaskId(task), verdict))
        }
        Command::OfSlot(verb) => Some(ScenarioLine::OfSlot(verb, SlotId(index(text)?))),
        Command::OfPool(_) => None,
        Command::Cancel => {
            let (task, flag) = cancellation(text)?;
            Some(ScenarioLine::Cancel(TaskId(task), flag))
        }
        Command::OfSize(verb) => Some(ScenarioLine::OfSize(verb, number(text)?)),
        Command::OfTicks(verb) => Some(ScenarioLine::OfTicks(verb, long_number(text)?)),
        Command::CoreTimeout => Some(ScenarioLine::CoreTimeout(switch(text)?)),
    }
}

/// The line of a command, and of what follows it after a space.
#[inline(always)]
fn after_command(command: Command, rest: Option<&str>) -> Option<ScenarioLine>
    ensures { ReadsAfter command (option_map (λ r. r.now) rest.entry) result }
{
    match (command, rest) {
        (Command::OfPool(verb), None) => Some(ScenarioLine::OfPool(verb)),
        (_, None) => None,
        (_, Some(text)) => with_arguments(command, text),
    }
}

/// The step that a text asks for.
#[inline(always)]
pub fn step_of(text: &str) -> Option<ScenarioLine>
    ensures { ReadsAs line_text FitsLine text.now result }
{
    let (word, rest) = first_word(text);
    after_command(command(word)?, rest)
}

impl LineForm for ScenarioLine {
    ghost text_of = { line_text };

    ghost fits = { FitsLine };

    fn of_text(text: &str) -> Option<ScenarioLine> {
        step_of(text)
    }
}
