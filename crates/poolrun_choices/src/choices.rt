//! The words of a command line, and what they choose.

use crate::commands::program_command;
use crate::completions::{script, shell_of};
use clap::error::ErrorKind;
use clap::{ArgMatches, Error};
use std::alloc::{AllocError, Global};
use tp_story_words::forms::Form;

/// What a run of a scenario is to write, and how it is to end.
#[derive(Clone, Copy, Debug, PartialEq, Eq)]
pub struct Playing {
    /// Why each step is refused is told on the standard error.
    pub explains: bool,
    /// The status is 1 where a step is refused.
    pub is_strict: bool,
    /// The record's text is printed in place of the output.
    pub prints_record: bool,
}

/// How jobs are to be run by threads.
#[derive(Debug, PartialEq, Eq, Drop)]
pub struct Running {
    /// The pool keeps a record, whose text is the output. Else its run state and its counters are.
    pub keeps_record: bool,
    /// The record is written to the file at this path too.
    pub record: Option<String>,
    /// The record is written to the file at this path while the jobs run.
    pub journal: Option<String>,
    /// The jobs' text may be longer than 1,048,576 bytes.
    pub has_any_length: bool,
    /// The form of the output.
    pub form: Form,
}

/// How a record is to be judged.
#[derive(Clone, Copy, Debug, PartialEq, Eq)]
pub struct Auditing {
    /// The record may have any length: it is read line by line.
    pub has_any_length: bool,
    /// Why the record turned tasks away is told on the standard error.
    pub explains: bool,
}

/// What is to be told of the interleavings of callers.
#[derive(Debug, PartialEq, Eq, Drop)]
pub enum Wish {
    /// Each end, on a line with the number of its interleavings.
    Ends,
    /// The same as JSON.
    Json,
    /// The graph of states, for Graphviz.
    Dot,
    /// The scenario of a shortest interleaving to the end on this line, counted from 1.
    Witness(usize),
    /// The record of such an interleaving.
    Record(usize),
    /// The scenario of a shortest interleaving whose end has all these parts; status 1 where none has.
    Find(Vec<String>),
    /// That no end has all these parts; else the scenario of such an interleaving, and status 1.
    Never(Vec<String>),
}

/// How the interleavings of callers are to be explored.
#[derive(Debug, PartialEq, Eq, Drop)]
pub struct Exploring {
    /// What is to be told.
    pub wish: Wish,
    /// The most states that are kept.
    pub most: usize,
}

/// A question about a record.
#[derive(Clone, Copy, Debug, PartialEq, Eq)]
pub enum Question {
    /// The story of the task of this number.
    Task(u32),
    /// The story of the slot of this number.
    Slot(usize),
    /// What the pool was like after the entry of this number, or after the last.
    Now(Option<u64>),
    /// The record in numbers, with so many of the tasks that waited longest.
    Stats(u64),
    /// Whether the record is legal as far as it goes.
    Cut,
}

/// What the program is to do. A path `-` is the standard input.
#[derive(Debug, PartialEq, Eq, Drop)]
pub enum Choice {
    /// Run the scenario in the file at this path.
    Steps(String, Playing, Form),
    /// Run the jobs in the file at this path by threads.
    Threads(String, Running),
    /// Judge the record in the file at this path.
    Audit(String, Auditing),
    /// Explore all interleavings of the callers in the file at this path.
    Explore(String, Exploring),
    /// Answer a question about the record in the file at this path.
    Ask(String, Question, Form),
    /// Hold these claims against the record in the file at this path.
    Check(String, Vec<String>, Form),
    /// Tell where the records in the files at these paths part.
    Diff(Pair, Form),
    /// Draw a record.
    Draw(Sketch),
}

/// A record that is to be drawn.
#[derive(Debug, PartialEq, Eq, Drop)]
pub struct Sketch {
    /// The path of the record.
    pub path: String,
    /// The path of the picture; None for the standard output.
    pub picture: Option<String>,
    /// It is drawn from this entry on.
    pub from: u64,
    /// To this entry; None to the last.
    pub to: Option<u64>,
    /// Time runs by ticks, and not by entries.
    pub by_ticks: bool,
}

/// Two records that are set side by side.
#[derive(Debug, PartialEq, Eq, Drop)]
pub struct Pair {
    /// The path of the first.
    pub first: String,
    /// The path of the second.
    pub second: String,
    /// The tasks are told that ended otherwise.
    pub by_fates: bool,
}

impl Choice {
    /// The path of the file that is to be read.
    pub fn path(&self) -> &str {
        match self {
            Choice::Steps(path, _, _) | Choice::Threads(path, _) => path.as_str(),
            Choice::Audit(path, _) => path.as_str(),
            Choice::Explore(path, _) | Choice::Ask(path, _, _) => path.as_str(),
            Choice::Check(path, _, _) => path.as_str(),
            Choice::Diff(pair, _) => pair.first.as_str(),
            Choice::Draw(sketch) => sketch.path.as_str(),
        }
    }
}

/// When a message has the colours of a terminal.
#[derive(Clone, Copy, Debug, PartialEq, Eq)]
pub enum Colour {
    /// Where the standard error is a terminal, and its user has not forbidden it.
    Auto,
    /// Always.
    Always,
    /// Never.
    Never,
}

/// What a command line says.
#[derive(Debug, PartialEq, Eq, Drop)]
pub struct CommandLine {
    /// What the program is to do.
    pub choice: Choice,
    /// When its messages have colours.
    pub colour: Colour,
}

/// Why there is no choice.
#[derive(Debug, Drop)]
pub enum Unchosen {
    /// The command line is bad, or it asks for help: the parser's text says more. Status 2. A wish for
    /// the version is one too, of the parser's kind `DisplayVersion`, and its status is 0.
    Usage(Error),
    /// This word names no task, as `t4`, and no slot, as `w0`. Status 2.
    Unnamed(String),
    /// A shell's completions are asked for, which this script makes. It is printed, with status 0.
    Completions(String),
    /// There was no memory to read it. Status 1, as refusal 4.
    NoMemory,
}

impl From<AllocError> for Unchosen {
    fn from(_: AllocError) -> Self {
        Unchosen::NoMemory
    }
}

impl From<Error> for Unchosen {
    fn from(error: Error) -> Self {
        if error.kind() == ErrorKind::OutOfMemory {
            Unchosen::NoMemory
        } else {
            Unchosen::Usage(error)
        }
    }
}

/// A copy of the value of an argument; None where it is not there.
fn copy_of(
    alloc: Global,
    inner: &ArgMatches<'_>,
    name: &str,
) -> Result<Option<String>, AllocError> {
    match inner.get_str(name) {
        Some(value) => Ok(Some(String::from_str(alloc, value)?)),
        None => Ok(None),
    }
}

/// Copies of the values of a flag; None where it is not there.
fn copies(
    alloc: Global,
    inner: &ArgMatches<'_>,
    flag: &str,
) -> Result<Option<Vec<String>>, AllocError> {
    let Some(values) = inner.get_strs(flag) else {
        return Ok(None);
    };
    let mut copies = Vec::new(alloc);
    for value in values {
        copies.push(String::from_str(alloc, *value)?)?;
    }
    Ok(Some(copies))
}

/// What is to be told of an exploration. The flags exclude each other.
fn wished(alloc: Global, inner: &ArgMatches<'_>) -> Result<Wish, AllocError> {
    if let Some(line) = inner.get_one::<usize>("witness") {
        return Ok(Wish::Witness(line));
    }
    if let Some(line) = inner.get_one::<usize>("record") {
        return Ok(Wish::Record(line));
    }
    if let Some(parts) = copies(alloc, inner, "find")? {
        return Ok(Wish::Find(parts));
    }
    if let Some(parts) = copies(alloc, inner, "never")? {
        return Ok(Wish::Never(parts));
    }
    if inner.get_flag("json") {
        return Ok(Wish::Json);
    }
    Ok(if inner.get_flag("dot") {
        Wish::Dot
    } else {
        Wish::Ends
    })
}

/// The most states where the command line says nothing.
const MOST: usize = 1_000_000;

/// The task or the slot that a word names, as `t4` or `w0`.
fn subject_of(word: &str) -> Option<Question> {
    if let Some(number) = word.strip_prefix('t') {
        return number.parse().ok().map(Question::Task);
    }
    let number = word.strip_prefix('w')?;
    number.parse().ok().map(Question::Slot)
}

/// The question that a command asks, where it asks one.
fn question_of(
    alloc: Global,
    name: &str,
    inner: &ArgMatches<'_>,
) -> Result<Option<Question>, Unchosen> {
    match name {
        "why" => {
            let word = inner.get_str("SUBJECT").unwrap_or("");
            match subject_of(word) {
                Some(question) => Ok(Some(question)),
                None => Err(Unchosen::Unnamed(String::from_str(alloc, word)?)),
            }
        }
        "now" => Ok(Some(Question::Now(inner.get_one("at")))),
        "stats" => Ok(Some(Question::Stats(inner.get_one("top").unwrap_or(0)))),
        "audit" if inner.get_flag("cut") => Ok(Some(Question::Cut)),
        _ => Ok(None),
    }
}

/// The form of an answer.
fn form_of(inner: &ArgMatches<'_>) -> Form {
    if inner.get_flag("json") {
        Form::Json
    } else {
        Form::Words
    }
}

/// How jobs are to be run, by the words behind `threads`.
fn running_by(alloc: Global, inner: &ArgMatches<'_>) -> Result<Running, AllocError> {
    Ok(Running {
        keeps_record: !inner.get_flag("tally"),
        record: copy_of(alloc, inner, "record")?,
        journal: copy_of(alloc, inner, "journal")?,
        has_any_length: inner.get_flag("any-length"),
        form: form_of(inner),
    })
}

/// When messages have colours.
fn colour_of(matches: &ArgMatches<'_>) -> Colour {
    match matches.get_str("color") {
        Some("always") => Colour::Always,
        Some("never") => Colour::Never,
        _ => Colour::Auto,
    }
}

/// What is to be drawn of the record at a path.
fn sketched(alloc: Global, path: String, inner: &ArgMatches<'_>) -> Result<Sketch, AllocError> {
    Ok(Sketch {
        path,
        picture: copy_of(alloc, inner, "out")?,
        from: inner.get_one("from").unwrap_or(0),
        to: inner.get_one("to"),
        by_ticks: inner.get_str("by") == Some("ticks"),
    })
}

/// The record at a path, and the one that it is set beside.
fn paired(alloc: Global, path: String, inner: &ArgMatches<'_>) -> Result<Pair, AllocError> {
    let second = String::from_str(alloc, inner.get_str("OTHER").unwrap_or(""))?;
    Ok(Pair {
        first: path,
        second,
        by_fates: inner.get_flag("fates"),
    })
}

/// How a record is to be judged, by the words behind `audit`.
fn auditing_by(inner: &ArgMatches<'_>) -> Auditing {
    Auditing {
        has_any_length: inner.get_flag("any-length"),
        explains: inner.get_flag("explain"),
    }
}

/// How interleavings are to be explored, by the words behind `explore`.
fn exploring_by(alloc: Global, inner: &ArgMatches<'_>) -> Result<Exploring, AllocError> {
    Ok(Exploring {
        wish: wished(alloc, inner)?,
        most: inner.get_one("most").unwrap_or(MOST),
    })
}

/// What a run of a scenario is to write, by the words behind `steps`.
fn playing_by(inner: &ArgMatches<'_>) -> Playing {
    Playing {
        explains: inner.get_flag("explain"),
        is_strict: inner.get_flag("strict"),
        prints_record: inner.get_flag("record"),
    }
}

/// What the words behind a command choose that asks no question.
fn chosen_by(alloc: Global, name: &str, inner: &ArgMatches<'_>) -> Result<Choice, AllocError> {
    let path = String::from_str(alloc, inner.get_str("FILE").unwrap_or(""))?;
    Ok(match name {
        "threads" => Choice::Threads(path, running_by(alloc, inner)?),
        "audit" => Choice::Audit(path, auditing_by(inner)),
        "explore" => Choice::Explore(path, exploring_by(alloc, inner)?),
        "check" => {
            let claims = copies(alloc, inner, "CLAIM")?.unwrap_or(Vec::new(alloc));
            Choice::Check(path, claims, form_of(inner))
        }
        "diff" => Choice::Diff(paired(alloc, path, inner)?, form_of(inner)),
        "draw" => Choice::Draw(sketched(alloc, path, inner)?),
        _ => Choice::Steps(path, playing_by(inner), form_of(inner)),
    })
}

/// The script of a shell's completions.
fn completions(alloc: Global, inner: &ArgMatches<'_>) -> Unchosen {
    let Some(shell) = shell_of(inner.get_str("SHELL").unwrap_or("")) else {
        return Unchosen::NoMemory;
    };
    let Ok(command) = program_command(alloc) else {
        return Unchosen::NoMemory;
    };
    match script(alloc, shell, &command) {
        Ok(script) => Unchosen::Completions(script),
        Err(_) => Unchosen::NoMemory,
    }
}

/// What the words of a command line choose, the first being the program's own name.
pub fn chosen(alloc: Global, words: &[String]) -> Result<CommandLine, Unchosen> {
    let command = program_command(alloc)?;
    let matches = command.try_get_matches_from(words)?;
    let Some((name, inner)) = matches.subcommand() else {
        return Err(Unchosen::NoMemory);
    };
    if name == "completions" {
        return Err(completions(alloc, inner));
    }
    let choice = match question_of(alloc, name, inner)? {
        Some(question) => {
            let path = String::from_str(alloc, inner.get_str("FILE").unwrap_or(""))?;
            Choice::Ask(path, question, form_of(inner))
        }
        None => chosen_by(alloc, name, inner)?,
    };
    Ok(CommandLine {
        choice,
        colour: colour_of(&matches),
    })
}
