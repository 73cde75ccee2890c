//! The program over any files, words and writers.

use crate::hosts::Host;
use crate::jobs::{run_threads, write_file};
use crate::progress::{Progress, ToldReader};
use clap::error::ErrorKind;
use poolrun_choices::choices::{Choice, Colour, Pair, Sketch, Unchosen, chosen};
use poolrun_commands::audits::run_audit;
use poolrun_commands::checks::run_check;
use poolrun_commands::differences::run_diff;
use poolrun_commands::drawings::run_draw;
use poolrun_commands::explores::{Callers, run_explore};
use poolrun_commands::objects::run_objects;
use poolrun_commands::questions::run_asked;
use poolrun_commands::statuses::finish;
use poolrun_commands::steps::run_steps;
use poolrun_commands::telling::{name_of, tell};
use std::alloc::Global;
use std::fmt::Display;
use std::fs;
use std::io::{self, Read, Write};
use std::rt::Files;
use tp_messages::messages::Style;
use tp_story_drawing::drawings::Window;
use tp_story_words::forms::Form;
use tp_text::watched::{WatchedReader, WatchedWriter};
use tp_text::writing::write_text;
use tp_types::refusals::PoolError;

/// Does what was chosen with what a reader gives, and gives the status.
pub fn run_reader<H: Host, R: Read + Drop, W: Write, E: Write>(
    rt: H,
    alloc: Global,
    choice: &Choice,
    reader: R,
    out: &mut WatchedWriter<W>,
    errors: &mut E,
    style: Style,
) -> u8 {
    let name = name_of(choice.path());
    let reader = &mut WatchedReader::new(reader);
    match choice {
        Choice::Steps(_, playing, Form::Words) => {
            run_steps(alloc, *playing, name, reader, out, errors, style)
        }
        Choice::Steps(_, playing, Form::Json) => {
            run_objects(alloc, *playing, name, reader, out, errors, style)
        }
        Choice::Threads(_, running) => {
            run_threads(rt, alloc, running, name, reader, out, errors, style)
        }
        Choice::Explore(_, exploring) => {
            run_explore(alloc, &Callers, exploring, name, reader, out, errors, style)
        }
        Choice::Ask(_, question, form) => {
            run_asked(alloc, *question, *form, name, reader, out, errors, style)
        }
        Choice::Audit(_, auditing) => {
            run_audit(alloc, *auditing, name, reader, out, errors, style)
        }
        Choice::Check(_, claims, form) => {
            run_check(alloc, claims, *form, name, reader, out, errors, style)
        }
        Choice::Diff(pair, form) => {
            run_pair(&rt, alloc, pair, *form, reader, out, errors, style)
        }
        Choice::Draw(sketch) => { run_sketch(&rt, alloc, sketch, name, reader, out, errors, style) }
    }
}

/// Draws the record that a reader gives to the path of a sketch, or to `out` where there is none, and gives the status. No file is
/// written where nothing is drawn.
fn run_sketch<H: Files, R: Read, W: Write, E: Write>(
    rt: &H,
    alloc: Global,
    sketch: &Sketch,
    name: &str,
    reader: &mut WatchedReader<R>,
    out: &mut WatchedWriter<W>,
    errors: &mut E,
    style: Style,
) -> u8 {
    let window = &Window {
        from: sketch.from,
        to: sketch.to,
        by_ticks: sketch.by_ticks,
    };
    let path = sketch.picture.as_deref();
    if path.is_none() {
        return run_draw(alloc, window, name, reader, out, errors, style);
    }
    let mut picture = Vec::new(alloc);
    let drawn = &mut WatchedWriter::new(&mut picture);
    let status = run_draw(alloc, window, name, reader, drawn, errors, style);
    let outcome = if status == 0 {
        write_file(rt, path, picture.as_slice(), errors)
    } else {
        // What was written in place of a picture is the line of a refusal.
        write_text(out, picture.as_slice())
    };
    match outcome {
        Ok(()) => status,
        Err(refusal) => finish(out, &Err(refusal)),
    }
}

/// Sets the record that a reader gives beside the other one of a pair, and gives the status.
fn run_pair<H: Files + Input, R: Read, W: Write, E: Write>(
    rt: &H,
    alloc: Global,
    pair: &Pair,
    form: Form,
    first: &mut WatchedReader<R>,
    out: &mut WatchedWriter<W>,
    errors: &mut E,
    style: Style,
) -> u8 {
    let path = pair.second.as_str();
    let names = (name_of(pair.first.as_str()), name_of(path));
    let by_fates = pair.by_fates;
    if path == "-" {
        if pair.first.as_str() == "-" {
            let _ = writeln!(errors, "poolrun: only one record can be the standard input");
            return 2;
        }
        let second = &mut WatchedReader::new(rt.reader());
        return run_diff(
            alloc, by_fates, form, names, first, second, out, errors, style,
        );
    }
    match fs::open(rt, path) {
        Ok(file) => {
            let second = &mut WatchedReader::new(file);
            run_diff(
                alloc, by_fates, form, names, first, second, out, errors, style,
            )
        }
        Err(reason) => {
            tell(errors, path, &reason);
            finish(out, &Err(PoolError::ReadFailed))
        }
    }
}

/// How many bytes a file has that is read to its end, where that is known.
fn bytes_at<H: Files>(rt: &H, path: &str) -> Option<u64> {
    match fs::metadata(rt, path) {
        Ok(file) if file.is_file() => Some(file.len()),
        _ => None,
    }
}

/// Does what was chosen with what stands at its path, `-` being the standard input, and gives the status. The output goes to `out`, to
/// `errors` what is told beside, and to `progress` how far a long text is read.
fn run_choice<'a, H: Host, W: Write, E: Write, T: Write>(
    rt: &'a H,
    alloc: Global,
    choice: &'a Choice,
    out: &mut WatchedWriter<W>,
    errors: &mut E,
    progress: &'a mut T,
    style: Style,
) -> u8 {
    let path = choice.path();
    let total = if style.shows_progress {
        bytes_at(rt, path)
    } else {
        None
    };
    let told = Progress::new(style.shows_progress, rt, progress, name_of(path), total);
    if path == "-" {
        let reader = ToldReader::new(rt.reader(), told);
        return run_reader(*rt, alloc, choice, reader, out, errors, style);
    }
    let file = match fs::open(rt, path) {
        Ok(file) => file,
        Err(reason) => {
            tell(errors, path, &reason);
            return finish(out, &Err(PoolError::ReadFailed));
        }
    };
    run_reader(
        *rt,
        alloc,
        choice,
        ToldReader::new(file, told),
        out,
        errors,
        style,
    )
}

/// Prints a text that the command line itself asks for: status 0, or 1 where it can't be written.
fn show<T: Display, W: Write>(text: &T, out: &mut W) -> u8 {
    if write!(out, "{text}").is_ok() && out.flush().is_ok() {
        0
    } else {
        1
    }
}

/// Gives the parser's text: the version on `out`, status 0; anything else on `errors`, status 2.
fn show_usage<W: Write, E: Write>(error: &clap::Error, out: &mut W, errors: &mut E) -> u8 {
    if error.kind() != ErrorKind::DisplayVersion {
        let _ = write!(errors, "{error}");
        return 2;
    }
    show(error, out)
}

/// What the standard error is.
#[derive(Clone, Copy)]
pub struct Terminal {
    /// Whether it is a terminal.
    pub is_one: bool,
    /// Whether its user wants no colours.
    pub forbids_colours: bool,
}

/// How that is written which is told beside the output.
fn style_on(terminal: Terminal, colour: Colour) -> Style {
    Style {
        has_colours: match colour {
            Colour::Auto => terminal.is_one && !terminal.forbids_colours,
            Colour::Always => true,
            Colour::Never => false,
        },
        shows_progress: terminal.is_one,
    }
}

/// The status of the program by the words of its command line, its own name first. The output goes to
/// `out`, a refusal of the whole run as its last line, and to `errors` what is told beside: what is wrong with a text that is
/// refused, the reason why a file can't be opened or read, or why `out` failed, and the parser's texts. To `progress`, which writes to the
/// same terminal, goes how far a long text is read.
pub fn program<H: Host, W: Write, E: Write, T: Write>(
    rt: &H,
    alloc: Global,
    words: &[String],
    out: &mut W,
    errors: &mut E,
    progress: &mut T,
    terminal: Terminal,
) -> u8 {
    let mut out = WatchedWriter::new(out);
    let status = match chosen(alloc, words) {
        Ok(chosen) => {
            let style = style_on(terminal, chosen.colour);
            run_choice(rt, alloc, &chosen.choice, &mut out, errors, progress, style)
        }
        Err(Unchosen::NoMemory) => finish(&mut out, &Err(PoolError::NoMemory)),
        Err(Unchosen::Usage(error)) => show_usage(&error, &mut out, errors),
        Err(Unchosen::Completions(script)) => show(&script, &mut out),
        Err(Unchosen::Unnamed(word)) => {
            let _ = writeln!(
                errors,
                "poolrun: '{word}' names no task, as t4, and no slot, as w0"
            );
            2
        }
    };
    if let Some(reason) = out.failure() {
        tell(errors, "standard output", reason);
    }
    status
}

/// The status where there is no memory for the words of the command line.
pub fn without_memory<W: Write>(out: &mut W) -> u8 {
    finish(&mut WatchedWriter::new(out), &Err(PoolError::NoMemory))
}

/// The status where the words of the command line can't be had: there is no memory for them, or one of
/// them is no UTF-8 text, which a path has to be.
pub fn without_words<W: Write, E: Write>(reason: &io::Error, out: &mut W, errors: &mut E) -> u8 {
    if reason.kind() == io::ErrorKind::OutOfMemory {
        return without_memory(out);
    }
    let _ = writeln!(
        errors,
        "poolrun: a word of the command line is not UTF-8 text: {reason}"
    );
    2
}
