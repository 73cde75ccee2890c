//! Transcripts: texts, and what the program's commands give for them.
//!
//! | Mark | What stands behind it |
//! |---|---|
//! | `<`, `<<` | a line of the text, or of the second text; `<-` and `<<-` where no line feed ends it |
//! | `$` | the words of a call, behind the program's name. A word with spaces stands in quotes |
//! | `status` | the status of the call, where it is not 0 |
//! | `room` | how many bytes its output takes, where that is not all |
//! | `>`, `!` | a line of the call's output, or of its errors |
//!
//! The texts are the files `a.txt` and `b.txt`, and what a call printed is `out.txt` until the next one. In a line of what a call gives
//! `...` stands for anything, and alone for any lines.

use crate::calls::{Called, call};
use anyhow::anyhow;
use poolrun_program::hosts::Host;
use std::alloc::{AllocError, Global};
use std::{fs, io};
use tp_text::numbers::number;

/// A call, and what it is to give.
#[derive(Drop)]
struct Call {
    line: String,
    status: u32,
    room: usize,
    out: String,
    errors: String,
}

/// The texts of a row, and the calls on them.
#[derive(Drop)]
pub struct Transcript {
    first: Option<String>,
    second: Option<String>,
    calls: Vec<Call>,
}

/// Adds a line and its end.
fn push_line(text: &mut String, line: &str) -> Result<(), AllocError> {
    text.push_str(line)?;
    text.push('\n')
}

/// Adds a line, with this end, to a text that may not be there yet.
fn push_text(
    alloc: Global,
    text: &mut Option<String>,
    line: &str,
    end: &str,
) -> Result<(), AllocError> {
    let mut whole = text.take().unwrap_or(String::new(alloc));
    whole.push_str(line)?;
    whole.push_str(end)?;
    *text = Some(whole);
    Ok(())
}

/// A call by this command line, of which nothing is said yet.
fn call_of(alloc: Global, line: &str) -> Result<Call, AllocError> {
    Ok(Call {
        line: String::from_str(alloc, line)?,
        status: 0,
        room: usize::MAX,
        out: String::new(alloc),
        errors: String::new(alloc),
    })
}

impl Call {
    /// Notes a line of what it is to give. The answer says whether there is such a mark.
    fn note(&mut self, mark: &str, rest: &str) -> Result<bool, AllocError> {
        match mark {
            "status" => self.status = number(rest).unwrap_or(u32::MAX),
            "room" => self.room = number(rest).unwrap_or(0) as usize,
            ">" => push_line(&mut self.out, rest)?,
            "!" => push_line(&mut self.errors, rest)?,
            _ => return Ok(mark.is_empty()),
        }
        Ok(true)
    }

    /// Whether a call gave what it is to give.
    fn gave(&self, called: &Called) -> bool {
        u32::from(called.status) == self.status
            && is_like(called.out.as_slice(), self.out.as_str())
            && is_like(called.errors.as_slice(), self.errors.as_str())
    }
}

impl Transcript {
    /// Notes a line. The answer says whether there is such a mark.
    fn note(&mut self, alloc: Global, mark: &str, rest: &str) -> Result<bool, AllocError> {
        match mark {
            "<" => push_text(alloc, &mut self.first, rest, "\n")?,
            "<-" => push_text(alloc, &mut self.first, rest, "")?,
            "<<" => push_text(alloc, &mut self.second, rest, "\n")?,
            "<<-" => push_text(alloc, &mut self.second, rest, "")?,
            "$" => self.calls.push(call_of(alloc, rest)?)?,
            _ => {
                return match self.calls.last_mut() {
                    Some(call) => call.note(mark, rest),
                    None => Ok(false),
                };
            }
        }
        Ok(true)
    }

    /// The first text; an empty one where there is none.
    pub fn text(&self) -> &str {
        self.first.as_deref().unwrap_or("")
    }
}

/// What the text of a row says, or its first line that says nothing.
pub fn transcript_of(alloc: Global, text: &str) -> Result<Result<Transcript, &str>, AllocError> {
    let mut transcript = Transcript {
        first: None,
        second: None,
        calls: Vec::new(alloc),
    };
    for line in text.lines() {
        let (mark, rest) = line.split_once(' ').unwrap_or((line, ""));
        if !transcript.note(alloc, mark, rest)? {
            return Ok(Err(line));
        }
    }
    Ok(Ok(transcript))
}

/// What stands in a text behind the first place of this piece.
fn behind<'a>(text: Option<&'a str>, piece: &str) -> Option<&'a str> {
    let (_, rest) = text?.split_once(piece)?;
    Some(rest)
}

/// Whether a line is like another, in which `...` stands for anything: the first piece of the other one is at its begin, the last one is
/// at its end, and each between them is looked for behind the one before.
fn is_line_like(line: &str, like: &str) -> bool {
    let Some((start, pieces)) = like.split_once("...") else {
        return line == like;
    };
    let (between, end) = pieces.rsplit_once("...").unwrap_or(("", pieces));
    let mut rest = line.strip_prefix(start);
    for piece in between.split("...") {
        rest = behind(rest, piece);
    }
    rest.is_some_and(|rest| rest.ends_with(end))
}

/// Whether a text is like another line by line. There a line `...` stands for any lines.
fn is_like(text: &[u8], wanted: &str) -> bool {
    let mut wanted = wanted.lines();
    let mut next = wanted.next();
    let mut skips = false;
    for line in str::from_utf8(text).unwrap_or("no text").lines() {
        if next == Some("...") {
            skips = true;
            next = wanted.next();
        }
        match next {
            Some(like) if is_line_like(line, like) => {
                skips = false;
                next = wanted.next();
            }
            _ if skips => {}
            _ => return false,
        }
    }
    let is_whole = text.is_empty() || text.last() == Some(&b'\n') || skips;
    (next.is_none() && is_whole) || (next == Some("...") && wanted.next().is_none())
}

/// Writes a text to the file at a path, or removes what was there before.
fn lay<H: Host>(rt: &H, path: &str, text: Option<&str>) -> io::Result<()> {
    match text {
        Some(text) => fs::write(rt, path, text.as_bytes()),
        None => {
            let _ = fs::remove_file(rt, path);
            Ok(())
        }
    }
}

/// A call gives what it is to give; else what it gave is printed.
fn play_call<H: Print + Host>(rt: &H, alloc: Global, wanted: &Call) -> anyhow::Result<()> {
    let line = wanted.line.as_str();
    let called = call(rt, alloc, line, wanted.room)?;
    if !wanted.gave(&called) {
        println!(rt; "{line}: {called}")?;
        return Err(anyhow!("this call gives something else"));
    }
    Ok(fs::write(rt, "out.txt", called.out.as_slice())?)
}

/// Each call of a row gives what it is to give.
pub fn plays<H: Print + Host>(rt: &H, alloc: Global, row: &Transcript) -> anyhow::Result<()> {
    lay(rt, "a.txt", row.first.as_deref())?;
    lay(rt, "b.txt", row.second.as_deref())?;
    for wanted in &row.calls {
        play_call(rt, alloc, wanted)?;
    }
    Ok(())
}
