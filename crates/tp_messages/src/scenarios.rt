//! What is wrong with a line of a scenario, of a file of jobs, or of a file of callers.

use crate::callers::{has_many_callers, in_caller_line};
use crate::forms::{JOB_FORMS, POOL_FORMS, STEP_FORMS};
use crate::line_kinds::{LineKind, has_kind, kind_of_text, line_kind};
use crate::lines::{Line, line_at};
use crate::mistakes::{Finding, Kind, Mistake, of_bytes, of_line, of_word, of_words};
use crate::settings::refused_setting;
use crate::tellings::Room;
use tp_text::lines::{clean_text, is_skipped, next_line};
use tp_text::pools::{PoolLine, pool_of};
use tp_text::words::first_word;
use tp_types::refusals::PoolError;

/// A place in a text: so many lines before it say something.
#[derive(Clone, Copy)]
struct Place {
    before: usize,
    /// The number of the line there.
    number: u32,
}

/// The line that says something behind so many others; past the end if there is none.
fn place_behind(text: &[u8], lines: usize) -> Place {
    let mut rest = text;
    let mut before = 0usize;
    for number in 1..u32::MAX {
        let Some((line, behind)) = next_line(rest) else {
            return Place { before, number };
        };
        if !is_skipped(line) {
            if before == lines {
                return Place { before, number };
            }
            before = before.saturating_add(1);
        }
        rest = behind;
    }
    Place {
        before,
        number: u32::MAX,
    }
}

/// The number of the line that says something behind so many others; past the end if there is none.
fn line_behind(text: &[u8], lines: usize) -> u32 {
    place_behind(text, lines).number
}

/// How many jobs a file of jobs has.
pub fn count_jobs(text: &[u8]) -> usize {
    // The first line that says something is the pool line.
    place_behind(text, usize::MAX).before.saturating_sub(1)
}

/// The pool line of a text, where it has one.
pub fn pool_line_of(text: &[u8]) -> Option<PoolLine> {
    pool_of(clean_text(line_at(text, first_line(text)).bytes)?)
}

/// The number of the line that should be the pool line.
pub fn first_line(text: &[u8]) -> u32 {
    line_behind(text, 0)
}

/// What is wrong with a line that should be the pool line.
fn in_pool_line<'a>(line: Line<'a>, text: &'a str) -> Finding<'a> {
    match line_kind(text) {
        LineKind::Submit | LineKind::Execute | LineKind::Step | LineKind::End | LineKind::Caller =>
            { of_word(line, text, 0, Mistake::EarlyLine(first_word(text).0)) }
        _ => of_words(line, 0, POOL_FORMS, text),
    }
}

/// What is wrong with a step.
fn in_step<'a>(line: Line<'a>, text: &'a str) -> Finding<'a> {
    match line_kind(text) {
        LineKind::Pool => of_word(line, text, 0, Mistake::SecondPoolLine),
        LineKind::Execute => of_line(line, Mistake::OtherKind(Kind::Jobs)),
        LineKind::Entry => of_line(line, Mistake::OtherKind(Kind::Record)),
        LineKind::Caller => of_line(line, Mistake::OtherKind(Kind::Callers)),
        _ => of_words(line, 0, STEP_FORMS, text),
    }
}

/// What is wrong with a job.
fn in_job<'a>(line: Line<'a>, text: &'a str) -> Finding<'a> {
    match line_kind(text) {
        LineKind::Pool => of_word(line, text, 0, Mistake::SecondPoolLine),
        LineKind::Step | LineKind::End => of_line(line, Mistake::OtherKind(Kind::Scenario)),
        _ if has_kind(text) => of_line(line, Mistake::OtherKind(Kind::Scenario)),
        LineKind::Entry => of_line(line, Mistake::OtherKind(Kind::Record)),
        LineKind::Caller => of_line(line, Mistake::OtherKind(Kind::Callers)),
        _ => of_words(line, 0, JOB_FORMS, text),
    }
}

/// Whether the first line of a text that says something is an entry.
fn begins_with_entry(text: &[u8]) -> bool {
    match clean_text(line_at(text, first_line(text)).bytes) {
        Some(words) => matches!(line_kind(words), LineKind::Entry),
        None => false,
    }
}

/// What a text is, where its lines say that it is of another kind than this one. A job is also a call that lacks its caller.
fn other_text(kind: Kind, text: &[u8]) -> Option<Mistake<'static>> {
    let found = kind_of_text(text)?;
    if found == kind || (kind == Kind::Callers && found == Kind::Jobs) {
        return None;
    }
    Some(if begins_with_entry(text) {
        Mistake::Printed
    } else {
        Mistake::OtherKind(found)
    })
}

/// What is wrong with the line of this number, which its reader refused.
pub fn in_line(kind: Kind, text: &[u8], number: u32) -> Finding<'_> {
    let line = line_at(text, number);
    if let Kind::Callers = kind {
        if has_many_callers(text, number) {
            return of_line(line, Mistake::ManyCallers);
        }
    }
    if text.is_empty() {
        return of_line(line, Mistake::Empty(kind));
    }
    if line.bytes.is_empty() {
        return of_line(line, Mistake::NoPoolLine);
    }
    if let Some(mistake) = other_text(kind, text) {
        return of_line(line, mistake);
    }
    if let Some(finding) = of_bytes(line) {
        return finding;
    }
    match clean_text(line.bytes) {
        None => of_line(line, Mistake::Unknown),
        Some(words) if number <= first_line(text) => in_pool_line(line, words),
        Some(words) => match kind {
            Kind::Jobs => in_job(line, words),
            Kind::Callers => in_caller_line(text, line, words),
            _ => in_step(line, words),
        },
    }
}

/// The setting for which a pool line is refused.
pub fn in_settings(line: Line<'_>, refusal: PoolError) -> Option<Finding<'_>> {
    let words = clean_text(line.bytes)?;
    let (word, setting) = refused_setting(pool_of(words)?, refusal)?;
    Some(of_word(line, words, word, Mistake::Setting(setting)))
}

/// The job, counted from 1, whose submission was refused so, in a pool whose record has this room.
pub fn in_job_refused(text: &[u8], job: usize, refusal: PoolError, room: Room) -> Finding<'_> {
    of_line(
        // The pool line comes before the first job.
        line_at(text, line_behind(text, job)),
        Mistake::Job(job, refusal, room),
    )
}
