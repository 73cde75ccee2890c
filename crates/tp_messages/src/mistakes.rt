//! What is wrong with a text, and where.

use crate::faults::{Fault, fault_in};
use crate::forms::Forms;
use crate::lines::Line;
use crate::settings::Setting;
use crate::tellings::Room;
use crate::wordings::Wording;
use crate::words::{start_of, word_at};
use tp_types::refusals::PoolError;

/// What a text may be of.
#[derive(Clone, Copy, PartialEq, Eq)]
pub enum Kind {
    /// A scenario, for `poolrun steps`.
    Scenario,
    /// A file of jobs, for `poolrun threads`.
    Jobs,
    /// A record, for `poolrun audit`.
    Record,
    /// A file of callers, for `poolrun explore`.
    Callers,
}

/// What is wrong with a line.
#[derive(Clone, Copy)]
pub enum Mistake<'a> {
    /// Bytes that may stand in no line.
    Bytes(Fault),
    /// A tab within a line; words are divided by one space.
    Tab,
    /// A text of this kind has no byte.
    Empty(Kind),
    /// The text ends before its pool line.
    NoPoolLine,
    /// This word stands where the pool line is wanted.
    EarlyLine(&'a str),
    /// A second pool line.
    SecondPoolLine,
    /// A line of a text of another kind.
    OtherKind(Kind),
    /// A text that is what `poolrun steps` printed, and no record.
    Printed,
    /// A pool line or a comment, where a record begins.
    PoolFirst,
    /// A record's first line says this, which is no form that is read.
    OtherVersion(&'a str),
    /// A word that does not fit, one too many, or one too few.
    Words(Wording<'a>),
    /// A setting that no pool can have.
    Setting(Setting),
    /// A record's first line is neither `tprecord 2` nor `tprecord 1`.
    NoVersion,
    /// An entry stands where a record begins.
    Headless,
    /// A record's pool line has a limit of 4,096 entries, which is not written.
    UsualLimit,
    /// An empty line or a comment, in a record.
    Skipped,
    /// An entry without its number, which is this one.
    Unnumbered(u32),
    /// An entry of another number than this one.
    Misnumbered(u32),
    /// An entry that names pass 0, which is not written.
    PassNought,
    /// An entry that says priority 0, which is not written.
    PriorityNought,
    /// A priority, or a queue that goes by priority, in a record that begins with `tprecord 1`.
    FirstForm,
    /// The last line of a record of so many entries says another number.
    Miscounted(u32),
    /// A record of so many entries has no last line.
    NoEnd(u32),
    /// Something stands behind a record's last line.
    BehindEnd,
    /// The submission of this job, counted from 1, is refused so, where the record has this room.
    Job(usize, PoolError, Room),
    /// A call stands in a line of its own, behind no `caller`.
    CallWithoutCaller,
    /// A second line says what the factory does.
    SecondFactory,
    /// A semicolon has no space behind it, or no call.
    Semicolon,
    /// This may not name a task.
    BadName(&'a str),
    /// A second task has this name.
    NameTwice(&'a str),
    /// No task has this name.
    NoSuchName(&'a str),
    /// There are more than 4,096 callers.
    ManyCallers,
    /// None of these.
    Unknown,
}

/// A mistake, and where it is.
#[derive(Clone, Copy)]
pub struct Finding<'a> {
    /// The line.
    pub line: Line<'a>,
    /// Where it begins in the line, in bytes, counted from 0.
    pub start: usize,
    /// How many bytes it takes.
    pub width: usize,
    /// What is wrong.
    pub mistake: Mistake<'a>,
}

/// A mistake of a whole line.
pub fn of_line<'a>(line: Line<'a>, mistake: Mistake<'a>) -> Finding<'a> {
    Finding {
        line,
        start: 0,
        width: line.bytes.len(),
        mistake,
    }
}

/// A mistake of a line's word, counted from 0.
pub fn of_word<'a>(
    line: Line<'a>,
    text: &'a str,
    word: usize,
    mistake: Mistake<'a>,
) -> Finding<'a> {
    Finding {
        line,
        start: start_of(text, word),
        width: word_at(text, word).unwrap_or("").len(),
        mistake,
    }
}

/// A line's words beside forms, where the first of them stands behind so many bytes.
pub fn of_words<'a>(line: Line<'a>, before: usize, forms: Forms, text: &'a str) -> Finding<'a> {
    let wording = Wording::new(forms, text);
    Finding {
        line,
        start: before.saturating_add(start_of(text, wording.fitting)),
        width: wording.found.len(),
        mistake: if wording.found.is_empty() && wording.may_end() {
            Mistake::Unknown
        } else {
            Mistake::Words(wording)
        },
    }
}

/// How many spaces stand side by side in a line, behind so many bytes.
fn count_spaces(bytes: &[u8], start: usize) -> usize {
    let mut count = 0usize;
    for byte in bytes.iter().skip(start) {
        if *byte != b' ' {
            return count;
        }
        count = count.saturating_add(1);
    }
    count
}

/// The width of a fault that begins at this byte of the line.
fn width_of_fault(line: Line<'_>, start: usize, fault: Fault) -> usize {
    match fault {
        Fault::ByteOrderMark => 3,
        Fault::WideText => 2,
        Fault::SpaceFirst | Fault::TwoSpaces | Fault::SpaceLast => count_spaces(line.bytes, start),
        _ => 1,
    }
}

/// Where a tab stands in a line that is no comment.
fn tab_in(bytes: &[u8]) -> Option<usize> {
    if bytes.starts_with(b"#") {
        return None;
    }
    for (place, byte) in bytes.iter().enumerate() {
        if *byte == b'\t' {
            return Some(place);
        }
    }
    None
}

/// What is wrong with a line's bytes, a tab among them.
pub fn of_bytes(line: Line<'_>) -> Option<Finding<'_>> {
    if let Some((start, fault)) = fault_in(line) {
        return Some(Finding {
            line,
            start,
            width: width_of_fault(line, start, fault),
            mistake: Mistake::Bytes(fault),
        });
    }
    Some(Finding {
        line,
        start: tab_in(line.bytes)?,
        width: 1,
        mistake: Mistake::Tab,
    })
}
