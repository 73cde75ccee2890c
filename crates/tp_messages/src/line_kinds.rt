//! What kind a line is of, and a text.

use crate::mistakes::Kind;
use crate::places::fits;
use crate::words::word_at;
use tp_text::lines::{clean_text, next_line};
use tp_text::numbers::number;
use tp_text::words::{command, first_word};

/// What a line is of.
#[derive(Clone, Copy)]
pub enum LineKind {
    /// The first line of a record.
    Version,
    /// A pool line.
    Pool,
    /// A comment.
    Comment,
    /// An entry of a record, with its number.
    Entry,
    /// A step that is a job too, or a job.
    Submit,
    /// A job that is no step.
    Execute,
    /// A step that is no job.
    Step,
    /// A step that says which worker ends, or the last line of a record.
    End,
    /// A line of a file of callers.
    Caller,
    /// None of these.
    Other,
}

/// The kind of a line, by its first words.
pub fn line_kind(text: &str) -> LineKind {
    let (word, rest) = first_word(text);
    match word {
        "tprecord" => LineKind::Version,
        "pool" => LineKind::Pool,
        "submit" => LineKind::Submit,
        "execute" => LineKind::Execute,
        "end" => LineKind::End,
        "caller" | "factory" => LineKind::Caller,
        _ if word.starts_with('#') => LineKind::Comment,
        _ if command(word).is_some() => LineKind::Step,
        _ if number(word).is_some() && rest.is_some() => LineKind::Entry,
        _ => LineKind::Other,
    }
}

/// The kinds of tasks, which a scenario says in its second words and a file of jobs does not.
const TASK_KINDS: &[&str] = &["plain", "future", "group"];

/// Whether a line's second word is a kind of task.
pub fn has_kind(text: &str) -> bool {
    match word_at(text, 1) {
        Some(word) => TASK_KINDS.contains(&word),
        None => false,
    }
}

/// Whether a submission says at once how it ends, as a job does.
fn is_job(text: &str) -> bool {
    match word_at(text, 1) {
        Some(word) => fits("V", word) || fits("!N", word),
        None => false,
    }
}

/// The kind of text in which alone a line stands, where its words say it.
fn kind_of_line(text: &str) -> Option<Kind> {
    match line_kind(text) {
        LineKind::Version | LineKind::Entry => Some(Kind::Record),
        LineKind::Execute => Some(Kind::Jobs),
        LineKind::Caller => Some(Kind::Callers),
        LineKind::Step => Some(Kind::Scenario),
        LineKind::Submit if has_kind(text) => Some(Kind::Scenario),
        _ => None,
    }
}

/// The kind of a text by its lines, where one of them says it. A submission that says no kind of task may be a job, or a step that
/// lacks a word: so it counts only where no other line says what the text is.
pub fn kind_of_text(text: &[u8]) -> Option<Kind> {
    let mut rest = text;
    let mut maybe = None;
    for _ in text {
        if rest.is_empty() {
            return maybe;
        }
        let (line, behind) = next_line(rest).unwrap_or((rest, b""));
        if let Some(words) = clean_text(line) {
            if let Some(kind) = kind_of_line(words) {
                return Some(kind);
            }
            if matches!(line_kind(words), LineKind::Submit) && is_job(words) {
                maybe = Some(Kind::Jobs);
            }
        }
        rest = behind;
    }
    maybe
}
