//! What is wrong with a line of a record text.

use crate::forms::{BODY_FORMS, END_FORMS, ENTRY_FORMS, PASS_FORMS, POOL_FORMS};
use crate::line_kinds::{LineKind, kind_of_text, line_kind};
use crate::lines::{Line, line_at};
use crate::mistakes::{Finding, Kind, Mistake, of_bytes, of_line, of_word, of_words};
use crate::words::count;
use tp_text::lines::{clean_text, is_skipped};
use tp_text::numbers::number as number_of;
use tp_text::pools::pool_of;
use tp_text::words::{behind, first_word};
use tp_types::limits::DEFAULT_RECORD_LIMIT;

/// What is wrong with the first line.
fn in_version<'a>(line: Line<'a>, text: &'a str) -> Finding<'a> {
    let mistake = match line_kind(text) {
        LineKind::Pool | LineKind::Comment => Mistake::PoolFirst,
        LineKind::Entry => Mistake::Headless,
        LineKind::Version => Mistake::OtherVersion(text),
        _ => Mistake::NoVersion,
    };
    of_line(line, mistake)
}

/// What is wrong with the second line.
fn in_pool_line<'a>(line: Line<'a>, text: &'a str) -> Finding<'a> {
    match pool_of(text) {
        None => of_words(line, 0, POOL_FORMS, text),
        Some(pool) if pool.limit == Some(DEFAULT_RECORD_LIMIT) => of_word(
            line,
            text,
            count(text).saturating_sub(2),
            Mistake::UsualLimit,
        ),
        // It is a written pool line, whose queue is of the second form alone.
        Some(_) => of_word(line, text, 3, Mistake::FirstForm),
    }
}

/// What is wrong with an entry's priority, if it has one: it is 0, or the record is of the first form. The words begin at this
/// byte.
fn in_priority<'a>(line: Line<'a>, before: usize, text: &'a str) -> Option<Finding<'a>> {
    let (words, rest) = text.split_once(" prio ")?;
    let (width, mistake) = if first_word(rest).0 == "0" {
        ("prio 0".len(), Mistake::PriorityNought)
    } else {
        ("prio".len(), Mistake::FirstForm)
    };
    Some(Finding {
        line,
        start: before.saturating_add(words.len()).saturating_add(1),
        width,
        mistake,
    })
}

/// What is wrong with an entry's words, which begin at this byte.
fn in_words<'a>(line: Line<'a>, before: usize, text: &'a str) -> Finding<'a> {
    let finding = of_words(line, before, ENTRY_FORMS, text);
    match finding.mistake {
        Mistake::Unknown => in_priority(line, before, text).unwrap_or(finding),
        _ => finding,
    }
}

/// Whether a text begins with a digit.
fn has_digit_first(text: &str) -> bool {
    match text.as_bytes().first() {
        Some(byte) => byte.is_ascii_digit(),
        None => false,
    }
}

/// What is wrong with an entry's words, which begin at this byte, behind the number.
fn in_entry<'a>(line: Line<'a>, before: usize, text: &'a str) -> Finding<'a> {
    let (word, rest) = first_word(text);
    if word == "p0" {
        return Finding {
            line,
            start: before,
            width: 2,
            mistake: Mistake::PassNought,
        };
    }
    let (Some(rest), Some(digits)) = (rest, word.strip_prefix('p')) else {
        return in_words(line, before, text);
    };
    if number_of(digits).is_some() {
        let before = before.saturating_add(word.len()).saturating_add(1);
        return in_words(line, before, rest);
    }
    if has_digit_first(digits) {
        return of_words(line, before, PASS_FORMS, text);
    }
    in_words(line, before, text)
}

/// Whether a line ends a record, and says how many entries it has.
fn is_count(text: &str) -> bool {
    match behind(text, "end") {
        Some(count) => number_of(count).is_some(),
        None => false,
    }
}

/// What is wrong with an entry that should have this number.
fn in_numbered<'a>(line: Line<'a>, next: u32, text: &'a str) -> Finding<'a> {
    let (word, rest) = first_word(text);
    match rest {
        Some(rest) if number_of(word) == Some(next) => {
            in_entry(line, word.len().saturating_add(1), rest)
        }
        _ => of_word(line, text, 0, Mistake::Misnumbered(next)),
    }
}

/// What is wrong with a line behind so many entries.
fn in_body<'a>(line: Line<'a>, entries: u32, text: &'a str) -> Finding<'a> {
    let next = entries.saturating_add(1);
    match line_kind(text) {
        LineKind::Entry => in_numbered(line, next, text),
        LineKind::Submit | LineKind::Step => of_word(line, text, 0, Mistake::Unnumbered(next)),
        LineKind::End if is_count(text) => of_word(line, text, 1, Mistake::Miscounted(entries)),
        LineKind::End => of_words(line, 0, END_FORMS, text),
        _ => of_words(line, 0, BODY_FORMS, text),
    }
}

/// Whether the line of this number ends the record, behind the pool line and entries.
fn ends_record(text: &[u8], number: u32) -> bool {
    let line = line_at(text, number);
    let Some(words) = clean_text(line.bytes) else {
        return false;
    };
    number >= 3 && behind(words, "end").is_some()
}

/// What a record lacks whose text ends before the line of this number.
fn missing<'a>(number: u32) -> Mistake<'a> {
    match number {
        1 => Mistake::Empty(Kind::Record),
        2 => Mistake::NoPoolLine,
        _ => Mistake::NoEnd(number.saturating_sub(3)),
    }
}

/// What is wrong with the words of the line of this number.
fn in_text<'a>(line: Line<'a>, text: &'a str) -> Finding<'a> {
    match line.number {
        1 => in_version(line, text),
        _ if is_skipped(line.bytes) => of_line(line, Mistake::Skipped),
        2 => in_pool_line(line, text),
        number => in_body(line, number.saturating_sub(3), text),
    }
}

/// What is wrong with a line that its reader refused. It may stand behind the line that ends the record.
pub fn in_refused(line: Line<'_>, is_behind_end: bool) -> Finding<'_> {
    if is_behind_end {
        return of_line(line, Mistake::BehindEnd);
    }
    if line.bytes.is_empty() && !line.is_ended {
        return of_line(line, missing(line.number));
    }
    if let Some(finding) = of_bytes(line) {
        return finding;
    }
    match clean_text(line.bytes) {
        Some(text) => in_text(line, text),
        None => of_line(line, Mistake::Unknown),
    }
}

/// What is wrong with the first line of a text that is of this kind, by its lines.
fn in_first(line: Line<'_>, kind: Option<Kind>) -> Option<Finding<'_>> {
    match kind? {
        Kind::Record if is_skipped(line.bytes) => Some(of_line(line, Mistake::Skipped)),
        Kind::Record => None,
        other => Some(of_line(line, Mistake::OtherKind(other))),
    }
}

/// What is wrong with the line of this number, which its reader refused.
pub fn in_line(text: &[u8], number: u32) -> Finding<'_> {
    if number == 1 {
        if let Some(finding) = in_first(line_at(text, 1), kind_of_text(text)) {
            return finding;
        }
    }
    let is_behind_end = ends_record(text, number.saturating_sub(1));
    in_refused(line_at(text, number), is_behind_end)
}
