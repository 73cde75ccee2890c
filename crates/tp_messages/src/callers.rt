//! What is wrong with a line of a file of callers.

use crate::forms::{CALL_FORMS, CALLER_FORMS, NAMED_FORMS};
use crate::line_kinds::{LineKind, line_kind};
use crate::lines::Line;
use crate::mistakes::{Finding, Kind, Mistake, of_line, of_word, of_words};
use crate::places::is_label;
use crate::wordings::Wording;
use crate::words::count;
use tp_text::lines::{clean_text, next_line};
use tp_text::words::{behind, first_word};

/// The names of tasks that a caller's calls give or use.
#[derive(Clone, Copy)]
struct Names<'a> {
    /// The name that the call gives.
    given: Option<&'a str>,
    /// The name that the call uses.
    used: Option<&'a str>,
}

/// The word behind a call's first one, where that speaks of a task.
fn used_by(call: &str) -> Option<&str> {
    let (word, rest) = first_word(call);
    let (name, _) = first_word(rest?);
    match word {
        "cancel" | "remove" => Some(name),
        "await" if name != "end" => Some(name),
        _ => None,
    }
}

/// The names of tasks that a call gives and uses.
fn names_in(call: &str) -> Names<'_> {
    let (word, _) = first_word(call);
    Names {
        given: word.strip_suffix(':'),
        used: used_by(call),
    }
}

/// How many calls of a line give this name.
fn count_in_line(calls: &str, name: &str) -> usize {
    let mut count: usize = 0;
    for call in calls.split("; ") {
        if names_in(call).given == Some(name) {
            count = count.saturating_add(1);
        }
    }
    count
}

/// How many calls of the text give this name, up to the end of this line.
fn count_until(text: &[u8], number: u32, name: &str) -> usize {
    let mut count: usize = 0;
    let mut rest = text;
    for _ in 0..number {
        let Some((line, more)) = next_line(rest) else {
            return count;
        };
        rest = more;
        if let Some(calls) = calls_of(line) {
            count = count.saturating_add(count_in_line(calls, name));
        }
    }
    count
}

/// The calls of a caller's line.
fn calls_of(line: &[u8]) -> Option<&str> {
    behind(clean_text(line)?, "caller")
}

/// The most callers of a file.
const MOST_CALLERS: usize = 4_096;

/// Whether a text has more callers than a file may have, up to the end of the line of this number.
pub fn has_many_callers(text: &[u8], number: u32) -> bool {
    let mut callers: usize = 0;
    let mut rest = text;
    for _ in 0..number {
        let Some((line, more)) = next_line(rest) else {
            return callers > MOST_CALLERS;
        };
        rest = more;
        if calls_of(line).is_some() {
            callers = callers.saturating_add(1);
        }
    }
    callers > MOST_CALLERS
}

/// Whether a text is a call, by its words.
fn is_call(text: &str) -> bool {
    let wording = Wording::new(CALL_FORMS, text);
    wording.found.is_empty() && wording.may_end() && wording.fitting == count(text)
}

/// What is wrong with a part of a line, so many bytes behind its start.
fn of_part<'a>(line: Line<'a>, start: usize, part: &'a str, mistake: Mistake<'a>) -> Finding<'a> {
    Finding {
        line,
        start,
        width: part.len(),
        mistake,
    }
}

/// What is wrong with a call's words, of which the first stands so many bytes behind the line's start.
fn in_words<'a>(line: Line<'a>, start: usize, call: &'a str) -> Option<Finding<'a>> {
    if let Some(place) = call.find(';') {
        let at = start.saturating_add(place);
        return Some(of_part(line, at, ";", Mistake::Semicolon));
    }
    let (word, rest) = first_word(call);
    if let (Some(name), Some(rest)) = (word.strip_suffix(':'), rest) {
        if !is_label(name) {
            return Some(of_part(line, start, name, Mistake::BadName(name)));
        }
        let before = start.saturating_add(word.len()).saturating_add(1);
        return in_form(of_words(line, before, NAMED_FORMS, rest));
    }
    in_form(of_words(line, start, CALL_FORMS, call))
}

/// What was found, unless the words have a form.
fn in_form(found: Finding<'_>) -> Option<Finding<'_>> {
    match found.mistake {
        Mistake::Unknown => None,
        _ => Some(found),
    }
}

/// What is wrong with a call's names, where the text up to this line is known.
fn in_names<'a>(
    text: &'a [u8],
    line: Line<'a>,
    start: usize,
    call: &'a str,
) -> Option<Finding<'a>> {
    let names = names_in(call);
    if let Some(name) = names.given {
        if count_until(text, line.number, name) > 1 {
            return Some(of_part(line, start, name, Mistake::NameTwice(name)));
        }
    }
    let name = names.used?;
    if count_until(text, u32::MAX, name) > 0 {
        return None;
    }
    let (word, _) = first_word(call);
    let at = start.saturating_add(word.len()).saturating_add(1);
    Some(of_part(line, at, name, Mistake::NoSuchName(name)))
}

/// What is wrong with a caller's calls.
fn in_calls<'a>(text: &'a [u8], line: Line<'a>, calls: &'a str) -> Option<Finding<'a>> {
    let mut start = "caller ".len();
    for call in calls.split("; ") {
        if let Some(found) = in_words(line, start, call) {
            return Some(found);
        }
        start = start.saturating_add(call.len()).saturating_add(2);
    }
    start = "caller ".len();
    for call in calls.split("; ") {
        if let Some(found) = in_names(text, line, start, call) {
            return Some(found);
        }
        start = start.saturating_add(call.len()).saturating_add(2);
    }
    None
}

/// What is wrong with a line that is neither of a caller nor of the factory.
fn in_other<'a>(line: Line<'a>, words: &'a str) -> Finding<'a> {
    match line_kind(words) {
        LineKind::Pool => of_word(line, words, 0, Mistake::SecondPoolLine),
        LineKind::Entry => of_line(line, Mistake::OtherKind(Kind::Record)),
        _ if is_call(words) => of_line(line, Mistake::CallWithoutCaller),
        LineKind::Submit | LineKind::Step | LineKind::End => of_line(
            line,
            Mistake::OtherKind(Kind::Scenario),
        ),
        _ => of_words(line, 0, CALLER_FORMS, words),
    }
}

/// What is wrong with a line behind the pool line of a file of callers, which its reader refused.
pub fn in_caller_line<'a>(text: &'a [u8], line: Line<'a>, words: &'a str) -> Finding<'a> {
    let (word, rest) = first_word(words);
    match (word, rest) {
        ("caller", Some(calls)) => match in_calls(text, line, calls) {
            Some(found) => found,
            None => of_line(line, Mistake::Unknown),
        },
        ("factory", Some(_)) => {
            let found = of_words(line, 0, CALLER_FORMS, words);
            match found.mistake {
                Mistake::Unknown => of_line(line, Mistake::SecondFactory),
                _ => found,
            }
        }
        _ => in_other(line, words),
    }
}
