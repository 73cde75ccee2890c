//! `diff`: where two records part.

ghost use Rattle.std.specs.Prelude.{ℕ, ◌≡◌, ◌↔◌, ◌++◌, List, IfErr, IfOk, IsOkUnless, IsTrue, OnOk, string_bytes};
ghost use Rattle.tp_record.specs.declared.entries.Entry.{Entry as Told};
ghost use Rattle.tp_story_claims.specs.Differences as differences;
ghost use Rattle.tp_story_claims.specs.Listed.{listed};

use crate::sources::Source;
use std::alloc::{AllocError, Global};
use tp_audit_plain::plain::are_same;
use tp_audit_plain::summary::Flaw;
use tp_record::entries::Entry;
use tp_story::fronts::Front;
use tp_story_words::forms::{Form, Quoted};
use tp_story_words::fronts::front_text;
use tp_text::entries::write_entry;
use tp_types::refusals::PoolError;

/// One of two records.
#[derive(Clone, Copy, Debug, PartialEq, Eq)]
pub enum Side {
    /// The first.
    First,
    /// The second.
    Second,
}

/// Which of two records was refused, and why.
pub type RefusedRecord = (Side, PoolError);

/// How two records go on behind the entries that they share.
#[derive(Clone, Copy, Debug, PartialEq, Eq)]
pub enum Meeting {
    /// Both end.
    Same,
    /// They have these entries next, which differ, or one of them ends.
    Parted(Option<Entry>, Option<Entry>),
    /// Both have this entry next, which is a flaw with this number.
    Flawed(usize, Entry),
}

/// Whether two entries stand in the same line: they are made by the same pass, and did the same.
fn are_alike(first: &Entry, second: &Entry) -> bool
    ensures { IsTrue result ↔ differences.shown first.now ≡ differences.shown second.now }
{
    first.by == second.by && are_same(first.did, second.did)
}

/// The entry that two records both have next; else how they go on.
fn next_of(first: Option<Entry>, second: Option<Entry>) -> Result<Entry, Meeting>
    ensures shared { IfOk result (λ e. differences.AreNext first second e) }
    ensures met { IfErr result (λ m. differences.IsEnd first second m) }
{
    match (first, second) {
        (None, None) => Err(Meeting::Same),
        (Some(one), Some(other)) => {
            if are_alike(&one, &other) {
                Ok(one)
            } else {
                Err(Meeting::Parted(first, second))
            }
        }
        (one, other) => Err(Meeting::Parted(one, other)),
    }
}

/// The next entry of each of two records, None where it ends.
fn next_pair<A: Source, B: Source>(
    first: &mut A,
    second: &mut B,
) -> Result<(Option<Entry>, Option<Entry>), RefusedRecord>
    ensures { IfOk result (λ p. (es fs : List Told) → A.gave first.old es → B.gave second.old fs
        → A.gave first.new (es ++ listed p.0) × B.gave second.new (fs ++ listed p.1)) }
{
    let one = match first.next() {
        Ok(one) => one,
        Err(refusal) => return Err((Side::First, refusal)),
    };
    match second.next() {
        Ok(other) => Ok((one, other)),
        Err(refusal) => Err((Side::Second, refusal)),
    }
}

/// The most entries of a record.
const MOST: u64 = 1 << 32;

/// Follows two records as long as they have the same entries, and these are given, and says how they go on. Refused as the sources
/// refuse, and 4 is want of memory.
pub fn follow<A: Source, B: Source>(
    front: &mut Front,
    first: &mut A,
    second: &mut B,
) -> Result<Meeting, RefusedRecord>
    requires { differences.GoTogether A.gave B.gave first.old second.old front.old }
    ensures { IfOk result (λ m. differences.Meet A.gave B.gave first.new second.new front.new m) }
{
    for _ in 0..MOST {
        let (one, other) = match next_pair(first, second) {
            Ok(pair) => pair,
            Err(refused) => return Err(refused),
        };
        let entry = match next_of(one, other) {
            Ok(entry) => entry,
            Err(meeting) => return Ok(meeting),
        };
        match front.tell(&entry) {
            Ok(()) => {}
            Err(Flaw::At(number)) => return Ok(Meeting::Flawed(number, entry)),
            Err(Flaw::NoMemory) => return Err((Side::First, PoolError::NoMemory)),
        }
    }
    Err((Side::First, PoolError::ReadFailed))
}

/// An entry's line, or that there is none, behind what is written.
fn write_line_of(text: &mut String, number: usize, entry: Option<Entry>) -> Result<(), AllocError>
    ensures { OnOk result (string_bytes text.new ≡ string_bytes text.old ++ differences.line_of number entry) }
{
    match entry {
        Some(entry) => write_entry(text, number, &entry),
        None => text.push_str("the record ends\n"),
    }
}

/// The lines of two records, each behind its mark.
fn in_words(
    alloc: Global,
    number: usize,
    first: Option<Entry>,
    second: Option<Entry>,
) -> Result<String, AllocError>
    ensures { IfOk result (λ text. string_bytes text ≡ differences.both_lines number first second) }
{
    let mut text = String::new(alloc);
    text.push_str("< ")?;
    write_line_of(&mut text, number, first)?;
    text.push_str("> ")?;
    write_line_of(&mut text, number, second)?;
    Ok(text)
}

/// The lines of two records as JSON, and the end of their object.
fn as_json(
    alloc: Global,
    number: usize,
    first: Option<Entry>,
    second: Option<Entry>,
) -> Result<String, AllocError> {
    let mut one = String::new(alloc);
    write_line_of(&mut one, number, first)?;
    let _ = one.pop();
    let mut other = String::new(alloc);
    write_line_of(&mut other, number, second)?;
    let _ = other.pop();
    let first = Quoted(one.as_str());
    let second = Quoted(other.as_str());
    format!(in alloc; "\"first\":{first},\"second\":{second}}}\n")
}

/// The line that says at which entry the records part.
fn parting_line(alloc: Global, number: usize, form: Form) -> Result<String, AllocError>
    ensures { IfOk result (λ line. string_bytes line ≡ differences.parting_head form number) }
{
    match form {
        Form::Words => format!(in alloc; "the records part at entry {number}\n"),
        Form::Json => format!(in alloc; "{{\"part\":{number},"),
    }
}

/// What is told of the entries behind those that two records share.
fn lines_of(
    alloc: Global,
    number: usize,
    first: Option<Entry>,
    second: Option<Entry>,
    form: Form,
) -> Result<String, AllocError>
    ensures { IfOk result (λ text. differences.AreLines form number first second (string_bytes text)) }
{
    match form {
        Form::Words => in_words(alloc, number, first, second),
        Form::Json => as_json(alloc, number, first, second),
    }
}

/// What is told of records that part behind the entries that were followed: the entry's number, both lines, and the pool before it.
/// Want of memory is NoMemory (4).
pub fn parting_text(
    alloc: Global,
    front: &Front,
    first: Option<Entry>,
    second: Option<Entry>,
    form: Form,
) -> Result<Vec<u8>, PoolError>
    ensures text { IfOk result (λ text. differences.IsParting form front.now first second text.items) }
    ensures only_memory { IsOkUnless result PoolError.NoMemory }
{
    let number = front.tables().steps as usize + 1;
    let mut text = parting_line(alloc, number, form)?.into_bytes();
    let lines = lines_of(alloc, number, first, second, form)?;
    text.extend_from_slice(lines.as_bytes())?;
    let state = front_text(alloc, front, form)?;
    text.extend_from_slice(state.as_slice())?;
    Ok(text)
}
