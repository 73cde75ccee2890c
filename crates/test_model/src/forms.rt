//! The two forms of record texts: what each has a line for, texts that are cut or have a wrong byte, and priorities at the ends of
//! their type.

use crate::compare::same;
use crate::known::{LEGAL, RANKED, SECOND_FORM};
use crate::rows::parts;
use crate::streams::last_line;
use std::alloc::{AllocError, Global};
use tp_record::entries::{Ask, Did};
use tp_text_record::records::{Record, read_record};
use tp_text_record::versions::Version;
use tp_text_record::writing::record_text;
use tp_types::limits::MAX_TEXT_BYTES;
use tp_types::refusals::PoolError;

/// Each kind of task with a priority, and each answer behind it.
const KINDS: &str = "\
tprecord 2
pool 1 1 priority keep 0 abort limit 64
1 submit t0 plain prio 1 reserve w0
2 p1 submit t1 future prio 4294967295 queue
3 submit t2 group 7 prio 10 refuse
4 submit t3 group 0 queue
end 4
";

/// One task of a group, with a priority.
const LONE: &str = "\
tprecord 2
pool 0 1 priority keep 0 own
1 submit t0 group 3 prio 5 queue
end 1
";

/// What a text says; it is not too long to be read.
fn read(alloc: Global, text: &[u8]) -> Result<Record, PoolError> {
    if text.len() > MAX_TEXT_BYTES {
        return Err(PoolError::ReadFailed);
    }
    read_record(alloc, text)
}

/// The text of a record in the second form. No clause speaks of the text here, so a test is proved without its long contract.
fn second_form(alloc: Global, record: &Record) -> Result<Vec<u8>, PoolError> {
    record_text(alloc, &record.config, record.entries.as_slice())
}

/// The text of a record in the form in which it was read.
fn written_again(alloc: Global, record: &Record) -> Result<Vec<u8>, PoolError> {
    let mut text = second_form(alloc, record)?;
    if let (Version::One, Some(digit)) = (record.version, text.get_mut(b"tprecord ".len())) {
        *digit = b'1';
    }
    Ok(text)
}

/// Whether a text is that of this record, in the form in which it was read.
fn is_text_of(alloc: Global, text: &[u8], record: &Record) -> Result<bool, PoolError> {
    let again = written_again(alloc, record)?;
    Ok(again.as_slice() == text)
}

/// The form of a text, where it is read and is the text of what it says.
fn form_of(alloc: Global, text: &[u8]) -> Result<Version, PoolError> {
    let record = read(alloc, text)?;
    if is_text_of(alloc, text, &record)? {
        Ok(record.version)
    } else {
        Err(PoolError::TornRecord)
    }
}

/// How a text is refused; None where it is read, and is the text of what it says.
pub fn refusal_of(alloc: Global, text: &[u8]) -> Option<PoolError> {
    form_of(alloc, text).err()
}

static GOOD: [(&str, Version); 5] = [
    (RANKED, Version::Two),
    (KINDS, Version::Two),
    (LONE, Version::Two),
    (LEGAL, Version::One),
    (SECOND_FORM, Version::Two),
];

#[test]
fn reads_both_forms_and_writes_them_again(rt: HostRuntime) {
    for (at, (text, version)) in GOOD.iter().enumerate() {
        let form = form_of(rt.alloc(), parts(text).0);
        same(&rt, at, &form, &Ok(*version));
    }
}

/// Whether two records say the same, and the first is written in the second form as this text.
fn are_same(
    alloc: Global,
    first: &Record,
    second: &Record,
    text: &[u8],
) -> Result<bool, PoolError> {
    let written = second_form(alloc, first)?;
    Ok(
        first.config == second.config
            && first.entries == second.entries
            && written.as_slice() == text,
    )
}

/// Whether the two forms of one record say the same, and it is written in the second.
fn says_the_same(alloc: Global) -> Result<bool, PoolError> {
    let (text, _) = parts(SECOND_FORM);
    let first = read(alloc, parts(LEGAL).0)?;
    let second = read(alloc, text)?;
    are_same(alloc, &first, &second, text)
}

#[test]
fn says_the_same_in_both_forms(rt: HostRuntime) {
    same(&rt, 0, &says_the_same(rt.alloc()), &Ok(true));
}

/// Each cut of a good text is wrong at the line that is cut, or that is missing.
#[test]
fn refuses_each_cut_text(rt: HostRuntime) {
    for (row, _) in &GOOD {
        let (text, _) = parts(row);
        for end in 0..text.len() {
            let cut = &text[..end];
            let wanted = Some(PoolError::BadEntry(last_line(cut)));
            same(&rt, end, &refusal_of(rt.alloc(), cut), &wanted);
        }
    }
}

/// A text with one byte changed.
pub fn changed(alloc: Global, text: &[u8], place: usize, byte: u8) -> Result<Vec<u8>, AllocError> {
    let mut text = Vec::from_slice(alloc, text)?;
    if let Some(changed) = text.get_mut(place) {
        *changed = byte;
    }
    Ok(text)
}

/// Whether this is how a text may be refused that was read whole.
pub fn refuses_a_text(refusal: PoolError) -> bool {
    match refusal {
        PoolError::BadEntry(_)
        | PoolError::BadSizes
        | PoolError::BadCapacity
        | PoolError::BadLimit
        | PoolError::KeepZero => true,
        _ => false,
    }
}

/// Whether a text is refused as a text may be, or is the text of what it says.
fn is_read_as_itself(alloc: Global, text: &[u8]) -> bool {
    match refusal_of(alloc, text) {
        Some(refusal) => refuses_a_text(refusal),
        None => true,
    }
}

/// Whether the text of one task is read as itself with one byte changed.
fn is_read_changed(alloc: Global, place: usize, byte: u8) -> Result<bool, PoolError> {
    let text = changed(alloc, LONE.as_bytes(), place, byte)?;
    Ok(is_read_as_itself(alloc, text.as_slice()))
}

/// A text with any one byte changed is refused, or it is the text of what it says in the form that it says. A text of the first form
/// is changed so in the tests of audits.
#[test]
fn reads_each_changed_text_as_itself(rt: HostRuntime) {
    for place in 0..LONE.len() {
        for byte in 0..=255u8 {
            let is_so = is_read_changed(rt.alloc(), place, byte);
            same(&rt, place, &(byte, is_so), &(byte, Ok(true)));
        }
    }
}

/// The form alone decides: what the first has no line for, and how that is refused.
static FORMS: [(&[u8], Option<PoolError>); 12] = [
    (
        b"tprecord 1\npool 1 1 priority keep 0 abort\nend 0\n",
        Some(PoolError::BadEntry(2)),
    ),
    (b"tprecord 2\npool 1 1 priority keep 0 abort\nend 0\n", None),
    (
        b"tprecord 1\npool 3 2 priority keep 0 abort\nend 0\n",
        Some(PoolError::BadEntry(2)),
    ),
    (
        b"tprecord 2\npool 3 2 priority keep 0 abort\nend 0\n",
        Some(PoolError::BadSizes),
    ),
    (
        b"tprecord 1\npool 1 1 priority keep 0 abort limit 63\nend 0\n",
        Some(PoolError::BadEntry(2)),
    ),
    (
        b"tprecord 2\npool 1 1 priority keep 0 abort coretimeout limit 64\nend 0\n",
        Some(PoolError::KeepZero),
    ),
    (
        b"tprecord 1\npool 1 1 handoff keep 0 abort\n1 submit t0 plain prio 1 reserve w0\nend 1\n",
        Some(PoolError::BadEntry(3)),
    ),
    (
        b"tprecord 2\npool 1 1 handoff keep 0 abort\n1 submit t0 plain prio 1 reserve w0\nend 1\n",
        None,
    ),
    (
        b"tprecord 1\npool 1 1 handoff keep 0 abort\n1 shutdown\n2 submit t0 future prio 4294967295 refuse\nend 2\n",
        Some(PoolError::BadEntry(4)),
    ),
    (
        b"tprecord 3\npool 1 1 handoff keep 0 abort\nend 0\n",
        Some(PoolError::BadEntry(1)),
    ),
    (
        b"tprecord 02\npool 1 1 handoff keep 0 abort\nend 0\n",
        Some(PoolError::BadEntry(1)),
    ),
    (
        b"tprecord\npool 1 1 handoff keep 0 abort\nend 0\n",
        Some(PoolError::BadEntry(1)),
    ),
];

#[test]
fn tells_the_forms_apart(rt: HostRuntime) {
    for (at, (text, wanted)) in FORMS.iter().enumerate() {
        same(&rt, at, &refusal_of(rt.alloc(), text), wanted);
    }
}

/// The text of a record of one entry, the first behind this header.
fn text_with(alloc: Global, header: &str, entry: &str) -> Result<String, AllocError> {
    format!(in alloc; "{header}\npool 1 1 handoff keep 0 abort\n1 {entry}\nend 1\n")
}

/// Lines of entries, each wrong in both forms.
static BAD_ENTRIES: [&str; 24] = [
    "submit t0 plain prio 0 queue",
    "submit t0 plain prio 00 queue",
    "submit t0 plain prio 05 queue",
    "submit t0 plain prio +5 queue",
    "submit t0 plain prio -5 queue",
    "submit t0 plain prio -0 queue",
    "submit t0 plain prio !5 queue",
    "submit t0 plain prio p5 queue",
    "submit t0 plain prio 4294967296 queue",
    "submit t0 plain prio 18446744073709551616 queue",
    "submit t0 plain prio queue",
    "submit t0 plain prio 5",
    "submit t0 plain prio",
    "submit t0 plain 5 queue",
    "submit t0 plain Prio 5 queue",
    "submit t0 plain priority 5 queue",
    "submit t0 plain prio 5 prio 5 queue",
    "submit t0 plain prio  5 queue",
    "submit t0 prio 5 plain queue",
    "submit t0 plain queue prio 5",
    "submit t0 group prio 5 queue",
    "submit t0 group prio 5 3 queue",
    "look t0 prio 5 queue",
    "offer t0 prio 5 queued",
];

static HEADERS: [&str; 2] = ["tprecord 1", "tprecord 2"];

/// The form of the text of one entry behind this header.
fn form_with(alloc: Global, header: &str, entry: &str) -> Result<Version, PoolError> {
    let text = text_with(alloc, header, entry)?;
    form_of(alloc, text.as_bytes())
}

#[test]
fn refuses_bad_priorities(rt: HostRuntime) {
    for (at, entry) in BAD_ENTRIES.iter().enumerate() {
        for header in &HEADERS {
            let given = form_with(rt.alloc(), header, entry);
            same(&rt, at, &given, &Err(PoolError::BadEntry(3)));
        }
    }
}

/// The priority of a submission, as its answer says it and as its ask does.
fn priorities(record: &Record) -> Option<(u32, u32)> {
    match record.entries.first() {
        Some(entry) => match (entry.did, entry.ask) {
            (Did::Submit(_, _, did, _), Ask::Submit(_, ask)) => Some((did, ask)),
            _ => None,
        },
        None => None,
    }
}

/// A submission without words of a priority has priority 0; the others are read to the end of their type.
static PRIORITIES: [(&str, u32); 5] = [
    ("submit t0 plain queue", 0),
    ("submit t0 plain prio 1 queue", 1),
    ("submit t0 future prio 10 queue", 10),
    ("submit t0 group 4294967295 prio 4294967295 queue", u32::MAX),
    (
        "submit t0 plain prio 4294967295 reserve w18446744073709551615",
        u32::MAX,
    ),
];

/// The priority of the submission of this line, where its text is the text of what it says.
fn priorities_of(alloc: Global, entry: &str) -> Result<Option<(u32, u32)>, PoolError> {
    let text = text_with(alloc, "tprecord 2", entry)?;
    let record = read(alloc, text.as_bytes())?;
    if is_text_of(alloc, text.as_bytes(), &record)? {
        Ok(priorities(&record))
    } else {
        Err(PoolError::TornRecord)
    }
}

#[test]
fn reads_priorities_to_the_ends_of_their_type(rt: HostRuntime) {
    for (at, (entry, priority)) in PRIORITIES.iter().enumerate() {
        let given = priorities_of(rt.alloc(), entry);
        same(&rt, at, &given, &Ok(Some((*priority, *priority))));
    }
}
