//! Audits of record texts: worked rows from bytes to bytes, hostile texts, and readers and writers that fail.

use crate::compare::same;
use crate::forms::{changed, refusal_of, refuses_a_text};
use crate::known::{LEGAL, RANKED, ROW_35, SECOND_FORM};
use crate::records::{judges, outcome_from};
use crate::rows::parts;
use crate::streams::{FailsOnce, Full, Long, last_line};
use std::alloc::Global;
use std::io::{self, Read};
use std::process::Abort;
use tp_text::watched::{WatchedReader, WatchedWriter};
use tp_text_record::audits::audit_text;
use tp_types::limits::MAX_TEXT_BYTES;
use tp_types::refusals::PoolError;

/// What a reader gives is refused so, and nothing is written.
fn refuses<R: Read>(
    rt: &impl Abort,
    line: usize,
    alloc: Global,
    reader: &mut R,
    refusal: PoolError,
) {
    let (written, given) = outcome_from(alloc, reader);
    same(rt, line, &(written.len(), given), &(0, Err(refusal)));
}

/// Records that tests know by their names.
const ROWS: [&str; 4] = [LEGAL, SECOND_FORM, RANKED, ROW_35];

#[test]
fn judges_worked_rows(rt: HostRuntime) -> anyhow::Result<()> {
    for row in &ROWS {
        judges(&rt, rt.alloc(), row)?;
    }
    Ok(())
}

/// Bytes that no record's text has, with the number of the first wrong line.
static REFUSED: [(&[u8], PoolError); 2] = [
    (
        b"tprecord 1\r\npool 1 1 unbounded keep 0 abort\nend 0\n",
        PoolError::BadEntry(1),
    ),
    (
        b"\xEF\xBB\xBFtprecord 1\npool 1 1 unbounded keep 0 abort\nend 0\n",
        PoolError::BadEntry(1),
    ),
];

#[test]
fn tells_the_first_wrong_line(rt: HostRuntime) {
    for (at, (text, refusal)) in REFUSED.iter().enumerate() {
        let mut reader = *text;
        refuses(&rt, at, rt.alloc(), &mut reader, *refusal);
    }
}

#[test]
fn refuses_each_cut_text(rt: HostRuntime) {
    let (legal, _) = parts(LEGAL);
    for end in 0..legal.len() {
        let mut text = &legal[..end];
        let refusal = PoolError::BadEntry(last_line(text));
        refuses(&rt, end, rt.alloc(), &mut text, refusal);
    }
}

/// Whether a text is refused as a text may be, or judged as the text of what it says.
fn is_read_as_itself(alloc: Global, text: &[u8]) -> bool {
    let mut reader = text;
    let (written, given) = outcome_from(alloc, &mut reader);
    match given {
        Ok(legal) => {
            refusal_of(alloc, text).is_none() && written.starts_with(b"legal 5\n") == legal
        }
        Err(refusal) => refuses_a_text(refusal) && written.is_empty(),
    }
}

/// Whether the legal text is read as itself with one byte changed.
fn is_read_changed(alloc: Global, place: usize, byte: u8) -> Result<bool, PoolError> {
    let text = changed(alloc, parts(LEGAL).0, place, byte)?;
    Ok(is_read_as_itself(alloc, text.as_slice()))
}

/// A text with any one byte changed is refused, or it is the text of what it says.
#[test]
fn reads_each_changed_text_as_itself(rt: HostRuntime) {
    for place in 0..parts(LEGAL).0.len() {
        for byte in 0..=255u8 {
            let is_so = is_read_changed(rt.alloc(), place, byte);
            same(&rt, place, &(byte, is_so), &(byte, Ok(true)));
        }
    }
}

static TEXTS: [&str; 3] = [
    LEGAL,
    "nonsense\n",
    "tprecord 1\npool 3 2 unbounded keep 0 abort\n",
];

/// A text is refused where its reader fails once, before any of its bytes and behind the last.
fn refuses_failing(rt: &impl Abort, alloc: Global, rest: &'static [u8]) {
    for before in 0..rest.len() + 1 {
        let mut reader = FailsOnce {
            rest,
            before,
            error: io::ErrorKind::Other,
        };
        refuses(rt, before, alloc, &mut reader, PoolError::ReadFailed);
    }
}

/// A reader that fails comes before all that its text says.
#[test]
fn refuses_a_reader_that_fails(rt: HostRuntime) {
    for rest in &TEXTS {
        refuses_failing(&rt, rt.alloc(), parts(rest).0);
    }
}

/// Gives so many line feeds.
fn feeds(end: usize) -> Long {
    Long {
        text: b"",
        filling: [b'\n', b'\n'],
        given: 0,
        end,
    }
}

static LONG: [(usize, PoolError); 3] = [
    (MAX_TEXT_BYTES, PoolError::BadEntry(1)),
    (MAX_TEXT_BYTES + 1, PoolError::ReadFailed),
    (usize::MAX, PoolError::ReadFailed),
];

#[test]
fn reads_a_long_text_and_no_longer_one(rt: HostRuntime) {
    for (end, refusal) in &LONG {
        refuses(&rt, *end, rt.alloc(), &mut feeds(*end), *refusal);
    }
}

/// The audit of a text into a writer that has so much room, or fails when it is flushed: its answer, and the room that is left.
fn outcome_into(
    alloc: Global,
    text: &[u8],
    room: usize,
    flushes: bool,
) -> (Result<bool, PoolError>, usize) {
    let mut full = Full { room, flushes };
    let mut reader = WatchedReader::new(text);
    let mut writer = WatchedWriter::new(&mut full);
    let answer = audit_text(alloc, &mut reader, &mut writer);
    (answer, full.room)
}

const FLUSHES: [bool; 2] = [true, false];

#[test]
fn refuses_a_writer_that_fails(rt: HostRuntime) {
    let (text, output) = parts(LEGAL);
    for room in 0..=output.len() {
        for flushes in FLUSHES {
            let answer = if flushes && room == output.len() {
                Ok(true)
            } else {
                Err(PoolError::WriteFailed)
            };
            let (given, _) = outcome_into(rt.alloc(), text, room, flushes);
            same(&rt, room, &given, &answer);
        }
    }
}

/// Where any one allocation fails, the answer is 4 and nothing is written; with ample memory the
/// record is judged.
#[test]
fn want_of_memory_is_told(rt: HostRuntime) {
    let (text, output) = parts(ROW_35);
    let room = output.len();
    let is_told = match outcome_into(rt.alloc(), text, room, true) {
        (Ok(legal), left) => legal && left == 0,
        (Err(refusal), left) => refusal == PoolError::NoMemory && left == room,
    };
    same(&rt, 0, &is_told, &true);
}
