//! Runs of scenarios from bytes to bytes, files of jobs, and readers and writers that fail.

mod hostile;
mod jobs;
mod judging;
mod long;

use crate::compare::same;
use crate::known::{GROWING, PLAYED, ROW_01, ROW_18};
use crate::rows::parts;
use crate::scenarios::{outcome_from, plays, tells};
use crate::streams::{FailsOnce, Full, Long, kind_of};
use std::alloc::Global;
use std::io::{self, Read, Write};
use std::process::Abort;
use tp_scenario::run::run;
use tp_text::watched::{WatchedReader, WatchedWriter};
use tp_types::limits::MAX_TEXT_BYTES;
use tp_types::refusals::PoolError;

/// This is written of what a reader gives, and the run ends so.
fn runs<R: Read>(
    rt: &impl Abort,
    line: usize,
    alloc: Global,
    reader: &mut R,
    output: &[u8],
    ending: Result<(), PoolError>,
) {
    let (written, given) = outcome_from(alloc, reader);
    let is_output = written.as_slice() == output;
    same(rt, line, &(is_output, given), &(true, ending));
}

/// Row 18, and no text at all.
static ENDED: [(&str, &str); 2] = [ROW_18, ("", "refused 23 BadLine 1\n")];

#[test]
fn plays_worked_rows(rt: HostRuntime) -> anyhow::Result<()> {
    for row in &PLAYED {
        plays(&rt, rt.alloc(), row)?;
    }
    for (text, output) in &ENDED {
        tells(&rt, rt.alloc(), text.as_bytes(), output)?;
    }
    Ok(())
}

/// A pool in which nothing happened.
const EMPTY_OUTPUT: &[u8] = b"state running\n\
counts submitted=0 run=0 caller=0 rejected=0 discarded=0 handedback=0 removed=0 cancelled=0 completed=0 queued=0 live=0 largest=0\n";

/// The refusal of the first row by a reader that has an error once, and why the reader failed.
fn refusal_of(
    alloc: Global,
    before: usize,
    error: io::ErrorKind,
) -> (usize, Option<PoolError>, Option<io::ErrorKind>) {
    let mut written = Vec::new(alloc);
    let mut reader = WatchedReader::new(FailsOnce {
        rest: parts(ROW_01).0,
        before,
        error,
    });
    let mut writer = WatchedWriter::new(&mut written);
    let ending = run(alloc, &mut reader, &mut writer);
    (written.len(), ending.err(), kind_of(reader.failure()))
}

const ERRORS: [io::ErrorKind; 2] = [io::ErrorKind::Other, io::ErrorKind::Interrupted];

#[test]
fn refuses_a_reader_that_fails(rt: HostRuntime) {
    for error in ERRORS {
        for before in 0..=parts(ROW_01).0.len() {
            let seen = refusal_of(rt.alloc(), before, error);
            let wanted = (0, Some(PoolError::ReadFailed), Some(error));
            same(&rt, before, &seen, &wanted);
        }
    }
}

/// Gives a pool line, and then comments, two bytes a line, so many bytes in all.
fn comments(end: usize) -> Long {
    Long {
        text: b"pool 1 1 unbounded keep 0 abort\n",
        filling: [b'#', b'\n'],
        given: 0,
        end,
    }
}

static LONG: [(usize, &[u8], Result<(), PoolError>); 4] = [
    (MAX_TEXT_BYTES, EMPTY_OUTPUT, Ok(())),
    (MAX_TEXT_BYTES - 1, b"", Err(PoolError::BadLine(524_273))),
    (MAX_TEXT_BYTES + 1, b"", Err(PoolError::ReadFailed)),
    (usize::MAX, b"", Err(PoolError::ReadFailed)),
];

#[test]
fn reads_a_long_text_and_no_longer_one(rt: HostRuntime) {
    for (end, output, ending) in &LONG {
        runs(&rt, *end, rt.alloc(), &mut comments(*end), output, *ending);
    }
}

/// How a run ends whose writer has so much room, or fails when it is flushed, and why the writer failed.
fn ending_into(
    alloc: Global,
    room: usize,
    flushes: bool,
) -> (Result<(), PoolError>, Option<io::ErrorKind>) {
    let mut reader = WatchedReader::new(parts(ROW_01).0);
    let mut writer = WatchedWriter::new(Full { room, flushes });
    let ending = run(alloc, &mut reader, &mut writer);
    (ending, kind_of(writer.failure()))
}

const FLUSHES: [bool; 2] = [true, false];

#[test]
fn refuses_a_writer_that_fails(rt: HostRuntime) {
    let (_, output) = parts(ROW_01);
    for room in 0..=output.len() {
        for flushes in FLUSHES {
            let answer = if flushes && room == output.len() {
                (Ok(()), None)
            } else {
                (Err(PoolError::WriteFailed), Some(io::ErrorKind::Other))
            };
            let given = ending_into(rt.alloc(), room, flushes);
            same(&rt, room, &given, &answer);
        }
    }
}

/// Keeps what is written, and takes no memory.
#[derive(Drop)]
struct Page {
    bytes: [u8; 2_048],
    len: usize,
}

impl Write for Page {
    fn write(&mut self, buf: &[u8]) -> io::Result<usize> {
        if buf.is_empty() {
            return Ok(0);
        }
        if self.len >= self.bytes.len() {
            return Err(io::ErrorKind::Other.into());
        }
        self.bytes[self.len] = buf[0];
        self.len += 1;
        Ok(1)
    }

    fn flush(&mut self) -> io::Result<()> {
        Ok(())
    }
}

/// What stands behind the front that a text shares with another.
fn behind_same_front<'a>(text: &'a [u8], other: &[u8]) -> &'a [u8] {
    for i in 0..text.len() {
        if other.get(i) != text.get(i) {
            return &text[i..];
        }
    }
    &[]
}

/// Where any one allocation fails, what was written is a front of the output and the answer is 4; or
/// a step is refused 4, and the run goes on. With ample memory the output is whole.
fn is_right_or_broken_off(written: &[u8], ending: Result<(), PoolError>) -> bool {
    let output = parts(GROWING).1.as_bytes();
    let more = behind_same_front(written, output);
    match ending {
        Ok(()) => written == output || more.starts_with(b"refused 4 NoMemory\n"),
        Err(error) => error == PoolError::NoMemory && more.is_empty(),
    }
}

#[test]
fn want_of_memory_breaks_off(rt: HostRuntime) {
    let mut page = Page {
        bytes: [0; 2_048],
        len: 0,
    };
    let mut reader = WatchedReader::new(parts(GROWING).0);
    let mut writer = WatchedWriter::new(&mut page);
    let ending = run(rt.alloc(), &mut reader, &mut writer);
    let written = page.bytes.get(..page.len).unwrap_or(&[]);
    let is_right = is_right_or_broken_off(written, ending);
    same(&rt, 0, &is_right, &true);
}
