//! What is told of a record's flaw; and records that are read line by line.

use crate::messages::compare::same;
use std::alloc::Global;
use std::io::Read;
use std::process::Abort;
use std::test::Fail;
use tp_text::watched::WatchedReader;
use tp_text_record::judgments::{Judgment, judge_stream, judge_text};
use tp_types::limits::MAX_TEXT_BYTES;
use tp_types::refusals::PoolError;

const HEAD: &str = "tprecord 1
pool 1 2 bounded 1 keep 0 abort
1 submit t0 plain reserve w0
2 open w0 live
3 take w0 held t0
";

/// What stands behind these three entries, the number of the flaw, and why it is one.
static FLAWS: [(&str, usize, &str); 9] = [
    (
        "4 begin w1 t0\nend 4\n",
        4,
        "line 6: begin w1: refused 7 UnknownSlot (slots: w0), so no such entry stands here",
    ),
    (
        "4 p1 begin w0 t1\nend 4\n",
        4,
        "line 6: begin w0: w0 has taken t0, and not begun it, so the entry here is '4 p1 begin w0 t0'",
    ),
    (
        "4 end w0 t0 value 7\nend 4\n",
        4,
        "line 6: end w0: refused 8 NotThere (w0 has taken t0, and not begun it), so no such entry stands here",
    ),
    (
        "4 begin w0 t0\n5 end w0 t3 value 7\nend 5\n",
        5,
        "line 7: end w0: w0 runs t0, so the entry here is '5 end w0 t0 value 7'",
    ),
    (
        "4 submit t1 plain reserve w1\nend 4\n",
        4,
        "line 6: submit plain: 1 tasks were submitted, 1 slots are taken, core is 1 and max is 2, so the entry here is '4 submit t1 plain queue'",
    ),
    (
        "4 submit t2 plain queue\nend 4\n",
        4,
        "line 6: submit plain: 1 tasks were submitted, 1 slots are taken, core is 1 and max is 2, so the entry here is '4 submit t1 plain queue'",
    ),
    (
        "4 submit t1 plain queue\n5 offer t1 full\nend 5\n",
        5,
        "line 7: offer t1: t1 is to be offered and the queue is empty, so the entry here is '5 offer t1 queued'",
    ),
    (
        "4 stop drained 1\nend 4\n",
        4,
        "line 6: stop: 1 tasks were submitted, 1 slots are taken, core is 1 and max is 2, so the entry here is '4 stop drained 0'",
    ),
    (
        "4 max 3\n5 core 3 add 1\nend 5\n",
        5,
        "line 7: core 3: 1 tasks were submitted, 1 slots are taken, core is 1 and max is 3, so the entry here is '5 core 3 add 0'",
    ),
];

/// What is judged of a text that is read whole, as far as such a text goes.
fn whole(alloc: Global, text: &[u8]) -> Result<Judgment, PoolError> {
    if text.len() > MAX_TEXT_BYTES {
        return Err(PoolError::ReadFailed);
    }
    judge_text(alloc, text)
}

/// What is judged of a stream.
fn streamed<R: Read + Drop>(alloc: Global, reader: R) -> Result<Judgment, PoolError> {
    judge_stream(alloc, &mut WatchedReader::new(reader), &mut None)
}

/// Whether a judgment has this flaw, and tells why so.
fn tells(judged: &Result<Judgment, PoolError>, line: &str, why: &str) -> bool {
    match judged {
        Ok(
            Judgment {
                legal: false,
                lines,
                why: Some(told),
            },
        ) => lines.as_slice() == line.as_bytes() && told.as_str() == why,
        _ => false,
    }
}

/// The flaw of what stands behind the three entries is this one.
fn is_flawed_so(
    rt: &impl Abort,
    alloc: Global,
    rest: &str,
    number: usize,
    why: &str,
) -> Result<(), Fail> {
    let text = format!(in alloc; "{HEAD}{rest}")?;
    let line = format!(in alloc; "flaw {number}\n")?;
    let judged = whole(alloc, text.as_bytes());
    same(rt, number, &tells(&judged, line.as_str(), why), &true);
    Ok(())
}

#[test]
fn tells_why_an_entry_is_a_flaw(rt: HostRuntime) -> Result<(), Fail> {
    for (rest, number, why) in &FLAWS {
        is_flawed_so(&rt, rt.alloc(), rest, *number, why)?;
    }
    Ok(())
}

/// Gives one byte a call.
#[derive(Drop)]
struct Drops {
    rest: &'static [u8],
}

impl Read for Drops {
    fn read(&mut self, buf: &mut [u8]) -> std::io::Result<usize> {
        if self.rest.is_empty() || buf.is_empty() {
            return Ok(0);
        }
        buf[0] = self.rest[0];
        self.rest = &self.rest[1..];
        Ok(1)
    }
}

const RECORD: &[u8] =
    b"tprecord 1\npool 1 2 bounded 1 keep 0 abort\n1 submit t0 plain reserve w0\n2 open w0 live\n3 take w0 held t0\n4 begin w0 t0\n5 end w0 t0 value 7\nend 5\n";

/// Whether a text is judged the same as a whole and as a stream.
fn are_same(alloc: Global, text: &[u8]) -> bool {
    whole(alloc, text) == streamed(alloc, text)
}

/// Whether the record is legal where a reader gives it byte by byte.
fn is_legal_by_bytes(alloc: Global) -> bool {
    match streamed(alloc, Drops { rest: RECORD }) {
        Ok(judged) => {
            judged.legal
                && judged
                    .lines
                    .as_slice()
                    .starts_with(b"legal 5\nstate running\ncounts submitted=1 run=1 ")
        }
        Err(_) => false,
    }
}

/// What one byte is changed to.
const OTHERS: [u8; 6] = [b' ', b'\n', b'9', b'x', 0, 200];

/// Whether the record with one byte changed is judged the same as a whole and as a stream.
fn are_same_with(alloc: Global, place: usize, other: u8) -> Result<bool, Fail> {
    let mut text = Vec::new(alloc);
    text.extend_from_slice(RECORD)?;
    if let Some(byte) = text.get_mut(place) {
        *byte = other;
    }
    Ok(are_same(alloc, text.as_slice()))
}

/// Each text that is cut is judged the same as a whole and as a stream.
fn cut_texts_are_same(rt: &impl Abort, alloc: Global) {
    for end in 0..RECORD.len() {
        same(rt, end, &are_same(alloc, &RECORD[..end]), &true);
    }
}

#[test]
fn reads_line_by_line_as_whole(rt: HostRuntime) -> Result<(), Fail> {
    same(&rt, 0, &is_legal_by_bytes(rt.alloc()), &true);
    cut_texts_are_same(&rt, rt.alloc());
    for place in 0..RECORD.len() {
        for other in OTHERS {
            let seen = (other, are_same_with(rt.alloc(), place, other)?);
            same(&rt, place, &seen, &(other, true));
        }
    }
    Ok(())
}
