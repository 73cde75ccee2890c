//! Texts that are cut off, or have one byte changed: what is told of each is told of the line that its reader names.

use crate::messages::compare::same;
use crate::messages::reasons::refusal_of;
use std::alloc::Global;
use std::process::Abort;
use std::test::Fail;
use tp_messages::mistakes::{Kind, Mistake};
use tp_messages::reasons::reason;
use tp_types::refusals::PoolError;

const SCENARIO: &[u8] =
    b"# all forms\npool 1 2 bounded 3 keep 0 own coretimeout limit 64\n\nsubmit group 3 -5 prio 6\nverdict 0 abort\ncancel 0 flag\nopen 0\n";

const RECORD: &[u8] =
    b"tprecord 1\npool 1 2 bounded 3 keep 7 own limit 64\n1 submit t0 plain reserve w0\n2 p1 open w0 live\nend 2\n";

/// Of the second form.
const RANKED: &[u8] =
    b"tprecord 2\npool 1 2 priority keep 7 own limit 64\n1 submit t0 plain prio 5 reserve w0\n2 p1 open w0 live\nend 2\n";

const JOBS: &[u8] = b"pool 1 1 unbounded keep 0 abort\nexecute 5\nsubmit !7 prio 5\n";

const CALLERS: &[u8] =
    b"# all calls\npool 1 2 bounded 3 keep 0 own\ncaller a: group 3 -5 prio 6; cancel a flag\nfactory may refuse\ncaller await a; stop\n";

/// The bytes that are set in place of each.
const OTHERS: [u8; 12] = [
    b' ', b'\n', b'\r', b'\t', b'#', b'0', b'9', b'x', b't', b'-', 0, 200,
];

/// The line that a refusal names.
fn named_line(refusal: PoolError) -> Option<u32> {
    match refusal {
        PoolError::BadLine(line) | PoolError::BadEntry(line) => Some(line),
        _ => None,
    }
}

/// Whether what is told of a refused text is told of its line, and says what is wrong.
fn is_told(alloc: Global, kind: Kind, text: &[u8]) -> Result<bool, Fail> {
    let Some(refusal) = refusal_of(alloc, kind, text) else {
        return Ok(true);
    };
    let Some(finding) = reason(alloc, kind, text, refusal)? else {
        return Ok(false);
    };
    let is_known = match finding.mistake {
        Mistake::Unknown => false,
        _ => true,
    };
    let is_there = match named_line(refusal) {
        Some(line) => line == finding.line.number,
        None => true,
    };
    Ok(is_known && is_there)
}

/// Of each text that is cut off it is told so.
fn tells_of_cuts(rt: &impl Abort, alloc: Global, kind: Kind, whole: &[u8]) -> Result<(), Fail> {
    for end in 0..whole.len() {
        let is_told = is_told(alloc, kind, &whole[..end])?;
        same(rt, end, &is_told, &true);
    }
    Ok(())
}

/// Whether it is told so of the text with one byte changed.
fn is_told_with(
    alloc: Global,
    kind: Kind,
    whole: &[u8],
    place: usize,
    other: u8,
) -> Result<bool, Fail> {
    let mut text = Vec::new(alloc);
    text.extend_from_slice(whole)?;
    if let Some(byte) = text.get_mut(place) {
        *byte = other;
    }
    is_told(alloc, kind, text.as_slice())
}

/// Of each text with one byte changed it is told so.
fn tells_of_changes(rt: &impl Abort, alloc: Global, kind: Kind, whole: &[u8]) -> Result<(), Fail> {
    for place in 0..whole.len() {
        for other in OTHERS {
            let seen = (other, is_told_with(alloc, kind, whole, place, other)?);
            same(rt, place, &seen, &(other, true));
        }
    }
    Ok(())
}

static TEXTS: [(Kind, &[u8]); 5] = [
    (Kind::Scenario, SCENARIO),
    (Kind::Record, RECORD),
    (Kind::Record, RANKED),
    (Kind::Jobs, JOBS),
    (Kind::Callers, CALLERS),
];

#[test]
fn tells_of_the_line_that_is_refused(rt: HostRuntime) -> Result<(), Fail> {
    for (kind, whole) in &TEXTS {
        tells_of_cuts(&rt, rt.alloc(), *kind, whole)?;
        tells_of_changes(&rt, rt.alloc(), *kind, whole)?;
    }
    Ok(())
}
