//! Texts that are cut, or that have a wrong byte.

use crate::compare::same;
use crate::endings::ending_of_scenario;
use crate::known::ROW_01;
use crate::rows::parts;
use crate::streams::last_line;
use std::alloc::Global;
use tp_types::refusals::PoolError;

/// Each cut of a good text is good where it ends with a line, and else its last line is bad. Cut to nothing it has no pool line.
#[test]
fn cut_texts_end_at_the_cut_line(rt: HostRuntime) {
    let (row, _) = parts(ROW_01);
    for end in 0..row.len() {
        let text = &row[..end];
        let answer = if text.last() == Some(&b'\n') {
            Ok(())
        } else {
            Err(PoolError::BadLine(last_line(text)))
        };
        same(&rt, end, &ending_of_scenario(rt.alloc(), text), &answer);
    }
}

/// The ending of a scenario whose second line is this one.
fn ending_with(alloc: Global, line: &[u8]) -> Result<(), PoolError> {
    let mut text = Vec::new(alloc);
    text.extend_from_slice(b"pool 1 1 unbounded keep 0 abort\n")?;
    text.extend_from_slice(line)?;
    text.push(b'\n')?;
    ending_of_scenario(alloc, text.as_slice())
}

/// Lines with bytes that no line may have.
static BAD_LINES: [&[u8]; 5] = [
    b"open\t0",
    b"open 0\r",
    b"open 0\0",
    b"\xEF\xBB\xBFopen 0",
    b"op\xC3\xA9n 0",
];

#[test]
fn refuses_bad_lines(rt: HostRuntime) {
    for (at, line) in BAD_LINES.iter().enumerate() {
        let ending = ending_with(rt.alloc(), line);
        same(&rt, at, &ending, &Err(PoolError::BadLine(2)));
    }
}

/// A mark of the order of bytes before the pool line.
#[test]
fn refuses_a_mark_before_the_pool_line(rt: HostRuntime) {
    let ending = ending_of_scenario(rt.alloc(), b"\xEF\xBB\xBFpool 1 1 unbounded keep 0 abort\n");
    same(&rt, 0, &ending, &Err(PoolError::BadLine(1)));
}
