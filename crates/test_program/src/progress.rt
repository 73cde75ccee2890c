//! How far a long text is read, by a clock of its own.

use poolrun_program::progress::{Progress, ToldReader};
use std::alloc::Global;
use std::io::{self, Read};
use std::sync::atomic::{AtomicU64, Ordering};
use std::test::Fail;
use std::time::{Clock, Duration};

/// A clock that goes on by half a second whenever it is asked.
#[derive(Drop)]
struct Halves(AtomicU64);

impl Clock for Halves {
    fn monotonic(&self) -> io::Result<Duration> {
        let halves = self.0.fetch_add(1, Ordering::Relaxed);
        Ok(Duration::from_millis(halves.saturating_mul(500)))
    }

    fn since_1970(&self) -> io::Result<Duration> {
        self.monotonic()
    }
}

/// Gives so many pieces, each with one line feed.
#[derive(Drop)]
struct Pieces(usize);

impl Read for Pieces {
    fn read(&mut self, buf: &mut [u8]) -> io::Result<usize> {
        if self.0 == 0 || buf.is_empty() {
            return Ok(0);
        }
        self.0 -= 1;
        buf[0] = b'\n';
        Ok(buf.len())
    }
}

/// How many pieces there are, how often it is read, the bytes that are told beforehand, and what stands on the terminal then.
type Row = (usize, usize, Option<u64>, &'static str);

const ROWS: [Row; 5] = [
    (1, 2, None, ""),
    (
        2,
        2,
        None,
        "poolrun: a.txt: 2 lines, 2 MB, 2 lines a second\n",
    ),
    (
        2,
        3,
        None,
        "poolrun: a.txt: 2 lines, 2 MB, 2 lines a second\n\u{1b}[1A\r\u{1b}[K",
    ),
    (
        10,
        4,
        Some(10_485_760),
        "poolrun: a.txt: 2 lines, 2 of 10 MB, 2 lines a second, 4 s left\n\u{1b}[1A\r\u{1b}[Kpoolrun: a.txt: 4 lines, 4 of 10 MB, 2 lines a second, 3 s left\n",
    ),
    (
        2,
        2,
        Some(1),
        "poolrun: a.txt: 2 lines, 2 of 0 MB, 2 lines a second, 0 s left\n",
    ),
];

/// What stands on the terminal.
fn told(alloc: Global, row: Row) -> Result<Vec<u8>, Fail> {
    let (pieces, reads, total, _) = row;
    let clock = Halves(AtomicU64::new(0));
    let mut terminal = Vec::new(alloc);
    let mut buf = vec![in alloc; 0u8; 1_048_576]?;
    let progress = Progress::new(true, &clock, &mut terminal, "a.txt", total);
    let mut reader = ToldReader::new(Pieces(pieces), progress);
    for _ in 0..reads {
        let _ = reader.read(buf.as_mut_slice())?;
    }
    drop(reader);
    Ok(terminal)
}

#[test]
fn tells_each_second(rt: HostRuntime) -> Result<(), Fail> {
    for row in ROWS {
        let seen = told(rt.alloc(), row)?;
        assert!(rt; seen.as_slice() == row.3.as_bytes(), "{row:?}: {seen:?}");
    }
    Ok(())
}
