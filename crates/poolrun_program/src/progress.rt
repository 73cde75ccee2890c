//! How far a command is that reads a long text: a line on a terminal, once a second from the first second on, which is taken off where
//! the text is at its end.

ghost use Rattle.std.specs.Io.{ReadsAtMost};
ghost use Rattle.std.specs.Io.KnownBytes.{ReadConsumes};

use poolrun_commands::progress::ProgressLine;
use std::fmt;
use std::io::{self, Read, Write};
use std::time::{Clock, Duration};

/// The clock is asked each time that so many bytes came.
const BETWEEN: u64 = 1 << 20;

/// So many bytes are a unit of what is told.
const MEGABYTE: u64 = 1_000_000;

/// How much of a text is read.
#[derive(Clone, Copy)]
struct Reached<'a> {
    name: &'a str,
    /// How many bytes there are, where that is known.
    total: Option<u64>,
    bytes: u64,
    lines: u64,
    /// Since so many seconds.
    seconds: u64,
}

impl Reached<'_> {
    /// How many seconds are left at this pace.
    fn left(&self) -> Option<u64> {
        let rest = self.total?.saturating_sub(self.bytes);
        Some(rest.saturating_mul(self.seconds) / self.bytes.max(1))
    }
}

impl fmt::Display for Reached<'_> {
    fn fmt<W: fmt::Write>(&self, f: &mut fmt::Formatter<W>) -> fmt::Result {
        let (name, lines) = (self.name, self.lines);
        let (read, pace) = (self.bytes / MEGABYTE, lines / self.seconds.max(1));
        write!(f, "{name}: {lines} lines, {read} ")?;
        if let Some(total) = self.total {
            let total = total / MEGABYTE;
            write!(f, "of {total} ")?;
        }
        write!(f, "MB, {pace} lines a second")?;
        match self.left() {
            Some(left) => write!(f, ", {left} s left"),
            None => Ok(()),
        }
    }
}

/// What is told of a text that is read.
#[derive(Drop)]
pub struct Progress<'a, C, T> {
    clock: &'a C,
    line: ProgressLine<'a, T>,
    reached: Reached<'a>,
    /// So many bytes had come when the clock was asked last.
    looked: u64,
    begun: Duration,
}

impl<'a, C: Clock, T: Write> Progress<'a, C, T> {
    /// What is told of the text of this name, with so many bytes. None where it is not wished, or there is no clock.
    pub fn new(
        is_wished: bool,
        clock: &'a C,
        terminal: &'a mut T,
        name: &'a str,
        total: Option<u64>,
    ) -> Option<Progress<'a, C, T>> {
        if !is_wished {
            return None;
        }
        let begun = clock.monotonic().ok()?;
        Some(Progress {
            clock,
            line: ProgressLine::new(terminal),
            reached: Reached {
                name,
                total,
                bytes: 0,
                lines: 0,
                seconds: 0,
            },
            looked: 0,
            begun,
        })
    }

    /// Tells how far the text is read, where a second has gone by.
    fn look(&mut self) {
        self.looked = self.reached.bytes;
        let Ok(now) = self.clock.monotonic() else {
            return;
        };
        let seconds = now.saturating_sub(self.begun).as_secs();
        if seconds > self.reached.seconds {
            self.reached.seconds = seconds;
            self.line.tell(&self.reached);
        }
    }

    /// Notes that this much more was read. Where it is nothing, the text is at its end, and the line goes.
    fn note(&mut self, piece: &[u8]) {
        if piece.is_empty() {
            self.line.clear();
            return;
        }
        let reached = &mut self.reached;
        reached.bytes = reached.bytes.saturating_add(piece.len() as u64);
        for byte in piece {
            if *byte == b'\n' {
                reached.lines = reached.lines.saturating_add(1);
            }
        }
        if reached.bytes.saturating_sub(self.looked) >= BETWEEN {
            self.look();
        }
    }
}

/// A reader that tells how far it is, where there is a terminal for it.
#[derive(Drop)]
pub struct ToldReader<'a, R, C, T> {
    inner: R,
    progress: Option<Progress<'a, C, T>>,
}

impl<'a, R, C, T> ToldReader<'a, R, C, T> {
    /// A reader of which this is told.
    pub fn new(inner: R, progress: Option<Progress<'a, C, T>>) -> ToldReader<'a, R, C, T> {
        ToldReader { inner, progress }
    }
}

impl<R: Read, C: Clock, T: Write> Read for ToldReader<'_, R, C, T> {
    ghost remaining = { λ r. R.remaining r.inner };

    fn read(&mut self, buf: &mut [u8]) -> io::Result<usize>
        ensures bound { ReadsAtMost result buf.new }
        ensures bytes { ReadConsumes (R.remaining self.old.inner) (R.remaining self.new.inner) result buf.new }
    {
        let count = match self.inner.read(buf) {
            Ok(count) => count,
            Err(error) => return Err(error),
        };
        if let Some(progress) = &mut self.progress {
            progress.note(&buf[..count]);
        }
        Ok(count)
    }
}
