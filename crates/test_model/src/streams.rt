//! Readers that fail or give much, and writers that fail.

use std::io::{self, Read, Write};

/// Gives one byte a call, and at one call it has an error instead.
#[derive(Drop)]
pub struct FailsOnce {
    pub rest: &'static [u8],
    /// How many calls come before the error; the greatest number is never reached.
    pub before: usize,
    pub error: io::ErrorKind,
}

impl Read for FailsOnce {
    fn read(&mut self, buf: &mut [u8]) -> io::Result<usize> {
        if self.before == 0 {
            self.before = usize::MAX;
            return Err(self.error.into());
        }
        self.before -= 1;
        if self.rest.is_empty() || buf.is_empty() {
            return Ok(0);
        }
        buf[0] = self.rest[0];
        self.rest = &self.rest[1..];
        Ok(1)
    }
}

/// Gives a text, and behind it two bytes again and again.
#[derive(Drop)]
pub struct Long {
    pub text: &'static [u8],
    /// What stands at even and at odd places behind the text.
    pub filling: [u8; 2],
    pub given: usize,
    /// How many bytes there are in all; the greatest number is without an end.
    pub end: usize,
}

impl Read for Long {
    fn read(&mut self, buf: &mut [u8]) -> io::Result<usize> {
        for i in 0..buf.len() {
            if self.given >= self.end {
                return Ok(i);
            }
            buf[i] = match self.text.get(self.given) {
                Some(byte) => *byte,
                None => self.filling[self.given % 2],
            };
            self.given += 1;
        }
        Ok(buf.len())
    }
}

/// Takes so many bytes, one a call, and then fails; or it fails when it is flushed. It takes no memory.
#[derive(Drop)]
pub struct Full {
    pub room: usize,
    pub flushes: bool,
}

impl Write for Full {
    fn write(&mut self, buf: &[u8]) -> io::Result<usize> {
        if self.room == 0 {
            return Err(io::ErrorKind::Other.into());
        }
        if buf.is_empty() {
            return Ok(0);
        }
        self.room -= 1;
        Ok(1)
    }

    fn flush(&mut self) -> io::Result<()> {
        if self.flushes {
            Ok(())
        } else {
            Err(io::ErrorKind::Other.into())
        }
    }
}

/// The kind of a failure, where there was one.
pub fn kind_of(failure: Option<&io::Error>) -> Option<io::ErrorKind> {
    Some(failure?.kind())
}

/// The number of the line that a text ends in, counted from 1.
pub fn last_line(text: &[u8]) -> u32 {
    let mut line = 1u32;
    for byte in text {
        if *byte == b'\n' {
            line = line.saturating_add(1);
        }
    }
    line
}
