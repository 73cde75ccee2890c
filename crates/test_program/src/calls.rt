//! Calls of the program by its command line.

use poolrun_program::hosts::Host;
use poolrun_program::program::{Terminal, program};
use std::alloc::{AllocError, Global};
use std::fmt;
use std::io::{self, ErrorKind, Write};

/// Takes so many bytes, and then fails.
#[derive(Drop)]
struct Shelf {
    room: usize,
    taken: Vec<u8>,
}

impl Write for Shelf {
    fn write(&mut self, buf: &[u8]) -> io::Result<usize> {
        if self.room < buf.len() {
            return Err(ErrorKind::StorageFull.into());
        }
        self.room -= buf.len();
        self.taken.write(buf)
    }

    fn flush(&mut self) -> io::Result<()> {
        Ok(())
    }
}

/// What a call gave.
#[derive(Debug, Drop)]
pub struct Called {
    /// The status.
    pub status: u8,
    /// The standard output.
    pub out: Vec<u8>,
    /// The standard error.
    pub errors: Vec<u8>,
}

impl fmt::Display for Called {
    fn fmt<W: fmt::Write>(&self, f: &mut fmt::Formatter<W>) -> fmt::Result {
        let out = str::from_utf8(self.out.as_slice()).unwrap_or("no text");
        let errors = str::from_utf8(self.errors.as_slice()).unwrap_or("no text");
        write!(f, "status {}\n{out}{errors}", self.status)
    }
}

/// Adds the words of a text between which spaces stand.
fn push_words(alloc: Global, words: &mut Vec<String>, text: &str) -> Result<(), AllocError> {
    for word in text.split_whitespace() {
        words.push(String::from_str(alloc, word)?)?;
    }
    Ok(())
}

/// The words of a command line, the program's name among them. What stands in quotes is one word.
pub fn words_of(alloc: Global, line: &str) -> Result<Vec<String>, AllocError> {
    let mut words = Vec::new(alloc);
    words.push(String::from_str(alloc, "poolrun")?)?;
    for (at, text) in line.split('\'').enumerate() {
        if at % 2 == 0 {
            push_words(alloc, &mut words, text)?;
        } else {
            words.push(String::from_str(alloc, text)?)?;
        }
    }
    Ok(words)
}

/// Calls the program by this line, with a standard output that takes so many bytes, and a standard error that is no terminal.
pub fn call<H: Host>(rt: &H, alloc: Global, line: &str, room: usize) -> Result<Called, AllocError> {
    let words = words_of(alloc, line)?;
    let mut out = Shelf {
        room,
        taken: Vec::new(alloc),
    };
    let mut errors = Vec::new(alloc);
    let mut progress = Vec::new(alloc);
    let terminal = Terminal {
        is_one: false,
        forbids_colours: false,
    };
    let words = words.as_slice();
    let status = program(
        rt,
        alloc,
        words,
        &mut out,
        &mut errors,
        &mut progress,
        terminal,
    );
    Ok(Called {
        status,
        out: out.taken,
        errors,
    })
}
