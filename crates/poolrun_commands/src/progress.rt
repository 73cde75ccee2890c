//! A line on a terminal that says how far a command is. Each takes the place of the one before. What else is written there stands below
//! it.

use std::fmt::Display;
use std::io::Write;

/// To the line above, which is made empty.
const UP: &str = "\u{1b}[1A\r\u{1b}[K";

/// The line.
#[derive(Drop)]
pub struct ProgressLine<'a, T> {
    terminal: &'a mut T,
    is_there: bool,
}

impl<'a, T: Write> ProgressLine<'a, T> {
    /// No line yet on this terminal.
    pub fn new(terminal: &'a mut T) -> ProgressLine<'a, T> {
        ProgressLine {
            terminal,
            is_there: false,
        }
    }

    /// Writes these words in the place of those before. What a terminal fails to take is not told.
    pub fn tell<D: Display>(&mut self, words: &D) {
        let up = if self.is_there { UP } else { "" };
        if write!(self.terminal, "{up}poolrun: {words}\n").is_ok() {
            self.is_there = true;
        }
    }

    /// Takes the line off, where there is one.
    pub fn clear(&mut self) {
        if self.is_there {
            let _ = self.terminal.write_all(UP.as_bytes());
            self.is_there = false;
        }
    }
}
