//! The bytes of a line, as they are shown.

use std::fmt;

/// A part of a line that is shown as one.
#[derive(Clone, Copy)]
struct Part<'a> {
    /// How it is shown.
    text: &'a str,
    /// How many places that takes.
    places: usize,
    /// What stands behind it.
    behind: &'a [u8],
}

/// What stands for a byte that can't be shown.
const UNSHOWN: &str = "?";

/// The first letter of these bytes, where it is one beyond ASCII. A sign that is no letter could turn the line round, or hide in it.
fn first_letter(bytes: &[u8]) -> Option<Part<'_>> {
    for size in 2..5 {
        let (first, behind) = bytes.split_at_checked(size)?;
        if let Ok(text) = str::from_utf8(first) {
            return if text.chars().all(|letter| letter.is_alphabetic()) {
                Some(Part {
                    text,
                    places: 1,
                    behind,
                })
            } else {
                None
            };
        }
    }
    None
}

/// The first part of a line, where there is one: what can't be shown is a question mark for each byte.
fn first_part(bytes: &[u8]) -> Option<Part<'_>> {
    let (first, behind) = bytes.split_at_checked(1)?;
    let byte = *bytes.first()?;
    let (text, places) = match byte {
        b'\t' => ("\\t", 2),
        b'\r' => ("\\r", 2),
        b' '..=b'~' => (str::from_utf8(first).unwrap_or(UNSHOWN), 1),
        _ => (UNSHOWN, 1),
    };
    let part = Part {
        text,
        places,
        behind,
    };
    Some(if byte < 128 {
        part
    } else {
        first_letter(bytes).unwrap_or(part)
    })
}

/// Bytes of a line, where a letter stands for itself, and `\t` and `\r` for a tab and a carriage return. What else can't be shown is
/// a question mark.
#[derive(Clone, Copy)]
pub struct Shown<'a>(pub &'a [u8]);

impl Shown<'_> {
    /// How many places they take.
    pub fn places(&self) -> usize {
        let mut places = 0usize;
        let mut rest = self.0;
        for _ in self.0 {
            let Some(part) = first_part(rest) else {
                return places;
            };
            places = places.saturating_add(part.places);
            rest = part.behind;
        }
        places
    }
}

impl fmt::Display for Shown<'_> {
    fn fmt<W: fmt::Write>(&self, f: &mut fmt::Formatter<W>) -> fmt::Result {
        let mut rest = self.0;
        for _ in self.0 {
            let Some(part) = first_part(rest) else {
                return Ok(());
            };
            f.write_str(part.text)?;
            rest = part.behind;
        }
        Ok(())
    }
}
