//! The lines of a text by their numbers.

ghost use Rattle.std.specs.Prelude.{◌≤◌, ◌+◌, IsTrue};
ghost use Rattle.tp_messages.specs.Lines.{IsLineAt};

use tp_text::lines::next_line;

/// A line of a text.
#[derive(Clone, Copy)]
pub struct Line<'a> {
    /// Its number, from 1.
    pub number: u32,
    /// What stands in it, without its line feed.
    pub bytes: &'a [u8],
    /// Whether it has a line feed at its end.
    pub is_ended: bool,
}

/// The line of this number; behind the last line feed what is left, which may be nothing.
pub fn line_at(text: &[u8], number: u32) -> Line<'_>
    ensures { 1 ≤ number → IsTrue result.is_ended → IsLineAt text.now result.bytes.now number }
{
    let mut rest = text;
    for next in 1..number {
        let Some((_, behind)) = next_line(rest) else {
            return Line {
                number,
                bytes: rest,
                is_ended: false,
            };
        };
        rest = behind;
    }
    match next_line(rest) {
        Some((bytes, _)) => Line {
            number,
            bytes,
            is_ended: true,
        },
        None => Line {
            number,
            bytes: rest,
            is_ended: false,
        },
    }
}
