//! The forms of an answer, and its lines.

ghost use Rattle.std.specs.Prelude.{◌≡◌, ◌↔◌, ◌++◌, ℕ, List, IsTrue, OnOk, string_bytes};
ghost use Rattle.tp_text.specs.Lines.{HasNoLineFeed};
ghost use Rattle.tp_story_words.specs.Lines.{IsLine};

use std::alloc::AllocError;
use std::fmt;

/// In what form an answer is written.
#[derive(Clone, Copy, Debug, PartialEq, Eq)]
pub enum Form {
    /// In words, for a person.
    Words,
    /// As JSON, an object a line, for a program.
    Json,
}

/// A text within quotes, as JSON writes it: what may not stand there is escaped.
#[derive(Clone, Copy)]
pub struct Quoted<'a>(pub &'a str);

impl fmt::Display for Quoted<'_> {
    fn fmt<W: fmt::Write>(&self, f: &mut fmt::Formatter<W>) -> fmt::Result {
        f.write_str("\"")?;
        for letter in self.0.chars() {
            match letter {
                '"' => f.write_str("\\\"")?,
                '\\' => f.write_str("\\\\")?,
                letter if (letter as u32) < 32 => {
                    let code = letter as u32;
                    write!(f, "\\u{code:04x}")?;
                }
                letter => f.write_char(letter)?,
            }
        }
        f.write_str("\"")
    }
}

/// Whether no line feed stands among these words.
fn is_one_line(words: &str) -> bool
    ensures { IsTrue result ↔ HasNoLineFeed words.now }
{
    words.as_bytes().iter().all(|byte| *byte != b'\n')
}

/// These words, where no line feed stands among them; else none. So a line stays one line, whatever is put into it.
pub fn one_line(words: &str) -> &str
    ensures single { HasNoLineFeed result.now }
    ensures same { HasNoLineFeed words.now → result.now ≡ words.now }
{
    if is_one_line(words) { words } else { "" }
}

/// Writes a line of words.
pub fn write_line(text: &mut String, words: &str) -> Result<(), AllocError>
    ensures { OnOk result ((line : List ℕ) × IsLine line × (string_bytes text.new ≡ string_bytes text.old ++ line)) }
{
    let words = one_line(words);
    write!(text, "{words}\n")
}
