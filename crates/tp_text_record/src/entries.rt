//! The line of an entry, read.
//!
//! A line is read word by word, and contracts speak of the list of its words, which determine the line. A clause on a list of words
//! falls apart at each word. A clause on a text with spaces between its pieces does not.
ghost use Rattle.std.specs.Prelude.{◌≡◌, ◌≢◌, ◌++◌, List, ℕ, [], ◌∷◌, Some, None};
ghost use Rattle.tp_text.specs.EntryLine.{entry_line, pass_name, did_words, entry_words, pass_words};
ghost use Rattle.tp_text.specs.Fits.{Fits32};
ghost use Rattle.tp_text.specs.Lines.{ended};
ghost use Rattle.tp_text.specs.Reads.{ReadsAs};
ghost use Rattle.tp_record.specs.Asked.{asked};
ghost use Rattle.tp_text_record.specs.EntryFits.{FitsPass, HasLine, IsStep};
ghost use Rattle.tp_text_record.specs.Rests.{ReadsOn, left, split_words};

use crate::dids::did_of;
use crate::versions::{Version, suits};
use crate::words::{next_word, number_on};
use tp_record::entries::{Did, Entry};
use tp_text::numbers::number;

/// The entry of a pass and of what was done.
fn entry_by(by: u32, did: Did) -> Entry
    ensures { result ≡ record { by = by; ask = asked did; did = did } }
{
    Entry {
        by,
        ask: did.ask(),
        did,
    }
}

/// The pass that a word names: any but 0.
fn pass(word: &str) -> Option<u32>
    ensures { ReadsAs pass_name FitsPass word.now result }
{
    let by = number(word.strip_prefix('p')?)?;
    if by == 0 { None } else { Some(by) }
}

/// The pass that the next word names, and what is left behind it.
fn pass_on(rest: Option<&str>) -> Option<(u32, Option<&str>)>
    ensures { ReadsOn pass_name FitsPass (left rest.entry) result }
{
    let (word, rest) = next_word(rest)?;
    Some((pass(word)?, rest))
}

/// What a pass did: pass 0 is not written.
fn entry_behind(rest: Option<&str>) -> Option<Entry>
    ensures { ReadsAs (λ e. pass_words e.by ++ did_words e.did) HasLine (left rest.entry) result }
{
    if let Some(did) = did_of(rest) {
        return Some(entry_by(0, did));
    }
    let (by, rest) = pass_on(rest)?;
    Some(entry_by(by, did_of(rest)?))
}

/// The entry, and its number, that a text is the line of.
fn entry_of(text: &str) -> Option<(u32, Entry)>
    ensures { ReadsAs (λ p. entry_words p.0 p.1) (λ p. Fits32 p.0 × HasLine p.1) (split_words text.now) result }
{
    let (number, rest) = number_on(Some(text))?;
    Some((number, entry_behind(rest)?))
}

/// The entry, and its number, that a line is the line of in some form.
fn read_line(line: &[u8]) -> Option<(u32, Entry)>
    ensures { ReadsAs (λ p. entry_line p.0 p.1) (λ p. Fits32 p.0 × HasLine p.1) (ended line.now) result }
{
    entry_of(str::from_utf8(line).ok()?)
}

/// The entry, and its number, that a line is the line of in this form, as `3 p1 take w0 held t0`. A
/// line that is that of no entry gives none. An answer that is not to its ask, as a `caller` under
/// `abort`, is read like any other.
pub fn read_entry(version: Version, line: &[u8]) -> Option<(u32, Entry)>
    ensures { ReadsAs (λ p. entry_line p.0 p.1) (λ p. Fits32 p.0 × IsStep version p.1) (ended line.now) result }
{
    let (number, entry) = read_line(line)?;
    if suits(version, entry.did) {
        Some((number, entry))
    } else {
        None
    }
}
