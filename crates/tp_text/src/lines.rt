//! The lines of a text.

ghost use Rattle.std.specs.Prelude.{◌≡◌, ◌↔◌, ◌++◌, ◌∷◌, IsTrue, MatchOption};
ghost use Rattle.tp_text.specs.Lines.{HasNoLineFeed, IsClean, IsSkipped};

use tp_types::limits::MAX_LINE_BYTES;

/// The first line of a text without its line feed, and what follows that; none where the text has no line feed.
#[inline(always)]
pub fn next_line(text: &[u8]) -> Option<(&[u8], &[u8])>
    ensures { MatchOption result (HasNoLineFeed text.now) (λ p. (text.now ≡ p.0.now ++ 10 ∷ p.1.now) × HasNoLineFeed p.0.now) }
{
    let end = text.iter().position(|b| *b == b'\n')?;
    Some((&text[..end], &text[end + 1..]))
}

/// Whether the bytes are what each line must be.
#[inline(always)]
fn is_clean(line: &[u8]) -> bool
    ensures { IsTrue result ↔ IsClean line.now }
{
    if line.len() > MAX_LINE_BYTES {
        return false;
    }
    // No space may stand first, as none may behind another.
    let mut before = b' ';
    for byte in line {
        let byte = *byte;
        // Nearly each byte is a visible character, which may stand anywhere.
        if byte > b' ' && byte < 128 {
            before = byte;
            continue;
        }
        if byte >= 128 || byte == b'\r' {
            return false;
        }
        if byte == b' ' && before == b' ' {
            return false;
        }
        before = byte;
    }
    line.is_empty() || before != b' '
}

/// Whether a line of a scenario or of a file of jobs says nothing: it is empty, or a comment. It is counted, and nothing else.
#[inline(always)]
pub fn is_skipped(line: &[u8]) -> bool
    ensures { IsTrue result ↔ IsSkipped line.now }
{
    if line.is_empty() {
        return true;
    }
    line[0] == b'#' && is_clean(line)
}

/// The text of a line that is what each line must be.
#[inline(always)]
pub fn clean_text(line: &[u8]) -> Option<&str>
    ensures { MatchOption result (IsClean line.now → ⊥) (λ text. (text.now ≡ line.now) × IsClean line.now) }
{
    if !is_clean(line) {
        return None;
    }
    // What is clean is ASCII, and so it is text: the condition of this unsafe call is proved. Testing it would read each line once
    // more, and cost a twentieth of a run's instructions.
    Some(unsafe { str::from_utf8_unchecked(line) })
}
