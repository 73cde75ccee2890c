//! How the text of a row is played on a structure.
//!
//! | Line | Means |
//! |---|---|
//! | `on line 3` | the row is played on a new structure of this kind; on each, where there are several such lines |
//! | `head: Some(0)` | this call answers so, as Rust prints it |
//! | `n from 0 to 64` | the lines behind it that begin with a space are played for each n from the first number up to the last one, without that |
//! | `# ..` | a remark |
//!
//! In a line `<n - p + 1>` stands for what that comes to, from left to right. There p is the last number of the line `on ..`, as the
//! number of places.

use crate::calls::{Call, Tested};
use std::alloc::{AllocError, Global};
use test_rows::is_same;
use tp_text::numbers::long_number;

/// What n and p stand for in a line.
#[derive(Clone, Copy)]
struct Numbers {
    n: u64,
    p: u64,
}

impl Numbers {
    /// What these words come to, from left to right.
    fn sum(self, words: &str) -> u64 {
        let mut sum = 0u64;
        let mut sign = '+';
        for word in words.split(' ') {
            let number = match word {
                "n" => self.n,
                "p" => self.p,
                _ => long_number(word).unwrap_or(0),
            };
            match (word, sign) {
                ("+" | "-" | "*" | "/" | "%", _) => sign = word.chars().next().unwrap_or('+'),
                (_, '-') => sum = sum.wrapping_sub(number),
                (_, '*') => sum = sum.wrapping_mul(number),
                (_, '/') => sum = sum.checked_div(number).unwrap_or(0),
                (_, '%') => sum = sum.checked_rem(number).unwrap_or(0),
                _ => sum = sum.wrapping_add(number),
            }
        }
        sum
    }

    /// A line, with the numbers that stand in it for sums.
    fn fill(self, alloc: Global, line: &str) -> Result<String, AllocError> {
        let mut filled = String::new(alloc);
        for (at, piece) in line.split('<').enumerate() {
            match piece.split_once('>') {
                Some((words, rest)) if at > 0 => {
                    let sum = self.sum(words);
                    write!(filled, "{sum}{rest}")?;
                }
                _ => filled.push_str(piece)?,
            }
        }
        Ok(filled)
    }
}

/// The numbers that n stands for in the lines under this one, from the first up to the last.
fn range(line: &str) -> Option<(u64, u64)> {
    let (from, to) = line.strip_prefix("n from ")?.split_once(" to ")?;
    Some((long_number(from)?, long_number(to)?))
}

/// Makes the call of a line, which answers as the line says.
fn play_line<T: Tested>(
    rt: &impl Print,
    alloc: Global,
    tested: &mut T,
    at: usize,
    line: &str,
) -> anyhow::Result<()> {
    let (call, wanted) = line.split_once(": ").unwrap_or((line, ""));
    match tested.answer(&Call::of(alloc, call)) {
        Some(said) => is_same(rt, at, &(call, said?.as_str()), &(call, wanted)),
        None => is_same(rt, at, &call, &"a call of this structure"),
    }
}

/// Plays the text of a row, in which p stands for this number.
pub fn play<T: Tested>(
    rt: &impl Print,
    alloc: Global,
    mut tested: T,
    p: usize,
    text: &str,
) -> anyhow::Result<()> {
    let p = p as u64;
    let mut is_under = false;
    for (at, line) in text.lines().enumerate() {
        if line.starts_with(' ') {
            is_same(rt, at, &(line, is_under), &(line, true))?;
            continue;
        }
        let filled = Numbers { n: 0, p }.fill(alloc, line)?;
        let numbers = range(filled.as_str());
        is_under = numbers.is_some();
        let Some((from, to)) = numbers else {
            if !line.starts_with('#') && !line.starts_with("on ") {
                play_line(rt, alloc, &mut tested, at, filled.as_str())?;
            }
            continue;
        };
        for n in from..to {
            for (at, line) in text.lines().enumerate().skip(at.saturating_add(1)) {
                let Some(line) = line.strip_prefix(' ') else {
                    break;
                };
                let line = Numbers { n, p }.fill(alloc, line)?;
                play_line(rt, alloc, &mut tested, at, line.as_str())?;
            }
        }
    }
    Ok(())
}
