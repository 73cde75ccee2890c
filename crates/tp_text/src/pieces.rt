//! The pieces of a line: texts, and numbers behind them.
ghost use Rattle.std.specs.Prelude.{◌≡◌, ◌++◌, OnOk, string_bytes};

use itoa::{Buffer, Integer};
use std::alloc::AllocError;

/// Writes a text.
#[inline(always)]
pub fn text(line: &mut String, text: &str) -> Result<(), AllocError>
    ensures { OnOk result (string_bytes line.new ≡ string_bytes line.old ++ text.now) }
{
    line.push_str(text)
}

/// Writes a text, and a number at once behind it.
#[inline(always)]
pub fn numbered<I: Integer>(line: &mut String, text: &str, number: I) -> Result<(), AllocError>
    ensures { OnOk result (string_bytes line.new ≡ string_bytes line.old ++ (text.now ++ I.text number)) }
{
    line.push_str(text)?;
    line.push_str(Buffer::new().format(number))
}
