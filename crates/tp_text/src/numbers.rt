//! Numbers as they stand in texts: without a leading zero or a plus.

ghost use Rattle.std.specs.Prelude.{◌≡◌, ◌↔◌, IsTrue};
ghost use Rattle.std.specs.Fmt.{decimal, signed_decimal};
ghost use Rattle.tp_text.specs.Reads.{IsPlain, IsPlainValue, ReadsAs};
ghost use Rattle.tp_text.specs.Fits.{Fits32, Fits64, FitsValue};

/// Whether the text has neither a leading plus nor a leading zero.
#[inline(always)]
fn is_plain(text: &str) -> bool
    ensures { IsTrue result ↔ IsPlain text.now }
{
    text == "0" || !(text.starts_with('0') || text.starts_with('+'))
}

/// A number of 32 bits.
pub fn number(text: &str) -> Option<u32>
    ensures { ReadsAs decimal Fits32 text.now result }
{
    if is_plain(text) {
        text.parse::<u32>().ok()
    } else {
        None
    }
}

/// A number of 64 bits.
pub fn long_number(text: &str) -> Option<u64>
    ensures { ReadsAs decimal Fits64 text.now result }
{
    if is_plain(text) {
        text.parse::<u64>().ok()
    } else {
        None
    }
}

/// A number of the size of an address.
pub fn index(text: &str) -> Option<usize>
    ensures { ReadsAs decimal Fits64 text.now result }
{
    if is_plain(text) {
        text.parse::<usize>().ok()
    } else {
        None
    }
}

/// Whether the text has neither a leading plus nor a leading zero, behind a minus if it has one.
#[inline(always)]
fn is_plain_value(text: &str) -> bool
    ensures { IsTrue result ↔ IsPlainValue text.now }
{
    match text.strip_prefix('-') {
        None => is_plain(text),
        Some(digits) => !digits.starts_with('0'),
    }
}

/// A value, which may have a minus.
pub fn value(text: &str) -> Option<i64>
    ensures { ReadsAs signed_decimal FitsValue text.now result }
{
    if is_plain_value(text) {
        text.parse::<i64>().ok()
    } else {
        None
    }
}
