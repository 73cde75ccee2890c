//! Bytes that may stand in no line, whatever it says.

use crate::lines::Line;
use crate::tellings::Saying;
use tp_types::limits::MAX_LINE_BYTES;

/// What is wrong with the bytes of a line.
#[derive(Clone, Copy)]
pub enum Fault {
    /// The text begins with the byte order mark of UTF-8.
    ByteOrderMark,
    /// The text is of two bytes a character, as its byte order mark says.
    WideText,
    /// A byte above 127.
    NotAscii(u8),
    /// The line is ended as on Windows, by a carriage return and a line feed.
    WindowsEnd,
    /// A carriage return within the line.
    CarriageReturn,
    /// A space before the first word.
    SpaceFirst,
    /// A space behind another.
    TwoSpaces,
    /// A space behind the last word.
    SpaceLast,
    /// More than 200 bytes.
    TooLong,
    /// The text's last line has no line feed.
    NoLineFeed,
}

const BYTE_ORDER_MARK: Saying = Saying {
    sentence: "a byte order mark stands before the text",
    advice: " save the file without it",
};

const WIDE_TEXT: Saying = Saying {
    sentence: "the text has two bytes a character, as UTF-16",
    advice: " save the file as ASCII",
};

const NOT_ASCII: Saying = Saying {
    sentence: "the byte {} is above 127",
    advice: " a text is ASCII, and its comments are too",
};

const WINDOWS_END: Saying = Saying {
    sentence: "a carriage return ends the line, as on Windows",
    advice: " save the file with the line ends of Unix (LF)",
};

const CARRIAGE_RETURN: Saying = Saying {
    sentence: "a carriage return stands within the line",
    advice: " take it out",
};

const SPACE_FIRST: Saying = Saying {
    sentence: "a space stands before the first word",
    advice: " take out what is marked",
};

const TWO_SPACES: Saying = Saying {
    sentence: "two spaces stand side by side",
    advice: " write one space between two words",
};

const SPACE_LAST: Saying = Saying {
    sentence: "a space stands behind the last word",
    advice: " take out what is marked",
};

const TOO_LONG: Saying = Saying {
    sentence: "the line has more than 200 bytes",
    advice: " the line should end before it",
};

const NO_LINE_FEED: Saying = Saying {
    sentence: "the text's last line has no line feed at its end",
    advice: " end the line here; or the text was cut off",
};

impl Fault {
    /// What is said of it.
    pub fn saying(self) -> &'static Saying {
        match self {
            Fault::ByteOrderMark => &BYTE_ORDER_MARK,
            Fault::WideText => &WIDE_TEXT,
            Fault::NotAscii(_) => &NOT_ASCII,
            Fault::WindowsEnd => &WINDOWS_END,
            Fault::CarriageReturn => &CARRIAGE_RETURN,
            Fault::SpaceFirst => &SPACE_FIRST,
            Fault::TwoSpaces => &TWO_SPACES,
            Fault::SpaceLast => &SPACE_LAST,
            Fault::TooLong => &TOO_LONG,
            Fault::NoLineFeed => &NO_LINE_FEED,
        }
    }
}

/// A fault, and where it begins, counted from 0.
pub type Place = (usize, Fault);

/// The mark that stands before a text, if it begins with one.
fn mark(line: Line<'_>) -> Option<Fault> {
    if line.number != 1 {
        return None;
    }
    if line.bytes.starts_with(b"\xEF\xBB\xBF") {
        return Some(Fault::ByteOrderMark);
    }
    if line.bytes.starts_with(b"\xFF\xFE") || line.bytes.starts_with(b"\xFE\xFF") {
        return Some(Fault::WideText);
    }
    None
}

/// What is wrong with a byte that stands behind another one.
fn byte_fault(before: u8, byte: u8, is_last: bool) -> Option<Fault> {
    match byte {
        b'\r' if is_last => Some(Fault::WindowsEnd),
        b'\r' => Some(Fault::CarriageReturn),
        b' ' if before == b'\n' => Some(Fault::SpaceFirst),
        b' ' if is_last => Some(Fault::SpaceLast),
        b' ' if before == b' ' => Some(Fault::TwoSpaces),
        128.. => Some(Fault::NotAscii(byte)),
        _ => None,
    }
}

/// The first byte of a line that may stand in no line.
fn first_bad_byte(bytes: &[u8]) -> Option<Place> {
    let mut before = b'\n';
    for (place, byte) in bytes.iter().enumerate() {
        if let Some(fault) = byte_fault(before, *byte, place + 1 == bytes.len()) {
            return Some((place, fault));
        }
        before = *byte;
    }
    None
}

/// What is wrong with a line, whatever it says.
pub fn fault_in(line: Line<'_>) -> Option<Place> {
    if let Some(mark) = mark(line) {
        return Some((0, mark));
    }
    if let Some(place) = first_bad_byte(line.bytes) {
        return Some(place);
    }
    if line.bytes.len() > MAX_LINE_BYTES {
        return Some((MAX_LINE_BYTES, Fault::TooLong));
    }
    if !line.is_ended && !line.bytes.is_empty() {
        return Some((line.bytes.len(), Fault::NoLineFeed));
    }
    None
}
