//! What may stand at a place of a form: a word as it is, a number, or the name of a policy or a verdict.

use tp_text::numbers::{long_number, number, value};

/// What a sign may stand for, behind its prefix.
#[derive(Clone, Copy)]
pub enum Range {
    /// A number, 0 to 4,294,967,295.
    Bits32,
    /// A number, 0 to 18,446,744,073,709,551,615.
    Bits64,
    /// A value, which may have a minus.
    Value,
    /// One of these names.
    Name(&'static [&'static str]),
    /// A task's name, as a file of callers gives it.
    Label,
}

/// A word of a form that stands for others.
#[derive(Clone, Copy)]
pub struct Sign {
    /// The word.
    pub word: &'static str,
    /// What stands before the digits of a number: `t`, `w` or `p` in the name of a task, a slot or a pass, and `!` in a fault.
    pub prefix: &'static str,
    /// What stands behind that.
    pub range: Range,
    /// What it stands for, in a sentence.
    pub legend: &'static str,
}

const SIGNS: &[Sign] = &[
    Sign {
        word: "NAME",
        prefix: "",
        range: Range::Label,
        legend: "NAME is a task's name, as a in 'a: execute 5'",
    },
    Sign {
        word: "T",
        prefix: "",
        range: Range::Bits32,
        legend: "T is a task's number alone, 0 for the first, to 4294967295",
    },
    Sign {
        word: "G",
        prefix: "",
        range: Range::Bits32,
        legend: "G is a group's number, 0 to 4294967295",
    },
    Sign {
        word: "N",
        prefix: "",
        range: Range::Bits32,
        legend: "N is a number, 0 to 4294967295",
    },
    Sign {
        word: "SIZE",
        prefix: "",
        range: Range::Bits32,
        legend: "SIZE is a number of workers, 0 to 4294967295",
    },
    Sign {
        word: "CORE",
        prefix: "",
        range: Range::Bits32,
        legend: "CORE is the number of workers that are kept, 0 to MAX",
    },
    Sign {
        word: "MAX",
        prefix: "",
        range: Range::Bits32,
        legend: "MAX is the number of workers at most, 1 to 1024",
    },
    Sign {
        word: "PLACES",
        prefix: "",
        range: Range::Bits32,
        legend: "PLACES is the queue's capacity in tasks, 1 to 65536",
    },
    Sign {
        word: "ENTRIES",
        prefix: "",
        range: Range::Bits32,
        legend: "ENTRIES is the record's limit, 64 to 1048576",
    },
    Sign {
        word: "ENTRY",
        prefix: "",
        range: Range::Bits32,
        legend: "ENTRY is the entry's number, counted from 1",
    },
    Sign {
        word: "W",
        prefix: "",
        range: Range::Bits64,
        legend: "W is a worker slot's number alone, 0 to 18446744073709551615",
    },
    Sign {
        word: "TICKS",
        prefix: "",
        range: Range::Bits64,
        legend: "TICKS is a time in ticks, 0 to 18446744073709551615",
    },
    Sign {
        word: "V",
        prefix: "",
        range: Range::Value,
        legend: "V is a value, -9223372036854775808 to 9223372036854775807",
    },
    Sign {
        word: "!N",
        prefix: "!",
        range: Range::Bits32,
        legend: "!N is a fault's code, !0 to !4294967295",
    },
    Sign {
        word: "tN",
        prefix: "t",
        range: Range::Bits32,
        legend: "tN is a task, as t0",
    },
    Sign {
        word: "pN",
        prefix: "p",
        range: Range::Bits32,
        legend: "pN is the pass that asked, p1 to p4294967295",
    },
    Sign {
        word: "wN",
        prefix: "w",
        range: Range::Bits64,
        legend: "wN is a worker slot, as w0",
    },
    Sign {
        word: "POLICY",
        prefix: "",
        range: Range::Name(&["abort", "callerruns", "discard", "discardoldest", "own"]),
        legend: "POLICY is abort, callerruns, discard, discardoldest or own",
    },
    Sign {
        word: "VERDICT",
        prefix: "",
        range: Range::Name(&["abort", "callerruns", "discard", "discardoldest"]),
        legend: "VERDICT is abort, callerruns, discard or discardoldest",
    },
];

/// Whether a byte may stand in a task's name.
fn is_of_label(byte: u8) -> bool {
    byte.is_ascii_alphanumeric() || byte == b'_' || byte == b'-'
}

/// Whether a word may name a task.
pub fn is_label(word: &str) -> bool {
    for byte in word.bytes() {
        if !is_of_label(byte) {
            return false;
        }
    }
    word.starts_with(|first: char| first.is_ascii_alphabetic()) && word != "end"
}

/// The sign that a word of a form is; None for a word that stands for itself.
pub fn sign_of(word: &str) -> Option<&'static Sign> {
    for sign in SIGNS {
        if sign.word == word {
            return Some(sign);
        }
    }
    None
}

impl Sign {
    /// The names for which it stands.
    pub fn names(&self) -> &'static [&'static str] {
        match self.range {
            Range::Name(names) => names,
            _ => &[],
        }
    }

    /// Whether it stands for a number.
    pub fn is_number(&self) -> bool {
        match self.range {
            Range::Name(_) | Range::Label => false,
            _ => true,
        }
    }

    /// Whether it stands for a number that may have a minus sign.
    pub fn may_have_minus(&self) -> bool {
        match self.range {
            Range::Value => true,
            _ => false,
        }
    }

    /// Whether it stands for a word.
    fn fits(&self, word: &str) -> bool {
        let Some(digits) = word.strip_prefix(self.prefix) else {
            return false;
        };
        match self.range {
            Range::Bits32 => number(digits).is_some(),
            Range::Bits64 => long_number(digits).is_some(),
            Range::Value => value(digits).is_some(),
            Range::Name(names) => names.contains(&digits),
            Range::Label => is_label(digits),
        }
    }
}

/// Whether a word may stand where a form has this one.
pub fn fits(place: &str, word: &str) -> bool {
    match sign_of(place) {
        Some(sign) => sign.fits(word),
        None => word == place,
    }
}
