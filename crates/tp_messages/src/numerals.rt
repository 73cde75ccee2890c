//! How a number is misspelled.

use crate::places::Sign;

/// A number as it is written.
#[derive(Clone, Copy)]
pub struct Spelling<'a> {
    /// What stands before the digits.
    pub prefix: &'static str,
    /// The digits.
    pub digits: &'a str,
}

/// What is wrong with a word where a number is wanted.
#[derive(Clone, Copy)]
pub struct Misspelling<'a> {
    /// What is said of the word, which stands for `{}`.
    pub sentence: &'static str,
    /// How the number is written; None where the word doesn't say which it is.
    pub right: Option<Spelling<'a>>,
}

const MINUS: Misspelling<'static> = Misspelling {
    sentence: "'{}' has a minus sign, and only a value may have one",
    right: None,
};

const MINUS_ZERO: Misspelling<'static> = Misspelling {
    sentence: "'{}' has a minus sign before a zero",
    right: Some(Spelling {
        prefix: "",
        digits: "0",
    }),
};

const OUT_OF_RANGE: Misspelling<'static> = Misspelling {
    sentence: "'{}' is out of range",
    right: None,
};

const NO_NUMBER: Misspelling<'static> = Misspelling {
    sentence: "'{}' is no whole number",
    right: None,
};

/// A misspelling of these digits.
fn of_digits<'a>(sentence: &'static str, prefix: &'static str, digits: &'a str) -> Misspelling<'a> {
    let digits = if digits.is_empty() { "0" } else { digits };
    Misspelling {
        sentence,
        right: Some(Spelling { prefix, digits }),
    }
}

fn is_decimal(word: &str) -> bool {
    for byte in word.bytes() {
        if !byte.is_ascii_digit() {
            return false;
        }
    }
    !word.is_empty()
}

/// What names a task, a slot or a pass, before its digits.
const LETTERS: &[&str] = &["t", "w", "p"];

/// The digits behind such a letter.
fn behind_letter(word: &str) -> Option<&str> {
    for letter in LETTERS {
        match word.strip_prefix(*letter) {
            Some(digits) if is_decimal(digits) => return Some(digits),
            _ => {}
        }
    }
    None
}

/// What is wrong with a number of which this stands behind its minus.
fn misspelled_behind_minus<'a>(digits: &str) -> Misspelling<'a> {
    if !is_decimal(digits) {
        NO_NUMBER
    } else if digits.starts_with('0') {
        MINUS_ZERO
    } else {
        OUT_OF_RANGE
    }
}

/// What is wrong with the digits of a number behind its prefix.
fn misspelled_digits<'a>(prefix: &'static str, word: &'a str) -> Misspelling<'a> {
    if let Some(digits) = word.strip_prefix('+') {
        return of_digits("'{}' has a plus sign", prefix, digits);
    }
    if let Some(digits) = word.strip_prefix('-') {
        return misspelled_behind_minus(digits);
    }
    if !is_decimal(word) {
        return NO_NUMBER;
    }
    match word.strip_prefix('0') {
        Some(digits) => of_digits(
            "'{}' begins with a zero",
            prefix,
            digits.trim_start_matches('0'),
        ),
        None => OUT_OF_RANGE,
    }
}

/// What is wrong with a word that is not such a number.
pub fn misspelled<'a>(sign: &Sign, word: &'a str) -> Misspelling<'a> {
    let prefix = sign.prefix;
    let Some(digits) = word.strip_prefix(prefix) else {
        if is_decimal(word) {
            return of_digits("'{}' is a number alone, and a name is wanted", prefix, word);
        }
        return NO_NUMBER;
    };
    if prefix.is_empty() {
        if let Some(digits) = behind_letter(word) {
            return of_digits(
                "'{}' has a letter, and a number alone is wanted",
                "",
                digits,
            );
        }
        if word.starts_with('-') && !sign.may_have_minus() {
            return MINUS;
        }
    }
    misspelled_digits(prefix, digits)
}
