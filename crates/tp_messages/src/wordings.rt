//! The words of a line beside the forms that it may have.

use crate::forms::Forms;
use crate::numerals::{Misspelling, misspelled};
use crate::places::{Sign, fits, sign_of};
use crate::tellings::{Telling, Value, plain};
use crate::words::{count, word_at};
use std::fmt;

/// A line's words beside some forms, of which it has none. Its first words fit to some of the forms, which have the same beginning
/// and so stand side by side.
#[derive(Clone, Copy)]
pub struct Wording<'a> {
    /// The forms to which they fit.
    pub forms: Forms,
    /// How many of the first words fit.
    pub fitting: usize,
    /// The first word that does not fit; nothing where the line ends before it.
    pub found: &'a str,
    /// A word that may stand there, and is near to the one that does.
    pub near: Option<&'static str>,
}

/// How many of a text's first words fit to a form.
fn fitting(form: &'static str, text: &str) -> usize {
    let mut fitting = 0usize;
    for (place, word) in form.split(' ').zip(text.split(' ')) {
        if !fits(place, word) {
            return fitting;
        }
        fitting = fitting.saturating_add(1);
    }
    fitting
}

/// How many of a text's first words fit to some form, and the forms to which they fit.
fn near_forms(forms: Forms, text: &str) -> (usize, Forms) {
    let (mut most, mut start, mut end) = (0, 0, 0);
    for (number, form) in forms.iter().enumerate() {
        let fitting = fitting(form, text);
        if fitting > most {
            most = fitting;
            start = number;
        }
        if fitting == most {
            end = number + 1;
        }
    }
    (most, forms.get(start..end).unwrap_or(forms))
}

/// Whether a word looks like a number, however it is written.
fn is_numeral(word: &str) -> bool {
    for byte in word.bytes() {
        if b"0123456789+-".contains(&byte) {
            return true;
        }
    }
    false
}

/// Whether a word of a form stands for a number.
fn is_number(place: &str) -> bool {
    match sign_of(place) {
        Some(sign) => sign.is_number(),
        None => false,
    }
}

impl<'a> Wording<'a> {
    /// A text beside these forms.
    pub fn new(forms: Forms, text: &'a str) -> Wording<'a> {
        let (fitting, forms) = near_forms(forms, text);
        Wording {
            forms,
            fitting,
            found: word_at(text, fitting).unwrap_or(""),
            near: None,
        }
    }

    /// What the form of this number wants in place of that word; nothing where it ends before it, or there is no such form.
    fn wanted_at(&self, number: usize) -> &'static str {
        match self.forms.get(number) {
            Some(form) => word_at(*form, self.fitting).unwrap_or(""),
            None => "",
        }
    }

    /// What the form before this one wants there; nothing where this is the first.
    fn wanted_before(&self, number: usize) -> &'static str {
        self.wanted_at(number.wrapping_sub(1))
    }

    /// What the form of this number wants there, if the form before it wants something else.
    pub fn wanted(&self, number: usize) -> Option<&'static str> {
        let wanted = self.wanted_at(number);
        if wanted == self.wanted_before(number) {
            None
        } else {
            Some(wanted)
        }
    }

    /// What the last form wants there; nothing where no form wants a word.
    fn last_wanted(&self) -> &'static str {
        self.wanted_before(self.forms.len())
    }

    /// Whether no form wants a word there.
    pub fn wants_nothing(&self) -> bool {
        self.last_wanted().is_empty()
    }

    /// What that word stands for, in a sentence; None where it stands for itself.
    pub fn legend(&self, number: usize) -> Option<&'static str> {
        match sign_of(self.wanted_at(number)) {
            Some(sign) if self.wanted(number).is_some() => Some(sign.legend),
            _ => None,
        }
    }

    /// Whether the line may end there, as it may where the first form does.
    pub fn may_end(&self) -> bool {
        self.wanted_at(0).is_empty()
    }

    /// Whether the forms are those of a pool line.
    pub fn is_of_pool(&self) -> bool {
        match self.forms.first() {
            Some(form) => form.starts_with("pool "),
            None => false,
        }
    }

    /// Whether the forms are those of a caller's calls.
    fn is_of_calls(&self) -> bool {
        match self.forms.last() {
            Some(form) => *form == "await NAME" || *form == "group G !N prio N",
            None => false,
        }
    }

    /// Whether a form is told of the line. One that ends in a priority is not told of a line that ends before it.
    pub fn tells(&self, form: &str) -> bool {
        match form.strip_suffix(" prio N") {
            None => true,
            Some(short) => self.fitting >= count(short),
        }
    }

    /// The sign of the number that is wanted in place of the word. It is the last sign that begins as the word does, or else the
    /// first. None where other words are wanted too and the word is no numeral.
    fn number_wanted(&self) -> Option<&'static Sign> {
        let is_numeral = is_numeral(self.found);
        let mut found = None;
        for number in 0..self.forms.len() {
            if let Some(wanted) = self.wanted(number) {
                match sign_of(wanted) {
                    Some(sign) if sign.is_number() => {
                        if found.is_none() || self.found.starts_with(sign.prefix) {
                            found = Some(sign);
                        }
                    }
                    _ if is_numeral => {}
                    _ => return None,
                }
            }
        }
        found
    }

    /// The number that is missing before the word that was found, where a form has that word behind it.
    fn missing(&self) -> Option<&'static str> {
        if self.found.is_empty() {
            return None;
        }
        for form in self.forms {
            let wanted = word_at(*form, self.fitting).unwrap_or("");
            let behind = word_at(*form, self.fitting.saturating_add(1)).unwrap_or("");
            if is_number(wanted) && !is_number(behind) && fits(behind, self.found) {
                return Some(wanted);
            }
        }
        None
    }

    /// How the word that was found misspells a number.
    fn misspelling(&self) -> Option<Misspelling<'a>> {
        Some(misspelled(self.number_wanted()?, self.found))
    }

    /// What is wrong.
    pub fn sentence(&self) -> Telling<'a> {
        if let Some(place) = self.missing() {
            return Telling {
                text: "{}",
                value: Value::Missing(place, self.found),
            };
        }
        Telling {
            text: self.sentence_text(),
            value: Value::Word("", self.found),
        }
    }

    /// What is said of the first word that does not fit, which stands for `{}`.
    fn sentence_text(&self) -> &'static str {
        if self.found.is_empty() {
            return "a word is missing";
        }
        if self.wants_nothing() {
            return "'{}' is one word too many";
        }
        match self.misspelling() {
            Some(misspelling) => misspelling.sentence,
            None if self.fitting == 0 && self.is_of_calls() => "no call begins with '{}'",
            None if self.fitting == 0 => "no line begins with '{}'",
            None => "'{}' may not stand here",
        }
    }

    /// How the number is written that the word misspells; nothing where that is not known.
    fn right_spelling(&self) -> Telling<'a> {
        let Some(
            Misspelling {
                right: Some(right),
                ..
            },
        ) = self.misspelling()
        else {
            return plain("");
        };
        Telling {
            text: " write {}",
            value: Value::Word(right.prefix, right.digits),
        }
    }

    /// How it is mended, behind a space; there may be nothing.
    pub fn advice(&self) -> Telling<'a> {
        if self.found.starts_with('#') {
            return plain(" no comment stands behind other words");
        }
        if self.wants_nothing() {
            return plain(" the line should end before it");
        }
        let Some(near) = self.near else {
            return self.right_spelling();
        };
        Telling {
            text: " did you mean '{}'?",
            value: Value::Word("", near),
        }
    }
}

/// What is wanted in place of the first word that does not fit, each word once.
#[derive(Clone, Copy)]
pub struct Wanted<'a>(pub &'a Wording<'a>);

impl Wanted<'_> {
    /// What stands before the word that the form of this number wants.
    fn between(&self, number: usize) -> &'static str {
        let wording = self.0;
        if wording.wanted_before(number).is_empty() {
            ""
        } else if wording.wanted_at(number) == wording.last_wanted() && !wording.may_end() {
            " or "
        } else {
            ", "
        }
    }
}

impl fmt::Display for Wanted<'_> {
    fn fmt<W: fmt::Write>(&self, f: &mut fmt::Formatter<W>) -> fmt::Result {
        let wording = self.0;
        for number in 0..wording.forms.len() {
            if let Some(word) = wording.wanted(number) {
                f.write_str(self.between(number))?;
                f.write_str(word)?;
            }
        }
        f.write_str(if wording.may_end() {
            " or the end of the line"
        } else {
            ""
        })
    }
}
