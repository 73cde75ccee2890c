//! Claims read from words.

use crate::claims::{Claim, Relation, Terms};
use crate::quantities::Quantity;
use tp_types::states::RunState;

/// What is wrong with a claim, and where.
#[derive(Clone, Copy, Debug, PartialEq, Eq)]
pub struct Mistake {
    /// The column, in bytes from 1.
    pub column: usize,
    /// What is wanted there.
    pub wanted: &'static str,
}

const WANTED_NAME: &str =
    "a number's name: submitted, run, caller, rejected, discarded, handedback, removed, cancelled, open, queued, live, wait, busy or entries; or state";

const WANTED_SIGN: &str = "+, or one of = != < <= > >=";

const WANTED_RELATION: &str = "= or !=";

const WANTED_NUMBER: &str = "a number below 2^64";

const WANTED_STATE: &str = "running, shutdown, stop, tidying or terminated";

const WANTED_END: &str = "the claim's end";

const WANTED_FEWER: &str = "at most four numbers in a sum";

/// A claim's text, and how far it was read.
#[derive(Drop)]
struct Scanner<'a> {
    text: &'a str,
    at: usize,
}

impl<'a> Scanner<'a> {
    /// The byte that comes next.
    fn next(&self) -> Option<u8> {
        self.text.as_bytes().get(self.at).copied()
    }

    /// Skips spaces.
    fn skip(&mut self) {
        for _ in 0..self.text.len() {
            if self.next() != Some(b' ') {
                return;
            }
            self.at = self.at.saturating_add(1);
        }
    }

    /// The letters or digits that come next, behind spaces.
    fn word(&mut self) -> &'a str {
        self.skip();
        let start = self.at;
        for _ in 0..self.text.len() {
            match self.next() {
                Some(byte) if byte.is_ascii_alphanumeric() => self.at = self.at.saturating_add(1),
                _ => break,
            }
        }
        self.text.get(start..self.at).unwrap_or("")
    }

    /// A sign, if it comes next.
    fn takes(&mut self, sign: &str) -> bool {
        let rest = self.text.get(self.at..).unwrap_or("");
        if rest.starts_with(sign) {
            self.at = self.at.saturating_add(sign.len());
            return true;
        }
        false
    }

    /// A mistake before this word.
    fn mistake_at(&self, word: &str, wanted: &'static str) -> Mistake {
        Mistake {
            column: self.at.saturating_sub(word.len()).saturating_add(1),
            wanted,
        }
    }

    /// How the numbers are compared, if that comes next, behind spaces.
    fn relation(&mut self) -> Option<Relation> {
        const SIGNS: [(&str, Relation); 6] = [
            ("!=", Relation::Unequal),
            ("<=", Relation::AtMost),
            (">=", Relation::AtLeast),
            ("=", Relation::Equal),
            ("<", Relation::Below),
            (">", Relation::Above),
        ];
        self.skip();
        for (sign, relation) in SIGNS {
            if self.takes(sign) {
                return Some(relation);
            }
        }
        None
    }

    /// That the text ends here.
    fn end(&mut self, claim: Claim) -> Result<Claim, Mistake> {
        self.skip();
        if self.at < self.text.len() {
            return Err(self.mistake_at("", WANTED_END));
        }
        Ok(claim)
    }

    /// The rest of a claim about the run state.
    fn state(&mut self) -> Result<Claim, Mistake> {
        self.skip();
        let mistake = self.mistake_at("", WANTED_RELATION);
        let is = match self.relation() {
            Some(Relation::Equal) => true,
            Some(Relation::Unequal) => false,
            _ => return Err(mistake),
        };
        let word = self.word();
        for rank in 0u8..5 {
            let state = RunState::from_rank(rank.min(4));
            if state.name() == word {
                return self.end(if is {
                    Claim::Is(state)
                } else {
                    Claim::IsNot(state)
                });
            }
        }
        Err(self.mistake_at(word, WANTED_STATE))
    }

    /// The rest of a claim about numbers, behind its sum.
    fn bound(&mut self, terms: Terms, relation: Relation) -> Result<Claim, Mistake> {
        let word = self.word();
        match word.parse::<u64>() {
            Ok(bound) => self.end(Claim::Sum(terms, relation, bound)),
            Err(_) => Err(self.mistake_at(word, WANTED_NUMBER)),
        }
    }

    /// The number that is named next.
    fn quantity(&mut self) -> Result<Quantity, Mistake> {
        let word = self.word();
        match Quantity::named(word) {
            Some(quantity) => Ok(quantity),
            None => Err(self.mistake_at(word, WANTED_NAME)),
        }
    }

    /// The rest of a claim about numbers, behind the first of them.
    fn sum(&mut self, first: Quantity) -> Result<Claim, Mistake> {
        let mut terms = Terms::only(first);
        for _ in 0..4 {
            if let Some(relation) = self.relation() {
                return self.bound(terms, relation);
            }
            if !self.takes("+") {
                return Err(self.mistake_at("", WANTED_SIGN));
            }
            let fewer = self.mistake_at("+", WANTED_FEWER);
            let quantity = self.quantity()?;
            terms = terms.and(quantity).ok_or(fewer)?;
        }
        Err(self.mistake_at("", WANTED_FEWER))
    }
}

/// The claim that these words make, as `cancelled + rejected < 5` or `state = terminated`; else what is wrong with them.
pub fn read_claim(text: &str) -> Result<Claim, Mistake> {
    let mut scanner = Scanner { text, at: 0 };
    let word = scanner.word();
    if word == "state" {
        return scanner.state();
    }
    match Quantity::named(word) {
        Some(quantity) => scanner.sum(quantity),
        None => Err(scanner.mistake_at(word, WANTED_NAME)),
    }
}
