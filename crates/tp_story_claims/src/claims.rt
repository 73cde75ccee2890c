//! Claims, and whether they hold.

ghost use Rattle.std.specs.Prelude.{◌≡◌};
ghost use Rattle.tp_story_claims.specs.Claims as claimed;

use crate::quantities::{Quantity, Seen};
use std::fmt;
use tp_types::states::RunState;

/// How a number is compared with another.
#[derive(Clone, Copy, Debug, PartialEq, Eq)]
pub enum Relation {
    /// `=`
    Equal,
    /// `!=`
    Unequal,
    /// `<`
    Below,
    /// `<=`
    AtMost,
    /// `>`
    Above,
    /// `>=`
    AtLeast,
}

impl Relation {
    /// Whether it is so of these two.
    pub fn holds(self, left: u128, right: u128) -> bool
        ensures { result ≡ claimed.relates self left right }
    {
        match self {
            Relation::Equal => left == right,
            Relation::Unequal => left != right,
            Relation::Below => left < right,
            Relation::AtMost => left <= right,
            Relation::Above => left > right,
            Relation::AtLeast => left >= right,
        }
    }

    /// Whether a number is so great that neither it nor a greater one can be so beside the other.
    fn is_lost(self, left: u128, right: u128) -> bool
        ensures { result ≡ claimed.is_beyond self left right }
    {
        match self {
            Relation::Equal | Relation::AtMost => left > right,
            Relation::Below => left >= right,
            Relation::Unequal | Relation::Above | Relation::AtLeast => false,
        }
    }

    /// As it stands in a claim.
    pub fn sign(self) -> &'static str {
        match self {
            Relation::Equal => "=",
            Relation::Unequal => "!=",
            Relation::Below => "<",
            Relation::AtMost => "<=",
            Relation::Above => ">",
            Relation::AtLeast => ">=",
        }
    }
}

/// One number, or a sum of at most four.
#[derive(Clone, Copy, Debug, PartialEq, Eq)]
pub struct Terms {
    /// The first number.
    pub first: Quantity,
    /// What is added to it.
    pub second: Option<Quantity>,
    /// What is added to both.
    pub third: Option<Quantity>,
    /// What is added last.
    pub fourth: Option<Quantity>,
}

/// How great a number is; 0 where there is none.
fn value_of(quantity: Option<Quantity>, seen: &Seen) -> u64
    ensures { result ≡ claimed.value_or_zero quantity seen.now }
{
    match quantity {
        Some(quantity) => quantity.value(seen),
        None => 0,
    }
}

/// Whether a number, if there is one, never falls.
fn never_falls(quantity: Option<Quantity>) -> bool
    ensures { result ≡ claimed.never_falls quantity }
{
    match quantity {
        Some(quantity) => quantity.rises(),
        None => true,
    }
}

impl Terms {
    /// One number.
    pub fn only(first: Quantity) -> Terms {
        Terms {
            first,
            second: None,
            third: None,
            fourth: None,
        }
    }

    /// With one number more; None where there are four.
    pub fn and(self, quantity: Quantity) -> Option<Terms> {
        let added = Some(quantity);
        match self {
            Terms { second: None, .. } => Some(Terms {
                second: added,
                ..self
            }),
            Terms { third: None, .. } => Some(Terms {
                third: added,
                ..self
            }),
            Terms { fourth: None, .. } => Some(Terms {
                fourth: added,
                ..self
            }),
            _ => None,
        }
    }

    /// The sum.
    pub fn sum(&self, seen: &Seen) -> u128
        ensures { result ≡ claimed.sum self.now seen.now }
    {
        u128::from(self.first.value(seen))
            + u128::from(value_of(self.second, seen))
            + u128::from(value_of(self.third, seen))
            + u128::from(value_of(self.fourth, seen))
    }

    /// Whether the sum never falls as entries are told.
    fn rises(&self) -> bool
        ensures { result ≡ claimed.all_rise self.now }
    {
        self.first.rises()
            && never_falls(self.second)
            && never_falls(self.third)
            && never_falls(self.fourth)
    }
}

/// A claim.
#[derive(Clone, Copy, Debug, PartialEq, Eq)]
pub enum Claim {
    /// The sum is so beside this number.
    Sum(Terms, Relation, u64),
    /// The run state at the end is this one.
    Is(RunState),
    /// The run state at the end is another one.
    IsNot(RunState),
}

impl fmt::Display for Terms {
    fn fmt<W: fmt::Write>(&self, f: &mut fmt::Formatter<W>) -> fmt::Result {
        f.write_str(self.first.name())?;
        for term in [self.second, self.third, self.fourth] {
            if let Some(quantity) = term {
                f.write_str(" + ")?;
                f.write_str(quantity.name())?;
            }
        }
        Ok(())
    }
}

impl fmt::Display for Claim {
    fn fmt<W: fmt::Write>(&self, f: &mut fmt::Formatter<W>) -> fmt::Result {
        match *self {
            Claim::Sum(terms, relation, bound) => {
                let sign = relation.sign();
                write!(f, "{terms} {sign} {bound}")
            }
            Claim::Is(state) => {
                let name = state.name();
                write!(f, "state = {name}")
            }
            Claim::IsNot(state) => {
                let name = state.name();
                write!(f, "state != {name}")
            }
        }
    }
}

impl Claim {
    /// Whether it holds of these numbers.
    pub fn holds(&self, seen: &Seen) -> bool
        ensures { result ≡ claimed.holds self.now seen.now }
    {
        match self {
            Claim::Sum(terms, relation, bound) => {
                relation.holds(terms.sum(seen), u128::from(*bound))
            }
            Claim::Is(state) => state.rank() == seen.rank,
            Claim::IsNot(state) => state.rank() != seen.rank,
        }
    }

    /// Whether it is breached by these numbers so that no later entry mends it.
    pub fn is_lost(&self, seen: &Seen) -> bool
        ensures { result ≡ claimed.is_lost self.now seen.now }
    {
        match self {
            Claim::Sum(terms, relation, bound) => {
                terms.rises() && relation.is_lost(terms.sum(seen), u128::from(*bound))
            }
            Claim::Is(_) | Claim::IsNot(_) => false,
        }
    }
}
