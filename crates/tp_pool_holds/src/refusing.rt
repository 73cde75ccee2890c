//! A refused submission as an error: by `?` its refusal is passed on, and the job is dropped.
ghost use Rattle.std.specs.Prelude.{◌≡◌};

use crate::answers::Refused;
use std::error::Error;
use std::fmt;
use tp_types::refusals::PoolError;

/// The refusal alone: the job is dropped.
impl<J: Drop> From<Refused<J>> for PoolError {
    ghost from_gives = { λ refused e. e ≡ refused.error };

    fn from(refused: Refused<J>) -> PoolError {
        refused.error
    }
}

/// Prints the refusal.
impl<J> fmt::Display for Refused<J> {
    fn fmt<W: fmt::Write>(&self, f: &mut fmt::Formatter<W>) -> fmt::Result {
        write!(f, "{}", self.error)
    }
}

/// Prints the refusal, as `Display`: a job prints nothing.
impl<J> fmt::Debug for Refused<J> {
    fn fmt<W: fmt::Write>(&self, f: &mut fmt::Formatter<W>) -> fmt::Result {
        write!(f, "{}", self.error)
    }
}

impl<J: Drop> Error for Refused<J> {}
