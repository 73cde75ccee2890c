//! How a call ends, with its number.

ghost use Rattle.std.specs.Prelude.{◌≡◌, Ok};
ghost use Rattle.tp_c.specs.Statuses.{audit_status, status_number};

use tp_types::refusals::PoolError;

/// How a call of the library ends.
#[derive(Clone, Copy, Debug, PartialEq, Eq)]
pub enum Status {
    /// 0: it did what was asked.
    Done,
    /// 1 to 26, by the refusal's own number: it was refused.
    Refused(PoolError),
    /// 32: the record has a flaw.
    Flaw,
    /// 33: the room for the answer is too small.
    TooSmall,
    /// 34: there is no such recorder; a record was asked of a machine that keeps none, or the other way round; no machine is there, or one
    /// is where none is to be.
    WrongKind,
    /// 35: the numbers are those of no ask.
    WrongAsk,
    /// 37: more states are reached than may be kept.
    TooMany,
}

impl Status {
    /// The status's number.
    pub fn number(self) -> u32
        ensures { result ≡ status_number self }
    {
        match self {
            Status::Done => 0,
            Status::Refused(error) => u32::from(error.number()),
            Status::Flaw => 32,
            Status::TooSmall => 33,
            Status::WrongKind => 34,
            Status::WrongAsk => 35,
            Status::TooMany => 37,
        }
    }

    /// How an audit ends that judged a record.
    pub(crate) fn of_judged(is_legal: bool) -> Status
        ensures { result ≡ audit_status (Ok is_legal) }
    {
        if is_legal { Status::Done } else { Status::Flaw }
    }
}
