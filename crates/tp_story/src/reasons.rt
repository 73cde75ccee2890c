//! Why submissions are refused.

ghost use Rattle.std.specs.Prelude.{◌≡◌, ◌<◌, ◌^◌};
ghost use Rattle.tp_story.specs.Counted as counted;

use tp_record::entries::{Did, Failed, Grown, Looked, Opened, Seconded};

/// Why a submission is refused.
#[derive(Clone, Copy, Debug, PartialEq, Eq)]
pub enum Reason {
    /// The pool was shut down.
    ShutDown,
    /// The queue was full, and so was the pool.
    Full,
    /// No worker was made for the slot that held the task.
    NoWorker,
}

/// How often submissions were refused, by reason.
#[derive(Clone, Copy, Debug, PartialEq, Eq)]
pub struct Refusals {
    /// The pool was shut down.
    pub shut_down: u64,
    /// The queue was full, and so was the pool.
    pub full: u64,
    /// No worker was made for the slot that held the task.
    pub no_worker: u64,
}

/// Why an entry refuses a submission, if it does, where this is the run state's rank after it.
pub fn reason_of(rank: u8, did: Did) -> Option<Reason>
    ensures { result ≡ counted.reason rank did }
{
    match did {
        Did::Submit(_, _, _, Looked::Refuse) | Did::Look(_, Looked::Refuse) => Some(
            Reason::ShutDown,
        ),
        Did::Second(_, Seconded::Back) | Did::Open(_, Opened::GivenUpRefuse(_)) => Some(
            Reason::ShutDown,
        ),
        Did::Grow(_, Grown::Refuse) if rank > 0 => Some(Reason::ShutDown),
        Did::Grow(_, Grown::Refuse) => Some(Reason::Full),
        Did::Fail(_, Failed::Refuse(_)) => Some(Reason::NoWorker),
        _ => None,
    }
}

impl Refusals {
    /// With one more, if there is a reason.
    pub fn and(self, reason: Option<Reason>) -> Refusals
        ensures { self.shut_down < 2 ^ 32 → self.full < 2 ^ 32 → self.no_worker < 2 ^ 32 → result ≡ counted.refused reason self }
    {
        match reason {
            Some(Reason::ShutDown) => Refusals {
                shut_down: self.shut_down.saturating_add(1),
                ..self
            },
            Some(Reason::Full) => Refusals {
                full: self.full.saturating_add(1),
                ..self
            },
            Some(Reason::NoWorker) => Refusals {
                no_worker: self.no_worker.saturating_add(1),
                ..self
            },
            None => self,
        }
    }
}
