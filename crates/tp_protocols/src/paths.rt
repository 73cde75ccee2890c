//! What a submission asks next.
ghost use Rattle.std.specs.Prelude.{ℕ, ◌≡◌};
ghost use Rattle.tp_types.specs.declared.configs.Verdict.{Verdict};
ghost use Rattle.tp_types.specs.declared.ids.SlotId.{SlotId};
ghost use Rattle.tp_types.specs.declared.ids.TaskId.{TaskId};
ghost use Rattle.tp_record.specs.Paths.{follows as what_follows, after_look as what_follows_look};
ghost use Rattle.tp_protocols.specs.Fronts.{follow_of, is_awaited, goes};

use tp_record::entries::{Did, Failed, Grown, Looked, Offered, Opened, Ruled, Seconded};
use tp_types::ids::{SlotId, TaskId};
use tp_types::tasks::Outcome;

/// What the submitter of a task does next.
#[derive(Clone, Copy, Debug, PartialEq, Eq)]
pub enum Next {
    /// It looks for a core slot again, after a retry.
    Look,
    /// It offers the task to the queue.
    Offer,
    /// It looks at the run state a second time.
    Second,
    /// It asks for a slot up to the maximum.
    Grow,
    /// It asks the policy or the handler for a verdict.
    Judge,
    /// It runs the task, and tells the outcome.
    RunHere,
    /// It has a worker made for the slot that it reserved, and tells whether one was.
    Staff(SlotId),
    /// Nothing: the submission has ended so.
    End(Ending),
    /// Nothing: the last answer was for another task.
    Astray,
}

/// How a submission ends.
#[derive(Clone, Copy, Debug, PartialEq, Eq)]
pub enum Ending {
    /// The pool has the task, or had it when it was cancelled.
    Accepted,
    /// Its submitter has run it to this outcome.
    RanHere(Outcome),
    /// It is gone, by a verdict.
    Discarded,
    /// It is gone, rejected.
    Rejected,
}

/// What follows on the path of task `t` after this answer, which is one of its own.
#[inline(always)]
pub fn follows(t: TaskId, did: &Did) -> Next
    ensures { follow_of t.0 result ≡ what_follows t.0 did.now }
{
    match *did {
        Did::Submit(_, _, _, looked) | Did::Look(_, looked) => after_look(looked),
        Did::Offer(_, Offered::Queued | Offered::Hand(_)) => Next::Second,
        Did::Offer(_, Offered::Full) => Next::Grow,
        Did::Second(_, Seconded::Stay) => Next::End(Ending::Accepted),
        Did::Second(_, Seconded::StayReserve(w)) | Did::Grow(_, Grown::Reserve(w)) => {
            Next::Staff(w)
        }
        Did::Second(_, Seconded::Back) | Did::Grow(_, Grown::Refuse) => Next::Judge,
        Did::Open(_, opened) => after_open(t, opened),
        Did::Fail(_, failed) => after_fail(t, failed),
        Did::Verdict(_, _, ruled) => after_verdict(ruled),
        Did::CallerEnd(_, outcome) => Next::End(Ending::RanHere(outcome)),
        _ => Next::Astray,
    }
}

#[inline(always)]
fn after_look(looked: Looked) -> Next
    ensures { (t : ℕ) → follow_of t result ≡ what_follows_look t looked }
{
    match looked {
        Looked::Reserve(w) => Next::Staff(w),
        Looked::Queue => Next::Offer,
        Looked::Refuse => Next::Judge,
    }
}

fn after_open(t: TaskId, opened: Opened) -> Next
    ensures { (w : SlotId) → follow_of t.0 result ≡ what_follows t.0 (Did.Open w opened) }
{
    match opened {
        Opened::Live | Opened::GivenUp => Next::End(Ending::Accepted),
        Opened::GivenUpRefuse(u) if u == t => Next::Judge,
        Opened::GivenUpRefuse(_) => Next::Astray,
    }
}

fn after_fail(t: TaskId, failed: Failed) -> Next
    ensures { (w : SlotId) → follow_of t.0 result ≡ what_follows t.0 (Did.Fail w failed) }
{
    match failed {
        Failed::Nothing => Next::End(Ending::Accepted),
        Failed::Offer(u) if u == t => Next::Offer,
        Failed::Refuse(u) if u == t => Next::Judge,
        Failed::Offer(_) | Failed::Refuse(_) => Next::Astray,
    }
}

fn after_verdict(ruled: Ruled) -> Next
    ensures { (t : ℕ) (u : TaskId) (v : Verdict) → follow_of t result ≡ what_follows t (Did.Verdict u v ruled) }
{
    match ruled {
        Ruled::Rejected => Next::End(Ending::Rejected),
        Ruled::Discarded => Next::End(Ending::Discarded),
        Ruled::Skip => Next::End(Ending::Accepted),
        Ruled::Caller => Next::RunHere,
        Ruled::Retry | Ruled::RetryDrop(_) => Next::Look,
    }
}

impl Next {
    /// Whether this answer, of a submitter of task `t`, is one that the deed awaits.
    #[inline(always)]
    pub fn awaits(&self, t: TaskId, did: &Did) -> bool
        ensures { result ≡ is_awaited (follow_of t.0 self.now) did.now }
    {
        match (*self, *did) {
            (Next::Look, Did::Look(u, _))
            | (Next::Offer, Did::Offer(u, _))
            | (Next::Second, Did::Second(u, _))
            | (Next::Grow, Did::Grow(u, _))
            | (Next::Judge, Did::Verdict(u, _, _))
            | (Next::RunHere, Did::CallerEnd(u, _)) => u == t,
            (Next::Staff(w), Did::Open(v, _) | Did::Fail(v, _)) => v == w,
            _ => false,
        }
    }

    /// What the submitter of task `t` does after this answer to the deed.
    #[inline(always)]
    pub fn after(&self, t: TaskId, did: &Did) -> Next
        ensures { follow_of t.0 result ≡ goes t.0 (follow_of t.0 self.now) did.now }
    {
        if self.awaits(t, did) {
            follows(t, did)
        } else {
            Next::Astray
        }
    }
}
