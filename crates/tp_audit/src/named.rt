//! The tasks and slots that an entry names.

ghost use Rattle.std.specs.Prelude.{◌≡◌};
ghost use Rattle.tp_laws.proofs.Effects.Names as entry;

use tp_record::entries::{Did, Failed, Offered, Opened, Ruled, Started, Took};
use tp_rules::effects::reserved_by;

/// Whether an entry changes rows that it does not name, or the run state.
pub fn is_wide(did: Did) -> bool
    ensures { result ≡ entry.is_wide did }
{
    matches!(
        did,
        Did::Shutdown | Did::Stop(_) | Did::Tidy | Did::Ended | Did::Purge(_)
    )
}

/// The task whose row an entry changes.
pub fn named_task(did: Did) -> Option<u32>
    ensures { result ≡ entry.names did }
{
    match did {
        Did::Submit(t, _, _, _) | Did::Look(t, _) | Did::Offer(t, _) | Did::Second(t, _) => Some(
            t.0,
        ),
        Did::Grow(t, _) | Did::Verdict(t, _, _) | Did::CallerEnd(t, _) => Some(t.0),
        Did::Open(_, Opened::GivenUpRefuse(t)) => Some(t.0),
        Did::Fail(_, Failed::Offer(t)) | Did::Fail(_, Failed::Refuse(t)) => Some(t.0),
        Did::Take(_, Took::Held(t)) | Did::Take(_, Took::Head(t)) => Some(t.0),
        Did::Begin(_, Started::Run(t)) | Did::Begin(_, Started::Skip(t)) => Some(t.0),
        Did::End(_, t, _) | Did::Remove(t, true) | Did::Cancel(t, _, true) => Some(t.0),
        _ => None,
    }
}

/// The queue's head that a retry drops.
pub fn dropped_task(did: Did) -> Option<u32>
    ensures { result ≡ entry.drops did }
{
    match did {
        Did::Verdict(_, _, Ruled::RetryDrop(u)) => Some(u.0),
        _ => None,
    }
}

/// The slot that an entry turns, reserves, frees or gives a task.
pub fn named_slot(did: Did) -> Option<usize>
    ensures { result ≡ entry.seats did }
{
    match did {
        Did::Offer(_, Offered::Hand(w)) => Some(w.0),
        Did::Open(w, _) | Did::Fail(w, _) | Did::Take(w, _) | Did::Begin(w, _) => Some(w.0),
        Did::End(w, _, _) | Did::Leave(w, _) => Some(w.0),
        _ => reserved_by(did),
    }
}

/// Beside it the slot that is reserved in place of one that leaves.
pub fn replacing_slot(did: Did) -> Option<usize>
    ensures { result ≡ entry.replaces did }
{
    match did {
        Did::Leave(v, Some(w)) if w != v => Some(w.0),
        _ => None,
    }
}
