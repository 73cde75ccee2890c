//! Which steps wake who waits until a submission finds room: its line of the table in `docs/inside/WAKING.md`.
ghost use Rattle.std.specs.Prelude.{◌↔◌, IsTrue};
ghost use Rattle.tp_waking.specs.Rooms.{ChangesRoom};

use tp_record::entries::{Did, Opened, Ruled, Took};

/// Whether after an accepted step with this answer a submission may find room that found none before: a slot is freed, a place in the
/// queue, or an idle worker, or more slots are allowed; or the pool runs no more, and the wait is over.
#[inline(always)]
pub fn changes_room(did: &Did) -> bool
    ensures { IsTrue result ↔ ChangesRoom did.now }
{
    matches!(
        did,
        Did::Take(_, Took::Head(_) | Took::Idle | Took::Leave)
            | Did::Fail(_, _)
            | Did::Open(_, Opened::GivenUp | Opened::GivenUpRefuse(_))
            | Did::Leave(_, _)
            | Did::Remove(_, true)
            | Did::Purge(_)
            | Did::Verdict(_, _, Ruled::RetryDrop(_))
            | Did::Maximum(_)
            | Did::Shutdown
            | Did::Stop(_)
    )
}
