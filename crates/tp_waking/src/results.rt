//! Which steps wake who waits for a future: its line of the table in `docs/inside/WAKING.md`.
ghost use Rattle.std.specs.Prelude.{◌↔◌, IsTrue};
ghost use Rattle.tp_waking.specs.Results.{ChangesResults};

use tp_record::entries::{Did, Ruled};

/// Whether an accepted step with this answer may change what they find who wait for a future's answer, or for
/// the next done task of a group.
#[inline(always)]
pub fn changes_results(did: &Did) -> bool
    ensures { IsTrue result ↔ ChangesResults did.now }
{
    matches!(
        did,
        Did::Tick(_)
            | Did::End(_, _, _)
            | Did::CallerEnd(_, _)
            | Did::Cancel(_, _, true)
            | Did::Remove(_, true)
            | Did::Stop(_)
            | Did::Verdict(
                _,
                _,
                Ruled::Rejected | Ruled::Discarded | Ruled::RetryDrop(_)
            )
    )
}
