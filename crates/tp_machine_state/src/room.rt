//! Whether there is room for one more entry.

ghost use Rattle.std.specs.Prelude.{◌^◌, ◌<◌};
ghost use Rattle.tp_machine_state.specs.Steps.{Stands};
ghost use Rattle.tp_machine_state.specs.Room.{TellsRoom, IsInRoom};

use crate::parts::Parts;
use tp_types::refusals::PoolError;

impl<P> Parts<P> {
    /// Whether the record has room for an entry by which what is owed falls by `fall` and rises by `rise`, in entries: for itself
    /// and for all that is owed after it. Where it has not, the step is refused with BookFull (5).
    #[inline(always)]
    pub fn has_room(&self, fall: u64, rise: u64) -> bool
        requires stands { Stands self.now }
        requires few { rise < 2 ^ 32 }
        ensures { TellsRoom self.now fall rise result }
    {
        let left = self.limit - self.steps - self.due;
        rise + 1 <= left.saturating_add(fall)
    }

    /// This answer, where the record has room for its entry, by which what is owed falls and rises by so much. BookFull (5) where
    /// it has not.
    #[inline(always)]
    pub fn in_room<X: Copy>(
        &self,
        answer: Result<X, PoolError>,
        fall: u64,
        rise: u64,
    ) -> Result<X, PoolError>
        requires stands { Stands self.now }
        requires few { rise < 2 ^ 32 }
        ensures { IsInRoom self.now fall rise answer result }
    {
        match answer {
            Ok(x) => {
                if self.has_room(fall, rise) {
                    Ok(x)
                } else {
                    Err(PoolError::BookFull)
                }
            }
            Err(e) => Err(e),
        }
    }
}
