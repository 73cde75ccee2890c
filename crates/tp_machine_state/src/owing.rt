//! By how much what is owed falls at a shutdown.

ghost use Rattle.std.specs.Prelude.{◌≡◌, ◌^◌, ◌<◌};
ghost use Rattle.tp_types.specs.RunState.{state_rank};
ghost use Rattle.tp_machine_state.specs.Owing.{owed_until};
ghost use Rattle.tp_machine_state.specs.Steps.{Stands};

use crate::parts::Parts;
use tp_types::states::RunState;

impl<P> Parts<P> {
    /// By how many entries fewer are owed once the pool has come to this run state, for its workers and for itself: a worker
    /// that is about to take may not be idle any more. Where the pool runs it looks at every slot: these workers are counted
    /// here, and no count of them is kept.
    pub fn owed_until(&self, state: RunState) -> u64
        requires stands { Stands self.now }
        ensures falls { result ≡ owed_until self.now (state_rank state) }
        ensures few { result < 2 ^ 32 }
    {
        let workers = if self.state == RunState::Running {
            self.slots.at_take()
        } else {
            0
        };
        workers as u64 + u64::from(state.rank().saturating_sub(self.state.rank()))
    }
}
