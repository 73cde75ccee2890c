//! Which steps wake who waits for a pool's end: its lines of the table in `docs/inside/WAKING.md`.
ghost use Rattle.std.specs.Prelude.{◌↔◌, IsTrue};
ghost use Rattle.tp_waking.specs.Ends.{ChangesEnd};

use tp_record::entries::Ask;
use tp_types::states::RunState;

/// Whether an accepted step that leaves the pool in this state, with so many live workers and queued tasks,
/// may change what a waiter in `await_termination` finds.
#[inline(always)]
pub fn changes_end(ask: &Ask, state: RunState, live: u32, queued: u32) -> bool
    ensures { IsTrue result ↔ ChangesEnd ask.now state live queued }
{
    match (ask, state) {
        (Ask::Tick(_), _) => true,
        (_, RunState::Running | RunState::Tidying) => false,
        (_, RunState::Shutdown) => live == 0 && queued == 0,
        (_, RunState::Stop) => live == 0,
        (_, RunState::Terminated) => true,
    }
}
