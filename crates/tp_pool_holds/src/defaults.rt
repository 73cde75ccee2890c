//! The objects of a caller that has none of its own.
ghost use Rattle.std.specs.Prelude.{◌≡◌, true};

use crate::edges::{Edge, STACK};
use std::sync::Wait;
use tp_types::configs::Verdict;
use tp_types::ids::{SlotId, TaskId};
use tp_types::states::RunState;

/// The objects of a caller that has none of its own: each worker is allowed, each verdict is Abort, the hooks
/// do nothing, and the gate is open. Java's constructors fill in a default factory and `AbortPolicy`
/// likewise.
#[derive(Drop)]
pub struct Defaults;

impl Edge for Defaults {
    ghost use Rattle.tp_pool_holds.specs.declared.edges.TheConstants.{STACK};

    fn allow<R: Wait>(&self, _rt: &R, _w: SlotId) -> bool
        ensures { result ≡ true }
    {
        true
    }

    fn verdict<R: Wait>(&self, _rt: &R, _t: TaskId, _state: RunState) -> Verdict
        ensures { result ≡ Verdict.Abort }
    {
        Verdict::Abort
    }

    fn stack(&self) -> usize
        ensures { result ≡ STACK }
    {
        STACK
    }
}
