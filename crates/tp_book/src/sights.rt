//! Sights: what a thread looks at a pool with that makes no step.
ghost use Rattle.std.specs.Prelude.{◌≡◌};
ghost use Rattle.tp_types.specs.RunState.{state_rank};
ghost use Rattle.tp_record.specs.Fields.{rank};
ghost use Rattle.tp_glance.specs.Word.{IsFrontOf};

use std::marker::Model;
use tp_glance::glance::{Glance, Naming, PassSeat};
use tp_types::states::RunState;

/// A seat of the pool's word alone, for who looks at the pool and makes no step. It has no number and no part
/// of the ledger, so it can be split as often as one likes, and a pool is closed without it. Contracts see it
/// as the front of the pool's history that it knows, the latest entry first.
#[derive(Drop)]
pub struct Sight<G: Naming> {
    pub(crate) seat: PassSeat<G>,
}

impl<G: Naming> Model for Sight<G> {
    ghost use Rattle.std.specs.Prelude.{List};
    ghost use Rattle.tp_record.specs.declared.entries.Entry.{Entry};

    ghost Value = { List Entry };

    ghost view = { λ s. s.seat.entries };
}

impl<G: Naming> Sight<G> {
    /// One more sight, which knows what this one knows.
    pub fn split(&mut self, glance: &Glance<G>) -> Sight<G>
        ensures begins { result ≡ self.old }
        ensures same { self.new ≡ self.old }
    {
        Sight {
            seat: glance.split(&mut self.seat),
        }
    }

    /// The run state that is published now, without waiting, as `isShutdown` and `isTerminated` tell it. It is
    /// that of the pool's history at this moment, which the sight then knows, and which goes on from what it
    /// knew.
    pub fn glance(&mut self, glance: &Glance<G>) -> RunState
        ensures state { state_rank result ≡ rank self.new }
        ensures goes_on { IsFrontOf self.old self.new }
    {
        glance.glance(&mut self.seat)
    }
}
