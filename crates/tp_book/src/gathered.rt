//! The passes of workers that came back.
ghost use Rattle.std.specs.Prelude.{◌≡◌, ◌+◌};

use crate::passes::WorkerPass;
use std::marker::Model;
use std::sync::ledger::Share;
use tp_glance::glance::Naming;

/// The passes of workers that came back, as one: their shares together, and how many they were. So what is kept of the workers
/// that ever were takes no memory.
#[derive(Drop)]
pub struct Gathered<G: Naming> {
    pub(crate) share: Share<G>,
    pub(crate) passes: u64,
}

impl<G: Naming> Model for Gathered<G> {
    ghost use Rattle.std.specs.Prelude.{◌≡◌};
    ghost use Rattle.tp_book.specs.Names.{all_parts};
    ghost use Rattle.tp_book.specs.PassView.{GatheredView};

    ghost Value = { GatheredView };

    ghost view = { λ g. record { passes = g.passes; amount = g.share.amount } };

    ghost invariant = { λ g. (g.share.parts ≡ g.passes) × (G.parts ≡ all_parts) };
}

impl<G: Naming> Gathered<G> {
    /// How many passes came back.
    pub fn passes(&self) -> u64
        ensures { result ≡ self.now.passes }
    {
        self.passes
    }

    /// One pass more came back.
    pub fn take_in(&mut self, pass: WorkerPass<G>)
        ensures { self.new ≡ record { passes = self.old.passes + 1; amount = self.old.amount + pass.amount } }
    {
        let WorkerPass { account } = pass;
        self.share.merge(account.into_share());
        self.passes += 1;
    }
}
