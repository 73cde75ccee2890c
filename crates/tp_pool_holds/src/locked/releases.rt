//! A task is forgotten in one hold of the lock, where no record is kept.
ghost use Rattle.std.specs.Prelude.{◌≡◌, ◌+◌, length, OnOk, IfErr, OnErr};
ghost use Rattle.tp_glance.specs.Word.{IsFrontOf};
ghost use Rattle.tp_machine_state.specs.Releases.{IsKept};
ghost use Rattle.tp_book.specs.BookView.{Forgets, left_of, released_of, state_of};
ghost use Rattle.tp_pool_holds.specs.Moments.{BookAtSome};
ghost use Rattle.tp_pool_holds.specs.declared.tasks.Payload.{Payload as TaskOf};

use super::Locked;
use crate::names::PoolNaming;
use tp_book::passes::Pass;
use tp_glance::glance::Glance;
use tp_record::recorders::{Recorder, Tally};
use tp_types::ids::TaskId;
use tp_types::refusals::PoolError;

impl<G: PoolNaming, J: Drop> Locked<G, J, Tally> {
    /// Forgets a task: `Machine::release`. UnknownTask (6) or NotThere (8). The pass then knows the whole history, with
    /// the task released.
    pub fn release_task(
        &mut self,
        t: TaskId,
        glance: &Glance<G>,
        pass: &mut Pass<G>,
    ) -> Result<(), PoolError>
        ensures shown { pass.new ≡ record pass.old { front = self.old.book.history; released = released_of self.new.book } }
        ensures goes_on { IsFrontOf pass.old.front self.old.book.history }
        ensures knew { IsFrontOf pass.old.released (released_of self.new.book) }
        ensures released { OnOk result (Forgets self.old.book self.new.book t.0) }
        ensures refused { IfErr result (λ e. IsKept (left_of self.old.book) t.0 e) }
        ensures rest { OnOk result ((self.new.roster ≡ self.old.roster) × (self.new.waking ≡ self.old.waking)) }
        ensures unchanged { OnErr result (self.new ≡ self.old) }
    {
        let released = self.book.release(t, glance);
        self.show(glance, pass);
        released
    }

    /// How many tasks are not forgotten, of those that were submitted.
    pub fn kept(&self) -> u32
        ensures here { result + length (released_of self.now.book) ≡ length (state_of self.now.book).tasks }
        ensures some { BookAtSome (TaskOf J) (⟦<Tally as Recorder>⟧.terms G.config) (λ b. result + length (released_of b) ≡ length (state_of b).tasks) }
    {
        self.law_is_book();
        self.book.kept()
    }
}
