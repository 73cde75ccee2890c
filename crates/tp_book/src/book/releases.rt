//! Tasks that are forgotten, by a book that keeps no record.
ghost use Rattle.std.specs.Prelude.{◌≡◌, ◌+◌, length, OnOk, IfErr, OnErr};
ghost use Rattle.tp_machine_state.specs.Releases.{IsKept};
ghost use Rattle.tp_book.specs.BookView.{Forgets, left_of, released_of, state_of};

use super::Book;
use tp_glance::glance::{Glance, Naming};
use tp_machine::machine::releases::Keeper;
use tp_record::recorders::Tally;
use tp_types::ids::TaskId;
use tp_types::refusals::PoolError;

impl<G: Naming, P: Drop> Book<G, P, Tally> {
    /// Forgets a task that is gone, owes no second look, and has no completion that waits: each later call that names it answers
    /// UnknownTask (6). It is no step, and takes no memory. UnknownTask (6), or NotThere (8) where the task is not so.
    pub fn release(&mut self, t: TaskId, glance: &Glance<G>) -> Result<(), PoolError>
        ensures released { OnOk result (Forgets self.old self.new t.0) }
        ensures refused { IfErr result (λ e. IsKept (left_of self.old) t.0 e) }
        ensures unchanged { OnErr result (self.new ≡ self.old) }
    {
        Tally::law_forgets_at_will();
        match self.machine.release(t) {
            Ok(()) => {
                glance.forget(&mut self.seat, t);
                Ok(())
            }
            Err(error) => Err(error),
        }
    }
}

impl<G: Naming, P> Book<G, P, Tally> {
    /// How many tasks are not forgotten, of those that were submitted.
    pub fn kept(&self) -> u32
        ensures { result + length (released_of self.now) ≡ length (state_of self.now).tasks }
    {
        Tally::law_forgets_at_will();
        self.machine.kept()
    }
}
