//! The tables after an entry.

ghost use Rattle.std.specs.Prelude.{ℕ, ◌≡◌, ◌<◌, ◌^◌, OnOk, OnErr};
ghost use Rattle.tp_record.specs.State as states;
ghost use Rattle.tp_audit.specs.Done.{done_in};
ghost use Rattle.tp_audit.specs.Owed.{due_by};
ghost use Rattle.tp_audit.specs.Tables.{shown, undone, completion as completion_of, with_completion, handed_out, HasRanks, HasSizes, Suits, SuitsAll};

use crate::named::is_wide;
use crate::tables::Tables;
use std::alloc::AllocError;
use tp_record::entries::Did;

impl Tables {
    /// The tables after an entry. Where memory is refused nothing has changed.
    pub fn note(&mut self, did: Did) -> Result<(), AllocError>
        requires suits { Suits (shown self.old) did }
        requires all { SuitsAll (shown self.old) }
        requires sizes { HasSizes (shown self.old) }
        requires ranks { HasRanks self.old }
        requires due { self.old.due < 2 ^ 32 }
        ensures next { OnOk result (shown self.new ≡ undone (states.next (shown self.old) did)) }
        ensures done { OnOk result ((g : ℕ) → done_in self.new.done g
            ≡ handed_out did g (with_completion (completion_of did (shown self.old)) g (done_in self.old.done g))) }
        ensures due { OnOk result (self.new.due ≡ due_by did (shown self.old) self.old.due) }
        ensures ranks { HasRanks self.new }
        ensures err { OnErr result (shown self.new ≡ shown self.old) }
        ensures err_done { OnErr result ((g : ℕ) → done_in self.new.done g ≡ done_in self.old.done g) }
        ensures err_due { OnErr result (self.new.due ≡ self.old.due) }
    {
        let due = self.due_after(did);
        if is_wide(did) {
            self.note_all(did);
        } else {
            self.note_named(did)?;
        }
        self.due = due;
        Ok(())
    }
}
