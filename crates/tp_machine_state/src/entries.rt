//! One more entry.

ghost use Rattle.std.specs.Prelude.{ℕ, suc, ◌≡◌, ◌+◌, ◌-◌, ◌^◌, ◌<◌, ◌≤◌};
ghost use Rattle.tp_types.specs.declared.configs.Config.{Config};
ghost use Rattle.tp_laws.specs.View.{View};
ghost use Rattle.tp_machine_state.specs.Shows.{Views};
ghost use Rattle.tp_machine_state.specs.Tied.{IsTied};

use crate::parts::Parts;

impl<P> Parts<P> {
    /// One more entry was made, and so many fewer are owed.
    #[inline(always)]
    pub fn count_entry(&mut self, fall: u64)
        requires few { self.old.steps < 2 ^ 64 - 1 }
        requires fall { fall ≤ self.old.due }
        ensures views { (v : View) → Views self.old v → Views self.new v }
        ensures tied { (c : Config) (n : ℕ) → IsTied c n self.old → IsTied c n self.new }
        ensures rest { self.new ≡ record self.old { steps = suc self.old.steps; due = self.old.due - fall } }
    {
        self.steps += 1;
        self.due -= fall;
    }
    /// One more entry was made, and so many more are owed.
    #[inline(always)]
    pub fn count_rising_entry(&mut self, rise: u64)
        requires few { self.old.steps < 2 ^ 64 - 1 }
        requires rise { self.old.due + rise < 2 ^ 64 }
        ensures views { (v : View) → Views self.old v → Views self.new v }
        ensures tied { (c : Config) (n : ℕ) → IsTied c n self.old → IsTied c n self.new }
        ensures rest { self.new ≡ record self.old { steps = suc self.old.steps; due = self.old.due + rise } }
    {
        self.steps += 1;
        self.due += rise;
    }
}
