//! Tasks that a machine forgets by itself, with what keeps its record.

ghost use Rattle.std.specs.Prelude.{ℕ, ◌≡◌, [], true, false, List, IsTrue};
ghost use Rattle.tp_types.specs.Config.{IsConfig};
ghost use Rattle.tp_types.specs.declared.configs.Config.{Config};
ghost use Rattle.tp_record.specs.declared.entries.Entry.{Entry};
ghost use Rattle.tp_record.specs.Left.{left};
ghost use Rattle.tp_record.specs.State.{state};
ghost use Rattle.tp_tasks.specs.Tasks.{KeepsOthers};
ghost use Rattle.tp_machine.specs.Releases.{MayForget, released_with};
ghost use Rattle.tp_machine.specs.Seen.{At, config_of};

use super::Machine;
use tp_record::recorders::{Full, Recorder, Tally};
use tp_types::ids::TaskId;
use tp_types::tasks::Kind;

/// What keeps a pool's record, and says which of its tasks the pool forgets by itself.
pub trait Keeper: Recorder {
    /// This task may be gone: it is forgotten, where the pool forgets tasks, it is plain, and it owes nothing. Whether it was
    /// forgotten. It writes no entry and takes no memory.
    fn forget<P: Drop>(machine: &mut Machine<P, Self>, t: TaskId) -> bool
        ensures stands { (h : List Entry) (rs : List ℕ) → At Self.tells machine.old h rs → At Self.tells machine.new h (released_with result t.0 rs) }
        ensures forgets { IsTrue result → (h : List Entry) (rs : List ℕ) → At Self.tells machine.old h rs → MayForget (left rs (state (config_of machine.old) h)) t.0 }
        ensures keeps { Self.RECEIPTS ≡ false → result ≡ false → (h : List Entry) (rs : List ℕ) → At Self.tells machine.old h rs →
            ¬ MayForget (left rs (state (config_of machine.old) h)) t.0 }
        ensures whole { Self.RECEIPTS ≡ true → result ≡ false }
        ensures unchanged { result ≡ false → machine.new ≡ machine.old }
        ensures config { config_of machine.new ≡ config_of machine.old }
        ensures others { KeepsOthers machine.old.parts.tasks machine.new.parts.tasks t.0 }
        ensures rest { machine.new ≡ record machine.old { parts = record machine.old.parts { tasks = machine.new.parts.tasks } } };

    /// The law of what is forgotten: nothing where the record is kept. Where none is, the pool's limit is beyond those that settings
    /// may name.
    fn law_forgets_at_will()
        ensures whole { Self.RECEIPTS ≡ true → (r : Self) (h : List Entry) (rs : List ℕ) → Self.tells r h rs → rs ≡ [] }
        ensures endless { Self.RECEIPTS ≡ false → (c : Config) → ¬ IsConfig (Self.terms c) };
}

/// A record names every task.
impl Keeper for Full {
    #[inline(always)]
    fn forget<P: Drop>(_machine: &mut Machine<P, Full>, _t: TaskId) -> bool {
        false
    }

    fn law_forgets_at_will() {}
}

/// Nobody asks for a plain task that is gone.
impl Keeper for Tally {
    #[inline(always)]
    fn forget<P: Drop>(machine: &mut Machine<P, Tally>, t: TaskId) -> bool {
        machine.forget(t)
    }

    fn law_forgets_at_will() {}
}

impl<P> Machine<P, Tally> {
    // Forgets a plain task that is gone and owes nothing, and tells whether it did. Any other stays.
    #[inline(always)]
    fn forget(&mut self, t: TaskId) -> bool
    where
        P: Drop,
        ensures stands { (h : List Entry) (rs : List ℕ) → At ⟦<Tally as Recorder>⟧.tells self.old h rs → At ⟦<Tally as Recorder>⟧.tells self.new h (released_with result t.0 rs) }
        ensures forgets { IsTrue result → (h : List Entry) (rs : List ℕ) → At ⟦<Tally as Recorder>⟧.tells self.old h rs → MayForget (left rs (state (config_of self.old) h)) t.0 }
        ensures keeps { result ≡ false → (h : List Entry) (rs : List ℕ) → At ⟦<Tally as Recorder>⟧.tells self.old h rs →
            ¬ MayForget (left rs (state (config_of self.old) h)) t.0 }
        ensures unchanged { result ≡ false → self.new ≡ self.old }
        ensures others { KeepsOthers self.old.parts.tasks self.new.parts.tasks t.0 }
        ensures rest { self.new ≡ record self.old { parts = record self.old.parts { tasks = self.new.parts.tasks } } }
    {
        let Some(row) = self.parts.tasks.row(t) else {
            return false;
        };
        let Kind::Plain = row.kind else {
            return false;
        };
        if !self.parts.owes_nothing(t, row) {
            return false;
        }
        self.parts.forget_task(t);
        true
    }
}
