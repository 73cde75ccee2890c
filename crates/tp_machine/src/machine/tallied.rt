//! A machine that keeps no record, and forgets tasks that are gone and owe nothing.

ghost use Rattle.std.specs.Prelude.{ℕ, ◌≡◌, ◌⊎◌, ◌+◌, ◌∷◌, [], List, length, IfOk, IfErr, OnOk, OnErr, Err, None};
ghost use Rattle.tp_types.specs.Config.{IsConfig, checked};
ghost use Rattle.tp_record.specs.declared.entries.Entry.{Entry};
ghost use Rattle.tp_record.specs.Left.{left, MayRelease};
ghost use Rattle.tp_record.specs.State.{state};
ghost use Rattle.tp_record.specs.Terms.{without_end};
ghost use Rattle.tp_tasks.specs.Tasks.{task_of, KeepsOthers};
ghost use Rattle.tp_machine_state.specs.Releases.{IsKept};
ghost use Rattle.tp_machine.specs.Readings.{EachState};
ghost use Rattle.tp_machine.specs.Seen.{At, config_of, payload, promise};

use super::Machine;
use std::alloc::Global;
use tp_record::recorders::{Recorder, Tally};
use tp_types::configs::Config;
use tp_types::ids::TaskId;
use tp_types::refusals::PoolError;

impl<P> Machine<P, Tally> {
    /// A pool with these settings and no tasks, of whose record only the length is kept. BadSizes (1), BadCapacity (2), BadLimit
    /// (3), KeepZero (11), or NoMemory (4) for the queue's and the slots' places.
    pub fn tallied(alloc: Global, config: Config) -> Result<Machine<P, Tally>, PoolError>
    where
        P: Drop,
        ensures stands { IfOk result (λ m. At ⟦<Tally as Recorder>⟧.tells m [] []) }
        ensures payloads { IfOk result (λ m. (t : ℕ) → payload m t ≡ None) }
        ensures promises { IfOk result (λ m. (t : ℕ) → promise m t ≡ None) }
        ensures config { IfOk result (λ m. config_of m ≡ without_end config) }
        ensures good { OnOk result (IsConfig config) }
        ensures refuses { IfErr result (λ e. (checked config ≡ Err e) ⊎ ((e ≡ PoolError.NoMemory) × IsConfig config)) }
    {
        config.check()?;
        Machine::over(alloc, config, Tally::new())
    }

    /// Forgets a task that is gone, owes no second look, and has no completion that waits: each later call that names it answers
    /// UnknownTask (6). It writes no entry and takes no memory. UnknownTask (6), or NotThere (8) where the task is not so.
    pub fn release(&mut self, t: TaskId) -> Result<(), PoolError>
    where
        P: Drop,
        ensures released { OnOk result ((h : List Entry) (rs : List ℕ) → At ⟦<Tally as Recorder>⟧.tells self.old h rs →
            MayRelease (left rs (state (config_of self.old) h)) t.0 × At ⟦<Tally as Recorder>⟧.tells self.new h (t.0 ∷ rs)) }
        ensures refused { IfErr result (λ e. EachState ⟦<Tally as Recorder>⟧.tells self.old (λ s. IsKept s t.0 e)) }
        ensures unchanged { OnErr result (self.new ≡ self.old) }
        ensures config { config_of self.new ≡ config_of self.old }
        ensures gone { OnOk result (task_of self.new.parts.tasks t.0 ≡ None) }
        ensures others { KeepsOthers self.old.parts.tasks self.new.parts.tasks t.0 }
    {
        let Some(row) = self.parts.tasks.row(t) else {
            return Err(PoolError::UnknownTask);
        };
        if !self.parts.owes_nothing(t, row) {
            return Err(PoolError::NotThere);
        }
        self.parts.forget_task(t);
        Ok(())
    }

    /// How many tasks are not forgotten, of those that were submitted.
    pub fn kept(&self) -> u32
        ensures { EachState ⟦<Tally as Recorder>⟧.tells self.now (λ s. result + length s.left_out ≡ length s.tasks) }
    {
        self.parts.tasks.kept()
    }
}
