//! A task that is gone and owes nothing is forgotten.

ghost use Rattle.std.specs.Prelude.{ℕ, ◌≡◌, ◌↔◌, ◌∷◌, false, is_none, IsTrue, Some, None};
ghost use Rattle.std.specs.List.{Contains};
ghost use Rattle.tp_types.specs.declared.configs.Config.{Config};
ghost use Rattle.tp_record.specs.declared.rows.TaskRow.{TaskRow};
ghost use Rattle.tp_record.specs.State.{fate_of};
ghost use Rattle.tp_queue.specs.Queues.{waiting_of};
ghost use Rattle.tp_tasks.specs.Tasks.{task_of, row_of, IsListed, KeepsOthers};
ghost use Rattle.tp_laws.specs.View.{View};
ghost use Rattle.tp_machine_state.specs.Releases.{OwesNothing};
ghost use Rattle.tp_machine_state.specs.Shows.{Views};
ghost use Rattle.tp_machine_state.specs.Tied.{IsTied};

use crate::parts::Parts;
use tp_record::rows::TaskRow;
use tp_types::ids::TaskId;
use tp_types::tasks::Place;

impl<P> Parts<P> {
    /// Whether a task, which has this row, is gone, owes no second look, and has no completion that waits.
    #[inline(always)]
    pub fn owes_nothing(&self, t: TaskId, row: TaskRow) -> bool
        ensures { IsTrue result ↔ OwesNothing self.now.tasks t.0 row }
    {
        row.place == Place::Gone && !row.second && !self.tasks.is_listed(t)
    }

    /// Forgets a task that has a fate, whose completion does not wait and that is not in the queue. It takes no memory.
    #[inline(always)]
    pub fn forget_task(&mut self, t: TaskId)
    where
        P: Drop,
        requires ended { (r : TaskRow) × (row_of self.old.tasks t.0 ≡ Some r) × (is_none (fate_of r) ≡ false) }
        requires handed_out { ¬ IsListed self.old.tasks t.0 }
        requires unqueued { (key : ℕ) → ¬ Contains (waiting_of self.old.queue).items (t, key) }
        ensures views { (v : View) → Views self.old v → Views self.new (record v { left_out = t.0 ∷ v.left_out }) }
        ensures tied { (c : Config) (n : ℕ) → IsTied c n self.old → IsTied c n self.new }
        ensures rest { self.new ≡ record self.old { tasks = self.new.tasks } }
        ensures gone { task_of self.new.tasks t.0 ≡ None }
        ensures others { KeepsOthers self.old.tasks self.new.tasks t.0 }
    {
        self.tasks.release(t);
    }
}
