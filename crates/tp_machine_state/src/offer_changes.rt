//! Changes of a task that its submitter offers, and looks at a second time.

ghost use Rattle.std.specs.Prelude.{ℕ, ◌≡◌, ◌-◌, ◌^◌, ◌<◌, true, false, Some};
ghost use Rattle.std.specs.List.{Contains};
ghost use Rattle.tp_types.specs.declared.configs.Config.{Config};
ghost use Rattle.tp_types.specs.Queues.{is_ranked};
ghost use Rattle.tp_record.specs.declared.rows.TaskRow.{TaskRow};
ghost use Rattle.tp_record.specs.Lists.{join_line, without};
ghost use Rattle.tp_queue.specs.Queues.{waiting_of};
ghost use Rattle.tp_tasks.specs.Tasks.{row_of};
ghost use Rattle.tp_laws.specs.View.{View, put};
ghost use Rattle.tp_machine_state.specs.Offers.{HasRoom};
ghost use Rattle.tp_machine_state.specs.Payloads.{Keeps};
ghost use Rattle.tp_machine_state.specs.Shows.{Views, numbers};
ghost use Rattle.tp_machine_state.specs.Tied.{AreKeyed, IsTied, is_before};

use crate::parts::Parts;
use tp_queue::work::WorkQueue;
use tp_record::rows::TaskRow;
use tp_types::ids::{SlotId, TaskId};
use tp_types::tasks::Place;

impl<P> Parts<P> {
    /// Puts a task that waits in the queue: to its end, or in a priority queue behind those whose priority number is not
    /// greater. Its submitter owes it a second look.
    #[inline(always)]
    pub fn enqueue(&mut self, t: TaskId)
        requires known { (r : TaskRow) × (row_of self.old.tasks t.0 ≡ Some r) × (is_before r.place ≡ true) }
        requires absent { Contains (numbers (waiting_of self.old.queue).items) t.0 → ⊥ }
        requires keyed { AreKeyed self.old }
        requires room { HasRoom (waiting_of self.old.queue) }
        requires few { (waiting_of self.old.queue).offers < 2 ^ 64 - 1 }
        ensures views { (v : View) → Views self.old v → Views self.new (record v { tasks = put t.0 (record (v.tasks t.0) { place = Place.Queued; second = true }) v.tasks; queue = join_line (is_ranked (waiting_of self.old.queue).kind) (λ u. (v.tasks u).priority) (Some t.0) v.queue }) }
        ensures tied { (c : Config) (n : ℕ) → IsTied c n self.old → (waiting_of self.old.queue).offers < n → IsTied c n self.new }
        ensures rest { self.new ≡ record self.old { tasks = self.new.tasks; queue = self.new.queue } }
        ensures payloads { Keeps self.old.tasks self.new.tasks }
    {
        let Some(row) = self.tasks.row(t) else {
            unreachable!()
        };
        self.queue.law_is_lawful();
        let Ok(number) = self.queue.offer(t, row.priority) else {
            unreachable!()
        };
        self.tasks.set_place_number(t, number);
        self.tasks.hand(t, Place::Queued);
    }

    /// Takes a queued task out of the queue, wherever it stands there. Its row stays.
    pub fn unqueue(&mut self, t: TaskId)
        requires queued { Contains (numbers (waiting_of self.old.queue).items) t.0 }
        requires keyed { AreKeyed self.old }
        ensures views { (v : View) → Views self.old v → Views self.new (record v { queue = without t.0 v.queue }) }
        ensures tied { (c : Config) (n : ℕ) → IsTied c n self.old → IsTied c n self.new }
        ensures rest { self.new ≡ record self.old { queue = self.new.queue } }
    {
        let Some(row) = self.tasks.row(t) else {
            unreachable!()
        };
        let Some(number) = self.tasks.place_number(t) else {
            unreachable!()
        };
        self.queue.law_is_lawful();
        self.queue.remove(row.priority, number);
    }

    /// A task that waits is held by this slot from now on, and its submitter owes it a second look.
    #[inline(always)]
    pub fn hand_task(&mut self, t: TaskId, w: SlotId)
        requires known { (r : TaskRow) × (row_of self.old.tasks t.0 ≡ Some r) × (is_before r.place ≡ true) }
        ensures views { (v : View) → Views self.old v → Views self.new (record v { tasks = put t.0 (record (v.tasks t.0) { place = Place.Held w; second = true }) v.tasks }) }
        ensures tied { (c : Config) (n : ℕ) → IsTied c n self.old → IsTied c n self.new }
        ensures rest { self.new ≡ record self.old { tasks = self.new.tasks } }
        ensures payloads { Keeps self.old.tasks self.new.tasks }
    {
        self.tasks.hand(t, Place::Held(w));
    }

    /// A task is not owed its second look any more, and is where it was.
    #[inline(always)]
    pub fn clear_second(&mut self, t: TaskId)
        requires known { (r : TaskRow) × (row_of self.old.tasks t.0 ≡ Some r) }
        ensures views { (v : View) → Views self.old v → Views self.new (record v { tasks = put t.0 (record (v.tasks t.0) { second = false }) v.tasks }) }
        ensures tied { (c : Config) (n : ℕ) → IsTied c n self.old → IsTied c n self.new }
        ensures rest { self.new ≡ record self.old { tasks = self.new.tasks } }
        ensures payloads { Keeps self.old.tasks self.new.tasks }
    {
        self.tasks.clear_second(t);
    }

    /// A task that waits is refused by its second look, which it is not owed any more.
    pub fn return_task(&mut self, t: TaskId)
        requires known { (r : TaskRow) × (row_of self.old.tasks t.0 ≡ Some r) × (is_before r.place ≡ true) }
        ensures views { (v : View) → Views self.old v → Views self.new (record v { tasks = put t.0 (record (v.tasks t.0) { place = Place.Refused; second = false }) v.tasks }) }
        ensures tied { (c : Config) (n : ℕ) → IsTied c n self.old → IsTied c n self.new }
        ensures rest { self.new ≡ record self.old { tasks = self.new.tasks } }
        ensures payloads { Keeps self.old.tasks self.new.tasks }
    {
        let Some(row) = self.tasks.row(t) else {
            unreachable!()
        };
        let to = TaskRow {
            place: Place::Refused,
            second: false,
            ..row
        };
        self.tasks.set_row(t, row, to);
    }
}
