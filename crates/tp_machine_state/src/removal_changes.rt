//! Changes by which tasks are cancelled, taken and purged.

ghost use Rattle.std.specs.Prelude.{ℕ, ◌≡◌, ◌+◌, ◌==◌, ◌^◌, ◌<◌, ◌++◌, ◌∷◌, [], true, not, ◌&&◌, drop, filter, count_by, slice_get, option_map, Some, None, IfSome, IfNone, if◌then◌else◌};
ghost use Rattle.tp_types.specs.declared.configs.Config.{Config};
ghost use Rattle.tp_types.specs.declared.tasks.Fate.{Fate};
ghost use Rattle.tp_types.specs.declared.tasks.Place.{Place};
ghost use Rattle.tp_record.specs.declared.rows.TaskRow.{TaskRow};
ghost use Rattle.tp_record.specs.Fields.{is_queued_place};
ghost use Rattle.tp_record.specs.State.{fate_of, is_fate};
ghost use Rattle.tp_record.specs.Step.{is_of_group};
ghost use Rattle.tp_tasks.specs.Homes.{is_purgeable, passes};
ghost use Rattle.tp_tasks.specs.Tasks.{row_of, done_of, purgeable_of};
ghost use Rattle.tp_laws.specs.View.{View, put};
ghost use Rattle.tp_machine_state.specs.Payloads.{Keeps, HandsOut};
ghost use Rattle.tp_machine_state.specs.Purges.{HoldsQueued};
ghost use Rattle.tp_machine_state.specs.Shows.{Views};
ghost use Rattle.tp_machine_state.specs.Tied.{IsTied};

use crate::parts::Parts;
use tp_types::ids::TaskId;
use tp_types::tasks::Place;

impl<P> Parts<P> {
    /// Cancels an open task, which completes it where it is of a group. It stays where it is. Its payload is handed out, if it
    /// waited.
    pub fn cancel_task(&mut self, t: TaskId) -> Option<P>
        requires known { (r : TaskRow) × (row_of self.old.tasks t.0 ≡ Some r) × (fate_of r ≡ None) }
        ensures views { (v : View) → Views self.old v → Views self.new (record v {
          tasks = put t.0 (record (v.tasks t.0) { cancelled = true }) v.tasks;
          fates = λ f. v.fates f + (if is_fate f (Some Fate.Cancelled) then 1 else 0);
          done = λ g. if is_of_group g (v.tasks t.0).kind then v.done g ++ t.0 ∷ [] else v.done g;
        }) }
        ensures tied { (c : Config) (n : ℕ) → IsTied c n self.old → IsTied c n self.new }
        ensures rest { self.new ≡ record self.old { tasks = self.new.tasks } }
        ensures payloads { HandsOut self.old.tasks self.new.tasks t.0 result }
    {
        let Some(row) = self.tasks.row(t) else {
            unreachable!()
        };
        let payload = self.tasks.take_payload(t);
        self.tasks.cancel(t, row);
        payload
    }

    /// Hands out the completed task of the group that was completed first, None where none is left.
    pub fn take_done(&mut self, g: u32) -> Option<TaskId>
        ensures first { option_map (λ t. t.0) result ≡ slice_get (done_of self.old.tasks g) 0 }
        ensures views { (v : View) → Views self.old v → Views self.new (record v { done = λ h. if h == g then drop 1 (v.done h) else v.done h }) }
        ensures tied { (c : Config) (n : ℕ) → IsTied c n self.old → IsTied c n self.new }
        ensures rest { self.new ≡ record self.old { tasks = self.new.tasks } }
        ensures payloads { Keeps self.old.tasks self.new.tasks }
    {
        self.tasks.take_done(g)
    }

    /// How many queued tasks are cancelled. It looks at no task.
    pub fn count_cancelled(&self) -> u32
        ensures { (v : View) → Views self.now v → HoldsQueued v → result ≡ count_by (λ t. (v.tasks t).cancelled) v.queue }
    {
        self.tasks.purgeable()
    }

    /// Takes the cancelled tasks out of the queue, without memory: they are gone. Each is found by its priority and place number, and
    /// no other task of the queue is looked at.
    pub fn purge(&mut self)
        requires known { (v : View) × Views self.old v × HoldsQueued v }
        requires tied { (c : Config) × (n : ℕ) × IsTied c n self.old }
        ensures views { (v : View) → Views self.old v → HoldsQueued v → Views self.new (record v {
          tasks = λ t. if is_queued_place (v.tasks t).place && (v.tasks t).cancelled then record (v.tasks t) { place = Place.Gone } else v.tasks t;
          queue = filter (λ t. not (v.tasks t).cancelled) v.queue;
        }) }
        ensures tied { (c : Config) (n : ℕ) → IsTied c n self.old → IsTied c n self.new }
        ensures rest { self.new ≡ record self.old { tasks = self.new.tasks; queue = self.new.queue } }
        ensures payloads { Keeps self.old.tasks self.new.tasks }
    {
        while let Some(t) = self.next_cancelled() {
            self.unqueue(t);
            self.place_task(t, Place::Gone);
        }
    }

    /// A task that is cancelled and in the queue, None where there is none.
    fn next_cancelled(&mut self) -> Option<TaskId>
        ensures cancelled { IfSome result (λ t. passes is_purgeable (row_of self.new.tasks t.0) ≡ true) }
        ensures none { IfNone result (purgeable_of self.new.tasks ≡ 0) }
        ensures views { (v : View) → Views self.old v → Views self.new v }
        ensures tied { (c : Config) (n : ℕ) → IsTied c n self.old → IsTied c n self.new }
        ensures rest { self.new ≡ record self.old { tasks = self.new.tasks } }
        ensures payloads { Keeps self.old.tasks self.new.tasks }
    {
        self.tasks.next_purgeable()
    }
}
