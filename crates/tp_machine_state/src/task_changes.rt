//! Changes of one task.

ghost use Rattle.std.specs.Prelude.{ℕ, suc, ◌≡◌, ◌+◌, ◌-◌, ◌^◌, ◌<◌, ◌++◌, ◌∷◌, [], ◌&&◌, true, false, not, is_some, Some, None, IfSome, if◌then◌else◌};
ghost use Rattle.tp_types.specs.Promise.{FitsPromise};
ghost use Rattle.tp_types.specs.declared.configs.Config.{Config};
ghost use Rattle.tp_record.specs.declared.rows.TaskRow.{TaskRow};
ghost use Rattle.tp_record.specs.State.{is_fate};
ghost use Rattle.tp_record.specs.Step.{is_of_group};
ghost use Rattle.tp_tasks.specs.Tasks.{row_of, payload_of, promise_of};
ghost use Rattle.tp_laws.specs.View.{View, put};
ghost use Rattle.tp_machine_state.specs.Payloads.{Keeps, HandsOut};
ghost use Rattle.tp_machine_state.specs.Shows.{Views};
ghost use Rattle.tp_machine_state.specs.Tied.{IsTied, is_before, is_waiting};

use crate::parts::Parts;
use tp_types::ids::TaskId;
use tp_types::tasks::{Fate, Outcome, Place};

impl<P> Parts<P> {
    /// A task is in another place from now on. It waits on, or did not wait.
    #[inline(always)]
    pub fn place_task(&mut self, t: TaskId, place: Place)
        requires known { (r : TaskRow) × (row_of self.old.tasks t.0 ≡ Some r) × (is_waiting (record r { place = place }) ≡ is_waiting r) }
        ensures views { (v : View) → Views self.old v → Views self.new (record v { tasks = put t.0 (record (v.tasks t.0) { place = place }) v.tasks }) }
        ensures tied { (c : Config) (n : ℕ) → IsTied c n self.old → IsTied c n self.new }
        ensures rest { self.new ≡ record self.old { tasks = self.new.tasks } }
        ensures payloads { Keeps self.old.tasks self.new.tasks }
    {
        self.tasks.set_place(t, place);
    }

    /// A task that waited begins in this place, and its payload is handed out.
    #[inline(always)]
    pub fn begin_task(&mut self, t: TaskId, place: Place) -> P
        requires known { (r : TaskRow) × (row_of self.old.tasks t.0 ≡ Some r) }
        requires paid { is_some (payload_of self.old.tasks t.0) ≡ true }
        requires begun { is_before place ≡ false }
        ensures views { (v : View) → Views self.old v → Views self.new (record v { tasks = put t.0 (record (v.tasks t.0) { place = place }) v.tasks }) }
        ensures tied { (c : Config) (n : ℕ) → IsTied c n self.old → IsTied c n self.new }
        ensures rest { self.new ≡ record self.old { tasks = self.new.tasks } }
        ensures payloads { HandsOut self.old.tasks self.new.tasks t.0 (Some result) }
    {
        let Some(payload) = self.tasks.take_payload(t) else {
            unreachable!()
        };
        self.tasks.set_place(t, place);
        payload
    }

    /// A task is gone without having run, with this fate unless it was cancelled. Its payload is handed out, if it waited.
    pub fn finish_task(&mut self, t: TaskId, fate: Fate) -> Option<P>
        requires known { (r : TaskRow) × (row_of self.old.tasks t.0 ≡ Some r) × (r.ending ≡ None) }
        ensures views { (v : View) → Views self.old v → Views self.new (record v {
          tasks = put t.0 (record (v.tasks t.0) { place = Place.Gone; ending = Some fate }) v.tasks;
          fates = λ f. v.fates f + (if is_fate f (if (v.tasks t.0).cancelled then None else Some fate) then 1 else 0);
        }) }
        ensures tied { (c : Config) (n : ℕ) → IsTied c n self.old → IsTied c n self.new }
        ensures rest { self.new ≡ record self.old { tasks = self.new.tasks } }
        ensures payloads { HandsOut self.old.tasks self.new.tasks t.0 result }
    {
        let Some(row) = self.tasks.row(t) else {
            unreachable!()
        };
        let payload = self.tasks.take_payload(t);
        self.tasks.finish(t, row, fate);
        payload
    }

    /// A task that had begun ended with this outcome, which is as it promised: it is gone, with this fate unless it was
    /// cancelled, and completed where it is of a group.
    #[inline(always)]
    pub fn complete_task(&mut self, t: TaskId, fate: Fate, outcome: Outcome)
        requires known { (r : TaskRow) × (row_of self.old.tasks t.0 ≡ Some r) × (r.ending ≡ None) × (is_before r.place ≡ false) }
        requires promised { IfSome (promise_of self.old.tasks t.0) (λ p. FitsPromise p outcome) }
        ensures views { (v : View) → Views self.old v → Views self.new (record v {
          tasks = put t.0 (record (v.tasks t.0) { place = Place.Gone; ending = Some fate; outcome = Some outcome }) v.tasks;
          fates = λ f. v.fates f + (if is_fate f (if (v.tasks t.0).cancelled then None else Some fate) then 1 else 0);
          done = λ g. if is_of_group g (v.tasks t.0).kind && not (v.tasks t.0).cancelled then v.done g ++ t.0 ∷ [] else v.done g;
        }) }
        ensures tied { (c : Config) (n : ℕ) → IsTied c n self.old → IsTied c n self.new }
        ensures rest { self.new ≡ record self.old { tasks = self.new.tasks } }
        ensures payloads { Keeps self.old.tasks self.new.tasks }
    {
        let Some(row) = self.tasks.row(t) else {
            unreachable!()
        };
        self.tasks.complete(t, row, fate, outcome);
    }

    /// A worker ended a body, or skipped a cancelled task.
    #[inline(always)]
    pub fn count_completion(&mut self)
        requires { self.old.completions < 2 ^ 32 - 1 }
        ensures views { (v : View) → Views self.old v → Views self.new (record v { completions = suc v.completions }) }
        ensures tied { (c : Config) (n : ℕ) → IsTied c n self.old → IsTied c n self.new }
        ensures rest { self.new ≡ record self.old { completions = self.new.completions } }
    {
        self.completions += 1;
    }
}
