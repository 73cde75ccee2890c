//! Changes of one slot.

ghost use Rattle.std.specs.Prelude.{ℕ, suc, ◌≡◌, ◌+◌, ◌-◌, ◌^◌, ◌<◌, ◌++◌, ◌∷◌, [], max, true, false, count_by, is_some, Some, None};
ghost use Rattle.tp_types.specs.declared.configs.Config.{Config};
ghost use Rattle.tp_record.specs.Fields.{is_live, is_idle_row};
ghost use Rattle.tp_record.specs.Lists.{without};
ghost use Rattle.tp_record.specs.State.{slot_at};
ghost use Rattle.tp_record.specs.Step.{is_reserved};
ghost use Rattle.tp_slots.specs.Table.{is_awake, is_reserved_row, working_row};
ghost use Rattle.tp_laws.specs.View.{View, put};
ghost use Rattle.tp_machine_state.specs.Shows.{Views};
ghost use Rattle.tp_machine_state.specs.Tied.{IsTied};

use crate::parts::Parts;
use tp_record::rows::{SlotRow, Stage};
use tp_types::ids::{SlotId, TaskId};

impl<P> Parts<P> {
    /// Reserves a slot, under the next number, for a worker that is still to be made: for a first task or, with none, bare.
    #[inline(always)]
    pub fn reserve(&mut self, stage: Stage, task: Option<TaskId>) -> SlotId
        requires room { count_by is_some self.old.slots.slots < self.old.slots.places }
        requires reserved { is_reserved stage ≡ true }
        ensures number { result.0 ≡ self.old.slots.next }
        ensures free { slot_at self.old.slots.slots result.0 ≡ None }
        ensures views { (v : View) → Views self.old v → Views self.new (record v { slots = put result.0 (Some (record { stage = stage; task = task })) v.slots; taken = suc v.taken }) }
        ensures tied { (c : Config) (n : ℕ) → IsTied c n self.old → IsTied c n self.new }
        ensures rest { self.new ≡ record self.old { slots = self.new.slots } }
    {
        self.slots.reserve(stage, task)
    }

    /// A reserved slot has its worker: it is live, and keeps its first task.
    pub fn open(&mut self, w: SlotId)
        requires reserved { is_reserved_row (slot_at self.old.slots.slots w.0) ≡ true }
        ensures views { (v : View) → v.live ≡ count_by is_live self.old.slots.slots → Views self.old v → Views self.new (record v { slots = put w.0 (working_row (slot_at self.old.slots.slots w.0)) v.slots; live = suc v.live; largest = max (suc v.live) v.largest }) }
        ensures tied { (c : Config) (n : ℕ) → IsTied c n self.old → IsTied c n self.new }
        ensures rest { self.new ≡ record self.old { slots = self.new.slots; largest = self.new.largest } }
    {
        self.slots.open(w);
        self.largest = self.slots.live().max(self.largest);
    }

    /// A worker without a task is idle from now on.
    #[inline(always)]
    pub fn idle(&mut self, w: SlotId)
        requires working { slot_at self.old.slots.slots w.0 ≡ Some (record { stage = Stage.Working; task = None }) }
        requires few { self.old.slots.idlings < 2 ^ 64 - 1 }
        ensures views { (v : View) → Views self.old v → Views self.new (record v { slots = put w.0 (Some (record { stage = Stage.Idle v.now; task = None })) v.slots; idling = v.idling ++ w.0 ∷ [] }) }
        ensures tied { (c : Config) (n : ℕ) → IsTied c n self.old → self.old.slots.idlings < n → IsTied c n self.new }
        ensures rest { self.new ≡ record self.old { slots = self.new.slots } }
    {
        self.slots.idle(w, self.moment);
    }

    /// An idle worker works from now on, on this task if there is one.
    #[inline(always)]
    pub fn wake(&mut self, w: SlotId, task: Option<TaskId>)
        requires idle { is_idle_row (slot_at self.old.slots.slots w.0) ≡ true }
        ensures views { (v : View) → Views self.old v → Views self.new (record v { slots = put w.0 (Some (record { stage = Stage.Working; task = task })) v.slots; idling = without w.0 v.idling }) }
        ensures tied { (c : Config) (n : ℕ) → IsTied c n self.old → IsTied c n self.new }
        ensures rest { self.new ≡ record self.old { slots = self.new.slots } }
    {
        self.slots.wake(w, task);
    }

    /// Changes the row of a live slot that is not idle, and stays so.
    #[inline(always)]
    pub fn set_slot(&mut self, w: SlotId, row: SlotRow)
        requires slot { is_awake (slot_at self.old.slots.slots w.0) ≡ true }
        requires row { is_awake (Some row) ≡ true }
        ensures views { (v : View) → Views self.old v → Views self.new (record v { slots = put w.0 (Some row) v.slots }) }
        ensures tied { (c : Config) (n : ℕ) → IsTied c n self.old → IsTied c n self.new }
        ensures rest { self.new ≡ record self.old { slots = self.new.slots } }
    {
        self.slots.set(w, row);
    }

    /// Frees a live slot, which may be idle. The next slot gets its number.
    pub fn free(&mut self, w: SlotId)
        requires { is_live (slot_at self.old.slots.slots w.0) ≡ true }
        ensures views { (v : View) → Views self.old v → Views self.new (record v { slots = put w.0 None v.slots; idling = without w.0 v.idling; taken = v.taken - 1; live = v.live - 1 }) }
        ensures table { self.new.slots ≡ record self.old.slots { slots = self.new.slots.slots; idling = self.new.slots.idling; next = w.0 } }
        ensures taken { count_by is_some self.new.slots.slots + 1 ≡ count_by is_some self.old.slots.slots }
        ensures tied { (c : Config) (n : ℕ) → IsTied c n self.old → IsTied c n self.new }
        ensures rest { self.new ≡ record self.old { slots = self.new.slots } }
    {
        self.slots.free(w);
    }

    /// Frees a slot whose worker was not made.
    pub fn give_up(&mut self, w: SlotId)
        requires { is_reserved_row (slot_at self.old.slots.slots w.0) ≡ true }
        ensures views { (v : View) → Views self.old v → Views self.new (record v { slots = put w.0 None v.slots; taken = v.taken - 1 }) }
        ensures tied { (c : Config) (n : ℕ) → IsTied c n self.old → IsTied c n self.new }
        ensures rest { self.new ≡ record self.old { slots = self.new.slots } }
    {
        self.slots.give_up(w);
    }
}
