//! Changes by submissions and retries.

ghost use Rattle.std.specs.Prelude.{ℕ, suc, ◌≡◌, ◌-◌, ◌^◌, ◌<◌, ◌↔◌, true, OnOk, IsOkUnless, Some};
ghost use Rattle.tp_types.specs.declared.configs.Config.{Config};
ghost use Rattle.tp_types.specs.declared.refusals.PoolError.TheVariants as refusals;
ghost use Rattle.tp_record.specs.declared.rows.TaskRow.{TaskRow};
ghost use Rattle.tp_record.specs.State.{State, no_row};
ghost use Rattle.tp_tasks.specs.Tasks.{row_of, submissions};
ghost use Rattle.tp_laws.specs.View.{View, put};
ghost use Rattle.tp_machine_state.specs.Memory.{HasMemory};
ghost use Rattle.tp_machine_state.specs.Payloads.{Keeps, PutsIn};
ghost use Rattle.tp_machine_state.specs.Shows.{Views, Shows};
ghost use Rattle.tp_machine_state.specs.Tied.{IsTied, is_before};

use crate::parts::Parts;
use tp_queue::work::WorkQueue;
use tp_record::rows::TaskRow;
use tp_tasks::spaces::Space;
use tp_types::ids::TaskId;
use tp_types::refusals::PoolError;
use tp_types::tasks::{Kind, Place, Promise};

impl<P> Parts<P> {
    /// Makes memory for one more task of this kind, and for its place in a queue that always has room, so that nothing that
    /// becomes of the task takes any. Want of memory is NoMemory (4). Either way the same states are shown.
    #[inline(always)]
    pub fn make_room(&mut self, kind: Kind) -> Result<(), PoolError>
        ensures memory { OnOk result (HasMemory self.new kind) }
        ensures refused { IsOkUnless result refusals.NoMemory }
        ensures same { (s : State) → Shows self.old s ↔ Shows self.new s }
        ensures tied { (c : Config) (n : ℕ) → IsTied c n self.old → IsTied c n self.new }
        ensures rest { self.new ≡ record self.old { tasks = self.new.tasks; queue = self.new.queue } }
        ensures payloads { Keeps self.old.tasks self.new.tasks }
    {
        let places = self.tasks.kept() as usize + 1;
        if self.queue.reserve(places).is_err() {
            return Err(PoolError::NoMemory);
        }
        self.tasks.reserve(kind)
    }

    /// Has the tasks lie in this memory: `Tasks::take_space`. The same states are shown.
    pub fn take_space(&mut self, space: &mut Space<P>)
        ensures same { (s : State) → Shows self.old s ↔ Shows self.new s }
        ensures tied { (c : Config) (n : ℕ) → IsTied c n self.old → IsTied c n self.new }
        ensures rest { self.new ≡ record self.old { tasks = self.new.tasks } }
        ensures payloads { Keeps self.old.tasks self.new.tasks }
    {
        self.tasks.take_space(space);
    }

    /// A new task of this kind and priority comes, in a place before its beginning, with what its job promises and its payload.
    #[inline(always)]
    pub fn put_task(
        &mut self,
        kind: Kind,
        priority: u32,
        place: Place,
        promise: Promise,
        payload: P,
    ) -> TaskId
    where
        P: Drop,
        requires memory { HasMemory self.old kind }
        requires few { submissions self.old.tasks < 2 ^ 32 - 1 }
        requires before { is_before place ≡ true }
        ensures number { result.0 ≡ submissions self.old.tasks }
        ensures views { (v : View) → Views self.old v → Views self.new (record v { submitted = suc v.submitted; tasks = put result.0 (record no_row { kind = kind; priority = priority; place = place }) v.tasks }) }
        ensures tied { (c : Config) (n : ℕ) → IsTied c n self.old → IsTied c n self.new }
        ensures rest { self.new ≡ record self.old { tasks = self.new.tasks } }
        ensures payloads { PutsIn self.old.tasks self.new.tasks result.0 promise payload }
    {
        self.tasks.put(kind, priority, place, promise, payload)
    }

    /// A task that waits is to look again, for one time more.
    pub fn retry_task(&mut self, t: TaskId)
        requires known { (r : TaskRow) × (row_of self.old.tasks t.0 ≡ Some r) × (is_before r.place ≡ true) × (r.retries < 2 ^ 32 - 1) }
        ensures views { (v : View) → Views self.old v → Views self.new (record v { tasks = put t.0 (record (v.tasks t.0) { place = Place.Looking; retries = suc (v.tasks t.0).retries }) v.tasks }) }
        ensures tied { (c : Config) (n : ℕ) → IsTied c n self.old → IsTied c n self.new }
        ensures rest { self.new ≡ record self.old { tasks = self.new.tasks } }
        ensures payloads { Keeps self.old.tasks self.new.tasks }
    {
        let Some(row) = self.tasks.row(t) else {
            unreachable!()
        };
        let to = TaskRow {
            place: Place::Looking,
            retries: row.retries + 1,
            ..row
        };
        self.tasks.set_row(t, row, to);
    }
}
