//! The tables after an entry that changes rows which it does not name.

ghost use Rattle.std.specs.Prelude.{ℕ, ◌≡◌, ◌<◌, ◌-◌, ◌^◌, [], true, false, None, Some, not, filter, count_by, is_some, vec_len};
ghost use Rattle.tp_record.specs.Effects as effects;
ghost use Rattle.tp_record.specs.Lists.{change_each, is_among, IsOnce};
ghost use Rattle.tp_record.specs.State as states;
ghost use Rattle.tp_laws.proofs.Effects.Names as entry;
ghost use Rattle.tp_audit.specs.Changed.{leave_out};
ghost use Rattle.tp_audit.specs.Queued.{tasks_of, Keeps};
ghost use Rattle.tp_audit.specs.Readings.{read};
ghost use Rattle.tp_audit.specs.Tables.{shown, undone, HasRanks, HasSizes, SuitsAll};

use crate::orders::Order;
use crate::queue::QueueTable;
use crate::slot_table::SlotTable;
use crate::slots::turn_slot;
use crate::tables::Tables;
use crate::tasks::{cancelled_at, change_row};
use tp_record::entries::Did;
use tp_record::rows::TaskRow;

/// Each idle slot changes as the entry says, which reserves none and wakes all.
fn wake_all(slots: &mut SlotTable, idling: &mut Order, did: Did, moment: u64, tasks: &[TaskRow])
    requires few { count_by is_some slots.old < 2 ^ 32 }
    requires made { effects.reserves did ≡ None }
    requires others { (w : ℕ) → is_among w idling.old ≡ false
        → states.slot_after did (read moment tasks.now []) w (states.slot_at slots.old w) ≡ states.slot_at slots.old w }
    ensures slots { slots.new ≡ change_each (states.slot_after did (read moment tasks.now [])) 0 slots.old }
    ensures idling { idling.new ≡ [] }
{
    while let Some(w) = idling.first() {
        turn_slot(slots, did, moment, tasks, Some(w));
        idling.remove(w);
    }
}

/// Each queued task changes as the entry says, and the queue is left empty.
fn drain(tasks: &mut Vec<TaskRow>, queue: &mut QueueTable, did: Did)
    requires number { vec_len tasks.old < 2 ^ 32 }
    requires few { (t : ℕ) → (states.row_at tasks.old.items t).retries < 2 ^ 32 - 1 }
    requires tries { effects.tries did ≡ [] }
    requires none { (t : ℕ) → states.row_after did t states.no_row ≡ states.no_row }
    requires others { (t : ℕ) → is_among t (tasks_of queue.old) ≡ false → states.row_after did t (states.row_at tasks.old.items t) ≡ states.row_at tasks.old.items t }
    ensures tasks { tasks.new.items ≡ change_each (states.row_after did) 0 tasks.old.items }
    ensures queue { tasks_of queue.new ≡ [] }
    ensures kept { Keeps queue.old queue.new }
{
    while let Some(t) = queue.first() {
        change_row(tasks, did, t);
        queue.remove(t);
    }
}

/// Task `t` leaves the queue, if it is cancelled.
fn leave_cancelled(tasks: &Vec<TaskRow>, queue: &mut QueueTable, t: u32)
    ensures tasks { tasks_of queue.new ≡ leave_out (λ x. not (states.row_at tasks.now.items x).cancelled) (Some t) (tasks_of queue.old) }
    ensures kept { Keeps queue.old queue.new }
{
    if cancelled_at(tasks, t) {
        queue.remove(t);
    }
}

/// Each queued task changes as the entry says, and those that are cancelled leave the queue.
fn purge(tasks: &mut Vec<TaskRow>, queue: &mut QueueTable, did: Did)
    requires number { vec_len tasks.old < 2 ^ 32 }
    requires few { (t : ℕ) → (states.row_at tasks.old.items t).retries < 2 ^ 32 - 1 }
    requires tries { effects.tries did ≡ [] }
    requires cancels { effects.cancels did ≡ [] }
    requires none { (t : ℕ) → states.row_after did t states.no_row ≡ states.no_row }
    requires once { IsOnce (tasks_of queue.old) }
    requires others { (t : ℕ) → is_among t (tasks_of queue.old) ≡ false → states.row_after did t (states.row_at tasks.old.items t) ≡ states.row_at tasks.old.items t }
    ensures tasks { tasks.new.items ≡ change_each (states.row_after did) 0 tasks.old.items }
    ensures queue { tasks_of queue.new ≡ filter (λ t. not (states.row_at tasks.old.items t).cancelled) (tasks_of queue.old) }
    ensures kept { Keeps queue.old queue.new }
{
    let mut next = queue.first();
    while let Some(t) = next {
        next = queue.next_after(t);
        leave_cancelled(tasks, queue, t);
        change_row(tasks, did, t);
    }
}

impl Tables {
    /// The tasks, slots, queue and order of idling after an entry that changes rows which it does not name. It takes no memory.
    fn sweep(&mut self, did: Did)
        requires wide { entry.is_wide did ≡ true }
        requires suits { SuitsAll (shown self.old) }
        requires sizes { HasSizes (shown self.old) }
        ensures swept { shown self.new ≡ record (shown self.old) {
          tasks = states.tasks_after did (shown self.old).tasks;
          queue = states.queue_after (shown self.old).ranked did (shown self.old).tasks (shown self.old).queue;
          slots = states.slots_after did (shown self.old);
          idling = states.idling_after did (shown self.old);
        } }
        ensures kept { Keeps self.old.queue self.new.queue }
        ensures rest { self.new ≡ record self.old { tasks = self.new.tasks; queue = self.new.queue; slots = self.new.slots; idling = self.new.idling } }
    {
        match did {
            Did::Shutdown => wake_all(
                &mut self.slots,
                &mut self.idling,
                did,
                self.moment,
                &self.tasks,
            ),
            Did::Stop(_) => {
                wake_all(
                    &mut self.slots,
                    &mut self.idling,
                    did,
                    self.moment,
                    &self.tasks,
                );
                drain(&mut self.tasks, &mut self.queue, did);
            }
            Did::Purge(_) => purge(&mut self.tasks, &mut self.queue, did),
            _ => {}
        }
    }

    /// The tables after an entry that changes rows which it does not name, or the run state, but for what is owed. It takes
    /// no memory.
    pub fn note_all(&mut self, did: Did)
        requires wide { entry.is_wide did ≡ true }
        requires suits { SuitsAll (shown self.old) }
        requires sizes { HasSizes (shown self.old) }
        ensures next { shown self.new ≡ undone (states.next (shown self.old) did) }
        ensures ranks { HasRanks self.old → HasRanks self.new }
        ensures done { self.new.done ≡ self.old.done }
        ensures due { self.new.due ≡ self.old.due }
    {
        self.sweep(did);
        self.set(did);
    }
}
