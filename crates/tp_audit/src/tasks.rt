//! The tasks and the queue after an entry that changes what it names alone.

ghost use Rattle.std.specs.Prelude.{ℕ, ◌≡◌, ◌<◌, ◌-◌, ◌^◌, Some, true, false, filter, vec_len, vec_capacity};
ghost use Rattle.tp_record.specs.Effects as effects;
ghost use Rattle.tp_record.specs.Lists.{is_it};
ghost use Rattle.tp_record.specs.State as states;
ghost use Rattle.tp_laws.proofs.Effects.Names as entry;
ghost use Rattle.tp_audit.specs.Changed.{change_at, leave_out};
ghost use Rattle.tp_audit.specs.Queued.{tasks_of, Keeps};

use crate::named::{dropped_task, named_task};
use crate::queue::QueueTable;
use crate::rows::row_at;
use tp_record::entries::Did;
use tp_record::rows::TaskRow;
use tp_rules::effects::{is_submit, moved_to, swept};
use tp_rules::next::{NO_ROW, row_after};
use tp_types::ids::TaskId;
use tp_types::tasks::Place;

/// Whether task `t` is cancelled.
pub fn cancelled_at(tasks: &Vec<TaskRow>, t: u32) -> bool
    ensures { result ≡ (states.row_at tasks.now.items t).cancelled }
{
    row_at(tasks, TaskId(t)).cancelled
}

/// The row of task `t` changes as the entry says, if it was submitted.
pub fn change_row(tasks: &mut Vec<TaskRow>, did: Did, t: u32)
    requires few { (u : ℕ) → (states.row_at tasks.old.items u).retries < 2 ^ 32 - 1 }
    ensures row { tasks.new.items ≡ change_at (states.row_after did) states.no_row (Some t) tasks.old.items }
    ensures room { vec_capacity tasks.new ≡ vec_capacity tasks.old }
    ensures number { vec_len tasks.new ≡ vec_len tasks.old }
{
    let at = t as usize;
    if at < tasks.len() {
        tasks[at] = row_after(did, TaskId(t), tasks[at]);
    }
}

/// The row of task `t`, if the entry names one, changes as it says.
fn change_task(tasks: &mut Vec<TaskRow>, did: Did, t: Option<u32>)
    requires few { (u : ℕ) → (states.row_at tasks.old.items u).retries < 2 ^ 32 - 1 }
    ensures row { tasks.new.items ≡ change_at (states.row_after did) states.no_row t tasks.old.items }
    ensures room { vec_capacity tasks.new ≡ vec_capacity tasks.old }
    ensures number { vec_len tasks.new ≡ vec_len tasks.old }
{
    if let Some(t) = t {
        change_row(tasks, did, t);
    }
}

/// The tasks after an entry that changes what it names alone. There is room for the one that it submits.
pub fn change_tasks(tasks: &mut Vec<TaskRow>, did: Did)
    requires narrow { entry.is_wide did ≡ false }
    requires apart { (t : ℕ) → is_it (entry.names did) t ≡ true → is_it (entry.drops did) t ≡ false }
    requires few { (u : ℕ) → (states.row_at tasks.old.items u).retries < 2 ^ 31 }
    requires number { vec_len tasks.old < 2 ^ 32 }
    requires room { effects.is_submit did ≡ true → vec_len tasks.old < vec_capacity tasks.old }
    ensures { tasks.new.items ≡ states.tasks_after did tasks.old.items }
{
    let count = tasks.len();
    change_task(tasks, did, named_task(did));
    change_task(tasks, did, dropped_task(did));
    if is_submit(did) {
        tasks.push_reserved(row_after(did, TaskId(count as u32), NO_ROW));
    }
}

/// Whether a task that was queued stays in the queue.
fn stays_queued(did: Did, tasks: &[TaskRow], t: u32) -> bool
    ensures { result ≡ states.stays_queued did tasks.now t }
{
    let cancelled = row_at(tasks, TaskId(t)).cancelled;
    moved_to(did, TaskId(t)).unwrap_or(swept(did, cancelled, Place::Queued)) == Place::Queued
}

/// Task `t` leaves the queue, unless the entry leaves it there. The rows are those before the entry.
fn leave_queue(queue: &mut QueueTable, tasks: &[TaskRow], did: Did, t: Option<u32>)
    ensures tasks { tasks_of queue.new ≡ leave_out (states.stays_queued did tasks.now) t (tasks_of queue.old) }
    ensures kept { Keeps queue.old queue.new }
{
    if let Some(t) = t {
        if !stays_queued(did, tasks, t) {
            queue.remove(t);
        }
    }
}

/// The queue after an entry that changes what it names alone, but for the task that it puts there. The rows are those
/// before the entry.
pub fn change_queue(queue: &mut QueueTable, tasks: &[TaskRow], did: Did)
    requires narrow { entry.is_wide did ≡ false }
    ensures tasks { tasks_of queue.new ≡ filter (states.stays_queued did tasks.now) (tasks_of queue.old) }
    ensures kept { Keeps queue.old queue.new }
{
    leave_queue(queue, tasks, did, named_task(did));
    leave_queue(queue, tasks, did, dropped_task(did));
}
