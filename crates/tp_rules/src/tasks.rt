//! What the entries say of a task.

ghost use Rattle.std.specs.Prelude.{◌≡◌, ◌≤◌, length, reverse, IfOk, IsOkUnless};
ghost use Rattle.tp_record.specs.Fields as fields;
ghost use Rattle.tp_record.specs.State.{fate_of};

use crate::effects::{
    cancel_said, ending_said, handed_back, kind_said, moved_to, outcome_said, priority_said,
    retry_said, second_said, swept,
};
use crate::lists::{push, with_room};
use crate::pool::submitted;
use std::alloc::Global;
use tp_record::entries::Entry;
use tp_record::rows::TaskRow;
use tp_types::ids::TaskId;
use tp_types::refusals::PoolError;
use tp_types::tasks::{Fate, Kind, Outcome, Place};

/// The kind of task `t`.
pub fn kind(entries: &[Entry], t: TaskId) -> Kind
    ensures { result ≡ fields.kind (reverse entries.now) t.0 }
{
    let mut kind = Kind::Plain;
    for entry in entries {
        kind = kind_said(entry.did, t).unwrap_or(kind);
    }
    kind
}

/// The priority of task `t`.
pub fn priority(entries: &[Entry], t: TaskId) -> u32
    ensures { result ≡ fields.priority (reverse entries.now) t.0 }
{
    let mut priority = 0;
    for entry in entries {
        priority = priority_said(entry.did, t).unwrap_or(priority);
    }
    priority
}

/// Whether task `t` was cancelled.
pub fn is_cancelled(entries: &[Entry], t: TaskId) -> bool
    ensures { result ≡ fields.is_cancelled (reverse entries.now) t.0 }
{
    let mut cancelled = false;
    for entry in entries {
        cancelled = cancel_said(entry.did, t).unwrap_or(cancelled);
    }
    cancelled
}

/// Whether an accepted offer of task `t` has no later second look.
pub fn owes_second(entries: &[Entry], t: TaskId) -> bool
    ensures { result ≡ fields.owes_second (reverse entries.now) t.0 }
{
    let mut owes = false;
    for entry in entries {
        owes = second_said(entry.did, t).unwrap_or(owes);
    }
    owes
}

/// How the body of task `t` ended, if it did.
pub fn outcome(entries: &[Entry], t: TaskId) -> Option<Outcome>
    ensures { result ≡ fields.outcome (reverse entries.now) t.0 }
{
    let mut outcome = None;
    for entry in entries {
        outcome = outcome_said(entry.did, t).unwrap_or(outcome);
    }
    outcome
}

/// How often the verdict on task `t` was a retry since it was submitted.
pub fn retries(entries: &[Entry], t: TaskId) -> u32
    requires { length entries.now ≤ 1048576 }
    ensures number { result ≡ fields.retries (reverse entries.now) t.0 }
    ensures bound { result ≤ length entries.now }
{
    let mut retries = 0;
    for entry in entries {
        match retry_said(entry.did, t) {
            None => {}
            Some(false) => retries = 0,
            Some(true) => retries += 1,
        }
    }
    retries
}

/// Where task `t` is.
pub fn place(entries: &[Entry], t: TaskId) -> Place
    ensures { result ≡ fields.place (reverse entries.now) t.0 }
{
    let mut place = Place::Gone;
    let mut cancelled = false;
    for entry in entries {
        place = moved_to(entry.did, t).unwrap_or(swept(entry.did, cancelled, place));
        cancelled = cancel_said(entry.did, t).unwrap_or(cancelled);
    }
    place
}

/// The fate that the entry which ends task `t` gives it, unless it is cancelled.
pub fn ending(entries: &[Entry], t: TaskId) -> Option<Fate>
    ensures { result ≡ fields.ending (reverse entries.now) t.0 }
{
    let mut ending = None;
    let mut place = Place::Gone;
    let mut cancelled = false;
    for entry in entries {
        ending = ending_said(entry.did, t).unwrap_or(handed_back(entry.did, place, ending));
        place = moved_to(entry.did, t).unwrap_or(swept(entry.did, cancelled, place));
        cancelled = cancel_said(entry.did, t).unwrap_or(cancelled);
    }
    ending
}

/// What the entries say of task `t`.
pub fn task_row(entries: &[Entry], t: TaskId) -> TaskRow
    requires { length entries.now ≤ 1048576 }
    ensures row { result ≡ fields.task_row (reverse entries.now) t.0 }
    ensures retries { result.retries ≤ length entries.now }
{
    TaskRow {
        kind: kind(entries, t),
        priority: priority(entries, t),
        place: place(entries, t),
        second: owes_second(entries, t),
        cancelled: is_cancelled(entries, t),
        ending: ending(entries, t),
        outcome: outcome(entries, t),
        retries: retries(entries, t),
    }
}

/// What became of task `t`: cancelled where it was cancelled, else what the entry that ended it gives.
pub fn fate(entries: &[Entry], t: TaskId) -> Option<Fate>
    ensures { result ≡ fate_of (fields.task_row (reverse entries.now) t.0) }
{
    if is_cancelled(entries, t) {
        Some(Fate::Cancelled)
    } else {
        ending(entries, t)
    }
}

/// The submitted tasks by number.
pub fn tasks(alloc: Global, entries: &[Entry]) -> Result<Vec<TaskRow>, PoolError>
    requires { length entries.now ≤ 1048576 }
    ensures rows { IfOk result (λ v. v.items ≡ fields.task_rows (reverse entries.now)) }
    ensures refused { IsOkUnless result PoolError.NoMemory }
{
    let submitted = submitted(entries);
    let mut tasks = with_room(alloc, submitted as usize)?;
    for t in 0..submitted {
        push(&mut tasks, task_row(entries, TaskId(t)))?;
    }
    Ok(tasks)
}
