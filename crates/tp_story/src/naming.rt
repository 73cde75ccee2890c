//! Which entries tell of a task or of a slot.

ghost use Rattle.std.specs.Prelude.{◌≡◌};
ghost use Rattle.tp_record.specs.Fields.{sweeps, is_idle_row};
ghost use Rattle.tp_record.specs.State.{row_at, slot_at};
ghost use Rattle.tp_record.specs.Words as words;
ghost use Rattle.tp_audit.specs.Tables.{shown};
ghost use Rattle.tp_story.specs.Naming as naming;

use crate::subjects::Subject;
use tp_audit::named::{dropped_task, named_slot, named_task, replacing_slot};
use tp_audit::tables::Tables;
use tp_record::entries::Did;
use tp_types::ids::{SlotId, TaskId};
use tp_types::tasks::Place;

/// Whether an entry names the task, be it only to leave it as it is.
fn names_task(did: Did, task: TaskId) -> bool
    ensures { result ≡ naming.names_task did task.0 }
{
    match did {
        Did::Remove(named, _) | Did::Cancel(named, _, _) | Did::TakeDone(_, named) => {
            task.0 == named.0
        }
        _ => named_task(did) == Some(task.0) || dropped_task(did) == Some(task.0),
    }
}

/// Whether an entry finishes a task that it need not name.
fn sweeps_task(tables: &Tables, did: Did, task: TaskId) -> bool
    ensures { result ≡ sweeps did (row_at (shown tables.now).tasks task.0).cancelled (row_at (shown tables.now).tasks task.0).place }
{
    let Some(row) = tables.tasks.get(task.0 as usize) else {
        return false;
    };
    match did {
        Did::Stop(_) => row.place == Place::Queued,
        Did::Purge(_) => row.place == Place::Queued && row.cancelled,
        _ => false,
    }
}

/// Whether an entry names the slot.
fn names_slot(did: Did, slot: SlotId) -> bool
    ensures { result ≡ words.names_slot did slot.0 }
{
    named_slot(did) == Some(slot.0) || replacing_slot(did) == Some(slot.0)
}

/// Whether an entry wakes all idle workers.
fn wakes(did: Did) -> bool
    ensures { result ≡ words.wakes did }
{
    matches!(did, Did::Shutdown | Did::Stop(_))
}

/// Whether the slot's worker is idle.
fn is_idle(tables: &Tables, slot: SlotId) -> bool
    ensures { result ≡ is_idle_row (slot_at (shown tables.now).slots slot.0) }
{
    match tables.slots.get(slot) {
        Some(row) => row.is_idle(),
        None => false,
    }
}

/// Whether an entry tells of the subject, where the pool is as these tables say before it.
pub fn tells_of(tables: &Tables, did: Did, subject: Subject) -> bool
    ensures { result ≡ naming.tells_of (shown tables.now) did subject }
{
    match subject {
        Subject::Task(task) => names_task(did, task) || sweeps_task(tables, did, task),
        Subject::Slot(slot) => names_slot(did, slot) || (wakes(did) && is_idle(tables, slot)),
    }
}
