//! The rows of slots after an entry.

ghost use Rattle.std.specs.Prelude.{◌≡◌, List, Option};
ghost use Rattle.tp_record.specs.declared.rows.SlotRow.{SlotRow};
ghost use Rattle.tp_record.specs.Effects as effects;
ghost use Rattle.tp_record.specs.State as states;
ghost use Rattle.tp_audit.specs.Readings.{read};

use tp_record::entries::Did;
use tp_record::rows::{SlotRow, Stage, TaskRow};
use tp_rules::effects::{closed_by, hold_said, is_plain_fault, seat_said, turned_to, woken};
use tp_rules::next::NO_ROW;
use tp_types::ids::{SlotId, TaskId};

// What is read of a slot before it is made.
const NO_SEAT: SlotRow = SlotRow {
    stage: Stage::Working,
    task: None,
};

/// The row of task `t`.
pub fn row_at(tasks: &[TaskRow], t: TaskId) -> TaskRow
    ensures { result ≡ states.row_at tasks.now t.0 }
{
    let t = t.0 as usize;
    if t < tasks.len() { tasks[t] } else { NO_ROW }
}

/// Whether an entry ends a plain task with a fault.
pub fn is_fault(tasks: &[TaskRow], did: Did) -> bool
    ensures { result ≡ effects.is_plain_fault did (λ t. (states.row_at tasks.now t).kind) }
{
    match closed_by(did) {
        Some(t) => is_plain_fault(did, row_at(tasks, t).kind),
        None => false,
    }
}

/// The row of slot `w`, which stays or is new, after an entry at this moment.
fn seat_after(did: Did, moment: u64, tasks: &[TaskRow], w: SlotId, row: SlotRow) -> SlotRow
    ensures { (slots : List (Option SlotRow)) → result ≡ states.seat_after did (read moment tasks.now slots) w.0 row }
{
    SlotRow {
        stage: turned_to(moment, is_fault(tasks, did), did, w).unwrap_or(woken(did, row.stage)),
        task: seat_said(did, w).unwrap_or(row.task),
    }
}

/// The row of slot `w`, which an entry reserves at this moment.
pub fn made_row(did: Did, moment: u64, tasks: &[TaskRow], w: SlotId) -> SlotRow
    ensures { (slots : List (Option SlotRow)) → result ≡ states.seat_after did (read moment tasks.now slots) w.0 states.no_seat }
{
    seat_after(did, moment, tasks, w, NO_SEAT)
}

/// Slot `w` after an entry at this moment.
pub fn slot_after(
    did: Did,
    moment: u64,
    tasks: &[TaskRow],
    w: SlotId,
    slot: Option<SlotRow>,
) -> Option<SlotRow>
    ensures { (slots : List (Option SlotRow)) → result ≡ states.slot_after did (read moment tasks.now slots) w.0 slot }
{
    match (hold_said(did, w), slot) {
        (Some(true), _) => Some(seat_after(did, moment, tasks, w, NO_SEAT)),
        (Some(false), _) => None,
        (None, Some(row)) => Some(seat_after(did, moment, tasks, w, row)),
        (None, None) => None,
    }
}
