//! What is owed: the entries that accepted tasks, slots and the pool still need.

ghost use Rattle.std.specs.Prelude.{◌≡◌, ◌≤◌, ◌<◌, ◌*◌, ◌^◌, length, sum_by};
ghost use Rattle.tp_record.specs.State as states;
ghost use Rattle.tp_rules.specs.PlainState.{shown, IsSmall};

use crate::plain_state::PlainState;
use tp_record::owed::pool_weight;
use tp_record::rows::{SlotRow, TaskRow};
use tp_types::tasks::Place;

/// The slot with this number, None where it is no slot.
pub fn slot_at(slots: &[Option<SlotRow>], w: usize) -> Option<SlotRow>
    ensures { result ≡ states.slot_at slots.now w }
{
    if w < slots.len() { slots[w] } else { None }
}

/// Whether a place is in a slot that is reserved for the core.
pub fn is_held_for_core(slots: &[Option<SlotRow>], place: Place) -> bool
    ensures { result ≡ states.is_held_for_core slots.now place }
{
    match place {
        Place::Held(w) => match slot_at(slots, w.0) {
            None => false,
            Some(row) => row.is_for_core(),
        },
        _ => false,
    }
}

/// What is owed by a task.
pub fn task_weight(slots: &[Option<SlotRow>], row: TaskRow) -> u64
    ensures weight { result ≡ states.task_weight slots.now row }
    ensures bound { result ≤ 17 }
{
    row.weight(is_held_for_core(slots, row.place))
}

/// What is owed by a place of the slot table.
pub fn slot_weight(rank: u8, slot: Option<SlotRow>) -> u64
    ensures weight { result ≡ states.slot_weight rank slot }
    ensures bound { result ≤ 4 }
{
    match slot {
        None => 0,
        Some(row) => row.weight(rank),
    }
}

/// What is owed by the tasks.
pub fn tasks_weight(slots: &[Option<SlotRow>], tasks: &[TaskRow]) -> u64
    requires { length tasks.now < 4294967296 }
    ensures weight { result ≡ sum_by (states.task_weight slots.now) tasks.now }
    ensures bound { result ≤ 17 * length tasks.now }
{
    let mut sum = 0;
    for row in tasks {
        sum += task_weight(slots, *row);
    }
    sum
}

/// What is owed by the slots.
pub fn slots_weight(rank: u8, slots: &[Option<SlotRow>]) -> u64
    requires { length slots.now < 4294967296 }
    ensures weight { result ≡ sum_by (states.slot_weight rank) slots.now }
    ensures bound { result ≤ 4 * length slots.now }
{
    let mut sum = 0;
    for slot in slots {
        sum += slot_weight(rank, *slot);
    }
    sum
}

/// What is owed in all.
pub fn due(state: &PlainState) -> u64
    requires { IsSmall 1048577 (shown state.now) }
    ensures weight { result ≡ states.due (shown state.now) }
    ensures bound { result < 2 ^ 40 }
{
    let tasks = tasks_weight(&state.slots, &state.tasks);
    let slots = slots_weight(state.rank, &state.slots);
    tasks + slots + pool_weight(state.rank)
}
