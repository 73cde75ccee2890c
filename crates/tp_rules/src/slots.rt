//! What the entries say of a slot.

ghost use Rattle.std.specs.Prelude.{◌≡◌, ◌<◌, count_by, length, reverse, vec_len, IfOk, IsOkUnless};
ghost use Rattle.tp_record.specs.Effects as effects;
ghost use Rattle.tp_record.specs.Fields as fields;

use crate::effects::{
    closed_by, hold_said, is_plain_fault, now_said, reserved_by, seat_said, turned_to, woken,
};
use crate::lists::{push, with_room};
use crate::tasks::kind;
use std::alloc::Global;
use tp_record::entries::{Did, Entry};
use tp_record::rows::{SlotRow, Stage};
use tp_types::ids::{SlotId, TaskId};
use tp_types::refusals::PoolError;

/// Whether an entry after these ends a plain task with a fault.
pub fn is_fault_after(before: &[Entry], did: Did) -> bool
    ensures { result ≡ effects.is_plain_fault did (fields.kind (reverse before.now)) }
{
    match closed_by(did) {
        Some(t) => is_plain_fault(did, kind(before, t)),
        None => false,
    }
}

/// What slot `w` is for, or what its worker does.
pub fn stage(entries: &[Entry], w: SlotId) -> Stage
    ensures { result ≡ fields.stage (reverse entries.now) w.0 }
{
    let mut stage = Stage::Working;
    let mut now = 0;
    for (i, entry) in entries.iter().enumerate() {
        let dies = is_fault_after(&entries[..i], entry.did);
        stage = turned_to(now, dies, entry.did, w).unwrap_or(woken(entry.did, stage));
        now = now_said(entry.did).unwrap_or(now);
    }
    stage
}

/// The task in slot `w`.
pub fn task_in(entries: &[Entry], w: SlotId) -> Option<TaskId>
    ensures { result ≡ fields.task_in (reverse entries.now) w.0 }
{
    let mut task = None;
    for entry in entries {
        task = seat_said(entry.did, w).unwrap_or(task);
    }
    task
}

/// Whether the last reservation of `w` has no later entry that frees it.
pub fn is_slot(entries: &[Entry], w: SlotId) -> bool
    ensures { result ≡ fields.is_slot (reverse entries.now) w.0 }
{
    let mut held = false;
    for entry in entries {
        held = hold_said(entry.did, w).unwrap_or(held);
    }
    held
}

/// What the entries say of slot `w`, None where it is no slot.
pub fn slot_row(entries: &[Entry], w: SlotId) -> Option<SlotRow>
    ensures { result ≡ fields.slot_row (reverse entries.now) w.0 }
{
    is_slot(entries, w).then_some(SlotRow {
        stage: stage(entries, w),
        task: task_in(entries, w),
    })
}

/// One more than the greatest slot number that was reserved. A table of 2^32 places or more counts as refused memory.
pub fn slot_bound(entries: &[Entry]) -> Result<u32, PoolError>
    ensures bound { IfOk result (λ n. n ≡ fields.slot_bound (reverse entries.now)) }
    ensures refused { IsOkUnless result PoolError.NoMemory }
{
    let mut bound = 0;
    for entry in entries {
        if let Some(w) = reserved_by(entry.did) {
            if w >= 4_294_967_295 {
                return Err(PoolError::NoMemory);
            }
            bound = bound.max(w as u32 + 1);
        }
    }
    Ok(bound)
}

/// The slots by number.
pub fn slots(alloc: Global, entries: &[Entry]) -> Result<Vec<Option<SlotRow>>, PoolError>
    ensures rows { IfOk result (λ v. v.items ≡ fields.slot_rows (reverse entries.now)) }
    ensures bound { IfOk result (λ v. vec_len v < 4294967296) }
    ensures refused { IsOkUnless result PoolError.NoMemory }
{
    let bound = slot_bound(entries)?;
    let mut slots = with_room(alloc, bound as usize)?;
    for w in 0..bound {
        push(&mut slots, slot_row(entries, SlotId(w as usize)))?;
    }
    Ok(slots)
}

/// Whether a slot is live: opened, and not left.
pub fn is_live(slot: Option<SlotRow>) -> bool
    ensures { result ≡ fields.is_live slot }
{
    match slot {
        None => false,
        Some(row) => row.is_live(),
    }
}

/// How many of the slots are live.
pub fn live_of(slots: &[Option<SlotRow>]) -> u32
    requires { length slots.now < 4294967296 }
    ensures { result ≡ count_by fields.is_live slots.now }
{
    let mut live = 0;
    for slot in slots {
        if is_live(*slot) {
            live += 1;
        }
    }
    live
}

/// The number of live slots.
pub fn live(alloc: Global, entries: &[Entry]) -> Result<u32, PoolError>
    ensures number { IfOk result (λ n. n ≡ fields.live (reverse entries.now)) }
    ensures refused { IsOkUnless result PoolError.NoMemory }
{
    let slots = slots(alloc, entries)?;
    Ok(live_of(&slots))
}

/// The greatest number of live slots that a front of the entries has.
pub fn largest(alloc: Global, entries: &[Entry]) -> Result<u32, PoolError>
    ensures number { IfOk result (λ n. n ≡ fields.largest (reverse entries.now)) }
    ensures refused { IsOkUnless result PoolError.NoMemory }
{
    let mut largest = 0;
    for i in 0..entries.len() {
        largest = live(alloc, &entries[..i + 1])?.max(largest);
    }
    Ok(largest)
}
