//! The slots and the order of idling after an entry that changes what it names alone.

ghost use Rattle.std.specs.Prelude.{ℕ, ◌≡◌, ◌<◌, ◌≤◌, ◌^◌, [], false, None, Some, count_by, is_some, OnOk, OnErr};
ghost use Rattle.tp_record.specs.Effects as effects;
ghost use Rattle.tp_record.specs.Lists.{is_it, long_enough};
ghost use Rattle.tp_record.specs.State as states;
ghost use Rattle.tp_audit.specs.Changed.{change_at};
ghost use Rattle.tp_audit.specs.Named.{turns, wakes, take_out as taken_out};
ghost use Rattle.tp_audit.specs.Readings.{read};

use crate::named::named_slot;
use crate::orders::Order;
use crate::rows::{made_row, slot_after};
use crate::slot_table::SlotTable;
use std::alloc::AllocError;
use tp_record::entries::Did;
use tp_record::rows::TaskRow;
use tp_rules::effects::reserved_by;
use tp_types::ids::SlotId;

/// The slot that an entry turns or frees, and does not reserve.
pub fn turned_slot(did: Did) -> Option<usize>
    ensures { result ≡ turns did }
{
    match named_slot(did) {
        Some(w) if reserved_by(did) != Some(w) => Some(w),
        _ => None,
    }
}

/// Makes the slot that an entry reserves, if it reserves one. Where memory is refused nothing has changed.
pub fn reserve_slot(
    table: &mut SlotTable,
    did: Did,
    moment: u64,
    tasks: &[TaskRow],
) -> Result<(), AllocError>
    requires few { count_by is_some table.old < 2 ^ 32 }
    ensures made { OnOk result (table.new ≡ change_at (states.slot_after did (read moment tasks.now [])) None (effects.reserves did) (long_enough (effects.reserves did) None table.old)) }
    ensures err { OnErr result (table.new ≡ table.old) }
{
    match reserved_by(did) {
        None => Ok(()),
        Some(w) => table.put(SlotId(w), made_row(did, moment, tasks, SlotId(w))),
    }
}

/// Slot `w` changes as the entry says, if it is one. It takes no memory.
pub fn turn_slot(table: &mut SlotTable, did: Did, moment: u64, tasks: &[TaskRow], w: Option<usize>)
    requires few { count_by is_some table.old < 2 ^ 32 }
    requires old { (v : ℕ) → w ≡ Some v → is_it (effects.reserves did) v ≡ false }
    ensures turned { table.new ≡ change_at (states.slot_after did (read moment tasks.now [])) None w table.old }
    ensures few { count_by is_some table.new ≤ count_by is_some table.old }
{
    if let Some(w) = w {
        let w = SlotId(w);
        match slot_after(did, moment, tasks, w, table.get(w)) {
            None => table.free(w),
            Some(row) => if table.put(w, row).is_err() {
                unreachable!()
            },
        }
    }
}

/// The slot that an entry turns or frees and does not leave idle.
pub fn woken_slot(did: Did, moment: u64, tasks: &[TaskRow], table: &SlotTable) -> Option<usize>
    ensures { result ≡ wakes did (read moment tasks.now table.now) }
{
    let w = turned_slot(did)?;
    match slot_after(did, moment, tasks, SlotId(w), table.get(SlotId(w))) {
        Some(row) if row.is_idle() => None,
        _ => Some(w),
    }
}

/// Takes `x` out, if there is one and it is there.
pub fn take_out(order: &mut Order, x: Option<usize>)
    ensures { order.new ≡ taken_out x order.old }
{
    if let Some(x) = x {
        order.remove(x);
    }
}
