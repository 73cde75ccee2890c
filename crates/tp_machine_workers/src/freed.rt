//! A reserved slot is given back, where its worker was not made (`fail`), or too late (`open`). Both are one change.

ghost use Rattle.std.specs.Prelude.{◌≡◌, ◌≤◌, IfSome};
ghost use Rattle.tp_record.specs.declared.entries.Ask.{Ask};
ghost use Rattle.tp_record.specs.declared.entries.Did.{Did};
ghost use Rattle.tp_record.specs.State.{slot_at};
ghost use Rattle.tp_machine_state.specs.Steps.{Stands, Fits, Leads};
ghost use Rattle.tp_machine_state.specs.Payloads.{Keeps};
ghost use Rattle.tp_machine_workers.specs.Freed.{GivesBack, TurnsAway, first_weight};

use tp_machine_state::parts::Parts;
use tp_record::owed::{HELD, HELD_FOR_CORE, REFUSED, RESERVED};
use tp_record::rows::Stage;
use tp_types::ids::{SlotId, TaskId};
use tp_types::tasks::Place;

/// A bare slot is freed.
pub fn give_back<P>(parts: &mut Parts<P>, w: SlotId)
    requires stands { Stands parts.old }
    requires fits { (a : Ask) × (d : Did) × GivesBack w a d × Fits parts.old a d }
    ensures leads { (a : Ask) → (d : Did) → GivesBack w a d → Fits parts.old a d → Leads parts.old d parts.new }
    ensures payloads { Keeps parts.old.tasks parts.new.tasks }
{
    parts.count_entry(RESERVED);
    parts.give_up(w);
}

/// A slot is freed, and its first task is refused.
pub fn turn_away<P>(parts: &mut Parts<P>, w: SlotId, t: TaskId)
    requires stands { Stands parts.old }
    requires fits { (a : Ask) × (d : Did) × TurnsAway w t a d × Fits parts.old a d }
    ensures leads { (a : Ask) → (d : Did) → TurnsAway w t a d → Fits parts.old a d → Leads parts.old d parts.new }
    ensures payloads { Keeps parts.old.tasks parts.new.tasks }
{
    let owed = first_owes(parts, w);
    parts.count_entry(owed);
    parts.place_task(t, Place::Refused);
    parts.give_up(w);
}

/// By how many fewer entries are owed once the first task of this slot is refused.
fn first_owes<P>(parts: &Parts<P>, w: SlotId) -> u64
    ensures { IfSome (slot_at parts.now.slots.slots w.0) (λ r. result ≡ first_weight r.stage) }
{
    match parts.slots.get(w) {
        Some(slot) => first_weight(slot.stage),
        None => 0,
    }
}

fn first_weight(stage: Stage) -> u64
    ensures weight { result ≡ first_weight stage }
    ensures bound { result ≤ 10 }
{
    match stage {
        Stage::ReservedCore => HELD_FOR_CORE + RESERVED - REFUSED,
        _ => HELD + RESERVED - REFUSED,
    }
}
