//! The answer to an ask after these entries.

ghost use Rattle.std.specs.Prelude.{◌≡◌, ◌≤◌, length, reverse, IfOk, ⊤};
ghost use Rattle.tp_record.specs.Fields as fields;
ghost use Rattle.tp_record.specs.State.{state};
ghost use Rattle.tp_record.specs.Step as steps;
ghost use Rattle.tp_rules.specs.PlainState.{least_free, IsAnswer};

use crate::build::plain_state;
use crate::plain_state::PlainState;
use crate::step::step;
use std::alloc::Global;
use tp_record::entries::{Ask, Did, Entry};
use tp_types::configs::Config;
use tp_types::ids::SlotId;
use tp_types::refusals::PoolError;

/// The least number that is no slot.
pub fn free_slot(state: &PlainState) -> SlotId
    ensures { result.0 ≡ least_free state.now.slots.items }
{
    let mut free = 0;
    for slot in &state.slots {
        if slot.is_none() {
            return SlotId(free);
        }
        free += 1;
    }
    SlotId(free)
}

/// The answer to an ask after these entries of a pool that was made with `config`, where a slot that is made gets the
/// least number that is no slot. The step gives each entry that is answered.
pub fn answer(alloc: Global, config: &Config, entries: &[Entry], ask: Ask) -> Result<Did, PoolError>
    requires { length entries.now ≤ 1048576 }
    ensures answer { IsAnswer ⊤ result (steps.step config.now (state config.now (reverse entries.now))
        (least_free (fields.slot_rows (reverse entries.now))) ask) }
    ensures gives { IfOk result (λ d. steps.Gives config.now (state config.now (reverse entries.now)) ask d) }
{
    match plain_state(alloc, config, entries) {
        Ok(now) => step(alloc, config, &now, free_slot(&now), ask),
        Err(error) => Err(error),
    }
}
