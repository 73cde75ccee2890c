//! The maximum size is set, as `setMaximumPoolSize` does.

ghost use Rattle.std.specs.Prelude.{◌≡◌, ◌≤◌, ℕ, ◌↔◌, max, OnOk, OnErr, IfErr, IsOk, IsOkUnless};
ghost use Rattle.tp_types.specs.declared.configs.Config.{Config};
ghost use Rattle.tp_record.specs.State.{State};
ghost use Rattle.tp_machine_state.specs.Payloads.{Keeps};
ghost use Rattle.tp_machine_state.specs.Shows.{Shows};
ghost use Rattle.tp_machine_state.specs.Tied.{IsTied};
ghost use Rattle.tp_machine_state.specs.Steps.{Stands, Accepts, Refuses, Leads};

use tp_machine_state::parts::Parts;
use tp_record::entries::{Ask, Did};
use tp_rules::controllers;
use tp_types::refusals::PoolError;

/// Whether the maximum size may be `maximum` workers. BadSizes (1) where it is 0, above 1,024 or below the core size, else
/// BookFull (5).
pub fn answer<P>(parts: &Parts<P>, maximum: u32) -> Result<(), PoolError>
    requires stands { Stands parts.now }
    ensures accepts { OnOk result (Accepts parts.now (Ask.Maximum maximum) (Did.Maximum maximum)) }
    ensures refuses { IfErr result (λ e. Refuses parts.now (Ask.Maximum maximum) e) }
{
    parts.in_room(controllers::maximum(parts, maximum), 0, 0)
}

/// Makes the places for a maximum that was accepted. NoMemory (4), which comes only where there are fewer places, and then nothing
/// has changed. Either way the same states are shown.
pub fn prepare<P>(parts: &mut Parts<P>, maximum: u32) -> Result<(), PoolError>
    ensures ok { OnOk result (parts.new ≡ record parts.old { slots = record parts.old.slots { places = max parts.old.slots.places maximum } }) }
    ensures err { OnErr result (parts.new ≡ parts.old) }
    ensures same { (s : State) → Shows parts.old s ↔ Shows parts.new s }
    ensures tied { (c : Config) (n : ℕ) → IsTied c n parts.old → IsTied c n parts.new }
    ensures refused { IsOkUnless result PoolError.NoMemory }
    ensures none_needed { maximum ≤ parts.old.slots.places → IsOk result }
{
    match parts.make_places(maximum) {
        Ok(()) => Ok(()),
        Err(_) => Err(PoolError::NoMemory),
    }
}

/// The maximum size is `maximum` workers from now on, for which there are places. Where there are more slots, each worker above it
/// leaves at its next take.
pub fn apply<P>(parts: &mut Parts<P>, maximum: u32)
    requires stands { Stands parts.old }
    requires accepts { Accepts parts.old (Ask.Maximum maximum) (Did.Maximum maximum) }
    requires places { maximum ≤ parts.old.slots.places }
    ensures leads { Leads parts.old (Did.Maximum maximum) parts.new }
    ensures payloads { Keeps parts.old.tasks parts.new.tasks }
{
    parts.count_entry(0);
    parts.set_maximum(maximum);
}
