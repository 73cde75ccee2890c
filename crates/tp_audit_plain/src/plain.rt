//! The auditor's plain form: each entry is judged by filters over the whole list of those before it.
//!
//! It keeps no running table, and shares nothing with the machine but the rules of answers, which are proved to be the model's. So an
//! error of a structure can't hide in it.
//! It is for records of some hundred entries.

ghost use Rattle.std.specs.Prelude.{◌≡◌, ◌≤◌, ◌↔◌, true, length, map, reverse, IsTrue, IfOk, IfErr, IfSome, IsOkUnless};
ghost use Rattle.tp_types.specs.Config.{IsConfig};
ghost use Rattle.tp_record.specs.Effects.{reserves};
ghost use Rattle.tp_record.specs.State as states;
ghost use Rattle.tp_record.specs.Step as steps;
ghost use Rattle.tp_laws.specs.Lawful.{IsLawful};
ghost use Rattle.tp_rules.specs.PlainState.{shown, IsSmall};
ghost use Rattle.tp_audit_plain.specs.Audit.{IsSummary, IsFlawOf, OneJudgment};

use crate::summary::{Flaw, Summary};
use std::alloc::Global;
use tp_record::entries::{Did, Entry};
use tp_record::rows::TaskRow;
use tp_rules::build::plain_state;
use tp_rules::counts::counts_of;
use tp_rules::effects::{freed_by, reserved_by};
use tp_rules::lists::{push, with_room};
use tp_rules::next::slot_of;
use tp_rules::plain_state::PlainState;
use tp_rules::step::step;
use tp_types::configs::Config;
use tp_types::ids::SlotId;
use tp_types::refusals::PoolError;
use tp_types::states::RunState;
use tp_types::tasks::Fate;

/// Whether the slot that an entry makes, if it makes one, has a number that is no slot before it, or
/// that of the slot which it frees.
fn has_free_number(state: &PlainState, did: Did) -> bool
    ensures { IsTrue result ↔ IfSome (reserves did) (λ w. steps.is_free_for (shown state.now) did w ≡ true) }
{
    match reserved_by(did) {
        None => true,
        Some(w) => slot_of(state, SlotId(w)).is_none() || freed_by(did) == Some(w),
    }
}

/// Whether two entries did the same.
pub fn are_same(did: Did, other: Did) -> bool
    ensures { IsTrue result ↔ did ≡ other }
{
    did == other
}

/// Whether the step gives this entry after those before it.
fn is_given(
    alloc: Global,
    config: &Config,
    before: &[Entry],
    entry: Entry,
) -> Result<bool, PoolError>
    requires { length before.now ≤ 1048576 }
    ensures given { IfOk result (λ b. IsTrue b
        ↔ steps.Gives config.now (states.state config.now (reverse before.now)) entry.ask entry.did) }
    ensures refused { IsOkUnless result PoolError.NoMemory }
{
    let state = plain_state(alloc, config, before)?;
    let made = SlotId(reserved_by(entry.did).unwrap_or(0));
    match step(alloc, config, &state, made, entry.ask) {
        Ok(did) => {
            if are_same(did, entry.did) {
                return Ok(has_free_number(&state, entry.did));
            }
            Ok(false)
        }
        Err(PoolError::NoMemory) => Err(PoolError::NoMemory),
        Err(_) => Ok(false),
    }
}

/// What became of each task, by the rows of a table.
pub fn fates_of(alloc: Global, tasks: &[TaskRow]) -> Result<Vec<Option<Fate>>, PoolError>
    ensures fates { IfOk result (λ v. v.items ≡ map states.fate_of tasks.now) }
    ensures refused { IsOkUnless result PoolError.NoMemory }
{
    let mut fates = with_room(alloc, tasks.len())?;
    for row in tasks {
        push(&mut fates, row.fate())?;
    }
    Ok(fates)
}

/// What these entries say at their end.
fn summary_of(alloc: Global, config: &Config, entries: &[Entry]) -> Result<Summary, PoolError>
    requires { length entries.now ≤ 1048576 }
    ensures summary { IfOk result (λ s. IsSummary config.now (reverse entries.now) s) }
    ensures refused { IsOkUnless result PoolError.NoMemory }
{
    let state = plain_state(alloc, config, entries)?;
    Ok(Summary {
        counts: counts_of(&state),
        state: RunState::from_rank(state.rank),
        fates: fates_of(alloc, &state.tasks)?,
    })
}

/// Judges the record of a pool that was made with `config`, by filters over the list: its counters,
/// its run state and its tasks' fates, exactly where each entry is one that the step gives after those
/// before it; else the number of the first that it does not give. All laws hold of a record that has
/// counters. The passes that the entries name are free, and so is the number of a new slot, if it is no
/// slot then. Want of memory is answered as such; a slot numbered w takes a table of w + 1 places.
pub fn audit_plain(alloc: Global, config: &Config, entries: &[Entry]) -> Result<Summary, Flaw>
    requires { IsConfig config.now }
    ensures legal { IfOk result (λ s. steps.Legal config.now (reverse entries.now)) }
    ensures lawful { IfOk result (λ s. IsLawful config.now (reverse entries.now)) }
    ensures summary { IfOk result (λ s. IsSummary config.now (reverse entries.now) s) }
    ensures flaw { IfErr result (λ f. IsFlawOf config.now entries.now f) }
{
    for (i, entry) in entries.iter().enumerate() {
        match is_given(alloc, config, &entries[..i], *entry) {
            Ok(true) => {}
            Ok(false) => return Err(Flaw::At(i + 1)),
            Err(_) => return Err(Flaw::NoMemory),
        }
    }
    summary_of(alloc, config, entries).map_err(|_| Flaw::NoMemory)
}

/// The law that a record is legal or has one first flaw, and not both.
pub fn one_judgment()
    ensures { OneJudgment }
{}
