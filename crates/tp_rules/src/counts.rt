//! The twelve counters, and what is owed.

ghost use Rattle.std.specs.Prelude.{◌≡◌, ◌≤◌, count_by, length, reverse, IfOk, IsOkUnless};
ghost use Rattle.tp_record.specs.State as states;
ghost use Rattle.tp_rules.specs.PlainState.{shown, IsSmall};

use crate::build::plain_state;
use crate::plain_state::PlainState;
use crate::slots::live_of;
use crate::weights::due;
use std::alloc::Global;
use tp_record::entries::Entry;
use tp_record::rows::TaskRow;
use tp_types::configs::Config;
use tp_types::refusals::PoolError;
use tp_types::states::Counts;
use tp_types::tasks::Fate;

/// Whether a fate is this one.
pub fn is_fate(fate: Fate, of: Option<Fate>) -> bool
    ensures { result ≡ states.is_fate fate of }
{
    of == Some(fate)
}

/// How many of the tasks have this fate.
pub fn fated(fate: Fate, tasks: &[TaskRow]) -> u32
    requires { length tasks.now ≤ 1048577 }
    ensures { result ≡ count_by (λ row. states.is_fate fate (states.fate_of row)) tasks.now }
{
    let mut fated = 0;
    for row in tasks {
        if is_fate(fate, row.fate()) {
            fated += 1;
        }
    }
    fated
}

/// The counters of a plain state.
pub fn counts_of(state: &PlainState) -> Counts
    requires { IsSmall 1048577 (shown state.now) }
    ensures { result ≡ states.counts (shown state.now) }
{
    Counts {
        submitted: state.tasks.len() as u32,
        run: fated(Fate::Run, &state.tasks),
        caller: fated(Fate::RunByCaller, &state.tasks),
        rejected: fated(Fate::Rejected, &state.tasks),
        discarded: fated(Fate::Discarded, &state.tasks),
        handedback: fated(Fate::HandedBack, &state.tasks),
        removed: fated(Fate::Removed, &state.tasks),
        cancelled: fated(Fate::Cancelled, &state.tasks),
        completed: state.completions,
        queued: state.queue.len() as u32,
        live: live_of(&state.slots),
        largest: state.largest,
    }
}

/// The counters after these entries of a pool that was made with `config`.
pub fn counts(alloc: Global, config: &Config, entries: &[Entry]) -> Result<Counts, PoolError>
    requires { length entries.now ≤ 1048576 }
    ensures counters { IfOk result (λ r. r ≡ states.counts (states.state config.now (reverse entries.now))) }
    ensures refused { IsOkUnless result PoolError.NoMemory }
{
    let state = plain_state(alloc, config, entries)?;
    Ok(counts_of(&state))
}

/// How many entries are owed after these of a pool that was made with `config`.
pub fn owed(alloc: Global, config: &Config, entries: &[Entry]) -> Result<u64, PoolError>
    requires { length entries.now ≤ 1048576 }
    ensures owed { IfOk result (λ n. n ≡ states.due (states.state config.now (reverse entries.now))) }
    ensures refused { IsOkUnless result PoolError.NoMemory }
{
    let state = plain_state(alloc, config, entries)?;
    Ok(due(&state))
}
