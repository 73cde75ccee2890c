//! The plain state that the entries give.

ghost use Rattle.std.specs.Prelude.{◌≡◌, ◌≤◌, length, reverse, IfOk, IsOkUnless};
ghost use Rattle.tp_record.specs.State as states;
ghost use Rattle.tp_rules.specs.PlainState.{shown, IsSmall};

use crate::plain_state::PlainState;
use crate::{pool, queues, slots, tasks};
use std::alloc::Global;
use tp_record::entries::Entry;
use tp_types::configs::Config;
use tp_types::refusals::PoolError;

/// The plain state of a pool that was made with `config`, after these entries.
pub fn plain_state(
    alloc: Global,
    config: &Config,
    entries: &[Entry],
) -> Result<PlainState, PoolError>
    requires { length entries.now ≤ 1048576 }
    ensures state { IfOk result (λ s. shown s ≡ states.state config.now (reverse entries.now)) }
    ensures small { IfOk result (λ s. IsSmall 1048576 (shown s)) }
    ensures refused { IsOkUnless result PoolError.NoMemory }
{
    Ok(PlainState {
        steps: entries.len() as u32,
        rank: pool::rank(entries),
        core: pool::core(entries, config.core),
        maximum: pool::maximum(entries, config.maximum),
        keep: pool::keep(entries, config.keep),
        core_timeout: pool::core_timeout(entries, config.core_timeout),
        moment: pool::moment(entries),
        tasks: tasks::tasks(alloc, entries)?,
        ranked: config.queue.is_ranked(),
        queue: queues::queue(alloc, config, entries)?,
        slots: slots::slots(alloc, entries)?,
        idling: queues::idling(alloc, entries)?,
        done: queues::done(alloc, entries)?,
        completions: pool::completions(entries),
        largest: slots::largest(alloc, entries)?,
    })
}
