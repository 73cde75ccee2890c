//! The pool is stopped, as `shutdownNow` does: the queued tasks are handed back, and workers leave once their tasks have ended.

ghost use Rattle.std.specs.Prelude.{◌≡◌, ◌+◌, ◌*◌, ◌≤◌, ◌++◌, [], length, vec_len, vec_capacity, IfOk, IfErr, IsOk, IsOkUnless};
ghost use Rattle.tp_queue.specs.Queues.{waiting_of};
ghost use Rattle.tp_machine_state.specs.Drained.{handed_back, HandsOutAll};
ghost use Rattle.tp_machine_state.specs.Owing.{owed_until};
ghost use Rattle.tp_machine_state.specs.Shows.{numbers};
ghost use Rattle.tp_machine_state.specs.Steps.{Stands, Accepts, Refuses, Leads};

use std::alloc::Global;
use tp_machine_state::parts::Parts;
use tp_queue::work::WorkQueue;
use tp_record::entries::{Ask, Did};
use tp_record::owed::QUEUED;
use tp_types::ids::TaskId;
use tp_types::refusals::PoolError;
use tp_types::states::RunState;

/// How many tasks are handed back: all that are queued. A stop always fits, a second one too. BookFull (5), which only a pool that
/// is stopped answers.
pub fn answer<P>(parts: &Parts<P>) -> Result<u32, PoolError>
    requires stands { Stands parts.now }
    ensures accepts { IfOk result (λ n. Accepts parts.now Ask.Stop (Did.Stop n)) }
    ensures refuses { IfErr result (λ e. Refuses parts.now Ask.Stop e) }
{
    let count = parts.queue.len() as u32;
    parts.in_room(Ok(count), fall(parts, count), 0)
}

/// By how many entries fewer are owed after a stop that hands back so many tasks.
fn fall<P>(parts: &Parts<P>, count: u32) -> u64
    requires stands { Stands parts.now }
    ensures { result ≡ 6 * count + owed_until parts.now 2 }
{
    QUEUED * u64::from(count) + parts.owed_until(RunState::Stop)
}

/// A list with memory for all tasks that a stop hands back, before it is made. NoMemory (4), which comes only where a task is
/// queued.
pub fn prepare<P>(alloc: Global, parts: &Parts<P>) -> Result<Vec<(TaskId, Option<P>)>, PoolError>
    ensures empty { IfOk result (λ v. v.items ≡ []) }
    ensures room { IfOk result (λ v. length (waiting_of parts.now.queue).items ≤ vec_capacity v) }
    ensures refused { IsOkUnless result PoolError.NoMemory }
    ensures none_needed { length (waiting_of parts.now.queue).items ≡ 0 → IsOk result }
{
    match Vec::with_capacity(alloc, parts.queue.len()) {
        Ok(drained) => Ok(drained),
        Err(_) => Err(PoolError::NoMemory),
    }
}

/// Makes an accepted answer: the pool is stopped, unless it has come further, idle workers wake, and the queued tasks go to the end
/// of the list in the queue's order, each with its payload, if it waited. The list has room for them.
pub fn apply<P>(parts: &mut Parts<P>, count: u32, drained: &mut Vec<(TaskId, Option<P>)>)
    requires stands { Stands parts.old }
    requires accepts { Accepts parts.old Ask.Stop (Did.Stop count) }
    requires room { vec_len drained.old + length (waiting_of parts.old.queue).items ≤ vec_capacity drained.old }
    ensures leads { Leads parts.old (Did.Stop count) parts.new }
    ensures handed { drained.new.items ≡ drained.old.items ++ handed_back parts.old }
    ensures payloads { HandsOutAll parts.old.tasks parts.new.tasks (numbers (waiting_of parts.old.queue).items) }
{
    parts.count_entry(fall(parts, count));
    parts.reach(RunState::Stop);
    parts.wake_all();
    parts.drain_queue(drained);
}
