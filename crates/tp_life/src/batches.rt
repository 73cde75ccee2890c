//! Many tasks in one call.
ghost use Rattle.std.specs.Prelude.{◌≡◌, ◌≤◌, ◌+◌, [], List, Result, length, map, vec_capacity, vec_len, IfOk, IfErr};
ghost use Rattle.tp_types.specs.declared.ids.TaskId.{TaskId as TaskIdOf};
ghost use Rattle.tp_book.specs.PassView.{PassView};
ghost use Rattle.tp_pool.specs.Submissions.{Submits};
ghost use Rattle.tp_pool.specs.Turns.{ThroughBoth};
ghost use Rattle.tp_life.specs.declared.tasks.TheConstants.{VOID};
ghost use Rattle.tp_life.specs.Futures.{submitted_as, IsTaken};

use crate::calls::{Calls, Ticket};
use crate::running::Told;
use crate::tasks::Task;
use std::alloc::Global;
use tp_types::refusals::PoolError;

// What a submission came to: a ticket, or its refusal.
type Submitted<W> = Result<Ticket<W>, PoolError>;

/// Submits these tasks with futures, waits for each, and tells what became of each, in their order, as `ExecutorService.invokeAll`. A
/// task whose submission is refused is told of by that refusal, and those behind it are submitted all the same. NoMemory (4) for the
/// answer, before the first task is submitted: then the tasks are dropped.
pub fn invoke_all<W: Task, P: Calls<Task = W>>(
    pool: &mut P,
    alloc: Global,
    tasks: Vec<W>,
) -> Result<Vec<Told<W::Output>>, PoolError>
    ensures told { IfOk result (λ told. (rs : List (Result TaskIdOf PoolError)) × (mid : PassView) × ThroughBoth (λ task r. Submits P.keeps P.terms task VOID (W.urgency task) r) tasks.items rs (P.pass pool.old) mid × ThroughBoth (IsTaken P.keeps P.terms W.gives) rs told.items mid (P.pass pool.new)) }
    ensures refused { IfErr result (λ e. (e ≡ PoolError.NoMemory) × (P.pass pool.new ≡ P.pass pool.old)) }
{
    let (Ok(mut tickets), Ok(mut told)) = (
        Vec::with_capacity(alloc, tasks.len()),
        Vec::with_capacity(alloc, tasks.len()),
    ) else {
        return Err(PoolError::NoMemory);
    };
    submit_each(pool, tasks, &mut tickets);
    take_each(pool, tickets, &mut told);
    Ok(told)
}

// Submits each of these tasks, in their order.
fn submit_each<W: Task, P: Calls<Task = W>>(
    pool: &mut P,
    tasks: Vec<W>,
    tickets: &mut Vec<Submitted<W>>,
)
    requires none { tickets.old.items ≡ [] }
    requires room { vec_len tasks ≤ vec_capacity tickets.old }
    ensures submitted { ThroughBoth (λ task r. Submits P.keeps P.terms task VOID (W.urgency task) r) tasks.items (map (submitted_as (λ k. k.task)) tickets.new.items) (P.pass pool.old) (P.pass pool.new) }
    ensures count { length tickets.new.items ≡ vec_len tasks }
{
    for task in tasks {
        tickets.push_reserved(submitted(pool, task));
    }
}

// Submits a task.
fn submitted<W: Task, P: Calls<Task = W>>(pool: &mut P, task: W) -> Submitted<W>
    ensures { Submits P.keeps P.terms task VOID (W.urgency task) (submitted_as (λ k. k.task) result) (P.pass pool.old) (P.pass pool.new) }
{
    match pool.submit(task) {
        Ok(ticket) => Ok(ticket),
        Err(refused) => Err(refused.error),
    }
}

// Waits for each of these futures, in their order.
fn take_each<W: Task, P: Calls<Task = W>>(
    pool: &mut P,
    tickets: Vec<Submitted<W>>,
    told: &mut Vec<Told<W::Output>>,
)
    requires none { told.old.items ≡ [] }
    requires room { vec_len tickets ≤ vec_capacity told.old }
    ensures { ThroughBoth (IsTaken P.keeps P.terms W.gives) (map (submitted_as (λ k. k.task)) tickets.items) told.new.items (P.pass pool.old) (P.pass pool.new) }
{
    for ticket in tickets {
        told.push_reserved(taken(pool, ticket));
    }
}

// Waits for a future.
fn taken<W: Task, P: Calls<Task = W>>(pool: &mut P, submitted: Submitted<W>) -> Told<W::Output>
    ensures { IsTaken P.keeps P.terms W.gives (submitted_as (λ k. k.task) submitted) result (P.pass pool.old) (P.pass pool.new) }
{
    match submitted {
        Ok(ticket) => pool.get(&ticket),
        Err(error) => Err(error),
    }
}
