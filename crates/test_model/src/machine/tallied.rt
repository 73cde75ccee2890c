//! Twenty thousand tasks through a machine that keeps no record: each is forgotten once it is gone and owes nothing.

use super::plays::ANY;
use crate::compare::same;
use std::alloc::Global;
use std::process::Abort;
use tp_machine::machine::Machine;
use tp_record::entries::{Did, Looked};
use tp_record::recorders::Tally;
use tp_types::configs::{Config, Policy, QueueKind};
use tp_types::ids::{SlotId, TaskId};
use tp_types::refusals::PoolError;
use tp_types::states::Counts;
use tp_types::tasks::Kind;

type Pool = Machine<u32, Tally>;

const TASKS: u32 = 20_000;

const SLOT_0: SlotId = SlotId(0);

const TASK_0: TaskId = TaskId(0);

const TASK_1: TaskId = TaskId(1);

const TASK_2: TaskId = TaskId(2);

const ENDLESS: Config = Config {
    core: 1,
    maximum: 2,
    queue: QueueKind::Unbounded,
    keep: 5,
    core_timeout: false,
    policy: Policy::Abort,
    record_limit: 64,
};

/// A new pool. A want of memory is tried once more.
fn pool(rt: &impl Abort, alloc: Global) -> Pool {
    match Machine::tallied(alloc, ENDLESS) {
        Ok(pool) => pool,
        Err(error) => {
            same(rt, 0, &error, &PoolError::NoMemory);
            Machine::tallied(alloc, ENDLESS).expect(rt, "memory at the second try")
        }
    }
}

/// Submits this task, the next one, which then waits in the queue or for the worker that is made for it. A want of memory is
/// tried once more.
fn submit(pool: &mut Pool, kind: Kind, t: TaskId) -> bool {
    let submitted = match pool.submit(0, kind, 0, ANY, t.0) {
        Err((PoolError::NoMemory, payload)) => pool.submit(0, kind, 0, ANY, payload),
        submitted => submitted,
    };
    match submitted {
        Ok((_, Did::Submit(_, _, _, Looked::Reserve(w)))) => pool.open(0, w).is_ok(),
        Ok(_) => pool.offer(0, t).is_ok(),
        Err(_) => false,
    }
}

/// The worker of slot 0 takes its next task and runs it to its end.
fn serve(pool: &mut Pool) -> bool {
    let end = Ok(1);
    pool.take(0, SLOT_0).is_ok()
        && pool.begin(0, SLOT_0).is_ok()
        && pool.may_end(SLOT_0, &end)
        && pool.end(0, SLOT_0, end).is_ok()
}

/// The life of a plain task: it is released after its end alone, once.
fn live(rt: &impl Abort, pool: &mut Pool, t: TaskId) {
    let line = t.0 as usize;
    same(rt, line, &pool.release(t), &Err(PoolError::UnknownTask));
    same(rt, line, &submit(pool, Kind::Plain, t), &true);
    let settled = t == TASK_0 || pool.second(0, t).is_ok();
    same(rt, line, &settled, &true);
    same(rt, line, &pool.release(t), &Err(PoolError::NotThere));
    same(rt, line, &serve(pool), &true);
    same(rt, line, &(pool.kept(), pool.release(t)), &(1, Ok(())));
    same(rt, line, &pool.release(t), &Err(PoolError::UnknownTask));
}

#[test]
fn forgets_what_is_gone(rt: HostRuntime) {
    let mut pool = pool(&rt, rt.alloc());
    for number in 0..TASKS {
        live(&rt, &mut pool, TaskId(number));
    }
    let unknown = Err(PoolError::UnknownTask);
    same(&rt, 0, &(pool.kept(), pool.fate(TASK_0)), &(0, unknown));
    let counts = Counts {
        submitted: TASKS,
        run: TASKS,
        completed: TASKS,
        live: 1,
        largest: 1,
        ..Counts::default()
    };
    same(&rt, 1, &pool.counts(), &counts);
}

/// A task that owes its second look is kept, and one whose completion waits.
#[test]
fn keeps_what_owes(rt: HostRuntime) {
    let mut pool = pool(&rt, rt.alloc());
    same(&rt, 0, &submit(&mut pool, Kind::Plain, TASK_0), &true);
    same(&rt, 1, &serve(&mut pool), &true);
    same(&rt, 2, &submit(&mut pool, Kind::Plain, TASK_1), &true);
    same(&rt, 3, &submit(&mut pool, Kind::Group(4), TASK_2), &true);
    same(&rt, 4, &serve(&mut pool), &true);
    same(&rt, 5, &pool.release(TASK_1), &Err(PoolError::NotThere));
    same(&rt, 6, &pool.second(0, TASK_1).is_ok(), &true);
    same(&rt, 7, &pool.release(TASK_1), &Ok(()));
    same(&rt, 8, &pool.second(0, TASK_2).is_ok(), &true);
    same(&rt, 9, &serve(&mut pool), &true);
    same(&rt, 10, &pool.release(TASK_2), &Err(PoolError::NotThere));
    same(&rt, 11, &pool.take_done(0, 4), &Ok(TASK_2));
    same(&rt, 12, &(pool.release(TASK_2), pool.kept()), &(Ok(()), 1));
    let unknown = PoolError::UnknownTask;
    same(&rt, 13, &pool.offer(0, TASK_1), &Err(unknown));
    same(&rt, 14, &pool.result(TASK_2), &Err(unknown));
    same(&rt, 15, &pool.place(TASK_2), &Err(unknown));
}
