//! Thousands of tasks through a bounded queue and four workers: what the pool counts is what its callers count. Beside them a refused
//! task that is tried again and again.

use super::plays::{Handed, NONE, Pool, ask, asks, does};
use test_rows::is_same;
use tp_record::entries::{Ask, Did, Grown, Looked, Offered, Ruled, Started};
use tp_types::configs::Verdict;
use tp_types::ids::{SlotId, TaskId};
use tp_types::states::Counts;
use tp_types::tasks::Kind;

const TASKS: u32 = 3000;

const WORKERS: usize = 4;

/// What the callers saw.
#[derive(Clone, Copy, Default)]
struct Tally {
    run: u32,
    caller: u32,
    cancelled: u32,
    completed: u32,
}

/// The next number of a sequence without an evident order.
fn after(seed: u32) -> u32 {
    seed.wrapping_mul(1_664_525).wrapping_add(1_013_904_223)
}

/// The payload of this task.
fn pays(t: TaskId) -> Handed {
    (Some(t.0.wrapping_add(10)), None, None)
}

/// A plain task, a future and tasks of three groups in turn.
fn kind_of(number: u32) -> Kind {
    match number % 5 {
        0 => Kind::Plain,
        1 => Kind::Future,
        _ => Kind::Group(number % 3),
    }
}

/// Submits a task, and goes with it until it has its place or its end.
fn execute(rt: &impl Print, pool: &mut Pool, tally: &mut Tally, number: u32) -> anyhow::Result<()> {
    let t = TaskId(number);
    let (submitted, _) = ask(rt, pool, Ask::Submit(kind_of(number), 0))?;
    if let Ok(Did::Submit(_, _, _, Looked::Reserve(_))) = submitted {
        return Ok(());
    }
    if let (Ok(Did::Offer(_, Offered::Queued)), _) = ask(rt, pool, Ask::Offer(t))? {
        return does(rt, pool, Ask::Second(t));
    }
    if let (Ok(Did::Grow(_, Grown::Reserve(_))), _) = ask(rt, pool, Ask::Grow(t))? {
        return Ok(());
    }
    let verdict = Verdict::CallerRuns;
    let ruled = Did::Verdict(t, verdict, Ruled::Caller);
    asks(rt, pool, Ask::Verdict(t, verdict), Ok(ruled), pays(t))?;
    does(rt, pool, Ask::CallerEnd(t, Ok(1)))?;
    tally.caller = tally.caller.saturating_add(1);
    Ok(())
}

/// Whether the worker of this slot opens it, takes a task or leaves.
fn moves(rt: &impl Print, pool: &mut Pool, w: SlotId) -> anyhow::Result<bool> {
    for asked in [Ask::Open(w), Ask::Take(w), Ask::Leave(w)] {
        if let (Ok(_), _) = ask(rt, pool, asked)? {
            return Ok(true);
        }
    }
    Ok(false)
}

/// The task in this slot.
fn task_in(pool: &Pool, w: SlotId) -> Option<TaskId> {
    pool.task_in(w)
}

/// Whether the task has a fate.
fn has_fate(pool: &Pool, t: TaskId) -> bool {
    matches!(pool.fate(t), Ok(Some(_)))
}

/// The worker of this slot begins or ends its task, if it has one. Each seventh task faults.
fn run(rt: &impl Print, pool: &mut Pool, tally: &mut Tally, w: SlotId) -> anyhow::Result<()> {
    let Some(t) = task_in(pool, w) else {
        return Ok(());
    };
    match ask(rt, pool, Ask::Begin(w))? {
        (Ok(Did::Begin(_, Started::Run(_))), handed) => {
            return is_same(rt, 0, &(t, handed), &(t, pays(t)));
        }
        (Ok(_), _) => {
            tally.completed = tally.completed.saturating_add(1);
            return Ok(());
        }
        (Err(_), _) => {}
    }
    let outcome = if t.0 % 7 == 0 { Err(2) } else { Ok(1) };
    let cancelled = has_fate(pool, t);
    if let (Ok(_), _) = ask(rt, pool, Ask::End(w, outcome))? {
        tally.completed = tally.completed.saturating_add(1);
        if !cancelled {
            tally.run = tally.run.saturating_add(1);
        }
    }
    Ok(())
}

/// The worker of this slot takes the one step that it can, if any.
fn work(rt: &impl Print, pool: &mut Pool, tally: &mut Tally, w: SlotId) -> anyhow::Result<()> {
    if !moves(rt, pool, w)? {
        run(rt, pool, tally, w)?;
    }
    Ok(())
}

/// Cancels a task, where that is a future without a fate.
fn cancel(rt: &impl Print, pool: &mut Pool, tally: &mut Tally, t: TaskId) -> anyhow::Result<()> {
    if let (Ok(Did::Cancel(_, _, true)), _) = ask(rt, pool, Ask::Cancel(t, true))? {
        tally.cancelled = tally.cancelled.saturating_add(1);
    }
    Ok(())
}

/// Submits a task, and has two or three workers take a step. The answer is the next number without an evident order.
fn submit_next(
    rt: &impl Print,
    pool: &mut Pool,
    tally: &mut Tally,
    number: u32,
    seed: u32,
) -> anyhow::Result<u32> {
    let mut seed = seed;
    execute(rt, pool, tally, number)?;
    let steps = if number % 2 == 0 { 2 } else { 3 };
    for _ in 0..steps {
        seed = after(seed);
        work(rt, pool, tally, SlotId((seed >> 16) as usize % WORKERS))?;
    }
    if seed % 16 == 3 {
        cancel(rt, pool, tally, TaskId(number))?;
    }
    if seed % 32 == 5 {
        does(rt, pool, Ask::Tick(u64::from(number)))?;
    }
    Ok(seed)
}

/// Submits the tasks. After each of them two or three workers take a step, which are too few for all of them.
fn submit_all(rt: &impl Print, pool: &mut Pool, tally: &mut Tally) -> anyhow::Result<()> {
    let mut seed = 1u32;
    for number in 0..TASKS {
        seed = submit_next(rt, pool, tally, number, seed)?;
    }
    Ok(())
}

/// The pool is shut down, and its workers go on until it is terminated.
fn terminate(rt: &impl Print, pool: &mut Pool, tally: &mut Tally) -> anyhow::Result<()> {
    does(rt, pool, Ask::Shutdown)?;
    for _ in 0..200 {
        for w in 0..WORKERS {
            work(rt, pool, tally, SlotId(w))?;
        }
    }
    does(rt, pool, Ask::Tidy)?;
    does(rt, pool, Ask::Ended)
}

/// How many tasks of this group are done, each taken once.
fn take_done(rt: &impl Print, pool: &mut Pool, group: u32) -> anyhow::Result<u32> {
    for taken in 0..TASKS {
        if let (Err(_), _) = ask(rt, pool, Ask::TakeDone(group))? {
            return Ok(taken);
        }
    }
    Ok(TASKS)
}

/// Each task had its end, and each way to an end was gone often.
fn adds_up(rt: &impl Print, tally: &Tally) -> anyhow::Result<()> {
    let run = tally.run.wrapping_add(tally.caller);
    is_same(rt, 0, &run.wrapping_add(tally.cancelled), &TASKS)?;
    let often = tally.run > 1000 && tally.caller > 100 && tally.cancelled > 10;
    is_same(rt, 1, &often, &true)
}

/// The pool counts what its callers saw.
fn counts_the_same(rt: &impl Print, pool: &Pool, tally: &Tally) -> anyhow::Result<()> {
    let seen = Counts {
        submitted: TASKS,
        run: tally.run,
        caller: tally.caller,
        cancelled: tally.cancelled,
        completed: tally.completed,
        largest: 4,
        ..Counts::default()
    };
    is_same(rt, 0, &pool.counts(), &seen)
}

/// The tasks of each of the three groups are handed out, and there are no others.
fn hands_out(rt: &impl Print, pool: &mut Pool) -> anyhow::Result<()> {
    for group in 0..4 {
        let tasks = if group < 3 { 600 } else { 0 };
        let done = take_done(rt, pool, group)?;
        is_same(rt, 0, &(group, done), &(group, tasks))?;
    }
    Ok(())
}

/// Thousands of tasks go through the pool until it is terminated: what it counts is what its callers count.
pub fn counts_what_is_done(rt: &impl Print, pool: &mut Pool) -> anyhow::Result<()> {
    let mut tally = Tally::default();
    submit_all(rt, pool, &mut tally)?;
    terminate(rt, pool, &mut tally)?;
    adds_up(rt, &tally)?;
    counts_the_same(rt, pool, &tally)?;
    hands_out(rt, pool)
}

/// The verdict that tries the refused task 1 again, which is refused once more.
fn retry(rt: &impl Print, pool: &mut Pool) -> anyhow::Result<()> {
    let t = TaskId(1);
    let verdict = Verdict::DiscardOldest;
    let ruled = Did::Verdict(t, verdict, Ruled::Retry);
    asks(rt, pool, Ask::Verdict(t, verdict), Ok(ruled), NONE)?;
    let looked = Did::Look(t, Looked::Queue);
    asks(rt, pool, Ask::Look(t), Ok(looked), NONE)?;
    let offered = Did::Offer(t, Offered::Full);
    asks(rt, pool, Ask::Offer(t), Ok(offered), NONE)?;
    let grown = Did::Grow(t, Grown::Refuse);
    asks(rt, pool, Ask::Grow(t), Ok(grown), NONE)
}

/// The refused task 1 is tried again so often.
pub fn retry_often(rt: &impl Print, pool: &mut Pool, times: u32) -> anyhow::Result<()> {
    for _ in 0..times {
        retry(rt, pool)?;
    }
    Ok(())
}
