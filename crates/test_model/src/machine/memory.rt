//! Want of memory. An ask of any play that is answered with 4 must change nothing, and is asked once more: so all plays pass also where
//! the Nth allocation fails, as under `rt try --fail-alloc N`.

use super::plays::{ANY, NONE, Pool, asks, read};
use test_rows::is_same;
use tp_record::entries::{Ask, Did, Looked, Offered, Seconded};
use tp_types::ids::{SlotId, TaskId};
use tp_types::refusals::PoolError;
use tp_types::tasks::{Kind, Place};

const TASKS: u32 = 40;

/// Task t waits in the queue: four tasks have one priority, and the next four the next.
fn submit(rt: &impl Print, pool: &mut Pool, number: u32) -> anyhow::Result<()> {
    let t = TaskId(number);
    let kind = Kind::Group(number % 11);
    let seconded = if number == 0 {
        Seconded::StayReserve(SlotId(0))
    } else {
        Seconded::Stay
    };
    let priority = number / 4;
    let asked = Ask::Submit(kind, priority);
    let submitted = Did::Submit(t, kind, priority, Looked::Queue);
    asks(rt, pool, asked, Ok(submitted), NONE)?;
    let queued = Did::Offer(t, Offered::Queued);
    asks(rt, pool, Ask::Offer(t), Ok(queued), NONE)?;
    asks(rt, pool, Ask::Second(t), Ok(Did::Second(t, seconded)), NONE)
}

/// Submits the tasks.
pub fn submit_all(rt: &impl Print, pool: &mut Pool) -> anyhow::Result<()> {
    for number in 0..TASKS {
        submit(rt, pool, number)?;
    }
    Ok(())
}

/// Each of the tasks waits in the queue.
pub fn keeps_all(rt: &impl Print, pool: &Pool) -> anyhow::Result<()> {
    for number in 0..TASKS {
        let t = TaskId(number);
        let seen = (pool.place(t), pool.fate(t), pool.result(t), pool.promise(t));
        let wanted = (Ok(Place::Queued), Ok(None), Ok(None), Ok(ANY));
        is_same(rt, number as usize, &seen, &wanted)?;
    }
    Ok(())
}

/// What a stop hands back.
fn stop_once(pool: &mut Pool) -> Result<Vec<(TaskId, Option<u32>)>, PoolError> {
    pool.stop_now(1)
}

/// A stop hands back every task, with its payload. A want of memory changes nothing, and the stop is asked once more.
pub fn stop_all(rt: &impl Print, pool: &mut Pool) -> anyhow::Result<()> {
    let before = read(pool);
    let handed = match stop_once(pool) {
        Ok(handed) => handed,
        Err(error) => {
            let wanted = (PoolError::NoMemory, before);
            is_same(rt, 0, &(error, read(pool)), &wanted)?;
            keeps_all(rt, pool)?;
            stop_once(pool)?
        }
    };
    is_same(rt, 0, &handed.len(), &(TASKS as usize))?;
    for number in 0..TASKS {
        let at = number as usize;
        let wanted = (TaskId(number), Some(number.wrapping_add(10)));
        is_same(rt, at, &handed.get(at), &Some(&wanted))?;
    }
    Ok(())
}
