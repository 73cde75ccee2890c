//! The plain programs on worked rows 4 and 12, and on futures: the tables at the end of a record, the answer at each of its fronts.

ghost use Rattle.std.specs.Prelude.{◌≤◌, length};

use crate::compare::same;
use crate::judged::NONE;
use crate::known::{ROW_04, ROW_12, record_of};
use std::alloc::Global;
use tp_record::entries::{Ask, Did, Entry};
use tp_record::rows::{SlotRow, Stage};
use tp_rules::answer::answer;
use tp_rules::build::plain_state;
use tp_rules::counts::{counts, counts_of, owed};
use tp_rules::next::next;
use tp_rules::pool::{core, moment, rank};
use tp_rules::queues::{done, idling, queue};
use tp_rules::results::result;
use tp_rules::slots::{largest, live, slot_row, slots};
use tp_rules::tasks::{fate, is_cancelled, kind, place, retries, task_row, tasks};
use tp_types::configs::Config;
use tp_types::ids::{SlotId, TaskId};
use tp_types::refusals::PoolError;
use tp_types::states::Counts;
use tp_types::tasks::{Fate, Kind, Place};

/// Three futures: one answers 5, one faults with 4, one is cancelled before anybody takes it.
const FUTURES: &str = "\
pool 1 2 bounded 1 keep 0 abort

1 submit t0 future reserve w0
2 submit t1 future queue
3 offer t1 queued
4 second t1 stay
5 submit t2 future queue
6 cancel t2 yes
7 open w0 live
8 take w0 held t0
9 begin w0 t0
10 end w0 t0 value 5
11 take w0 head t1
12 begin w0 t1
13 end w0 t1 fault 4
";

/// What is told of a task, whose number is its index in a list of these.
struct Task {
    place: Place,
    fate: Option<Fate>,
    result: Option<Result<i64, PoolError>>,
    retries: u32,
}

/// What is told of the pool at the end of a row's record, whose tasks are all plain, and of which none was cancelled or ended.
struct End {
    row: &'static str,
    tasks: &'static [Task],
    slots: &'static [Option<SlotRow>],
    queue: &'static [u32],
    counts: Counts,
    owed: u64,
}

const HELD_FOR_CORE: Option<SlotRow> = Some(SlotRow {
    stage: Stage::ReservedCore,
    task: Some(TaskId(0)),
});

const HELD_UP_TO_MAXIMUM: Option<SlotRow> = Some(SlotRow {
    stage: Stage::ReservedMaximum,
    task: Some(TaskId(2)),
});

/// A task of which nothing is decided yet.
const OPEN: Task = Task {
    place: Place::Queued,
    fate: None,
    result: None,
    retries: 0,
};

static ENDS: [End; 2] = [
    End {
        row: ROW_04,
        tasks: &[
            Task {
                place: Place::Held(SlotId(0)),
                ..OPEN
            },
            OPEN,
            Task {
                place: Place::Held(SlotId(1)),
                ..OPEN
            },
            Task {
                place: Place::Gone,
                fate: Some(Fate::Rejected),
                result: Some(Err(PoolError::Lost(Fate::Rejected))),
                retries: 0,
            },
        ],
        slots: &[HELD_FOR_CORE, HELD_UP_TO_MAXIMUM],
        queue: &[1],
        counts: Counts {
            submitted: 4,
            rejected: 1,
            queued: 1,
            ..NONE
        },
        // 9 and 3 for the task and the slot of the core, 5 and 3 for those up to the maximum, 6 for the queued task, and 4
        // for the pool.
        owed: 30,
    },
    End {
        row: ROW_12,
        tasks: &[
            Task {
                place: Place::Held(SlotId(0)),
                ..OPEN
            },
            Task {
                place: Place::Gone,
                fate: Some(Fate::Discarded),
                result: Some(Err(PoolError::Lost(Fate::Discarded))),
                retries: 0,
            },
            Task { retries: 1, ..OPEN },
        ],
        slots: &[HELD_FOR_CORE],
        queue: &[2],
        counts: Counts {
            submitted: 3,
            discarded: 1,
            queued: 1,
            ..NONE
        },
        // 9 and 3 for the task and the slot of the core, 6 for the queued task, and 4 for the pool.
        owed: 22,
    },
];

/// Whether this is told of a plain task that was not cancelled.
fn is_told(entries: &[Entry], t: TaskId, task: &Task) -> bool
    requires { length entries.now ≤ 1048576 }
{
    place(entries, t) == task.place
        && fate(entries, t) == task.fate
        && result(entries, t) == task.result
        && retries(entries, t) == task.retries
        && kind(entries, t) == Kind::Plain
        && !is_cancelled(entries, t)
}

/// Whether the tables of tasks are these.
fn has_tasks(alloc: Global, entries: &[Entry], expected: &[Task]) -> Result<bool, PoolError>
    requires { length entries.now ≤ 1048576 }
{
    let rows = tasks(alloc, entries)?;
    let mut number = 0u32;
    for task in expected {
        let t = TaskId(number);
        if !is_told(entries, t, task) || rows.get(number as usize) != Some(&task_row(entries, t)) {
            return Ok(false);
        }
        number = number.wrapping_add(1);
    }
    Ok(rows.len() == expected.len())
}

/// Whether the rows of slots are these, each read by itself.
fn has_slot_rows(entries: &[Entry], expected: &[Option<SlotRow>]) -> bool {
    for (number, row) in expected.iter().enumerate() {
        if slot_row(entries, SlotId(number)) != *row {
            return false;
        }
    }
    true
}

/// Whether no slot is live, idle or done.
fn has_nothing_live(alloc: Global, entries: &[Entry]) -> Result<bool, PoolError> {
    Ok(
        idling(alloc, entries)?.is_empty()
            && done(alloc, entries)?.is_empty()
            && live(alloc, entries)? == 0
            && largest(alloc, entries)? == 0,
    )
}

/// Whether the tables of slots are these, none of them live, idle or done.
fn has_slots(
    alloc: Global,
    entries: &[Entry],
    expected: &[Option<SlotRow>],
) -> Result<bool, PoolError> {
    Ok(
        has_slot_rows(entries, expected)
            && slots(alloc, entries)?.as_slice() == expected
            && has_nothing_live(alloc, entries)?,
    )
}

/// Whether the pool runs at moment 0 with a core of 1.
fn is_at_start(entries: &[Entry]) -> bool {
    rank(entries) == 0 && moment(entries) == 0 && core(entries, 1) == 1
}

/// What is told otherwise of the queue and of sums at the end of a record.
fn counted_otherwise(
    alloc: Global,
    config: &Config,
    end: &End,
    entries: &[Entry],
) -> Result<Option<&'static str>, PoolError>
    requires { length entries.now ≤ 1048576 }
{
    if queue(alloc, config, entries)?.as_slice() != end.queue {
        return Ok(Some("queue"));
    }
    if counts(alloc, config, entries)? != end.counts {
        return Ok(Some("counts"));
    }
    if owed(alloc, config, entries)? != end.owed {
        return Ok(Some("owed"));
    }
    Ok(None)
}

/// What is told otherwise of these entries.
fn told_otherwise(
    alloc: Global,
    config: &Config,
    end: &End,
    entries: &[Entry],
) -> Result<Option<&'static str>, PoolError> {
    if entries.len() > 1_048_576 {
        return Ok(Some("length"));
    }
    if !is_at_start(entries) {
        return Ok(Some("pool"));
    }
    if !has_tasks(alloc, entries, end.tasks)? {
        return Ok(Some("tasks"));
    }
    if !has_slots(alloc, entries, end.slots)? {
        return Ok(Some("slots"));
    }
    counted_otherwise(alloc, config, end, entries)
}

/// What is told otherwise at the end of a record.
fn ends_otherwise(alloc: Global, end: &End) -> Result<Option<&'static str>, PoolError> {
    let (config, entries) = record_of(alloc, end.row)?;
    told_otherwise(alloc, &config, end, &entries)
}

#[test]
fn ends_of_worked_records(rt: HostRuntime) {
    for (at, end) in ENDS.iter().enumerate() {
        same(&rt, at, &ends_otherwise(rt.alloc(), end), &Ok(None));
    }
}

/// The answer to an ask behind a record, unless the record is too long.
fn answer_behind(
    alloc: Global,
    config: &Config,
    entries: &[Entry],
    ask: Ask,
) -> Option<Result<Did, PoolError>> {
    if entries.len() > 1_048_576 {
        return None;
    }
    Some(answer(alloc, config, entries, ask))
}

/// The first entry whose ask is answered otherwise at the front before it.
fn first_answered_otherwise(alloc: Global, config: &Config, entries: &[Entry]) -> Option<usize> {
    for (i, entry) in entries.iter().enumerate() {
        if answer_behind(alloc, config, &entries[..i], entry.ask) != Some(Ok(entry.did)) {
            return Some(i);
        }
    }
    None
}

/// Whether the state with the last entry is counted as the record is.
fn next_counts_the_same(
    alloc: Global,
    config: &Config,
    entries: &[Entry],
) -> Result<bool, PoolError> {
    if entries.len() > 1_048_576 {
        return Ok(false);
    }
    let Some((last, front)) = entries.split_last() else {
        return Ok(true);
    };
    let before = plain_state(alloc, config, front)?;
    let after = next(alloc, &before, last.did)?;
    Ok(counts_of(&after) == counts(alloc, config, entries)?)
}

/// The end of the first front whose last state is counted otherwise.
fn first_counted_otherwise(
    alloc: Global,
    config: &Config,
    entries: &[Entry],
) -> Result<Option<usize>, PoolError> {
    for end in 0..entries.len() + 1 {
        if !next_counts_the_same(alloc, config, &entries[..end])? {
            return Ok(Some(end));
        }
    }
    Ok(None)
}

/// The first entry of a row's record that is answered otherwise, and the end of the first front that is counted otherwise.
fn first_otherwise(alloc: Global, row: &str) -> Result<(Option<usize>, Option<usize>), PoolError> {
    let (config, entries) = record_of(alloc, row)?;
    Ok((
        first_answered_otherwise(alloc, &config, &entries),
        first_counted_otherwise(alloc, &config, &entries)?,
    ))
}

static RECORDS: [&str; 3] = [ROW_04, FUTURES, ROW_12];

/// Each entry is answered at the front before it, and the state with it is counted as the record is.
#[test]
fn answers_and_counts_each_entry(rt: HostRuntime) {
    for (at, row) in RECORDS.iter().enumerate() {
        let wrong = first_otherwise(rt.alloc(), row);
        same(&rt, at, &wrong, &Ok((None, None)));
    }
}

/// The answer to an offer of this task behind the record of row 12.
fn offered_behind(alloc: Global, t: TaskId) -> Option<Result<Did, PoolError>> {
    let (config, entries) = record_of(alloc, ROW_12).ok()?;
    answer_behind(alloc, &config, &entries, Ask::Offer(t))
}

#[test]
fn refuses_an_unknown_task(rt: HostRuntime) {
    let unknown = offered_behind(rt.alloc(), TaskId(9));
    same(&rt, 9, &unknown, &Some(Err(PoolError::UnknownTask)));
}

/// A front of the record of futures, and the result of a task there.
const RESULTS: [(usize, TaskId, Option<Result<i64, PoolError>>); 4] = [
    (13, TaskId(0), Some(Ok(5))),
    (13, TaskId(1), Some(Err(PoolError::Faulted(4)))),
    (13, TaskId(2), Some(Err(PoolError::CancelledTask))),
    (12, TaskId(1), None),
];

/// Whether this is the result of a task at a front of a record.
fn is_result(entries: &[Entry], t: TaskId, expected: Option<Result<i64, PoolError>>) -> bool {
    entries.len() <= 1_048_576 && result(entries, t) == expected
}

/// Whether this is the result of a task at a front of the record of futures.
fn has_result(
    alloc: Global,
    end: usize,
    t: TaskId,
    expected: Option<Result<i64, PoolError>>,
) -> Result<bool, PoolError> {
    let (_, entries) = record_of(alloc, FUTURES)?;
    let Some(front) = entries.get(..end) else {
        return Ok(false);
    };
    Ok(is_result(front, t, expected))
}

#[test]
fn results(rt: HostRuntime) {
    for (at, (end, t, expected)) in RESULTS.iter().enumerate() {
        let is_so = has_result(rt.alloc(), *end, *t, *expected);
        same(&rt, at, &is_so, &Ok(true));
    }
}
