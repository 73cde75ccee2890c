//! Records with one entry wrong: both auditors answer the same of each.

use crate::auditors::judged;
use std::alloc::{AllocError, Global};
use tp_record::entries::{
    Ask, Did, Entry, Failed, Grown, Looked, Offered, Opened, Seconded, Started, Took,
};
use tp_types::configs::{Config, Verdict};
use tp_types::ids::{SlotId, TaskId};
use tp_types::refusals::PoolError;
use tp_types::tasks::Kind;

/// What is wrong with an entry.
#[derive(Clone, Copy, Debug, PartialEq, Eq)]
enum Wrong {
    LeftOut,
    Doubled,
    Exchanged,
    Task,
    Slot,
    Answer,
}

const WRONGS: [Wrong; 6] = [
    Wrong::LeftOut,
    Wrong::Doubled,
    Wrong::Exchanged,
    Wrong::Task,
    Wrong::Slot,
    Wrong::Answer,
];

/// Another task.
fn other_task(t: TaskId) -> TaskId {
    if t.0 == 0 { TaskId(1) } else { TaskId(0) }
}

/// Another slot.
fn other_slot(w: SlotId) -> SlotId {
    if w.0 == 0 { SlotId(1) } else { SlotId(0) }
}

/// The entry of another task, if it names one first.
fn with_other_task(did: Did) -> Did {
    match did {
        Did::Submit(t, kind, priority, looked) => {
            Did::Submit(other_task(t), kind, priority, looked)
        }
        Did::Look(t, looked) => Did::Look(other_task(t), looked),
        Did::Offer(t, offered) => Did::Offer(other_task(t), offered),
        Did::Second(t, seconded) => Did::Second(other_task(t), seconded),
        Did::Grow(t, grown) => Did::Grow(other_task(t), grown),
        Did::Verdict(t, verdict, ruled) => Did::Verdict(other_task(t), verdict, ruled),
        Did::CallerEnd(t, outcome) => Did::CallerEnd(other_task(t), outcome),
        Did::Take(w, Took::Held(t)) => Did::Take(w, Took::Held(other_task(t))),
        Did::Take(w, Took::Head(t)) => Did::Take(w, Took::Head(other_task(t))),
        Did::Begin(w, Started::Run(t)) => Did::Begin(w, Started::Run(other_task(t))),
        Did::End(w, t, outcome) => Did::End(w, other_task(t), outcome),
        Did::Remove(t, gone) => Did::Remove(other_task(t), gone),
        Did::Cancel(t, flag, done) => Did::Cancel(other_task(t), flag, done),
        Did::TakeDone(group, t) => Did::TakeDone(group, other_task(t)),
        _ => did,
    }
}

/// The entry of another slot, if it names one.
fn with_other_slot(did: Did) -> Did {
    match did {
        Did::Submit(t, kind, priority, Looked::Reserve(w)) => Did::Submit(
            t,
            kind,
            priority,
            Looked::Reserve(other_slot(w)),
        ),
        Did::Offer(t, Offered::Hand(w)) => Did::Offer(t, Offered::Hand(other_slot(w))),
        Did::Grow(t, Grown::Reserve(w)) => Did::Grow(t, Grown::Reserve(other_slot(w))),
        Did::Open(w, opened) => Did::Open(other_slot(w), opened),
        Did::Fail(w, failed) => Did::Fail(other_slot(w), failed),
        Did::Take(w, took) => Did::Take(other_slot(w), took),
        Did::Begin(w, started) => Did::Begin(other_slot(w), started),
        Did::End(w, t, outcome) => Did::End(other_slot(w), t, outcome),
        Did::Leave(w, made) => Did::Leave(other_slot(w), made),
        _ => did,
    }
}

/// The entry with another answer to the same ask, where there is one.
fn with_other_answer(did: Did) -> Did {
    match did {
        Did::Submit(t, kind, priority, Looked::Queue) => {
            Did::Submit(t, kind, priority, Looked::Refuse)
        }
        Did::Submit(t, kind, priority, _) => Did::Submit(t, kind, priority, Looked::Queue),
        Did::Offer(t, Offered::Queued) => Did::Offer(t, Offered::Full),
        Did::Offer(t, _) => Did::Offer(t, Offered::Queued),
        Did::Second(t, Seconded::Back) => Did::Second(t, Seconded::Stay),
        Did::Second(t, _) => Did::Second(t, Seconded::Back),
        Did::Grow(t, _) => Did::Grow(t, Grown::Refuse),
        Did::Open(w, Opened::Live) => Did::Open(w, Opened::GivenUp),
        Did::Open(w, _) => Did::Open(w, Opened::Live),
        Did::Fail(w, _) => Did::Fail(w, Failed::Nothing),
        Did::Take(w, Took::Idle) => Did::Take(w, Took::Leave),
        Did::Take(w, _) => Did::Take(w, Took::Idle),
        Did::Begin(w, Started::Run(t)) => Did::Begin(w, Started::Skip(t)),
        Did::Begin(w, Started::Skip(t)) => Did::Begin(w, Started::Run(t)),
        Did::End(w, t, _) => Did::End(w, t, Err(7)),
        Did::Stop(0) => Did::Stop(1),
        Did::Stop(_) => Did::Stop(0),
        Did::Purge(0) => Did::Purge(1),
        Did::Purge(_) => Did::Purge(0),
        Did::Remove(t, gone) => Did::Remove(t, !gone),
        Did::Cancel(t, flag, done) => Did::Cancel(t, flag, !done),
        _ => did,
    }
}

/// The entry, wrong in this way.
fn wrong_entry(entry: Entry, wrong: Wrong) -> Entry {
    let did = match wrong {
        Wrong::Task => with_other_task(entry.did),
        Wrong::Slot => with_other_slot(entry.did),
        Wrong::Answer => with_other_answer(entry.did),
        _ => entry.did,
    };
    Entry { did, ..entry }
}

/// Which entry of the record stands at a place of the wrong one, by its place in the record.
fn source(at: usize, wrong: Wrong, place: usize) -> usize {
    if wrong == Wrong::LeftOut && place >= at {
        return place.saturating_add(1);
    }
    if wrong == Wrong::Doubled && place > at {
        return place.saturating_sub(1);
    }
    if wrong == Wrong::Exchanged {
        exchanged(at, place)
    } else {
        place
    }
}

/// The place that this one is exchanged with, if it is the first place or the one behind it; else itself.
fn exchanged(first: usize, place: usize) -> usize {
    let second = first.saturating_add(1);
    if place == first {
        second
    } else if place == second {
        first
    } else {
        place
    }
}

/// The record with one entry wrong in this way.
fn wrong_record(
    alloc: Global,
    entries: &[Entry],
    at: usize,
    wrong: Wrong,
) -> Result<Vec<Entry>, AllocError> {
    let mut record = Vec::new(alloc);
    for place in 0..=entries.len() {
        if let Some(entry) = entries.get(source(at, wrong, place)) {
            record.push(if place == at {
                wrong_entry(*entry, wrong)
            } else {
                *entry
            })?;
        }
    }
    Ok(record)
}

/// Whether both auditors answer the same of the record that has one entry wrong in this way.
fn agree(
    alloc: Global,
    config: &Config,
    entries: &[Entry],
    at: usize,
    wrong: Wrong,
) -> Result<bool, PoolError> {
    let record = wrong_record(alloc, entries, at, wrong)?;
    Ok(judged(alloc, config, &record).is_some())
}

/// Whether both auditors call this record legal, and answer the same of each record that has one of its entries wrong.
pub fn neighbours_agree(
    alloc: Global,
    config: &Config,
    entries: &[Entry],
) -> Result<bool, PoolError> {
    if !matches!(&judged(alloc, config, entries), Some(Ok(_))) {
        return Ok(false);
    }
    for at in 0..entries.len() {
        for wrong in WRONGS {
            if !agree(alloc, config, entries, at, wrong)? {
                return Ok(false);
            }
        }
    }
    Ok(true)
}
