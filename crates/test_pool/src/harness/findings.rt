//! What a closed pool is to have left.

use crate::harness::boards::{Board, Signal};
use tp_record::entries::{Ask, Did, Entry, Failed, Looked, Offered, Opened, Seconded, Took};
use tp_types::ids::{SlotId, TaskId};
use tp_types::states::Counts;
use tp_types::tasks::{Kind, Outcome};

/// An entry: by which pass, what was asked, and what was done.
pub type Row = (u32, Ask, Did);

/// A finding.
#[derive(Clone, Copy)]
pub enum Finding {
    /// All counters.
    Counts(Counts),
    /// A counter.
    Submitted(u32),
    Run(u32),
    Caller(u32),
    Rejected(u32),
    HandedBack(u32),
    Cancelled(u32),
    Completed(u32),
    Largest(u32),
    Live(u32),
    /// Exactly one entry ends this task, with this outcome.
    Ended(u32, Outcome),
    /// The whole record.
    Record(&'static [Row]),
    /// So many entries say this.
    Told(usize, Did),
    /// The whole record of a task that is handed back by a pool without workers, all by the one caller.
    Unstaffed,
    /// These tasks were taken from the queue, in this order, and no others.
    Taken([u32; 3]),
    /// No task faulted.
    NoFault,
    /// So many workers faulted, and each had another made in its place, or had not.
    Replaced(u32),
    Unreplaced(u32),
    /// So many tasks were given to workers by hand.
    ByHand(usize),
    /// A count of the test: what it is, or that it is not 0.
    Noted(Signal, u64),
    NotedSome(Signal),
    /// The flag that a job shared is set, or not.
    Hears(bool),
}

/// The counters of a pool without tasks.
pub const NO_COUNTS: Counts = Counts {
    submitted: 0,
    run: 0,
    caller: 0,
    rejected: 0,
    discarded: 0,
    handedback: 0,
    removed: 0,
    cancelled: 0,
    completed: 0,
    queued: 0,
    live: 0,
    largest: 0,
};

fn counted(counts: Counts, finding: Finding) -> bool {
    match finding {
        Finding::Counts(wanted) => counts == wanted,
        Finding::Submitted(n) => counts.submitted == n,
        Finding::Run(n) => counts.run == n,
        Finding::Caller(n) => counts.caller == n,
        Finding::Rejected(n) => counts.rejected == n,
        Finding::HandedBack(n) => counts.handedback == n,
        Finding::Cancelled(n) => counts.cancelled == n,
        Finding::Completed(n) => counts.completed == n,
        Finding::Largest(n) => counts.largest == n,
        Finding::Live(n) => counts.live == n,
        _ => false,
    }
}

// Whether exactly one entry ends this task, with this outcome.
fn ended(entries: &[Entry], t: u32, outcome: Outcome) -> bool {
    let mut ends = 0usize;
    for entry in entries {
        match entry.did {
            Did::End(_, TaskId(task), found) if task == t => {
                if found != outcome {
                    return false;
                }
                ends = ends.saturating_add(1);
            }
            _ => {}
        }
    }
    ends == 1
}

fn is_record(entries: &[Entry], rows: &[Row]) -> bool {
    for (entry, row) in entries.iter().zip(rows) {
        if (entry.by, entry.ask, entry.did) != *row {
            return false;
        }
    }
    entries.len() == rows.len()
}

fn told(entries: &[Entry], times: usize, did: Did) -> bool {
    let mut found = 0usize;
    for entry in entries {
        if entry.did == did {
            found = found.saturating_add(1);
        }
    }
    found == times
}

/// A submission where no worker is made, and what follows a stop.
pub const UNSTAFFED: [Did; 8] = [
    Did::Submit(TaskId(0), Kind::Plain, 0, Looked::Reserve(SlotId(0))),
    Did::Fail(SlotId(0), Failed::Offer(TaskId(0))),
    Did::Offer(TaskId(0), Offered::Queued),
    Did::Second(TaskId(0), Seconded::StayReserve(SlotId(0))),
    Did::Fail(SlotId(0), Failed::Nothing),
    Did::Stop(1),
    Did::Tidy,
    Did::Ended,
];

/// Whether this is an entry of the unstaffed pool, the one after so many, by the first caller.
pub fn is_unstaffed_at(entry: &Entry, at: usize) -> bool {
    entry.by == 0 && UNSTAFFED.get(at) == Some(&entry.did)
}

/// Whether these are the first entries of the unstaffed pool, so many of them, by the first caller.
fn is_unstaffed(entries: &[Entry], entries_wanted: usize) -> bool {
    for (at, entry) in entries.iter().enumerate() {
        if !is_unstaffed_at(entry, at) {
            return false;
        }
    }
    entries.len() == entries_wanted
}

fn taken(entries: &[Entry], tasks: &[u32]) -> bool {
    let mut rest = tasks.iter();
    for entry in entries {
        if let Did::Take(_, Took::Head(TaskId(task))) = entry.did
            && rest.next() != Some(&task)
        {
            return false;
        }
    }
    rest.next().is_none()
}

fn no_fault(entries: &[Entry]) -> bool {
    for entry in entries {
        if matches!(entry.did, Did::End(_, _, Err(_))) {
            return false;
        }
    }
    true
}

// What the thread of this number did first in these entries, and those after it.
fn next_by(entries: &[Entry], by: u32) -> Option<(Did, &[Entry])> {
    let mut rest = entries;
    for _ in 0..entries.len() {
        let (entry, later) = rest.split_first()?;
        if entry.by == by {
            return Some((entry.did, later));
        }
        rest = later;
    }
    None
}

// Whether a thread that faulted leaves next, with a slot reserved in its place. It then says of that slot that a worker was made, or that
// none was.
fn is_followed(later: &[Entry], by: u32, made: bool) -> bool {
    let Some((Did::Leave(_, Some(w)), later)) = next_by(later, by) else {
        return false;
    };
    match next_by(later, by) {
        Some((Did::Open(v, Opened::Live), _)) => made && v == w,
        Some((Did::Fail(v, Failed::Nothing), _)) => !made && v == w,
        _ => false,
    }
}

// Whether so many tasks faulted, and each was followed so.
fn are_followed(entries: &[Entry], faults: u32, made: bool) -> bool {
    let mut found = 0u32;
    let mut rest = entries;
    for _ in 0..entries.len() {
        let Some((entry, later)) = rest.split_first() else {
            return false;
        };
        if matches!(entry.did, Did::End(_, _, Err(_))) {
            if !is_followed(later, entry.by, made) {
                return false;
            }
            found = found.saturating_add(1);
        }
        rest = later;
    }
    found == faults
}

fn by_hand(entries: &[Entry]) -> usize {
    let mut given = 0usize;
    for entry in entries {
        if matches!(entry.did, Did::Offer(_, Offered::Hand(_))) {
            given = given.saturating_add(1);
        }
    }
    given
}

fn is_found(counts: Counts, entries: &[Entry], board: &Board, finding: Finding) -> bool {
    match finding {
        Finding::Record(rows) => is_record(entries, rows),
        Finding::Ended(t, outcome) => ended(entries, t, outcome),
        Finding::Told(times, did) => told(entries, times, did),
        Finding::Unstaffed => is_unstaffed(entries, 8),
        Finding::Taken(tasks) => taken(entries, &tasks),
        Finding::NoFault => no_fault(entries),
        Finding::Replaced(faults) => are_followed(entries, faults, true),
        Finding::Unreplaced(faults) => are_followed(entries, faults, false),
        Finding::ByHand(tasks) => by_hand(entries) == tasks,
        Finding::NotedSome(signal) => board.read(signal) > 0,
        Finding::Noted(signal, to) => board.read(signal) == to,
        Finding::Hears(is_set) => board.hears() == Some(is_set),
        _ => counted(counts, finding),
    }
}

/// The first of these that is not found, counted from 0. A pool without a record has left no entries.
pub fn missing(
    counts: Counts,
    entries: &[Entry],
    board: &Board,
    findings: &[Finding],
) -> Option<usize> {
    for (number, finding) in findings.iter().enumerate() {
        if !is_found(counts, entries, board, *finding) {
            return Some(number);
        }
    }
    None
}
