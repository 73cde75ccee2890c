//! Both auditors on the records of two runs of asks, and the auditor where memory is wanting.

use crate::compare::same;
use crate::judged::LONE;
use crate::neighbours::neighbours_agree;
use crate::rows::entries_of;
use crate::scenarios::run_of;
use std::alloc::Global;
use tp_audit::auditor::Auditor;
use tp_audit::audits::audit;
use tp_audit_plain::summary::{Flaw, Summary};
use tp_record::entries::{Ask, Entry};
use tp_text_record::entries::read_entry;
use tp_text_record::versions::Version;
use tp_types::configs::{Config, Policy, QueueKind, Verdict};
use tp_types::ids::{SlotId, TaskId};
use tp_types::refusals::PoolError;
use tp_types::tasks::Kind;

/// Whether they agree on the record of these asks and on its neighbours.
fn agree_on_run(alloc: Global, config: &Config, asks: &[(u32, Ask)]) -> Result<bool, PoolError> {
    let run = run_of(alloc, *config, asks)?;
    neighbours_agree(alloc, config, &run.entries)
}

/// One worker; a cancelled task is purged, another runs, and the pool ends.
const PURGED: [(u32, Ask); 20] = [
    (0, Ask::Submit(Kind::Plain, 0)),
    (1, Ask::Open(SlotId(0))),
    (0, Ask::Submit(Kind::Future, 0)),
    (0, Ask::Offer(TaskId(1))),
    (0, Ask::Second(TaskId(1))),
    (0, Ask::Submit(Kind::Future, 0)),
    (0, Ask::Offer(TaskId(2))),
    (0, Ask::Second(TaskId(2))),
    (2, Ask::Cancel(TaskId(1), true)),
    (2, Ask::Purge),
    (1, Ask::Take(SlotId(0))),
    (1, Ask::Begin(SlotId(0))),
    (1, Ask::End(SlotId(0), Ok(5))),
    (1, Ask::Take(SlotId(0))),
    (1, Ask::Begin(SlotId(0))),
    (1, Ask::End(SlotId(0), Ok(6))),
    (2, Ask::Shutdown),
    (1, Ask::Take(SlotId(0))),
    (2, Ask::Tidy),
    (2, Ask::Ended),
];

/// Two workers and a queue of one place; the oldest is dropped, groups complete, a worker faults, and the pool is stopped.
const DROPPED: [(u32, Ask); 30] = [
    (0, Ask::Submit(Kind::Group(3), 0)),
    (1, Ask::Open(SlotId(0))),
    (0, Ask::Submit(Kind::Plain, 0)),
    (0, Ask::Offer(TaskId(1))),
    (0, Ask::Second(TaskId(1))),
    (0, Ask::Submit(Kind::Plain, 0)),
    (0, Ask::Offer(TaskId(2))),
    (0, Ask::Grow(TaskId(2))),
    (2, Ask::Open(SlotId(1))),
    (0, Ask::Submit(Kind::Group(3), 0)),
    (0, Ask::Offer(TaskId(3))),
    (0, Ask::Grow(TaskId(3))),
    (0, Ask::Verdict(TaskId(3), Verdict::DiscardOldest)),
    (0, Ask::Look(TaskId(3))),
    (0, Ask::Offer(TaskId(3))),
    (0, Ask::Second(TaskId(3))),
    (1, Ask::Take(SlotId(0))),
    (1, Ask::Begin(SlotId(0))),
    (1, Ask::End(SlotId(0), Ok(5))),
    (3, Ask::TakeDone(3)),
    (2, Ask::Take(SlotId(1))),
    (2, Ask::Begin(SlotId(1))),
    (2, Ask::End(SlotId(1), Err(7))),
    (2, Ask::Leave(SlotId(1))),
    (3, Ask::Cancel(TaskId(3), false)),
    (3, Ask::Stop),
    (1, Ask::Take(SlotId(0))),
    (3, Ask::Fail(SlotId(1))),
    (3, Ask::Tidy),
    (3, Ask::Ended),
];

static RUNS: [(Config, &[(u32, Ask)]); 2] = [
    (Config { keep: 9, ..LONE }, &PURGED),
    (
        Config {
            core: 1,
            maximum: 2,
            queue: QueueKind::Bounded(1),
            policy: Policy::DiscardOldest,
            ..LONE
        },
        &DROPPED,
    ),
];

#[test]
fn both_auditors_agree_on_runs(rt: HostRuntime) {
    for (at, (config, asks)) in RUNS.iter().enumerate() {
        same(&rt, at, &agree_on_run(rt.alloc(), config, asks), &Ok(true));
    }
}

/// Two tasks of one worker, of a slot with a high number: what is told takes memory for tasks, a slot, the queue, the order
/// of idling and a group.
const TOLD: &str = "\
1 submit t0 group 1 reserve w7
2 open w7 live
3 submit t1 plain queue
4 offer t1 queued
5 second t1 stay
6 take w7 held t0
7 begin w7 t0
8 end w7 t0 value 5
9 take w7 head t1
10 begin w7 t1
11 end w7 t1 value 6
12 take w7 idle
";

/// Whether the whole record is judged right, or memory was wanting.
fn is_whole_told(alloc: Global) -> bool {
    match entries_of(alloc, TOLD) {
        Ok(entries) => is_told(audit(alloc, &LONE, &entries)),
        Err(_) => true,
    }
}

/// Where any one allocation fails, the whole record's judgment is want of memory; with ample memory it is right.
#[test]
fn want_of_memory_is_told(rt: HostRuntime) {
    same(&rt, 0, &is_whole_told(rt.alloc()), &true);
}

/// Whether two tasks were run; or memory was wanting.
fn is_told(judgment: Result<Summary, Flaw>) -> bool {
    match judgment {
        Ok(summary) => summary.counts.run == 2,
        Err(flaw) => flaw == Flaw::NoMemory,
    }
}

/// Tells the auditor an entry, and once more where there was no memory.
fn tell(auditor: &mut Auditor, entry: &Entry) -> Result<(), Flaw> {
    match auditor.push(entry) {
        Err(Flaw::NoMemory) => auditor.push(entry),
        answer => answer,
    }
}

/// Tells the auditor the entry of a line. The answer says whether it was told well.
fn tell_line(auditor: &mut Auditor, line: &str) -> bool {
    match read_entry(Version::Two, line.as_bytes()) {
        Some((_, entry)) => tell(auditor, &entry).is_ok(),
        None => false,
    }
}

/// Whether each of them is told well.
fn tell_all(auditor: &mut Auditor) -> bool {
    for line in TOLD.lines() {
        if !tell_line(auditor, line) {
            return false;
        }
    }
    true
}

/// An auditor of nothing yet. No clause speaks of the auditor here, so a test is proved without its long contract.
fn new_auditor(alloc: Global) -> Result<Auditor, Flaw> {
    Auditor::new(alloc, &LONE)
}

/// Whether all is told well, and then the judgment is right or memory was wanting.
fn goes_on(mut auditor: Auditor) -> bool {
    tell_all(&mut auditor) && is_told(auditor.finish())
}

/// Whether an auditor goes on, if there is memory to make one.
fn goes_on_where_made(alloc: Global) -> bool {
    match new_auditor(alloc) {
        Ok(auditor) => goes_on(auditor),
        Err(_) => true,
    }
}

/// Where any one allocation fails, that entry is not told, and the auditor is as it was: told again, all goes on.
#[test]
fn want_of_memory_changes_nothing(rt: HostRuntime) {
    same(&rt, 0, &goes_on_where_made(rt.alloc()), &true);
}
