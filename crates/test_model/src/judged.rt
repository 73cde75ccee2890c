//! Records judged by both auditors, with answers from the worked rows or told by hand.

use crate::auditors::judged;
use crate::compare::same;
use crate::rows::entries_of;
use std::alloc::{AllocError, Global};
use tp_audit_plain::plain::audit_plain;
use tp_audit_plain::summary::Flaw;
use tp_record::entries::{Ask, Entry};
use tp_types::configs::{Config, Policy, QueueKind};
use tp_types::ids::SlotId;
use tp_types::states::{Counts, RunState};
use tp_types::tasks::Fate;

/// One worker, and refused tasks are rejected.
pub const LONE: Config = Config {
    core: 1,
    maximum: 1,
    queue: QueueKind::Unbounded,
    keep: 0,
    core_timeout: false,
    policy: Policy::Abort,
    record_limit: 4096,
};

const SLOT: SlotId = SlotId(0);

/// Row 1, the shortest life of a task, in the slot of this number.
fn life_in(alloc: Global, slot: usize) -> Result<Vec<Entry>, AllocError> {
    let life = format!(in alloc;
        "\
1 submit t0 plain reserve w{slot}
2 p3 open w{slot} live
3 p1 take w{slot} held t0
4 p1 begin w{slot} t0
5 p1 end w{slot} t0 value 5
"
    )?;
    entries_of(alloc, life.as_str())
}

/// Whether both auditors judge a record so: its pool runs on with these counts and fates, or this is its first flaw.
fn is_judged_so(
    alloc: Global,
    config: &Config,
    entries: &[Entry],
    told: Result<(Counts, &[Option<Fate>]), Flaw>,
) -> bool {
    match (judged(alloc, config, entries), told) {
        (Some(Ok(summary)), Ok((counts, fates))) => {
            summary.counts == counts
                && summary.state == RunState::Running
                && summary.fates.as_slice() == fates
        }
        (Some(Err(flaw)), Err(first)) => flaw == first,
        _ => false,
    }
}

/// Nothing is counted.
pub const NONE: Counts = Counts {
    submitted: 0,
    run: 0,
    caller: 0,
    rejected: 0,
    discarded: 0,
    handedback: 0,
    removed: 0,
    cancelled: 0,
    completed: 0,
    queued: 0,
    live: 0,
    largest: 0,
};

const LIVED: Counts = Counts {
    submitted: 1,
    run: 1,
    completed: 1,
    live: 1,
    largest: 1,
    ..NONE
};

const RUN: [Option<Fate>; 1] = [Some(Fate::Run)];

/// Whether the life in the slot of this number is judged as the life is.
fn is_lived_in(alloc: Global, slot: usize) -> Result<bool, AllocError> {
    let life = life_in(alloc, slot)?;
    Ok(is_judged_so(alloc, &LONE, &life, Ok((LIVED, &RUN))))
}

const SLOTS: [usize; 4] = [0, 1, 7, 1_000];

/// The slot of a reserved worker may have any number that is free.
#[test]
fn judges_the_shortest_life(rt: HostRuntime) {
    for slot in SLOTS {
        same(&rt, slot, &is_lived_in(rt.alloc(), slot), &Ok(true));
    }
}

const FIRST_ENTRIES: &str = "\
1 submit t0 plain reserve w0
2 p3 open w0 live
";

/// Whether an answer to another ask than the entry's is a flaw, which no text can say.
fn is_other_ask_told(alloc: Global) -> Result<bool, AllocError> {
    let mut entries = entries_of(alloc, FIRST_ENTRIES)?;
    if let Some(open) = entries.last_mut() {
        open.ask = Ask::Fail(SLOT);
    }
    Ok(is_judged_so(alloc, &LONE, &entries, Err(Flaw::At(2))))
}

#[test]
fn judges_an_answer_to_another_ask(rt: HostRuntime) {
    same(&rt, 0, &is_other_ask_told(rt.alloc()), &Ok(true));
}

/// The counters of a record of one worker, as the plain auditor tells them.
pub fn plain_counts(alloc: Global, entries: &[Entry]) -> Result<Counts, Flaw> {
    Ok(audit_plain(alloc, &LONE, entries)?.counts)
}

/// How many tasks are submitted in the first entries of the life.
fn submitted(alloc: Global) -> Result<u32, Flaw> {
    match entries_of(alloc, FIRST_ENTRIES) {
        Ok(entries) => Ok(plain_counts(alloc, &entries)?.submitted),
        Err(_) => Err(Flaw::NoMemory),
    }
}

/// Where any one allocation fails, the answer is want of memory; with ample memory it is right.
#[test]
fn want_of_memory_is_told(rt: HostRuntime) {
    let is_told = match submitted(rt.alloc()) {
        Ok(tasks) => tasks == 1,
        Err(flaw) => flaw == Flaw::NoMemory,
    };
    same(&rt, 0, &is_told, &true);
}
