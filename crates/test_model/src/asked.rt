//! Runs of asks, and their records judged. Answers are from the worked rows or told by hand.

use crate::compare::same;
use crate::judged::{LONE, plain_counts};
use crate::scenarios::run_of;
use std::alloc::Global;
use tp_audit_plain::summary::Flaw;
use tp_machine::runs::Run;
use tp_record::entries::{Ask, Did, Entry, Looked, Opened, Started, Took};
use tp_types::ids::{SlotId, TaskId};
use tp_types::refusals::PoolError;
use tp_types::tasks::Kind;

const SLOT: SlotId = SlotId(0);

const TASK: TaskId = TaskId(0);

const SHORTEST: [(u32, Ask); 6] = [
    (1, Ask::Take(SLOT)),
    (0, Ask::Submit(Kind::Plain, 0)),
    (3, Ask::Open(SLOT)),
    (1, Ask::Take(SLOT)),
    (1, Ask::Begin(SLOT)),
    (1, Ask::End(SLOT, Ok(5))),
];

const SHORTEST_ANSWERS: [Result<Did, PoolError>; 6] = [
    Err(PoolError::UnknownSlot),
    Ok(Did::Submit(TASK, Kind::Plain, 0, Looked::Reserve(SLOT))),
    Ok(Did::Open(SLOT, Opened::Live)),
    Ok(Did::Take(SLOT, Took::Held(TASK))),
    Ok(Did::Begin(SLOT, Started::Run(TASK))),
    Ok(Did::End(SLOT, TASK, Ok(5))),
];

/// Whether the shortest life is answered so, and the plain auditor counts its task as run.
fn is_lived(alloc: Global) -> Result<bool, PoolError> {
    let run = run_of(alloc, LONE, &SHORTEST)?;
    let is_answered = run.answers.as_slice() == SHORTEST_ANSWERS.as_slice();
    Ok(is_answered && run_tasks(alloc, &run.entries) == Ok(1))
}

/// How many tasks were run, as the plain auditor counts them.
fn run_tasks(alloc: Global, entries: &[Entry]) -> Result<u32, Flaw> {
    Ok(plain_counts(alloc, entries)?.run)
}

/// Row 1, the shortest life of a task, with an ask before it that is refused: the refusal is an answer,
/// and adds no entry.
#[test]
fn runs_the_shortest_life(rt: HostRuntime) {
    same(&rt, 0, &is_lived(rt.alloc()), &Ok(true));
}

/// How many of these answers are want of memory.
fn wants_of_memory(answers: &[Result<Did, PoolError>]) -> usize {
    let mut wants = 0usize;
    for answer in answers {
        if *answer == Err(PoolError::NoMemory) {
            wants = wants.saturating_add(1);
        }
    }
    wants
}

/// Whether no task was run, or memory was wanting to tell it.
fn runs_none(alloc: Global, entries: &[Entry]) -> bool {
    match run_tasks(alloc, entries) {
        Ok(tasks) => tasks == 0,
        Err(flaw) => flaw == Flaw::NoMemory,
    }
}

/// Where any one allocation fails, 4 is the answer of one ask, which adds no entry, and the run goes on; with ample memory each
/// ask is accepted. The last ask takes no memory.
fn goes_on(asks: usize, run: &Run) -> bool {
    let wants = wants_of_memory(&run.answers);
    wants <= 1
        && run.answers.len() == asks
        && run.entries.len().saturating_add(wants) == asks
        && run.answers.last() == Some(&Ok(Did::Tick(5)))
}

const GROWING: [(u32, Ask); 5] = [
    (0, Ask::Submit(Kind::Plain, 0)),
    (1, Ask::Submit(Kind::Future, 0)),
    (2, Ask::Maximum(3)),
    (2, Ask::Stop),
    (2, Ask::Tick(5)),
];

/// Whether the run is refused with 4, or it goes on and is judged.
fn goes_on_or_is_refused(alloc: Global) -> bool {
    match run_of(alloc, LONE, &GROWING) {
        Ok(run) => goes_on(GROWING.len(), &run) && runs_none(alloc, &run.entries),
        Err(error) => error == PoolError::NoMemory,
    }
}

/// Where any one allocation fails, the run is refused with 4, or it goes on.
#[test]
fn run_goes_on_where_memory_is_wanted(rt: HostRuntime) {
    same(&rt, 0, &goes_on_or_is_refused(rt.alloc()), &true);
}
