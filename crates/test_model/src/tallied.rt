//! Runs of asks on a pool that keeps no record, of which tasks are released. Answers are from the worked rows or told by hand.

use crate::compare::same;
use crate::judged::{LONE, NONE};
use std::alloc::Global;
use tp_machine::tallies::{TallyAsk, TallyRun, run_tally};
use tp_record::entries::{Ask, Did, Looked, Opened, Seconded, Started, Took};
use tp_types::ids::{SlotId, TaskId};
use tp_types::refusals::PoolError;
use tp_types::states::{Counts, RunState};
use tp_types::tasks::Kind;

const SLOT: SlotId = SlotId(0);

const TASK: TaskId = TaskId(0);

/// The counters after row 1, the shortest life of a task.
const ROW_1: Counts = Counts {
    submitted: 1,
    run: 1,
    completed: 1,
    live: 1,
    largest: 1,
    ..NONE
};

const LIFE: [TallyAsk; 11] = [
    TallyAsk::Release(TASK),
    TallyAsk::Step(0, Ask::Submit(Kind::Plain, 0)),
    TallyAsk::Step(0, Ask::Open(SLOT)),
    TallyAsk::Step(0, Ask::Take(SLOT)),
    TallyAsk::Step(0, Ask::Begin(SLOT)),
    TallyAsk::Release(TASK),
    TallyAsk::Step(0, Ask::End(SLOT, Ok(5))),
    TallyAsk::Step(0, Ask::Remove(TASK)),
    TallyAsk::Release(TASK),
    TallyAsk::Step(0, Ask::Remove(TASK)),
    TallyAsk::Release(TASK),
];

const LIFE_ANSWERS: [Result<Option<Did>, PoolError>; 11] = [
    Err(PoolError::UnknownTask),
    Ok(Some(Did::Submit(TASK, Kind::Plain, 0, Looked::Reserve(SLOT)))),
    Ok(Some(Did::Open(SLOT, Opened::Live))),
    Ok(Some(Did::Take(SLOT, Took::Held(TASK)))),
    Ok(Some(Did::Begin(SLOT, Started::Run(TASK)))),
    Err(PoolError::NotThere),
    Ok(Some(Did::End(SLOT, TASK, Ok(5)))),
    Ok(Some(Did::Remove(TASK, false))),
    Ok(None),
    Err(PoolError::UnknownTask),
    Err(PoolError::UnknownTask),
];

/// What comes of these asks on one worker. No clause speaks of the run here, so a test is proved without its long contract.
fn run_of(alloc: Global, asks: &[TallyAsk]) -> Result<TallyRun, PoolError> {
    run_tally(alloc, LONE, asks)
}

/// Whether these are the answers from this one on.
fn are_answers(run: &TallyRun, from: usize, answers: &[Result<Option<Did>, PoolError>]) -> bool {
    run.answers.as_slice().get(from..) == Some(answers)
}

/// Whether the life's asks are answered so, and what is counted then, and the state.
fn life(alloc: Global) -> Result<(bool, Counts, RunState), PoolError> {
    let run = run_of(alloc, &LIFE)?;
    Ok((are_answers(&run, 0, &LIFE_ANSWERS), run.counts, run.state))
}

/// Row 1's steps. A release of its task is refused while something is owed to it; once it is released, every ask that names it is
/// refused, and the counters stay.
#[test]
fn runs_the_shortest_life_without_a_record(rt: HostRuntime) {
    let wanted = Ok((true, ROW_1, RunState::Running));
    same(&rt, 0, &life(rt.alloc()), &wanted);
}

const NEXT: TaskId = TaskId(1);

const OWED: [TallyAsk; 11] = [
    TallyAsk::Step(0, Ask::Submit(Kind::Plain, 0)),
    TallyAsk::Step(0, Ask::Submit(Kind::Group(3), 0)),
    TallyAsk::Step(0, Ask::Offer(NEXT)),
    TallyAsk::Step(0, Ask::Cancel(NEXT, false)),
    TallyAsk::Step(0, Ask::Purge),
    TallyAsk::Release(NEXT),
    TallyAsk::Step(0, Ask::Second(NEXT)),
    TallyAsk::Release(NEXT),
    TallyAsk::Step(0, Ask::TakeDone(3)),
    TallyAsk::Release(NEXT),
    TallyAsk::Step(0, Ask::Cancel(NEXT, false)),
];

/// The answers from the first release on.
const RELEASES: [Result<Option<Did>, PoolError>; 6] = [
    Err(PoolError::NotThere),
    Ok(Some(Did::Second(NEXT, Seconded::Stay))),
    Err(PoolError::NotThere),
    Ok(Some(Did::TakeDone(3, NEXT))),
    Ok(None),
    Err(PoolError::UnknownTask),
];

/// Whether the asks of what is owed are answered so, and how many tasks were cancelled.
fn owed(alloc: Global) -> Result<(bool, u32), PoolError> {
    let run = run_of(alloc, &OWED)?;
    Ok((are_answers(&run, 5, &RELEASES), run.counts.cancelled))
}

/// A task that owes its second look, or whose completion was not taken, stays until that is done.
#[test]
fn keeps_what_is_owed(rt: HostRuntime) {
    same(&rt, 0, &owed(rt.alloc()), &Ok((true, 1)));
}
