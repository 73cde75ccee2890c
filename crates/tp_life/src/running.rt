//! Tasks on a pool of their own, in one call.
ghost use Rattle.std.specs.Prelude.{◌≡◌, ◌⊎◌, length, IfOk, IfErr};
ghost use Rattle.tp_record.specs.Terms.{without_end};
ghost use Rattle.tp_pool.specs.Lives.{IsOver, IsUnrun, sized};
ghost use Rattle.tp_life.specs.declared.tasks.TheConstants.{VOID};
ghost use Rattle.tp_life.specs.Ran.{AreRun, AreTallied, IsTold, Pairwise};

use crate::tasks::{Find, Held, Task};
use std::alloc::Global;
use std::sync::Wait;
use tp_book::reports::{Report, TallyReport};
use tp_pool::{Answer, Runtime, run_all, run_all_with_tally};
use tp_pool_holds::edges::Edge;
use tp_types::configs::Config;
use tp_types::refusals::PoolError;

/// What became of a task: its value, or why it has none.
pub type Told<V> = Result<V, PoolError>;

/// Runs these tasks on a pool of their own, and answers what became of each, in their order, with the report of the closed pool:
/// as `tp_pool::run_all`, with values of any type.
///
/// A task's answer is its value; Faulted (14) with the fault's code; Lost (15) with its fate, where a policy dropped it or no
/// worker came for it; or the refusal of its submission: Rejected (12), NoMemory (4) or, under a policy that tries a task again,
/// BookFull (5). NotThere (8) does not come, which tests show.
///
/// BadLimit (3) where no record has room for so many; BadSizes (1), BadCapacity (2) or KeepZero (11) where no pool has these
/// settings; NoMemory (4): then the tasks are dropped, and none has run. Else NoMemory (4) where there is none for the answers,
/// or MissingPass (21) or TornRecord (22), which do not come as long as the pool's book is sound.
pub fn run_tasks<
    V: Send + Drop + 'static,
    W: Task<Output = V> + Send + 'static,
    E: Edge + Send + Sync + 'static,
    R: Runtime,
>(
    rt: &R,
    alloc: Global,
    settings: Config,
    edge: E,
    tasks: Vec<W>,
) -> Result<(Vec<Told<V>>, Report), PoolError>
    ensures run { IfOk result (λ r. AreRun W.gives (sized settings (length tasks.items)) VOID W.urgency tasks.items r.0.items r.1) }
    ensures over { IfErr result (λ e. (e ≡ PoolError.NoMemory) ⊎ IsUnrun settings (length tasks.items) e) }
{
    let (jobs, finds) = match held(alloc, tasks) {
        Ok(held) => held,
        Err(error) => return Err(error),
    };
    let (answers, report) = match run_all(rt, alloc, settings, edge, jobs) {
        Ok(run) => run,
        Err(error) => return Err(error),
    };
    match told(rt, alloc, answers, finds) {
        Ok(values) => Ok((values, report)),
        Err(error) => Err(error),
    }
}

/// As `run_tasks`, on a pool that keeps no record, for any number of tasks: as `tp_pool::run_all_with_tally`, with values of any type.
///
/// BadSizes (1), BadCapacity (2), BadLimit (3) or KeepZero (11) where no pool has these settings; NoMemory (4): then the tasks are dropped,
/// and none has run. Else NoMemory (4) where there is none for the answers, or MissingPass (21) or TornRecord (22), which do not come as
/// long as the pool's book is sound.
pub fn run_tasks_with_tally<
    V: Send + Drop + 'static,
    W: Task<Output = V> + Send + 'static,
    E: Edge + Send + Sync + 'static,
    R: Runtime,
>(
    rt: &R,
    alloc: Global,
    settings: Config,
    edge: E,
    tasks: Vec<W>,
) -> Result<(Vec<Told<V>>, TallyReport), PoolError>
    ensures run { IfOk result (λ r. AreTallied W.gives settings VOID W.urgency tasks.items r.0.items r.1) }
    ensures over { IfErr result (λ e. (e ≡ PoolError.NoMemory) ⊎ IsOver settings (without_end settings) e) }
{
    let (jobs, finds) = match held(alloc, tasks) {
        Ok(held) => held,
        Err(error) => return Err(error),
    };
    let (answers, report) = match run_all_with_tally(rt, alloc, settings, edge, jobs) {
        Ok(run) => run,
        Err(error) => return Err(error),
    };
    match told(rt, alloc, answers, finds) {
        Ok(values) => Ok((values, report)),
        Err(error) => Err(error),
    }
}

// The tasks as their pool holds them, and where the value of each is found. NoMemory (4).
fn held<W: Task>(alloc: Global, tasks: Vec<W>) -> Result<(Vec<Held<W>>, Vec<Find<W>>), PoolError>
    ensures held { IfOk result (λ r. r.0.items ≡ tasks.items) }
    ensures refused { IfErr result (λ e. e ≡ PoolError.NoMemory) }
{
    let mut jobs = Vec::new(alloc);
    let mut finds = Vec::new(alloc);
    for task in tasks {
        match Held::placed(alloc, task) {
            Ok((job, find)) => {
                jobs.push(job)?;
                finds.push(find)?;
            }
            Err(_) => return Err(PoolError::NoMemory),
        }
    }
    Ok((jobs, finds))
}

// What is told of each task, by its job's answer. NoMemory (4).
fn told<W: Task, R: Wait>(
    rt: &R,
    alloc: Global,
    answers: Vec<Answer>,
    finds: Vec<Find<W>>,
) -> Result<Vec<Told<W::Output>>, PoolError>
    ensures told { IfOk result (λ values. Pairwise (IsTold W.gives) answers.items values.items) }
    ensures refused { IfErr result (λ e. e ≡ PoolError.NoMemory) }
{
    let mut finds = finds.into_iter();
    let mut values = Vec::new(alloc);
    for answer in answers {
        values.push(value(rt, answer, finds.next()))?;
    }
    Ok(values)
}

// What is told of a task, by its job's answer.
fn value<W: Task, R: Wait>(rt: &R, answer: Answer, find: Option<Find<W>>) -> Told<W::Output>
    ensures { IsTold W.gives answer result }
{
    match find {
        Some(find) => found(rt, answer, &find),
        None => match answer {
            Ok(_) => Err(PoolError::NotThere),
            Err(error) => Err(error),
        },
    }
}

/// What is told of a task, by its job's answer: its value, where the job ran and it is found there.
pub fn found<W: Task, R: Wait>(rt: &R, answer: Answer, find: &Find<W>) -> Told<W::Output>
    ensures { IsTold W.gives answer result }
{
    match answer {
        Ok(_) => match find.take(rt) {
            Some(value) => Ok(value),
            None => Err(PoolError::NotThere),
        },
        Err(error) => Err(error),
    }
}
