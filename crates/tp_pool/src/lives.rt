//! Jobs on a pool of their own, in one call: the pool is opened, runs them, is shut down, waited for and closed.
ghost use Rattle.std.specs.Prelude.{◌≡◌, ◌⊎◌, ◌≤◌, [], ◌∷◌, length, IfOk, IfErr};
ghost use Rattle.tp_record.specs.Fields.{rank};
ghost use Rattle.tp_record.specs.Step.{Legal};
ghost use Rattle.tp_record.specs.Terms.{without_end};
ghost use Rattle.tp_book.specs.PassView.{PassView};
ghost use Rattle.tp_pool_holds.specs.Reports.{Closes};
ghost use Rattle.tp_pool.specs.Lives.{AreAnswered, AreSubmitted, AreTold, IsClosedRun, IsCut, IsOver, IsRun, IsShut, IsTallyRun, IsTold, IsUnrun, sized};
ghost use Rattle.tp_pool.specs.Submissions.{Submits};

use crate::callers::{PoolName, Runtime};
use crate::closing::{Report, Reporter, TallyReport};
use crate::futures::task_of;
use crate::pool::PoolOf;
use std::alloc::Global;
use std::marker::Brand;
use std::sync::Wait;
use tp_book::opening::Unopened;
use tp_book::passes::Pass;
use tp_book::sights::Sight;
use tp_machine::machine::releases::Keeper;
use tp_pool_advice::sizes::for_jobs;
use tp_pool_holds::edges::Edge;
use tp_pool_holds::names::PoolNaming;
use tp_protocols::jobs::Job;
use tp_record::recorders::{Full, Tally};
use tp_types::configs::Config;
use tp_types::ids::TaskId;
use tp_types::refusals::PoolError;
use tp_types::tasks::Kind;

/// What became of a job: its value, or why it has none, as `Future.get` tells it.
pub type Answer = Result<i64, PoolError>;

/// Runs these jobs on a pool of their own, and answers what became of each, in their order, with the report of the
/// closed pool. The pool is opened with these settings and objects, and a record that has room for all of them (`for_jobs`); each
/// job is submitted with a future, as soon as the pool has room for it, so that no job is rejected, dropped or run here by the haste of
/// those before it; then the pool is shut down, and each future is waited for. Whatever comes of that, the pool is
/// waited for and closed, as Java's `try (var pool = ..)` does since Java 19: no pool is left with threads that run.
///
/// Where no worker could be made for the jobs that are queued, since the factory refused them, no thread could be made or
/// the record is full, the pool is stopped, and each of these jobs is Lost (15) with the fate HandedBack. Java's pool throws
/// `OutOfMemoryError` where it can make no thread.
///
/// A job's answer is its value; Faulted (14) with the fault's code; Lost (15) with its fate, where a policy dropped it or
/// no worker came for it; or the refusal of its submission: Rejected (12), NoMemory (4) or, under a policy that tries a task
/// again, BookFull (5).
///
/// BadLimit (3) where no record has room for so many; BadSizes (1), BadCapacity (2) or KeepZero (11) where no pool has these
/// settings; NoMemory (4) where there is none for a pool: then the jobs are dropped. Else NoMemory (4) where there is none for the answers,
/// or MissingPass (21) or TornRecord (22), which do not come as long as the pool's book is sound.
pub fn run_all<J: Job + 'static, E: Edge + Send + Sync + 'static, R: Runtime>(
    rt: &R,
    alloc: Global,
    settings: Config,
    edge: E,
    jobs: Vec<J>,
) -> Result<(Vec<Answer>, Report), PoolError>
    ensures run { IfOk result (λ r. IsRun (sized settings (length jobs.items)) J.promised J.urgency jobs.items r.0.items r.1) }
    ensures over { IfErr result (IsUnrun settings (length jobs.items)) }
{
    match for_jobs(settings, jobs.len()) {
        Ok(settings) => run_in::<J, E, Full, R>(rt, alloc, settings, edge, jobs),
        Err(error) => Err(error),
    }
}

/// As `run_all`, on a pool that keeps no record, for any number of jobs: it answers how many steps were made, the counters, and how
/// many tasks have no fate.
///
/// BadSizes (1), BadCapacity (2), BadLimit (3) or KeepZero (11) where no pool has these settings; NoMemory (4) where there is none for a
/// pool: then the jobs are dropped. Else NoMemory (4) where there is none for the answers, or MissingPass (21) or TornRecord (22), which
/// do not come as long as the pool's book is sound.
pub fn run_all_with_tally<J: Job + 'static, E: Edge + Send + Sync + 'static, R: Runtime>(
    rt: &R,
    alloc: Global,
    settings: Config,
    edge: E,
    jobs: Vec<J>,
) -> Result<(Vec<Answer>, TallyReport), PoolError>
    ensures run { IfOk result (λ r. IsTallyRun settings J.promised J.urgency jobs.items r.0.items r.1) }
    ensures over { IfErr result (IsOver settings (without_end settings)) }
{
    run_in::<J, E, Tally, R>(rt, alloc, settings, edge, jobs)
}

// The jobs on a pool with these settings, as they are.
fn run_in<
    J: Job + 'static,
    E: Edge + Send + Sync + 'static,
    K: Reporter + Send + 'static,
    R: Runtime,
>(
    rt: &R,
    alloc: Global,
    settings: Config,
    edge: E,
    jobs: Vec<J>,
) -> Result<(Vec<Answer>, K::Report), PoolError>
    ensures run { IfOk result (λ r. IsClosedRun K.told K.RECEIPTS settings (K.terms settings) J.promised J.urgency jobs.items r.0.items r.1) }
    ensures over { IfErr result (IsOver settings (K.terms settings)) }
{
    let unopened = match Unopened::new(alloc) {
        Ok(unopened) => unopened,
        Err(error) => return Err(error),
    };
    opened::<Brand, J, E, K, R>(rt, alloc, unopened, settings, edge, jobs)
}

// The same under a name of the pool's own.
fn opened<
    G: PoolNaming + Send + Sync + 'static,
    J: Job + 'static,
    E: Edge + Send + Sync + 'static,
    K: Reporter + Send + 'static,
    R: Runtime,
>(
    rt: &R,
    alloc: Global,
    unopened: Unopened,
    settings: Config,
    edge: E,
    jobs: Vec<J>,
) -> Result<(Vec<Answer>, K::Report), PoolError>
    requires named { unopened ≡ record { ledger = G.name; parts = G.parts; table = G.table } }
    requires settings { settings ≡ G.config }
    ensures run { IfOk result (λ r. IsClosedRun K.told K.RECEIPTS settings (K.terms settings) J.promised J.urgency jobs.items r.0.items r.1) }
    ensures over { IfErr result (IsOver settings (K.terms settings)) }
{
    match PoolOf::<G, J, E, K>::over(alloc, unopened, settings, edge) {
        Ok((pool, pass)) => entered(rt, alloc, pool, jobs, pass),
        Err(error) => Err(error),
    }
}

// The life of a new pool, with its first pass. The pass with which the pool is ended is made before the jobs are
// submitted, so that no memory is wanted once the pool has threads.
fn entered<
    G: PoolName,
    J: Job + 'static,
    E: Edge + Send + Sync + 'static,
    K: Reporter + Send + 'static,
    R: Runtime,
>(
    rt: &R,
    alloc: Global,
    pool: PoolOf<G, J, E, K>,
    jobs: Vec<J>,
    pass: Pass<G>,
) -> Result<(Vec<Answer>, K::Report), PoolError>
    ensures run { IfOk result (λ r. (new other : PassView) × AreAnswered K.RECEIPTS (K.terms G.config) J.promised J.urgency jobs.items r.0.items pass new × Closes K.told K.RECEIPTS G.config (K.terms G.config) (new ∷ other ∷ []) r.1) }
    ensures over { IfErr result (IsOver G.config (K.terms G.config)) }
{
    let mut pass = pass;
    let mut last = match ending_pass(rt, &pool, &mut pass) {
        Ok(last) => last,
        Err(error) => {
            pool.let_go();
            return Err(error);
        }
    };
    let mut seen = pool.sight(&mut last);
    lived(rt, alloc, pool, jobs, pass, last, &mut seen)
}

// The pass with which a pool is ended, with room for all receipts of the end. NoMemory (4), or BookFull (5).
fn ending_pass<G: PoolNaming, J: Job, E: Edge, K: Keeper, R: Wait>(
    rt: &R,
    pool: &PoolOf<G, J, E, K>,
    pass: &mut Pass<G>,
) -> Result<Pass<G>, PoolError>
    ensures room { IfOk result (λ p. 4 ≤ p.room) }
    ensures refused { IfErr result (λ e. (e ≡ PoolError.NoMemory) ⊎ (e ≡ PoolError.BookFull)) }
    ensures same { pass.new ≡ pass.old }
{
    let mut last = match pool.split_pass(rt, pass) {
        Ok(last) => last,
        Err(error) => return Err(error),
    };
    match last.reserve(4) {
        Ok(()) => Ok(last),
        Err(error) => Err(error),
    }
}

// The jobs' runs, and the end after them: the sight has then seen that the pool has no worker any more.
fn lived<
    G: PoolName,
    J: Job + 'static,
    E: Edge + Send + Sync + 'static,
    K: Reporter + Send + 'static,
    R: Runtime,
>(
    rt: &R,
    alloc: Global,
    pool: PoolOf<G, J, E, K>,
    jobs: Vec<J>,
    pass: Pass<G>,
    last: Pass<G>,
    seen: &mut Sight<G>,
) -> Result<(Vec<Answer>, K::Report), PoolError>
    requires room { 4 ≤ last.room }
    ensures run { IfOk result (λ r. (new other : PassView) × AreAnswered K.RECEIPTS (K.terms G.config) J.promised J.urgency jobs.items r.0.items pass new × Closes K.told K.RECEIPTS G.config (K.terms G.config) (new ∷ other ∷ []) r.1) }
    ensures cut { IfErr result IsCut }
    ensures seen { 3 ≤ rank seen.new }
    ensures legal { Legal (K.terms G.config) seen.new }
{
    let mut pass = pass;
    let mut last = last;
    let answers = answers_of(rt, alloc, &pool, jobs, &mut pass, &mut last);
    let report = end(rt, alloc, pool, pass, last, seen);
    match (answers, report) {
        (Ok(answers), Ok(report)) => Ok((answers, report)),
        (Err(error), _) => Err(error),
        (_, Err(error)) => Err(error),
    }
}

// Submits these jobs, shuts the pool down with its last pass, and waits for what becomes of each job. NoMemory (4) for the
// answers.
fn answers_of<
    G: PoolName,
    J: Job + 'static,
    E: Edge + Send + Sync + 'static,
    K: Keeper + Send + 'static,
    R: Runtime,
>(
    rt: &R,
    alloc: Global,
    pool: &PoolOf<G, J, E, K>,
    jobs: Vec<J>,
    pass: &mut Pass<G>,
    last: &mut Pass<G>,
) -> Result<Vec<Answer>, PoolError>
    requires room { 4 ≤ last.old.room }
    ensures answered { IfOk result (λ answers. AreAnswered K.RECEIPTS (K.terms G.config) J.promised J.urgency jobs.items answers.items pass.old pass.new) }
    ensures refused { IfErr result (λ e. e ≡ PoolError.NoMemory) }
    ensures left { 2 ≤ last.new.room }
    ensures shut { IsShut (K.terms G.config) last.new.front }
{
    let tasks = submit_each(rt, alloc, pool, jobs, pass);
    pool.shut(rt, last);
    match tasks {
        Ok(tasks) => tell_each(rt, alloc, pool, tasks.as_slice(), pass),
        Err(error) => Err(error),
    }
}

// Submits these jobs in their order: the task of each, or why it was refused.
fn submit_each<
    G: PoolName,
    J: Job + 'static,
    E: Edge + Send + Sync + 'static,
    K: Keeper + Send + 'static,
    R: Runtime,
>(
    rt: &R,
    alloc: Global,
    pool: &PoolOf<G, J, E, K>,
    jobs: Vec<J>,
    pass: &mut Pass<G>,
) -> Result<Vec<Result<TaskId, PoolError>>, PoolError>
    ensures submitted { IfOk result (λ tasks. AreSubmitted K.RECEIPTS (K.terms G.config) J.promised J.urgency jobs.items tasks.items pass.old pass.new) }
    ensures refused { IfErr result (λ e. e ≡ PoolError.NoMemory) }
{
    let mut tasks = Vec::new(alloc);
    for job in jobs {
        tasks.push(submitted(rt, pool, job, pass))?;
    }
    Ok(tasks)
}

// Submits a job with a future, once there is room for it: its task, also where its submitter ran it or the policy discarded it.
fn submitted<
    G: PoolName,
    J: Job + 'static,
    E: Edge + Send + Sync + 'static,
    K: Keeper + Send + 'static,
    R: Runtime,
>(rt: &R, pool: &PoolOf<G, J, E, K>, job: J, pass: &mut Pass<G>) -> Result<TaskId, PoolError>
    ensures { Submits K.RECEIPTS (K.terms G.config) job (J.promised job) (J.urgency job) result pass.old pass.new }
{
    match pool.execute_when_room(rt, Kind::Future, job, pass) {
        Ok(admitted) => Ok(task_of(admitted)),
        Err(refused) => Err(refused.error),
    }
}

// Waits for what becomes of each of these tasks, in their order.
fn tell_each<G: PoolName, J: Job, E: Edge, K: Keeper, R: Runtime>(
    rt: &R,
    alloc: Global,
    pool: &PoolOf<G, J, E, K>,
    tasks: &[Result<TaskId, PoolError>],
    pass: &mut Pass<G>,
) -> Result<Vec<Answer>, PoolError>
    ensures told { IfOk result (λ answers. AreTold J K.RECEIPTS (K.terms G.config) tasks.now answers.items pass.old pass.new) }
    ensures refused { IfErr result (λ e. e ≡ PoolError.NoMemory) }
{
    let mut answers = Vec::new(alloc);
    for task in tasks {
        answers.push(told(rt, pool, *task, pass))?;
    }
    Ok(answers)
}

// Waits for what becomes of a task.
fn told<G: PoolName, J: Job, E: Edge, K: Keeper, R: Runtime>(
    rt: &R,
    pool: &PoolOf<G, J, E, K>,
    task: Result<TaskId, PoolError>,
    pass: &mut Pass<G>,
) -> Answer
    ensures { IsTold J K.RECEIPTS (K.terms G.config) task result pass.old pass.new }
{
    match task {
        Ok(t) => pool.await_result_with(rt, t, None, pass),
        Err(error) => Err(error),
    }
}

// Waits for the end of a pool that is shut down, and closes it. Whatever comes of that, its threads are gone then.
fn end<
    G: PoolName,
    J: Job + 'static,
    E: Edge + Send + Sync + 'static,
    K: Reporter + Send + 'static,
    R: Runtime,
>(
    rt: &R,
    alloc: Global,
    pool: PoolOf<G, J, E, K>,
    pass: Pass<G>,
    last: Pass<G>,
    seen: &mut Sight<G>,
) -> Result<K::Report, PoolError>
    requires room { 2 ≤ last.room }
    requires shut { IsShut (K.terms G.config) last.front }
    ensures report { IfOk result (λ r. (other : PassView) × Closes K.told K.RECEIPTS G.config (K.terms G.config) (pass ∷ other ∷ []) r) }
    ensures cut { IfErr result IsCut }
    ensures seen { 3 ≤ rank seen.new }
    ensures legal { Legal (K.terms G.config) seen.new }
{
    let mut last = last;
    let ended = pool.await_shut(rt, &mut last);
    *seen = pool.sight(&mut last);
    if let Err(error) = ended {
        pool.let_go();
        return Err(error);
    }
    let passes = match both(alloc, pass, last) {
        Ok(passes) => passes,
        Err(error) => {
            pool.let_go();
            return Err(error);
        }
    };
    match pool.close(rt, passes) {
        Ok(report) => Ok(report),
        Err(fault) => Err(fault.let_go()),
    }
}

// The two passes with which a pool is closed. NoMemory (4).
fn both<G: PoolName>(alloc: Global, pass: Pass<G>, last: Pass<G>) -> Result<Vec<Pass<G>>, PoolError>
    ensures both { IfOk result (λ passes. passes.items ≡ pass ∷ last ∷ []) }
    ensures refused { IfErr result (λ e. e ≡ PoolError.NoMemory) }
{
    let mut passes = Vec::new(alloc);
    passes.push(pass)?;
    passes.push(last)?;
    Ok(passes)
}
