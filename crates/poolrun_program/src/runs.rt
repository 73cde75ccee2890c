//! A pool's whole life: it runs the jobs of a file, with its record or without one.
ghost use Rattle.std.specs.Prelude.{◌≡◌, [], ◌∷◌, reverse, true, IsTrue, IfOk, IfErr, IfSome, Ok};
ghost use Rattle.tp_book.specs.PassView.{PassView};
ghost use Rattle.tp_pool_holds.specs.Left.{IsStranded};
ghost use Rattle.tp_pool_holds.specs.Moments.{AtSome};
ghost use Rattle.tp_pool_holds.specs.Reports.{Closes};
ghost use Rattle.tp_journal.specs.Endings.{IfThrough};
ghost use Rattle.tp_journal.specs.Journals.{IsJournalOf};
ghost use Rattle.poolrun_program.specs.Runs.{AddsEnd, IsLife, IsRun, IsShort, IsTally, RefusesRun, asked};

use crate::recorded::recorded;
use crate::submissions::{Company, submit_all};
use std::alloc::Global;
use std::io::Write;
use std::marker::Brand;
use std::sync::Wait;
use std::thread::Threads;
use std::time::Clock;
use tp_book::opening::Unopened;
use tp_book::passes::Pass;
use tp_journal::endings::{Stopped, Wish};
use tp_machine::machine::releases::Keeper;
use tp_pool::closing::{Report, Reporter, TallyReport};
use tp_pool::defaults::Defaults;
use tp_pool::names::PoolNaming;
use tp_record::recorders::{Full, Tally};
use tp_scenario::jobs::{JobLine, Jobs};
use tp_types::configs::Config;
use tp_types::refusals::PoolError;
use tp_types::states::RunState;

// What is told of a refusal at a pool's end: those that do not come there say that its record is torn.
fn at_the_end(error: PoolError) -> PoolError
    ensures { IsShort result }
{
    match error {
        PoolError::NoMemory | PoolError::BookFull => error,
        _ => PoolError::TornRecord,
    }
}

// Whether the pool that is shut down comes to its end by itself. Where tasks are stranded in it, since no thread could be
// made for them, the pool is stopped, and they come back unrun. The wait looks after each step, since a worker's thread may
// fail to make the one in its place.
fn ends_by_itself<
    G: PoolNaming + Send + Sync + 'static,
    K: Keeper + Send + 'static,
    R: Threads + Wait + Copy + Send + 'static,
>(rt: &R, pool: &Company<G, K>, pass: &mut Pass<G>) -> Result<bool, PoolError>
    ensures untouched { IfOk result (λ by_itself. IsTrue by_itself → pass.new ≡ pass.old) }
    ensures stranded { IfOk result (λ by_itself. ¬ IsTrue by_itself → AtSome (K.terms G.config) IsStranded) }
    ensures refused { IfErr result IsShort }
{
    for _ in rt.forever() {
        let seen = pool.steps(rt);
        if pool.is_stranded(rt) {
            return match pool.shutdown_now(rt, pass) {
                Ok(_) => Ok(false),
                Err(error) => Err(at_the_end(error)),
            };
        }
        if pool.state(rt) == RunState::Terminated {
            return Ok(true);
        }
        pool.wait_step(rt, seen);
    }
    unreachable!()
}

// Shuts the pool down and waits for its end, and tells whether that came by itself.
pub(crate) fn end<
    G: PoolNaming + Send + Sync + 'static,
    K: Keeper + Send + 'static,
    R: Threads + Wait + Copy + Send + 'static,
>(rt: &R, pool: &Company<G, K>, pass: &mut Pass<G>) -> Result<bool, PoolError>
    ensures ends { IfOk result (λ by_itself. IsTrue by_itself → AddsEnd (K.terms G.config) pass.old pass.new) }
    ensures stranded { IfOk result (λ by_itself. ¬ IsTrue by_itself → AtSome (K.terms G.config) IsStranded) }
    ensures refused { IfErr result IsShort }
{
    if let Err(error) = pool.shutdown(rt, pass) {
        return Err(at_the_end(error));
    }
    let by_itself = match ends_by_itself(rt, pool, pass) {
        Ok(by_itself) => by_itself,
        Err(error) => return Err(error),
    };
    match pool.await_termination(rt, u64::MAX, pass) {
        Ok(()) => Ok(by_itself),
        Err(error) => Err(at_the_end(error)),
    }
}

// Closes the pool with this pass, for which the list has room, where its end came: whether that came by itself, and the report.
pub(crate) fn close_with<G: PoolNaming, K: Reporter, R: Wait>(
    rt: &R,
    pool: Company<G, K>,
    pass: Pass<G>,
    passes: Vec<Pass<G>>,
    ended: Result<bool, PoolError>,
) -> Result<(bool, K::Report), PoolError>
    requires alone { passes.items ≡ [] }
    requires short { IfErr ended IsShort }
    ensures report { IfOk result (λ r. (ended ≡ Ok r.0) × Closes K.told K.RECEIPTS G.config (K.terms G.config) (pass ∷ []) r.1) }
    ensures refused { IfErr result IsShort }
{
    let mut passes = passes;
    let by_itself = match ended {
        Ok(by_itself) => by_itself,
        Err(error) => {
            pool.let_go();
            return Err(error);
        }
    };
    if passes.push(pass).is_err() {
        pool.let_go();
        return Err(PoolError::NoMemory);
    }
    match pool.close(rt, passes) {
        Ok(report) => Ok((by_itself, report)),
        Err(fault) => Err(at_the_end(fault.let_go())),
    }
}

// What a close is to a run. NoMemory (4) where tasks were stranded: what is told of the pool is kept then.
pub(crate) fn answered<T: Drop>(
    closed: Result<(bool, T), PoolError>,
    kept: &mut Option<T>,
) -> Result<T, PoolError>
    requires short { IfErr closed IsShort }
    ensures report { IfOk result (λ r. closed ≡ Ok (true, r)) }
    ensures refused { IfErr result IsShort }
{
    match closed {
        Ok((true, report)) => Ok(report),
        Ok((false, report)) => {
            *kept = Some(report);
            Err(PoolError::NoMemory)
        }
        Err(error) => Err(error),
    }
}

// Ends the pool and closes it with this pass, for which the list has room.
fn closed<
    G: PoolNaming + Send + Sync + 'static,
    K: Reporter + Send + 'static,
    R: Threads + Wait + Copy + Send + 'static,
>(
    rt: &R,
    pool: Company<G, K>,
    pass: Pass<G>,
    passes: Vec<Pass<G>>,
    kept: &mut Option<K::Report>,
) -> Result<K::Report, PoolError>
    requires alone { passes.items ≡ [] }
    ensures report { IfOk result (λ r. (new : PassView) × AddsEnd (K.terms G.config) pass new × Closes K.told K.RECEIPTS G.config (K.terms G.config) (new ∷ []) r) }
    ensures refused { IfErr result IsShort }
{
    let mut pass = pass;
    let ended = end(rt, &pool, &mut pass);
    answered(close_with(rt, pool, pass, passes, ended), kept)
}

// A pool's life under a name of its own: it runs the jobs, ends and is closed. Where a submission is refused, or no thread
// could be made, it is ended and closed all the same, and what is told of it is kept.
fn life<
    G: PoolNaming + Send + Sync + 'static,
    K: Reporter + Send + 'static,
    R: Threads + Wait + Copy + Send + 'static,
>(
    rt: R,
    alloc: Global,
    unopened: Unopened,
    settings: Config,
    jobs: &[JobLine],
    kept: &mut Option<K::Report>,
) -> Result<K::Report, PoolError>
    requires named { unopened ≡ record { ledger = G.name; parts = G.parts; table = G.table } }
    requires settings { settings ≡ G.config }
    ensures run { IfOk result (IsLife K.told K.RECEIPTS settings (K.terms settings) (asked jobs.now)) }
    ensures refused { IfErr result (RefusesRun settings) }
{
    let mut passes = Vec::new(alloc);
    if passes.reserve(1).is_err() {
        return Err(PoolError::NoMemory);
    }
    let (pool, mut pass) = match Company::<G, K>::over(alloc, unopened, settings, Defaults) {
        Ok(opened) => opened,
        Err(error) => return Err(error),
    };
    let submitted = submit_all(rt, &pool, jobs, &mut pass);
    let report = closed(&rt, pool, pass, passes, kept);
    match submitted {
        Ok(()) => report,
        Err(error) => {
            if let Ok(told) = report {
                *kept = Some(told);
            }
            Err(error)
        }
    }
}

// As `run_jobs`, by a pool over any keeper.
fn lived<K: Reporter + Send + 'static, R: Threads + Wait + Copy + Send + 'static>(
    rt: R,
    alloc: Global,
    jobs: &Jobs,
    kept: &mut Option<K::Report>,
) -> Result<K::Report, PoolError>
    ensures run { IfOk result (IsLife K.told K.RECEIPTS jobs.now.config (K.terms jobs.now.config) (asked jobs.now.jobs.items)) }
    ensures refused { IfErr result (RefusesRun jobs.now.config) }
{
    let unopened = match Unopened::new(alloc) {
        Ok(unopened) => unopened,
        Err(error) => return Err(error),
    };
    life::<Brand, K, R>(rt, alloc, unopened, jobs.config, jobs.jobs.as_slice(), kept)
}

// As `run_jobs`, without a journal.
fn run_alone<R: Threads + Wait + Copy + Send + 'static>(
    rt: R,
    alloc: Global,
    jobs: &Jobs,
    kept: &mut Option<Report>,
) -> Result<Report, PoolError>
    ensures run { IfOk result (IsRun jobs.now.config (asked jobs.now.jobs.items)) }
    ensures refused { IfErr result (RefusesRun jobs.now.config) }
{
    lived::<Full, R>(rt, alloc, jobs, kept)
}

/// Runs the jobs by threads: one thread submits them in their order to a pool with these settings, whose
/// factory consents always and whose own handler answers Abort. Then the pool is shut down, waited for until
/// it is terminated, and closed; its report is the answer. A job that is rejected is so in the record, and the
/// next is submitted.
///
/// NoMemory (4), BookFull (5) and TornRecord (22) at a submission end the run: no further job is submitted, the
/// pool is shut down and closed, its report is kept, and the refusal is the answer. So it is with NoMemory (4) where no thread
/// could be made for jobs that are queued: the pool is stopped, and these jobs have the fate HandedBack. BadSizes (1),
/// BadCapacity (2), BadLimit (3) and KeepZero (11) where no pool has these settings.
///
/// Where a journal is wished for, it is written while the pool runs, and no step waits for it. It is stopped once the pool is terminated,
/// and its writer is handed out: what is missing is written behind the close. NoMemory (4) where there is none for it, or no thread: then
/// no job was submitted, and no writer is handed out.
pub fn run_jobs<
    V: Write + Send + Drop + 'static,
    R: Threads + Wait + Clock + Copy + Send + 'static,
>(
    rt: R,
    alloc: Global,
    jobs: &Jobs,
    wish: Option<Wish<V>>,
    journal: &mut Option<Stopped<V>>,
    kept: &mut Option<Report>,
) -> Result<Report, PoolError>
    ensures run { IfOk result (IsRun jobs.now.config (asked jobs.now.jobs.items)) }
    ensures front { IfOk result (λ r. IfSome wish (λ w. IfSome journal.new (λ s. IfThrough s (IsJournalOf V.contents (V.contents w.writer) jobs.now.config (reverse r.entries.items))))) }
    ensures refused { IfErr result (RefusesRun jobs.now.config) }
{
    match wish {
        Some(wish) => recorded(rt, alloc, jobs, wish, journal, kept),
        None => run_alone(rt, alloc, jobs, kept),
    }
}

/// Runs the jobs by threads, as `run_jobs`, on a pool that keeps no record, and answers its report.
///
/// NoMemory (4), BookFull (5) and TornRecord (22) at a submission end the run: no further job is submitted, the
/// pool is shut down and closed, and the refusal is the answer. So it is with NoMemory (4) where no thread could be made for
/// jobs that are queued. BadSizes (1), BadCapacity (2), BadLimit (3) and KeepZero (11) where no pool has these settings.
pub fn tally_jobs<R: Threads + Wait + Copy + Send + 'static>(
    rt: R,
    alloc: Global,
    jobs: &Jobs,
) -> Result<TallyReport, PoolError>
    ensures run { IfOk result (IsTally jobs.now.config (asked jobs.now.jobs.items)) }
    ensures refused { IfErr result (RefusesRun jobs.now.config) }
{
    lived::<Tally, R>(rt, alloc, jobs, &mut None)
}
