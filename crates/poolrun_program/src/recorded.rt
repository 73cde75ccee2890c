//! A pool's whole life, as of `runs`, with a journal that is written while the pool runs.
ghost use Rattle.std.specs.Prelude.{◌≡◌, [], ◌∷◌, true, reverse, IfOk, IfErr, IfSome};
ghost use Rattle.tp_book.specs.PassView.{PassView};
ghost use Rattle.tp_book.specs.Reports.{TellsRecord};
ghost use Rattle.tp_pool_holds.specs.Reports.{Reports};
ghost use Rattle.tp_journal.specs.Endings.{IfThrough};
ghost use Rattle.tp_journal.specs.Journals.{IsJournalOf};
ghost use Rattle.poolrun_program.specs.Runs.{AddsEnd, IsLife, IsRun, IsShort, RefusesRun, asked};

use crate::runs::{answered, close_with, end};
use crate::scripted::Scripted;
use crate::submissions::{Company, submit_all};
use std::alloc::Global;
use std::io::Write;
use std::marker::Brand;
use std::sync::Wait;
use std::thread::Threads;
use std::time::{Clock, Duration};
use tp_book::opening::Unopened;
use tp_book::passes::Pass;
use tp_journal::endings::{Stopped, Wish};
use tp_journal::journals::Journal;
use tp_pool::closing::Report;
use tp_pool::defaults::Defaults;
use tp_pool::names::PoolNaming;
use tp_scenario::jobs::{JobLine, Jobs};
use tp_types::configs::Config;
use tp_types::refusals::PoolError;

// The journal of a pool of scripted jobs.
type PoolJournal<G, V> = Journal<G, Scripted, Defaults, V>;

// Ends the pool and closes it with this pass, for which the list has room, as of a run without a journal.
fn closed<
    G: PoolNaming + Send + Sync + 'static,
    V: Write + Send + Drop + 'static,
    R: Threads + Wait + Clock + Copy + Send + 'static,
>(
    rt: &R,
    pool: Company<G>,
    started: PoolJournal<G, V>,
    patience: Duration,
    pass: Pass<G>,
    passes: Vec<Pass<G>>,
    journal: &mut Option<Stopped<V>>,
    kept: &mut Option<Report>,
) -> Result<Report, PoolError>
    requires alone { passes.items ≡ [] }
    ensures report { IfOk result (λ r. (new : PassView) × AddsEnd G.config pass new × Reports G.config (new ∷ []) r) }
    ensures front { IfOk result (λ r. IfSome journal.new (λ s. IfThrough s (IsJournalOf V.contents (V.contents started.thread.promise.writer.value) G.config (reverse r.entries.items)))) }
    ensures refused { IfErr result IsShort }
{
    let mut pass = pass;
    let over = end(rt, &pool, &mut pass);
    let stopped = started.stop_in(rt, &pool, patience, &mut pass);
    *journal = Some(stopped);
    answered(close_with(rt, pool, pass, passes, over), kept)
}

// The pool's life under a name of its own, as of a run without a journal.
fn life<
    G: PoolNaming + Send + Sync + 'static,
    V: Write + Send + Drop + 'static,
    R: Threads + Wait + Clock + Copy + Send + 'static,
>(
    rt: R,
    alloc: Global,
    unopened: Unopened,
    settings: Config,
    jobs: &[JobLine],
    wish: Wish<V>,
    journal: &mut Option<Stopped<V>>,
    kept: &mut Option<Report>,
) -> Result<Report, PoolError>
    requires named { unopened ≡ record { ledger = G.name; parts = G.parts; table = G.table } }
    requires settings { settings ≡ G.config }
    ensures run { IfOk result (IsLife TellsRecord true settings settings (asked jobs.now)) }
    ensures front { IfOk result (λ r. IfSome journal.new (λ s. IfThrough s (IsJournalOf V.contents (V.contents wish.writer) settings (reverse r.entries.items)))) }
    ensures refused { IfErr result (RefusesRun settings) }
{
    let mut passes = Vec::new(alloc);
    if passes.reserve(1).is_err() {
        return Err(PoolError::NoMemory);
    }
    let (pool, mut pass) = match Company::<G>::over(alloc, unopened, settings, Defaults) {
        Ok(opened) => opened,
        Err(error) => return Err(error),
    };
    let Wish {
        writer,
        every,
        patience,
    } = wish;
    let started = match PoolJournal::<G, V>::start(
        &rt, alloc, &pool, settings, &mut pass, writer, every,
    ) {
        Ok(started) => started,
        Err(fault) => {
            pool.let_go();
            return Err(fault.error);
        }
    };
    let submitted = submit_all(rt, &pool, jobs, &mut pass);
    let report = closed(&rt, pool, started, patience, pass, passes, journal, kept);
    match submitted {
        Ok(()) => report,
        Err(error) => {
            if let Ok(told) = report {
                *kept = Some(told);
            }
            Err(error)
        }
    }
}

/// Runs the jobs by threads, as `run_jobs` without a journal, with this one.
pub(crate) fn recorded<
    V: Write + Send + Drop + 'static,
    R: Threads + Wait + Clock + Copy + Send + 'static,
>(
    rt: R,
    alloc: Global,
    jobs: &Jobs,
    wish: Wish<V>,
    journal: &mut Option<Stopped<V>>,
    kept: &mut Option<Report>,
) -> Result<Report, PoolError>
    ensures run { IfOk result (IsRun jobs.now.config (asked jobs.now.jobs.items)) }
    ensures front { IfOk result (λ r. IfSome journal.new (λ s. IfThrough s (IsJournalOf V.contents (V.contents wish.writer) jobs.now.config (reverse r.entries.items)))) }
    ensures refused { IfErr result (RefusesRun jobs.now.config) }
{
    let unopened = match Unopened::new(alloc) {
        Ok(unopened) => unopened,
        Err(error) => return Err(error),
    };
    life::<Brand, V, R>(
        rt,
        alloc,
        unopened,
        jobs.config,
        jobs.jobs.as_slice(),
        wish,
        journal,
        kept,
    )
}
