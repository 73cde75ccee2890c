//! The jobs of a file are submitted, in their order.
ghost use Rattle.std.specs.Prelude.{◌≡◌, [], ◌∷◌, IfErr, OnOk};
ghost use Rattle.tp_record.specs.Step.{Legal};
ghost use Rattle.poolrun_program.specs.Runs.{AddsSubmissions, BreaksOff, IsTorn, asked, asked_of};

use crate::scripted::Scripted;
use std::sync::Wait;
use std::thread::Threads;
use tp_book::passes::Pass;
use tp_machine::machine::releases::Keeper;
use tp_pool::defaults::Defaults;
use tp_pool::names::PoolNaming;
use tp_pool::pool::PoolOf;
use tp_record::recorders::Full;
use tp_scenario::jobs::JobLine;
use tp_types::refusals::PoolError;
use tp_types::tasks::Kind;

/// A pool of scripted jobs, over `Full` unless `Tally` is named.
pub type Company<G, K = Full> = PoolOf<G, Scripted, Defaults, K>;

/// Receipts of one submission and of a pool's end, or more: they are reserved before each submission, so
/// that a pool can be ended where it was refused for want of memory.
const RECEIPTS: usize = 1_024;

// As what a job's task is submitted: its kind and its priority.
fn asked_of(job: &JobLine) -> (Kind, u32)
    ensures { result ≡ asked_of job.now }
{
    let kind = if job.future {
        Kind::Future
    } else {
        Kind::Plain
    };
    (kind, job.priority.unwrap_or(0))
}

// Submits a job, and follows it to the end of its submission; a rejected one has ended too. NoMemory (4) or
// BookFull (5), with nothing done, or TornRecord (22).
fn submit<
    G: PoolNaming + Send + Sync + 'static,
    K: Keeper + Send + 'static,
    R: Threads + Wait + Copy + Send + 'static,
>(rt: R, pool: &Company<G, K>, job: &JobLine, pass: &mut Pass<G>) -> Result<(), PoolError>
    ensures whole { OnOk result (AddsSubmissions (K.terms G.config) (asked_of job.now ∷ []) pass.old pass.new) }
    ensures refused { IfErr result (λ e. IsTorn K.RECEIPTS (K.terms G.config) (asked_of job.now) e pass.old pass.new) }
{
    if let Err(error) = pass.reserve(RECEIPTS) {
        return Err(error);
    }
    let scripted = Scripted {
        outcome: job.outcome,
    };
    let (kind, priority) = asked_of(job);
    match pool.execute_at(&rt, kind, priority, scripted, pass) {
        Ok(_) => Ok(()),
        Err(refused) => match refused.error {
            PoolError::Rejected(_) => Ok(()),
            error => Err(error),
        },
    }
}

/// Submits all these jobs, one after the other, up to the first that is refused otherwise than by the pool's
/// policy: NoMemory (4), BookFull (5) or TornRecord (22).
pub fn submit_all<
    G: PoolNaming + Send + Sync + 'static,
    K: Keeper + Send + 'static,
    R: Threads + Wait + Copy + Send + 'static,
>(rt: R, pool: &Company<G, K>, jobs: &[JobLine], pass: &mut Pass<G>) -> Result<(), PoolError>
    requires legal { Legal (K.terms G.config) pass.old.front }
    ensures whole { OnOk result (AddsSubmissions (K.terms G.config) (asked jobs.now) pass.old pass.new) }
    ensures refused { IfErr result (λ e. BreaksOff K.RECEIPTS (K.terms G.config) (asked jobs.now) e pass.old pass.new) }
{
    for job in jobs {
        if let Err(error) = submit(rt, pool, job, pass) {
            return Err(error);
        }
    }
    Ok(())
}
