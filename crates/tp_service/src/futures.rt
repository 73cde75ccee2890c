//! Jobs with a future, and the answers of their futures.
ghost use Rattle.std.specs.Prelude.{◌≡◌, ◌⊎◌, Some, None, IfOk, IfErr, OnOk};
ghost use Rattle.tp_types.specs.declared.tasks.Kind.TheVariants.{Future};
ghost use Rattle.tp_machine_state.specs.Releases.{IsKept};
ghost use Rattle.tp_glance.specs.Word.{IsFrontOf};
ghost use Rattle.tp_book.specs.BookView.{left_of};
ghost use Rattle.tp_pool_holds.specs.Readings.{got, IsFound, IsRelease, IsResult};
ghost use Rattle.tp_pool_holds.specs.Moments.{BookAt, BookAtSome, BookOf};
ghost use Rattle.tp_pool_holds.specs.Passes.{LooksOnly};
ghost use Rattle.tp_pool_holds.specs.declared.tasks.Payload.{Payload};
ghost use Rattle.tp_pool.specs.Timed.{IsFoundInTime};
ghost use Rattle.tp_pool.specs.Admissions.{AtPriority, IsTurnedAway};
ghost use Rattle.tp_pool.specs.Submissions.{AddsJob};

use std::sync::Wait;
use std::thread::Threads;
use std::time::{Clock, Duration};
use tp_book::passes::Pass;
use tp_machine::machine::releases::Keeper;
use tp_pool::answers::Refused;
use tp_pool::edges::Edge;
use tp_pool::jobs::Job;
use tp_pool::names::PoolNaming;
use tp_pool::pool::PoolOf;
use tp_pool::task_of;
use tp_record::recorders::{Recorder, Tally};
use tp_types::ids::TaskId;
use tp_types::refusals::PoolError;
use tp_types::tasks::Kind;

/// Submits a job with a future, as `ExecutorService.submit`, and answers its task's number, also where its
/// submitter ran it or the policy discarded it. NoMemory (4) or BookFull (5), with the job and with nothing
/// done; Rejected (12), with the job where it was not cancelled; TornRecord (22), which does not come as long
/// as the pool's book is sound.
pub fn submit<
    G: PoolNaming + Send + Sync + 'static,
    J: Job + 'static,
    E: Edge + Send + Sync + 'static,
    K: Keeper + Send + 'static,
    R: Threads + Wait + Copy + Send + 'static,
>(pool: &PoolOf<G, J, E, K>, rt: &R, job: J, pass: &mut Pass<G>) -> Result<TaskId, Refused<J>>
    ensures submitted { IfOk result (λ t. AddsJob (K.terms G.config) Future job (J.promised job) (J.urgency job) t pass.old pass.new) }
    ensures refused { IfErr result (λ r. AtPriority (J.urgency job) (λ p. IsTurnedAway K.RECEIPTS (K.terms G.config) Future p job (J.promised job) pass.old pass.new r)) }
{
    match pool.execute_as(rt, Kind::Future, job, pass) {
        Ok(admitted) => Ok(task_of(admitted)),
        Err(refused) => Err(refused),
    }
}

/// Waits until a future is not open any more, and answers its value, as `Future.get`. It makes no step.
///
/// UnknownTask (6) where no submission got this number; NotFuture (9) for a plain task; CancelledTask (13),
/// as a `CancellationException`; Faulted (14) with the fault's code, as an `ExecutionException`; Lost (15)
/// with the fate of a task that left without running, at which Java waits for ever.
pub fn get<G: PoolNaming, J: Job, E: Edge, K: Keeper, R: Wait>(
    pool: &PoolOf<G, J, E, K>,
    rt: &R,
    t: TaskId,
) -> Result<i64, PoolError>
    ensures { BookAtSome (Payload J) (K.terms G.config) (λ b. IsFound b t.0 K.RECEIPTS None (got result)) }
{
    pool.await_result(rt, t, None)
}

/// As `get`, but until now has reached this moment, in ticks, as `Future.get` with a timeout. TimedOut (16)
/// comes then, and only while the future is open: a value that is there is worth more than a refusal.
pub fn get_until<G: PoolNaming, J: Job, E: Edge, K: Keeper, R: Wait>(
    pool: &PoolOf<G, J, E, K>,
    rt: &R,
    t: TaskId,
    deadline: u64,
) -> Result<i64, PoolError>
    ensures { BookAtSome (Payload J) (K.terms G.config) (λ b. IsFound b t.0 K.RECEIPTS (Some deadline) (got result)) }
{
    pool.await_result(rt, t, Some(deadline))
}

/// The answer of a future in one look, as `Future.isDone` and then `get`: None while it is open. Refused as
/// `get`.
pub fn try_get<G: PoolNaming, J: Job, E: Edge, K: Keeper, R: Wait>(
    pool: &PoolOf<G, J, E, K>,
    rt: &R,
    t: TaskId,
) -> Result<Option<i64>, PoolError>
    ensures { BookAtSome (Payload J) (K.terms G.config) (λ b. IsResult b t.0 K.RECEIPTS result) }
{
    pool.result(rt, t)
}

/// As `get`, with a pass: the answer is that at the end of the record that the pass knows then, which goes on
/// from the one that it knew.
pub fn get_with<G: PoolNaming, J: Job, E: Edge, K: Keeper, R: Wait>(
    pool: &PoolOf<G, J, E, K>,
    rt: &R,
    t: TaskId,
    pass: &mut Pass<G>,
) -> Result<i64, PoolError>
    ensures reads { BookOf (Payload J) (K.terms G.config) pass.new (λ b. IsFound b t.0 K.RECEIPTS None (got result)) }
    ensures looks { LooksOnly (K.terms G.config) pass.old pass.new }
    ensures knew { IsFrontOf pass.old.released pass.new.released }
{
    pool.await_result_with(rt, t, None, pass)
}

/// As `get_until`, with a pass, as `get_with`.
pub fn get_until_with<G: PoolNaming, J: Job, E: Edge, K: Keeper, R: Wait>(
    pool: &PoolOf<G, J, E, K>,
    rt: &R,
    t: TaskId,
    deadline: u64,
    pass: &mut Pass<G>,
) -> Result<i64, PoolError>
    ensures reads { BookOf (Payload J) (K.terms G.config) pass.new (λ b. IsFound b t.0 K.RECEIPTS (Some deadline) (got result)) }
    ensures looks { LooksOnly (K.terms G.config) pass.old pass.new }
    ensures knew { IsFrontOf pass.old.released pass.new.released }
{
    pool.await_result_with(rt, t, Some(deadline), pass)
}

/// As `get_with`, but for at most so long by the clock, as `Future.get` with a timeout. It makes no tick. TimedOut (16) where the time
/// is over, or the clock can't be read, and the future is open.
pub fn get_for<G: PoolNaming, J: Job, E: Edge, K: Keeper, R: Wait + Clock>(
    pool: &PoolOf<G, J, E, K>,
    rt: &R,
    t: TaskId,
    most: Duration,
    pass: &mut Pass<G>,
) -> Result<i64, PoolError>
    ensures reads { BookOf (Payload J) (K.terms G.config) pass.new (λ b. IsFoundInTime b t.0 K.RECEIPTS (got result)) }
    ensures looks { LooksOnly (K.terms G.config) pass.old pass.new }
    ensures knew { IsFrontOf pass.old.released pass.new.released }
{
    pool.await_result_for(rt, t, most, pass)
}

/// As `try_get`, with a pass, as `get_with`.
pub fn try_get_with<G: PoolNaming, J: Job, E: Edge, K: Keeper, R: Wait>(
    pool: &PoolOf<G, J, E, K>,
    rt: &R,
    t: TaskId,
    pass: &mut Pass<G>,
) -> Result<Option<i64>, PoolError>
    ensures reads { BookOf (Payload J) (K.terms G.config) pass.new (λ b. IsResult b t.0 K.RECEIPTS result) }
    ensures looks { LooksOnly (K.terms G.config) pass.old pass.new }
    ensures knew { IsFrontOf pass.old.released pass.new.released }
{
    pool.result_with(rt, t, pass)
}

/// Has a pool that keeps no record forget a task, whose future was asked for the last time. It makes no step
/// and takes no memory; Java's collector needs no such call. The pass knows the record as it is then.
///
/// UnknownTask (6) where no submission got this number, or the task was released before; NotThere (8) where
/// it is not gone, where its submission is still under way, or where it is of a group and was not taken. From
/// then on each call that names the task is refused with UnknownTask (6).
pub fn release<G: PoolNaming, J: Job, E: Edge, R: Wait>(
    pool: &PoolOf<G, J, E, Tally>,
    rt: &R,
    t: TaskId,
    pass: &mut Pass<G>,
) -> Result<(), PoolError>
    ensures released { OnOk result (BookAt (Payload J) (⟦<Tally as Recorder>⟧.terms G.config) pass.new.front (λ b. IsRelease b t.0 pass.new.released)) }
    ensures kept { IfErr result (λ e. BookOf (Payload J) (⟦<Tally as Recorder>⟧.terms G.config) pass.new (λ b. IsKept (left_of b) t.0 e)) }
    ensures refused { IfErr result (λ e. (e ≡ PoolError.UnknownTask) ⊎ (e ≡ PoolError.NotThere)) }
    ensures shown { pass.new ≡ record pass.old { front = pass.new.front; released = pass.new.released } }
    ensures goes_on { IsFrontOf pass.old.front pass.new.front }
    ensures knew { IsFrontOf pass.old.released pass.new.released }
{
    pool.release(rt, t, pass)
}
