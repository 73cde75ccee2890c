//! Submissions that wait for room, and those that look for it first.
ghost use Rattle.std.specs.Prelude.{◌≡◌};

use crate::compare::same;
use crate::harness::batches::{Seven, count_sevens, ended, sevens};
use crate::harness::boards::{Board, Signal};
use crate::harness::users::{MANNER, Manner, Stance, Users};
use std::alloc::Global;
use std::marker::Brand;
use std::process::Abort;
use std::test::Fail;
use std::time::{Clock, Duration};
use tp_pool::names::PoolNaming;
use tp_pool::prelude::*;

// The jobs of a batch.
const JOBS: u32 = 10_000;

const QUEUES: [QueueKind; 4] = [
    QueueKind::Bounded(1),
    QueueKind::Bounded(2),
    QueueKind::Bounded(64),
    QueueKind::Handoff,
];

const POLICIES: [Policy; 5] = [
    Policy::Abort,
    Policy::CallerRuns,
    Policy::Discard,
    Policy::DiscardOldest,
    Policy::Own,
];

// How many of a batch's jobs answer 7, and how many of them the pool's workers ran.
fn batch<R: Runtime>(
    rt: &R,
    alloc: Global,
    queue: QueueKind,
    policy: Policy,
) -> Result<(u32, u32), PoolError> {
    let settings = Config {
        queue,
        policy,
        ..Config::fixed(2)
    };
    let jobs = sevens(alloc, JOBS)?;
    let (answers, report) = run_all_with_tally(rt, alloc, settings, Defaults, jobs)?;
    Ok((count_sevens(answers.as_slice()), report.counts.run))
}

#[test]
fn no_batch_is_refused_by_its_own_haste(rt: HostRuntime) -> Result<(), Fail> {
    let mut line = 0usize;
    for queue in QUEUES {
        for policy in POLICIES {
            let ran = batch(&rt, rt.alloc(), queue, policy)?;
            same(&rt, line, &ran, &(JOBS, JOBS));
            line = line.saturating_add(1);
        }
    }
    Ok(())
}

type Small<G> = PoolOf<G, Any<Seven>, Users>;

// The refusal of a submission, and whether its job came back.
fn refusal<J: Drop>(submitted: Result<Admitted, Refused<J>>) -> Option<(PoolError, bool)> {
    match submitted {
        Ok(_) => None,
        Err(refused) => Some((refused.error, refused.job.is_some())),
    }
}

// Against a full pool: what comes of a try, of one for a while, and how many steps both made; and of one that waits, once there is room.
fn tries<G: PoolName, R: Runtime + Clock>(
    rt: &R,
    pool: &Small<G>,
    board: &Board,
    pass: &mut Pass<G>,
) -> Result<([Option<(PoolError, bool)>; 3], u64, bool), PoolError> {
    for _ in 0..2 {
        let _ = pool.execute_as(rt, Kind::Plain, Any(Seven), pass)?;
    }
    board.reaches(Signal::Came, 1);
    let before = pool.steps(rt);
    let at_once = refusal(pool.try_execute(rt, Kind::Plain, Any(Seven), pass));
    let most = Duration::from_millis(2);
    let soon = refusal(pool.execute_when_room_for(rt, Kind::Plain, most, Any(Seven), pass));
    let made = pool.steps(rt).saturating_sub(before);
    let has_room = pool.has_room(rt);
    board.put(Signal::Open, 1);
    let later = refusal(pool.execute_when_room(rt, Kind::Plain, Any(Seven), pass));
    Ok(([at_once, soon, later], made, has_room))
}

// The pool's whole life: one worker, which is held before its first body, and one place in the queue.
fn life<G: PoolNaming + Send + Sync + 'static, R: Runtime + Clock + Abort>(
    rt: &R,
    alloc: Global,
    unopened: Unopened,
    settings: Config,
) -> Result<(), PoolError>
    requires named { unopened ≡ record { ledger = G.name; parts = G.parts; table = G.table } }
    requires settings { settings ≡ G.config }
{
    let board = Board::new(alloc)?;
    let held = Manner {
        stance: Stance::Held,
        ..MANNER
    };
    let users = Users::new(held, &board)?;
    let (pool, mut pass) = Small::<G>::over(alloc, unopened, settings, users)?;
    let came = tries(rt, &pool, &board, &mut pass);
    board.put(Signal::Open, 1);
    let closed = ended(rt, pool, pass);
    let (refused, made, has_room) = came?;
    let late = Some((PoolError::TimedOut, true));
    same(rt, 0, &refused, &[late, late, None]);
    same(rt, 1, &(made, has_room), &(0, false));
    same(rt, 2, &closed?.counts.run, &3);
    Ok(())
}

#[test]
fn a_full_pool_is_left_as_it_is_by_who_looks_first(rt: HostRuntime) -> Result<(), Fail> {
    let settings = Config {
        queue: QueueKind::Bounded(1),
        ..Config::fixed(1)
    };
    let unopened = Unopened::new(rt.alloc())?;
    life::<Brand, HostRuntime>(&rt, rt.alloc(), unopened, settings)?;
    Ok(())
}
