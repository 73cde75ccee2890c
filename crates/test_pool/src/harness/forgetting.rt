//! Lives of pools that keep no record.
ghost use Rattle.std.specs.Prelude.{◌≡◌};

use crate::compare::same;
use crate::harness::boards::Board;
use crate::harness::calls::Tested;
use crate::harness::chores::{Work, chores};
use crate::harness::findings::missing;
use crate::harness::lives::manner_of;
use crate::harness::playing::does;
use crate::harness::scripts::{Life, Step};
use crate::harness::serving::invokes;
use crate::harness::users::Users;
use std::alloc::Global;
use std::marker::Brand;
use std::process::Abort;
use std::sync::{Arc, Wait};
use std::test::Fail;
use std::time::Clock;
use tp_book::opening::Unopened;
use tp_book::passes::Pass;
use tp_pool::callers::{PoolName, Runtime};
use tp_pool::closing::TallyReport;
use tp_pool::names::PoolNaming;
use tp_record::recorders::Tally;
use tp_service::futures::release;
use tp_service::invoking::invoke_all;
use tp_types::configs::Config;
use tp_types::ids::TaskId;
use tp_types::refusals::PoolError;

type Forgetful<G> = Tested<G, Tally>;

fn releases<G: PoolName, R: Wait>(
    rt: &R,
    pool: &Forgetful<G>,
    tasks: &[TaskId],
    pass: &mut Pass<G>,
) -> bool {
    for t in tasks {
        if release(pool, rt, *t, pass).is_err() {
            return false;
        }
    }
    true
}

// Has these jobs run, all of them or up to one that is rejected, and releases each task whose number comes back.
fn releases_all<G: PoolName, R: Runtime>(
    rt: &R,
    alloc: Global,
    pool: &Forgetful<G>,
    board: &Arc<Board>,
    deeds: &[Work],
    pass: &mut Pass<G>,
) -> bool {
    let Ok(jobs) = chores(alloc, board, deeds) else {
        return false;
    };
    match invoke_all(pool, rt, alloc, jobs, pass) {
        Ok(tasks) => releases(rt, pool, tasks.as_slice(), pass),
        Err(PoolError::Rejected(t)) => release(pool, rt, t, pass).is_ok(),
        Err(_) => false,
    }
}

// Makes the step: whether it is answered as it says.
fn makes<G: PoolName, R: Clock + Runtime>(
    rt: &R,
    alloc: Global,
    pool: &Forgetful<G>,
    board: &Arc<Board>,
    step: Step,
    pass: &mut Pass<G>,
) -> bool {
    match step {
        Step::Many(many) => invokes(rt, alloc, pool, board, many, pass),
        Step::Releases(deeds) => releases_all(rt, alloc, pool, board, deeds, pass),
        Step::Release(t, answer) => release(pool, rt, TaskId(t), pass) == answer,
        Step::Keeps(tasks) => pool.kept(rt) == tasks,
        Step::KeepsAtMost(tasks) => pool.kept(rt) <= tasks,
        _ => does(rt, pool, board, step, pass),
    }
}

fn play<G: PoolName, R: Abort + Clock + Runtime>(
    rt: &R,
    alloc: Global,
    pool: &Forgetful<G>,
    board: &Arc<Board>,
    steps: &[Step],
    pass: &mut Pass<G>,
) {
    for (line, step) in steps.iter().enumerate() {
        let made = makes(rt, alloc, pool, board, *step, pass);
        same(rt, line, &made, &true);
    }
}

// Opens a pool under its name, has its one caller play, and closes it.
fn live<G: PoolNaming + Send + Sync + 'static, R: Abort + Clock + Runtime>(
    rt: &R,
    alloc: Global,
    unopened: Unopened,
    settings: Config,
    users: Users,
    board: &Arc<Board>,
    life: &Life,
) -> Result<TallyReport, PoolError>
    requires named { unopened ≡ record { ledger = G.name; parts = G.parts; table = G.table } }
    requires settings { settings ≡ G.config }
{
    let (pool, mut pass) = Forgetful::<G>::over(alloc, unopened, settings, users)?;
    play(rt, alloc, &pool, board, life.first, &mut pass);
    for _ in 0..life.rounds {
        play(rt, alloc, &pool, board, life.middle, &mut pass);
    }
    play(rt, alloc, &pool, board, life.last, &mut pass);
    pool.close_one(rt, pass).map_err(|fault| fault.let_go())
}

// Has a pool live under a name of its own, and finds what it left: no task without a fate.
fn lived<R: Abort + Clock + Runtime>(
    rt: &R,
    alloc: Global,
    life: &Life,
    number: u32,
) -> Result<(), PoolError> {
    let board = Board::new(alloc)?;
    let users = Users::new(manner_of(life, number), &board)?;
    let unopened = Unopened::new(alloc)?;
    let report = live::<Brand, R>(rt, alloc, unopened, life.settings, users, &board, life)?;
    let seen = (
        report.unended,
        missing(report.counts, &[], &board, life.findings),
    );
    same(rt, 0, &seen, &(0, None));
    Ok(())
}

/// Has pools live so, one after the other, so many times each.
pub fn forgetful_lives<R: Abort + Clock + Runtime>(
    rt: &R,
    alloc: Global,
    lives: &[Life],
) -> Result<(), Fail> {
    for life in lives {
        for number in 0..life.times {
            lived(rt, alloc, life, number)?;
        }
    }
    Ok(())
}
