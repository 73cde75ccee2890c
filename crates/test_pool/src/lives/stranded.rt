//! Tasks for which no worker can be made, or none any more. What ends their pool stops it, and tells that each of them is lost.
ghost use Rattle.std.specs.Prelude.{◌≡◌};

use crate::compare::same;
use crate::harness::batches::{count_sevens, ended, sevens};
use crate::harness::boards::Board;
use crate::harness::users::{MANNER, Manner, Users};
use std::alloc::Global;
use std::marker::Brand;
use std::process::Abort;
use std::test::Fail;
use std::thread;
use tp_pool::names::PoolNaming;
use tp_pool::prelude::*;

// The factory refuses each worker; or no thread can be made, since none has room for such a stack.
const REFUSES: Manner = Manner {
    consents: 0,
    ..MANNER
};

const NO_ROOM: Manner = Manner {
    stack: usize::MAX,
    ..MANNER
};

// A pool's settings, why no worker is made, and how many of its three jobs are lost to the stop. The others are rejected.
struct Life {
    core: u32,
    queue: QueueKind,
    manner: Manner,
    lost: u32,
}

const LIVES: [Life; 5] = [
    Life {
        core: 1,
        queue: QueueKind::Unbounded,
        manner: NO_ROOM,
        lost: 3,
    },
    Life {
        core: 1,
        queue: QueueKind::Unbounded,
        manner: REFUSES,
        lost: 3,
    },
    // At core size 0 no worker is asked for at the shutdown.
    Life {
        core: 0,
        queue: QueueKind::Unbounded,
        manner: NO_ROOM,
        lost: 3,
    },
    Life {
        core: 1,
        queue: QueueKind::Bounded(2),
        manner: NO_ROOM,
        lost: 2,
    },
    // Nothing is queued, so nothing is stranded.
    Life {
        core: 1,
        queue: QueueKind::Handoff,
        manner: NO_ROOM,
        lost: 0,
    },
];

// The answer of the job of this number.
fn answer_of(number: u32, lost: u32) -> Answer {
    Err(if number < lost {
        PoolError::Lost(Fate::HandedBack)
    } else {
        PoolError::Rejected(TaskId(number))
    })
}

// What is told of three jobs, and what the counters say, is as the life has it.
fn tells<R: Abort>(rt: &R, line: usize, life: &Life, answers: &[Answer], counts: Counts) {
    let mut number = 0u32;
    for answer in answers {
        same(rt, line, answer, &answer_of(number, life.lost));
        number = number.saturating_add(1);
    }
    same(
        rt,
        line,
        &(number, counts.handedback, counts.run, counts.live),
        &(3, life.lost, 0, 0),
    );
}

// The jobs run on a pool that keeps its record, and on one that keeps none.
fn lives<R: Abort + Runtime>(rt: R, alloc: Global, line: usize, life: &Life) -> Result<(), Fail> {
    let settings = Config {
        core: life.core,
        maximum: 2,
        queue: life.queue,
        ..Config::fixed(2)
    };
    let users = Users::new(life.manner, &Board::new(alloc)?)?;
    let (answers, report) = run_all(&rt, alloc, settings, users, sevens(alloc, 3)?)?;
    tells(&rt, line, life, answers.as_slice(), report.counts);
    let users = Users::new(life.manner, &Board::new(alloc)?)?;
    let (answers, report) = run_all_with_tally(&rt, alloc, settings, users, sevens(alloc, 3)?)?;
    tells(&rt, line, life, answers.as_slice(), report.counts);
    same(&rt, line, &report.unended, &0);
    Ok(())
}

#[test]
fn jobs_without_workers_are_lost(rt: HostRuntime) -> Result<(), Fail> {
    for (line, life) in LIVES.iter().enumerate() {
        lives(rt, rt.alloc(), line, life)?;
    }
    Ok(())
}

// A plain job that takes its time, so that its pool is shut down meanwhile, and then faults: its worker ends.
#[derive(Drop)]
struct Faults;

impl Body for Faults {
    fn run(&mut self, _cancel: &CancelFlag) -> Outcome {
        for _ in 0..100_000u32 {
            thread::yield_now();
        }
        Err(7)
    }
}

type Faulty<G> = PoolOf<G, Any<Faults>, Users>;

// Three such jobs on a pool with one worker, in whose place none is made.
fn three_faults<G: PoolNaming + Send + Sync + 'static, R: Runtime>(
    rt: &R,
    alloc: Global,
    unopened: Unopened,
    settings: Config,
    users: Users,
) -> Result<Report, PoolError>
    requires named { unopened ≡ record { ledger = G.name; parts = G.parts; table = G.table } }
    requires settings { settings ≡ G.config }
{
    let (pool, mut pass) = Faulty::<G>::over(alloc, unopened, settings, users)?;
    for _ in 0..3 {
        let _ = pool.execute_as(rt, Kind::Plain, Any(Faults), &mut pass);
    }
    ended(rt, pool, pass)
}

#[test]
fn tasks_that_a_failed_worker_leaves_are_handed_back(rt: HostRuntime) -> Result<(), Fail> {
    let once = Manner {
        consents: 1,
        ..MANNER
    };
    let users = Users::new(once, &Board::new(rt.alloc())?)?;
    let unopened = Unopened::new(rt.alloc())?;
    let settings = Config::fixed(1);
    let report = three_faults::<Brand, HostRuntime>(&rt, rt.alloc(), unopened, settings, users)?;
    same(
        &rt,
        0,
        &(report.counts.run, report.counts.handedback),
        &(1, 2),
    );
    Ok(())
}

// More jobs than the settings' record has room for.
const MANY: u32 = 2_000;

#[test]
fn without_a_record_any_number_of_jobs_runs(rt: HostRuntime) -> Result<(), Fail> {
    let jobs = sevens(rt.alloc(), MANY)?;
    let settings = Config {
        record_limit: 64,
        ..Config::fixed(2)
    };
    let (answers, report) = run_all_with_tally(&rt, rt.alloc(), settings, Defaults, jobs)?;
    let ran = count_sevens(answers.as_slice());
    same(
        &rt,
        0,
        &(ran, report.counts.run, report.unended),
        &(MANY, MANY, 0),
    );
    Ok(())
}
