//! A pool that runs with queued tasks and has no worker, since one could not be made in its time.
ghost use Rattle.std.specs.Prelude.{◌≡◌};

use crate::compare::same;
use crate::harness::batches::ended;
use crate::harness::boards::{Board, Signal, shared};
use std::alloc::Global;
use std::marker::Brand;
use std::process::Abort;
use std::sync::{Arc, Wait};
use std::test::Fail;
use tp_pool::names::PoolNaming;
use tp_pool::prelude::*;

// The factory consents to the first worker, refuses so many, and consents to all others.
#[derive(Drop)]
struct Refuses {
    count: u64,
    board: Arc<Board>,
}

impl Edge for Refuses {
    fn allow<R: Wait>(&self, _rt: &R, _w: SlotId) -> bool {
        let asked = self.board.raise(Signal::Wanted);
        asked == 0 || asked > self.count
    }
}

// A body.
#[derive(Drop)]
enum Chore {
    // It faults, once the tasks behind it are queued.
    Faults(Arc<Board>),
    // It answers 7.
    Seven,
}

impl Body for Chore {
    fn run(&mut self, _cancel: &CancelFlag) -> Outcome {
        match self {
            Chore::Faults(board) => {
                board.reaches(Signal::Open, 1);
                Err(7)
            }
            Chore::Seven => Ok(7),
        }
    }
}

type Hired<G> = PoolOf<G, Any<Chore>, Refuses>;

// A worker's thread dies of a fault, with so many futures queued behind it. Its heir is refused, and it asks once more for each of them:
// so many workers are refused in all, and so many live then.
struct Death {
    refused: u64,
    futures: u32,
    live: u32,
}

const DEATHS: [Death; 4] = [
    Death {
        refused: 0,
        futures: 1,
        live: 1,
    },
    Death {
        refused: 1,
        futures: 1,
        live: 1,
    },
    Death {
        refused: 2,
        futures: 2,
        live: 1,
    },
    Death {
        refused: 3,
        futures: 2,
        live: 0,
    },
];

// Submits a task that faults, and the futures behind it.
fn submit_all<G: PoolName, R: Runtime>(
    rt: &R,
    pool: &Hired<G>,
    board: &Arc<Board>,
    futures: u32,
    pass: &mut Pass<G>,
) -> Result<(), PoolError> {
    let faults = Any(Chore::Faults(shared(board)?));
    let _ = pool.execute_as(rt, Kind::Plain, faults, pass)?;
    for _ in 0..futures {
        let _ = pool.execute_as(rt, Kind::Future, Any(Chore::Seven), pass)?;
    }
    board.put(Signal::Open, 1);
    Ok(())
}

// Waits until the factory was asked so often and no worker is left, or for long: whether that came to be.
fn is_left<G: PoolName, R: Runtime>(rt: &R, pool: &Hired<G>, board: &Board, asked: u64) -> bool {
    board.reaches(Signal::Wanted, asked)
        && {
            for _ in 0..1_000_000u32 {
                if pool.is_unstaffed(rt) {
                    return true;
                }
                std::thread::yield_now();
            }
            false
        }
}

// What comes of a death, in a pool with one worker: whether it was left without one, and how many futures answered 7 in the end.
fn lived<G: PoolName, R: Runtime>(
    rt: &R,
    pool: &Hired<G>,
    board: &Arc<Board>,
    death: &Death,
    pass: &mut Pass<G>,
) -> Result<(bool, u32), PoolError> {
    submit_all(rt, pool, board, death.futures, pass)?;
    let left = death.live == 0 && is_left(rt, pool, board, death.refused.saturating_add(1));
    if left {
        let _ = pool.prestart_core(rt, pass)?;
    }
    let mut sevens = 0u32;
    for t in 1..=death.futures {
        if pool.await_result_with(rt, TaskId(t), None, pass)? == 7 {
            sevens = sevens.saturating_add(1);
        }
    }
    Ok((left, sevens))
}

// The pool's whole life.
fn life<G: PoolNaming + Send + Sync + 'static, R: Runtime + Abort>(
    rt: &R,
    alloc: Global,
    unopened: Unopened,
    settings: Config,
    line: usize,
    death: &Death,
) -> Result<(), PoolError>
    requires named { unopened ≡ record { ledger = G.name; parts = G.parts; table = G.table } }
    requires settings { settings ≡ G.config }
{
    let board = Board::new(alloc)?;
    let edge = Refuses {
        count: death.refused,
        board: shared(&board)?,
    };
    let (pool, mut pass) = Hired::<G>::over(alloc, unopened, settings, edge)?;
    let came = lived(rt, &pool, &board, death, &mut pass);
    let closed = ended(rt, pool, pass);
    let (left, sevens) = came?;
    let counts = closed?.counts;
    same(rt, line, &left, &(death.live == 0));
    let run = death.futures.saturating_add(1);
    same(rt, line, &(sevens, counts.run), &(death.futures, run));
    Ok(())
}

// The life of a pool of its own.
fn dies<R: Runtime + Abort>(
    rt: &R,
    alloc: Global,
    line: usize,
    death: &Death,
) -> Result<(), PoolError> {
    let unopened = Unopened::new(alloc)?;
    life::<Brand, R>(rt, alloc, unopened, Config::fixed(1), line, death)
}

#[test]
fn queued_futures_get_a_worker_while_their_pool_runs(rt: HostRuntime) -> Result<(), Fail> {
    for (line, death) in DEATHS.iter().enumerate() {
        dies(&rt, rt.alloc(), line, death)?;
    }
    Ok(())
}
