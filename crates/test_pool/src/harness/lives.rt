//! How a pool is opened, lives, and is closed.
ghost use Rattle.std.specs.Prelude.{◌≡◌};

use crate::compare::same;
use crate::harness::boards::{Board, Signal};
use crate::harness::calls::Tested;
use crate::harness::chores::Chore;
use crate::harness::findings::missing;
use crate::harness::playing::{makes, play};
use crate::harness::scripts::{Life, Refusal, Turn, Yields};
use crate::harness::users::{Manner, Users};
use std::alloc::Global;
use std::marker::Brand;
use std::process::Abort;
use std::sync::{Arc, Wait};
use std::test::Fail;
use std::time::Clock;
use tp_book::opening::Unopened;
use tp_book::passes::Pass;
use tp_pool::callers::{PoolName, Runtime, in_two};
use tp_pool::closing::{CloseFault, Report};
use tp_pool::names::PoolNaming;
use tp_record::packed::unpacked;
use tp_types::configs::Config;
use tp_types::refusals::PoolError;

// One more pass, split from the last one.
fn split_last<G: PoolName, R: Wait>(
    rt: &R,
    pool: &Tested<G>,
    passes: &mut Vec<Pass<G>>,
) -> Result<Pass<G>, PoolError> {
    match passes.last_mut() {
        Some(last) => pool.split_pass(rt, last),
        None => Err(PoolError::MissingPass),
    }
}

// The passes of so many callers, in the order of their numbers.
fn passes_of<G: PoolName, R: Abort + Wait>(
    rt: &R,
    alloc: Global,
    pool: &Tested<G>,
    first: Pass<G>,
    callers: usize,
) -> Result<Vec<Pass<G>>, PoolError> {
    let mut passes = Vec::with_capacity(alloc, callers)?;
    let _ = passes.push(first);
    for at in 1..callers {
        let pass = split_last(rt, pool, &mut passes)?;
        same(rt, at, &(pass.number() as usize), &at);
        let _ = passes.push(pass);
    }
    Ok(passes)
}

// Plays these lines, each with the pass of its caller.
fn take_turns<G: PoolName, R: Abort + Clock + Runtime>(
    rt: &R,
    alloc: Global,
    pool: &Tested<G>,
    board: &Arc<Board>,
    turns: &[Turn],
    passes: &mut Vec<Pass<G>>,
) {
    for (line, (caller, step)) in turns.iter().enumerate() {
        let made = match passes.get_mut(*caller) {
            Some(pass) => makes(rt, alloc, pool, board, *step, pass),
            None => false,
        };
        same(rt, line, &made, &true);
    }
}

// Plays the lines of the first caller, or of the one beside it.
fn plays<G: PoolName, R: Abort + Clock + Runtime>(
    rt: &R,
    alloc: Global,
    pool: &Tested<G>,
    board: &Arc<Board>,
    life: &Life,
    is_first: bool,
    pass: &mut Pass<G>,
) {
    if !is_first {
        for part in life.beside {
            play(rt, alloc, pool, board, part, pass);
        }
        return;
    }
    play(rt, alloc, pool, board, life.first, pass);
    for _ in 0..life.rounds {
        play(rt, alloc, pool, board, life.middle, pass);
    }
    play(rt, alloc, pool, board, life.last, pass);
}

// Two callers play, each in a thread of its own. They share one closure: each is proved anew.
fn plays_both<G: PoolName, R: Abort + Clock + Runtime>(
    rt: R,
    alloc: Global,
    pool: &Tested<G>,
    board: &Arc<Board>,
    life: &Life,
    (first, second): (Pass<G>, Pass<G>),
) -> (Pass<G>, Pass<G>) {
    let act = move |pool: &Tested<G>, (is_first, pass): (bool, Pass<G>)| {
        let mut pass = pass;
        plays(&rt, alloc, pool, board, life, is_first, &mut pass);
        pass
    };
    in_two(&rt, pool, (true, first), (false, second), &act, &act)
}

// All callers play. Nothing returns early here, since each early return would have to let the pool go.
fn act<G: PoolName, R: Abort + Clock + Runtime>(
    rt: R,
    alloc: Global,
    pool: &Tested<G>,
    board: &Arc<Board>,
    life: &Life,
    passes: &mut Vec<Pass<G>>,
) {
    if !life.beside.is_empty() {
        if let (Some(second), Some(first)) = (passes.pop(), passes.pop()) {
            let (first, second) = plays_both(rt, alloc, pool, board, life, (first, second));
            let _ = passes.push(first);
            let _ = passes.push(second);
        }
        return;
    }
    take_turns(&rt, alloc, pool, board, life.turns, passes);
    if let Some(first) = passes.first_mut() {
        plays(&rt, alloc, pool, board, life, true, first);
    }
}

// Puts a pass back that was withheld.
fn put_back<G: PoolName>(passes: &mut Vec<Pass<G>>, withheld: Option<Pass<G>>, exchanged: bool) {
    let last = if exchanged { passes.pop() } else { None };
    for pass in [withheld, last] {
        if let Some(pass) = pass {
            let _ = passes.push(pass);
        }
    }
}

// The pool and the passes of a close that is refused so.
fn refused<G: PoolName, R: Abort>(
    rt: &R,
    closed: Result<Report, CloseFault<G, Chore, Users>>,
    error: PoolError,
) -> (Tested<G>, Vec<Pass<G>>) {
    match closed {
        Ok(_) => rt.panic("closed in place of a refusal"),
        Err(
            CloseFault {
                error: found,
                pool,
                passes,
            },
        ) => {
            same(rt, 0, &found, &error);
            (pool, passes)
        }
    }
}

// Closes the pool, which is refused: it comes back, with its passes.
fn refuse<G: PoolName, R: Abort + Clock + Runtime>(
    rt: &R,
    alloc: Global,
    pool: Tested<G>,
    board: &Arc<Board>,
    passes: Vec<Pass<G>>,
    refusal: &Refusal,
) -> (Tested<G>, Vec<Pass<G>>) {
    let mut passes = passes;
    let withheld = if refusal.withholds {
        passes.pop()
    } else {
        None
    };
    let (pool, mut passes) = refused(rt, pool.close(rt, passes), refusal.error);
    take_turns(rt, alloc, &pool, board, refusal.then, &mut passes);
    put_back(&mut passes, withheld, refusal.exchanged);
    (pool, passes)
}

// Awaits the pool's end: how many steps it says that it has made.
fn ended<G: PoolName, R: Wait>(
    rt: &R,
    pool: &Tested<G>,
    passes: &mut Vec<Pass<G>>,
) -> Result<u64, PoolError> {
    match passes.first_mut() {
        Some(first) => pool.await_termination(rt, u64::MAX, first)?,
        None => return Err(PoolError::MissingPass),
    }
    Ok(pool.steps(rt))
}

// Closes the pool at its end: its report, and the steps that it told before. A pool that does not come so far is let go.
fn closed<G: PoolName, R: Wait>(
    rt: &R,
    pool: Tested<G>,
    passes: Vec<Pass<G>>,
) -> Result<(Report, u64), PoolError> {
    let mut passes = passes;
    match ended(rt, &pool, &mut passes) {
        Ok(steps) => match pool.close(rt, passes) {
            Ok(report) => Ok((report, steps)),
            Err(fault) => Err(fault.let_go()),
        },
        Err(error) => {
            pool.let_go();
            Err(error)
        }
    }
}

fn live<G: PoolName, R: Abort + Clock + Runtime>(
    rt: R,
    alloc: Global,
    pool: Tested<G>,
    board: &Arc<Board>,
    life: &Life,
    passes: Vec<Pass<G>>,
) -> Result<(Report, u64), PoolError> {
    let (mut pool, mut passes) = (pool, passes);
    act(rt, alloc, &pool, board, life, &mut passes);
    for refusal in life.refusals {
        (pool, passes) = refuse(&rt, alloc, pool, board, passes, refusal);
    }
    closed(&rt, pool, passes)
}

// Opens a pool under its name, and has it live.
fn open<G: PoolNaming + Send + Sync + 'static, R: Abort + Clock + Runtime>(
    rt: R,
    alloc: Global,
    unopened: Unopened,
    settings: Config,
    users: Users,
    board: &Arc<Board>,
    life: &Life,
) -> Result<(Report, u64), PoolError>
    requires named { unopened ≡ record { ledger = G.name; parts = G.parts; table = G.table } }
    requires settings { settings ≡ G.config }
{
    let (pool, first) = Tested::<G>::over(alloc, unopened, settings, users)?;
    match passes_of(&rt, alloc, &pool, first, life.callers) {
        Ok(passes) => live(rt, alloc, pool, board, life, passes),
        Err(error) => {
            pool.let_go();
            Err(error)
        }
    }
}

/// What the pool's users do in the life of this number.
pub fn manner_of(life: &Life, number: u32) -> Manner {
    let yields = match life.yields {
        Yields::Never => false,
        Yields::Always => true,
        Yields::InTurns => number % 2 == 0,
    };
    Manner {
        yields,
        ..life.manner
    }
}

// The board of the life of this number.
fn board_of(alloc: Global, number: u32) -> Result<Arc<Board>, PoolError> {
    let board = Board::new(alloc)?;
    board.put(Signal::Lives, u64::from(number));
    Ok(board)
}

/// Has a pool live under a name of its own, after so many others, and finds what it left.
pub fn lived<R: Abort + Clock + Runtime>(
    rt: R,
    alloc: Global,
    life: &Life,
    number: u32,
) -> Result<(), PoolError> {
    let board = board_of(alloc, number)?;
    let users = Users::new(manner_of(life, number), &board)?;
    let unopened = Unopened::new(alloc)?;
    let (report, steps) = open::<Brand, R>(
        rt,
        alloc,
        unopened,
        life.settings,
        users,
        &board,
        life,
    )?;
    let entries = unpacked(alloc, &report.entries)?;
    let seen = (
        steps,
        missing(report.counts, &entries, &board, life.findings),
    );
    same(&rt, 0, &seen, &(entries.len() as u64, None));
    Ok(())
}

/// Has pools live so, one after the other, so many times each.
pub fn lives<R: Abort + Clock + Runtime>(rt: R, alloc: Global, lives: &[Life]) -> Result<(), Fail> {
    for life in lives {
        for number in 0..life.times {
            lived(rt, alloc, life, number)?;
        }
    }
    Ok(())
}

/// Has a pool live so. Where memory is wanted for what the test itself makes, for the pool or for its close, it lives once more.
pub fn lives_again<R: Abort + Clock + Runtime>(
    rt: R,
    alloc: Global,
    life: &Life,
) -> Result<(), Fail> {
    let mut once = lived(rt, alloc, life, 0);
    if once == Err(PoolError::NoMemory) {
        once = lived(rt, alloc, life, 0);
    }
    once?;
    Ok(())
}
