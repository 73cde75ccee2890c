//! A pool of boxes: a caller's boxed jobs, factory, handler, hooks and gate.
ghost use Rattle.std.specs.Prelude.{◌≡◌};

use crate::compare::same;
use crate::harness::boards::{Board, Hook, Signal, shared};
use crate::harness::chores::{Chore, Work};
use crate::harness::findings::{Finding, missing};
use crate::harness::scripts::ONE_WORKER;
use std::alloc::Global;
use std::marker::Brand;
use std::process::Abort;
use std::sync::Arc;
use std::test::Fail;
use tp_book::opening::Unopened;
use tp_book::passes::Pass;
use tp_pool::answers::{Admitted, Refused};
use tp_pool::callers::{PoolName, Runtime};
use tp_pool::closing::Report;
use tp_pool::factories::ThreadFactory;
use tp_pool::gates::{Gate, Point};
use tp_pool::handlers::RejectionHandler;
use tp_pool::hooks::Hooks;
use tp_pool::jobs::Boxed;
use tp_pool::names::PoolNaming;
use tp_pool::pool::Pool;
use tp_record::entries::{Did, Looked};
use tp_record::packed::unpacked;
use tp_types::configs::{Config, Policy, QueueKind, Verdict};
use tp_types::ids::{SlotId, TaskId};
use tp_types::refusals::PoolError;
use tp_types::states::RunState;
use tp_types::tasks::{Kind, Outcome};

// Factory, handler, hooks and gate in one: each notes how often it is called.
#[derive(Drop)]
struct Counting {
    board: Arc<Board>,
}

impl ThreadFactory for Counting {
    fn allow(&mut self, _w: SlotId) -> bool {
        self.board.raise(Signal::Wanted);
        true
    }
}

impl RejectionHandler for Counting {
    fn verdict(&mut self, _t: TaskId, _state: RunState) -> Verdict {
        self.board.raise(Signal::Asked);
        Verdict::Abort
    }
}

impl Hooks for Counting {
    fn before(&mut self, _w: SlotId, t: TaskId) {
        self.board.raise(Signal::Hooked(Hook::Before, t));
    }

    fn after(&mut self, _w: SlotId, t: TaskId, _outcome: Option<&Outcome>) {
        self.board.raise(Signal::Hooked(Hook::Ran, t));
    }

    fn terminated(&mut self) {
        self.board.raise(Signal::Ends);
    }
}

impl Gate for Counting {
    fn before(&self, p: Point, _w: SlotId) {
        if p == Point::Body {
            self.board.reaches(Signal::Open, 1);
        }
    }
}

fn counts_at(board: &Arc<Board>) -> Result<Counting, PoolError> {
    let board = shared(board)?;
    Ok(Counting { board })
}

// The first job is accepted, and the second refused with 12 and with its box.
fn is_answer(answer: &Result<Admitted, Refused<Boxed>>, number: u32) -> bool {
    match answer {
        Ok(admitted) => number == 0 && *admitted == Admitted::Accepted(TaskId(0)),
        Err(refused) => {
            number == 1 && refused.error == PoolError::Rejected(TaskId(1)) && refused.job.is_some()
        }
    }
}

// Hands in a boxed job, the first one or the second, and looks at the answer.
fn hands<G: PoolName, R: Abort + Runtime>(
    rt: &R,
    alloc: Global,
    pool: &Pool<G>,
    board: &Arc<Board>,
    number: u32,
    pass: &mut Pass<G>,
) -> Result<(), PoolError> {
    let job = Box::new(alloc, Chore::new(board, Work::Urgent(7))?)?;
    let answer = pool.execute(rt, job, pass);
    same(
        rt,
        0,
        &(number, is_answer(&answer, number)),
        &(number, true),
    );
    Ok(())
}

// One worker is held before its body. Meanwhile a second job comes, and the pool is shut down. Then the worker goes on, and the pool ends.
fn work<G: PoolName, R: Abort + Runtime>(
    rt: &R,
    alloc: Global,
    pool: &Pool<G>,
    board: &Arc<Board>,
    pass: &mut Pass<G>,
) -> Result<(), PoolError> {
    hands(rt, alloc, pool, board, 0, pass)?;
    hands(rt, alloc, pool, board, 1, pass)?;
    pool.shutdown(rt, pass)?;
    board.put(Signal::Open, 1);
    pool.await_termination(rt, u64::MAX, pass)
}

// Opens a pool of boxes, and has it work until it is closed.
fn life<G: PoolNaming + Send + Sync + 'static, R: Abort + Runtime>(
    rt: R,
    alloc: Global,
    unopened: Unopened,
    settings: Config,
    board: &Arc<Board>,
) -> Result<Report, PoolError>
    requires named { unopened ≡ record { ledger = G.name; parts = G.parts; table = G.table } }
    requires settings { settings ≡ G.config }
{
    let factory = Box::new(alloc, counts_at(board)?)?;
    let handler = Box::new(alloc, counts_at(board)?)?;
    let hooks = Box::new(alloc, counts_at(board)?)?;
    let gate = Box::new(alloc, counts_at(board)?)?;
    let (pool, mut pass) = Pool::<G>::new(
        alloc, unopened, settings, factory, handler, hooks, gate,
    )?;
    match work(&rt, alloc, &pool, board, &mut pass) {
        Ok(()) => pool.close_one(&rt, pass).map_err(|fault| fault.let_go()),
        Err(error) => {
            pool.let_go();
            Err(error)
        }
    }
}

const SETTINGS_OF_ONE: Config = Config {
    queue: QueueKind::Handoff,
    policy: Policy::Own,
    ..ONE_WORKER
};

const FOUND: [Finding; 9] = [
    Finding::Told(
        1,
        Did::Submit(TaskId(0), Kind::Plain, 7, Looked::Reserve(SlotId(0))),
    ),
    Finding::Ended(0, Ok(0)),
    Finding::Run(1),
    Finding::Rejected(1),
    Finding::Noted(Signal::Wanted, 1),
    Finding::Noted(Signal::Asked, 1),
    Finding::Noted(Signal::Hooked(Hook::Before, TaskId(0)), 1),
    Finding::Noted(Signal::Hooked(Hook::Ran, TaskId(0)), 1),
    Finding::Noted(Signal::Ends, 1),
];

fn lived<R: Abort + Runtime>(rt: R, alloc: Global, settings: Config) -> Result<(), PoolError> {
    let board = Board::new(alloc)?;
    let unopened = Unopened::new(alloc)?;
    let report = life::<Brand, R>(rt, alloc, unopened, settings, &board)?;
    let entries = unpacked(alloc, &report.entries)?;
    same(
        &rt,
        0,
        &missing(report.counts, &entries, &board, &FOUND),
        &None,
    );
    Ok(())
}

#[test]
fn pool_of_boxes_asks_them(rt: HostRuntime) -> Result<(), Fail> {
    lived(rt, rt.alloc(), SETTINGS_OF_ONE)?;
    Ok(())
}
