//! A pool's factory, handler, hooks and gate, as tests have them.

use crate::harness::boards::{Board, Hook, Signal, shared};
use std::sync::{Arc, Wait};
use std::thread;
use tp_pool::edges::Edge;
use tp_pool::gates::Point;
use tp_types::configs::Verdict;
use tp_types::ids::{SlotId, TaskId};
use tp_types::refusals::PoolError;
use tp_types::states::RunState;
use tp_types::tasks::Outcome;

/// What workers meet at their gate.
#[derive(Clone, Copy)]
pub enum Stance {
    /// Nothing.
    Free,
    /// They are held before bodies, until they may go on.
    Held,
    /// They are held before takes, beyond a limit.
    Shut,
    /// They wait at each point until the pool was read.
    Talks,
}

/// What a pool's users do.
#[derive(Clone, Copy)]
pub struct Manner {
    /// How many workers the factory consents to.
    pub consents: u64,
    /// What the handler answers.
    pub verdict: Verdict,
    /// What the gate does.
    pub stance: Stance,
    /// Whether workers yield at each point of the gate.
    pub yields: bool,
    /// Whether factory, handler and hooks wait until the pool was read.
    pub talks: bool,
    /// Whether the hook of the pool's end takes its time. Who waits for the end then looks at a pool that is tidying.
    pub lingers: bool,
    /// The stack of a worker's thread, in bytes.
    pub stack: usize,
}

/// Users that consent to everything and take no time.
pub const MANNER: Manner = Manner {
    consents: u64::MAX,
    verdict: Verdict::Abort,
    stance: Stance::Free,
    yields: false,
    talks: false,
    lingers: false,
    stack: 2_097_152,
};

/// All of a pool's users.
#[derive(Drop)]
pub struct Users {
    manner: Manner,
    board: Arc<Board>,
}

impl Users {
    /// Users of this manner, who note on the board what they are asked.
    pub fn new(manner: Manner, board: &Arc<Board>) -> Result<Users, PoolError> {
        let board = shared(board)?;
        Ok(Users { manner, board })
    }

    fn talk(&self) {
        if self.manner.talks {
            self.board.talk();
        }
    }
}

// Lets other threads run for a while.
fn linger() {
    for _ in 0..20_000u32 {
        thread::yield_now();
    }
}

impl Edge for Users {
    fn allow<R: Wait>(&self, _rt: &R, _w: SlotId) -> bool {
        self.talk();
        self.board.raise(Signal::Wanted) < self.manner.consents
    }

    fn verdict<R: Wait>(&self, _rt: &R, _t: TaskId, _state: RunState) -> Verdict {
        self.talk();
        self.manner.verdict
    }

    fn before<R: Wait>(&self, _rt: &R, _w: SlotId, t: TaskId) {
        self.board.raise(Signal::Hooked(Hook::Before, t));
        self.talk();
    }

    fn after<R: Wait>(&self, _rt: &R, _w: SlotId, t: TaskId, outcome: Option<&Outcome>) {
        let hook = if outcome.is_some() {
            Hook::Ran
        } else {
            Hook::Skipped
        };
        self.board.raise(Signal::Hooked(hook, t));
        self.talk();
    }

    fn terminated<R: Wait>(&self, _rt: &R) {
        self.board.raise(Signal::Ends);
        self.talk();
        if self.manner.lingers {
            linger();
        }
    }

    fn pass(&self, p: Point, _w: SlotId) {
        if self.manner.yields {
            thread::yield_now();
        }
        match self.manner.stance {
            Stance::Free => {}
            Stance::Held if p == Point::Body => {
                self.board.raise(Signal::Came);
                self.board.reaches(Signal::Open, 1);
            }
            Stance::Held => {}
            Stance::Shut if p == Point::Take => self.board.enter(),
            Stance::Shut => {}
            Stance::Talks => self.board.talk(),
        }
    }

    fn stack(&self) -> usize {
        self.manner.stack
    }
}
