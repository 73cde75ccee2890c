//! Jobs that tests hand in.

use crate::harness::boards::{Board, Signal, shared};
use std::alloc::Global;
use std::sync::Arc;
use tp_pool::jobs::Job;
use tp_protocols::flags::CancelFlag;
use tp_types::refusals::PoolError;
use tp_types::tasks::{Outcome, Promise, WIDEST, as_widest};

/// What a job does. Where it waits in vain, it ends with the fault 99.
#[derive(Clone, Copy)]
pub enum Work {
    /// Ends so.
    End(Result<u8, u32>),
    /// Answers the least value that there is.
    Least,
    /// Answers 1 where its flag is set, else 0.
    Look,
    /// The same, at this priority.
    Urgent(u32),
    /// Says that it has begun, waits until it is told to go on, and looks at its flag.
    Wait,
    /// The same, but it never looks at its flag, and answers 5.
    WaitBlind,
    /// Waits until a group of this size has come together, and answers its number.
    Meet(u8, u64),
    /// Waits until the pool was read.
    Talk,
    /// Shares its flag, and leaves that on the board.
    Share,
}

/// A job.
#[derive(Drop)]
pub struct Chore {
    deed: Work,
    /// Its priority.
    pub priority: u32,
    board: Arc<Board>,
}

/// Jobs that do this.
pub fn chores(alloc: Global, board: &Arc<Board>, deeds: &[Work]) -> Result<Vec<Chore>, PoolError> {
    let mut jobs = Vec::with_capacity(alloc, deeds.len())?;
    for deed in deeds {
        jobs.push(Chore::new(board, *deed)?)?;
    }
    Ok(jobs)
}

// The value of a job that waited, or its fault.
fn met(came: bool, value: i64) -> Outcome {
    if came { Ok(value) } else { Err(99) }
}

fn look(cancel: &CancelFlag) -> i64 {
    i64::from(cancel.is_set())
}

impl Chore {
    /// A job that does this, with the board for what it tells.
    pub fn new(board: &Arc<Board>, deed: Work) -> Result<Chore, PoolError> {
        let board = shared(board)?;
        let priority = match deed {
            Work::Urgent(number) => number,
            _ => 0,
        };
        Ok(Chore {
            deed,
            priority,
            board,
        })
    }

    // Says that it has begun: whether it is told to go on.
    fn waits(&self) -> bool {
        self.board.raise(Signal::Begun);
        self.board.reaches(Signal::Told, 1)
    }

    fn work(&self, cancel: &CancelFlag) -> Outcome {
        match self.deed {
            Work::End(Ok(value)) => Ok(i64::from(value)),
            Work::End(Err(code)) => Err(code),
            Work::Least => Ok(i64::MIN),
            Work::Look | Work::Urgent(_) => Ok(look(cancel)),
            Work::Wait => {
                let told = self.waits();
                met(told, look(cancel))
            }
            Work::WaitBlind => met(self.waits(), 5),
            Work::Meet(number, size) => met(self.board.meet(size), i64::from(number)),
            Work::Talk => {
                self.board.talk();
                Ok(0)
            }
            Work::Share => {
                self.board.keep(cancel.share().or(Err(4u32))?);
                Ok(0)
            }
        }
    }
}

impl Job for Chore {
    ghost use Rattle.tp_types.specs.declared.tasks.TheConstants.{WIDEST};

    ghost promised = { λ _. WIDEST };

    ghost urgency = { λ c. c.priority };

    fn promise(&self) -> Promise {
        WIDEST
    }

    fn priority(&self) -> u32 {
        self.priority
    }

    fn call(&mut self, cancel: &CancelFlag) -> Outcome {
        as_widest(self.work(cancel))
    }
}
