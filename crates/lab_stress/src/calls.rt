//! What a caller does at its pool, and what it sees.

use crate::chores::{Chore, Sign, Work};
use crate::mishaps::Mishap;
use tp_life::prelude::*;
use tp_life::tasks::{Find, Held};
use tp_types::tasks::Kind;

/// A call.
#[derive(Clone, Copy)]
pub enum Call {
    /// A task is taken out of the queue, or cancelled, with its flag or without. The cancelled tasks are taken out of the queue.
    Remove(u32),
    Cancel(u32, bool),
    Purge,
    /// A done task of a group is waited for, for a moment.
    Take(u32),
    /// Something is set.
    Set(Setting),
    /// The core size is set, a core worker is started, who must be or not, or all are. A life's callers can't do that.
    Core(u32),
    StartOne(bool),
    StartAll,
    /// The pool is looked at, shut down, or stopped, or its end is waited for, for so many milliseconds at most.
    Look,
    ShutDown,
    Stop,
    Await(u64),
}

/// What a caller does: it submits the job of this number and work as a task of this kind, or so many jobs from this number on; it waits until
/// this has come about so often; it tells this; it spins so many turns; it pauses by a chance of this number; it makes a call, which must not
/// be refused or may be; it looks at the run state alone, until the pool has ended.
#[derive(Clone, Copy)]
pub enum Line {
    Submits(Kind, u32, Work),
    SubmitsMany(u32, u32, Work),
    Until(Sign, u64),
    Tells(Sign),
    Spins,
    Pauses(u32),
    Makes(Call),
    Tries(Call),
    Polls,
}

/// What a caller sees of a job.
#[derive(Drop)]
pub enum Seen {
    /// The pool took it; where its value is found.
    Entered(Admitted, Find<Chore>),
    /// The pool refused it; whether it came back.
    Refused(PoolError, bool),
    /// It came back later, with this fate.
    Back(Fate),
}

/// What a caller sees: this of the job of this number, or that a cancel had effect.
#[derive(Drop)]
pub enum Event {
    Job(u32, Seen),
    Cancelled,
}

/// How long a pool may take to end, in milliseconds.
pub const A_WHILE: u64 = 60_000;

/// A call by chance may be refused for its sizes (1) or a keep-alive of 0 (11), for its task (6, 9) or its group (19), for want of room in
/// the record (5), or since its time is over (16).
pub fn bears(made: Result<(), Mishap>) -> Result<(), Mishap> {
    match made {
        Err(Mishap::Refused(error)) => match error.number() {
            1 | 5 | 6 | 9 | 11 | 16 | 19 => Ok(()),
            _ => Err(Mishap::Refused(error)),
        },
        made => made,
    }
}

/// Notes a job that came back with this fate. A cancelled one does not.
pub fn back(seen: &mut Vec<Event>, job: Option<Held<Chore>>, fate: Fate) -> Result<(), Mishap> {
    if let Some(held) = job {
        seen.push(Event::Job(held.into_task().number, Seen::Back(fate)))?;
    }
    Ok(())
}

/// Notes what a stop of a pool that is then in this state handed back. A record that is full refuses a second stop.
pub fn stopped(
    seen: &mut Vec<Event>,
    stopped: Result<Vec<Drained<Held<Chore>>>, PoolError>,
    state: RunState,
) -> Result<(), Mishap> {
    match stopped {
        Ok(tasks) => {
            for task in tasks {
                back(seen, task.job, Fate::HandedBack)?;
            }
            Ok(())
        }
        Err(PoolError::BookFull) if state >= RunState::Stop => Ok(()),
        Err(error) => Err(Mishap::Refused(error)),
    }
}

/// Makes a call of a life's pool, and notes what is seen in it.
pub fn make<P: Calls<Task = Chore>>(
    pool: &mut P,
    call: Call,
    seen: &mut Vec<Event>,
) -> Result<(), Mishap> {
    match call {
        Call::Remove(t) => if let Removal::Yes(job) = pool.remove(TaskId(t))? {
            back(seen, job, Fate::Removed)?;
        },
        Call::Cancel(t, flag) => if pool.cancel(TaskId(t), flag)? {
            seen.push(Event::Cancelled)?;
        },
        Call::Purge => drop(pool.purge()?),
        Call::Take(group) => drop(pool.take_for(group, Duration::from_millis(1))?),
        Call::Set(setting) => pool.set(setting)?,
        Call::Core(_) | Call::StartOne(_) | Call::StartAll => {}
        Call::Look => drop(pool.look()),
        Call::ShutDown => pool.shutdown()?,
        Call::Stop => {
            let handed = pool.shutdown_now();
            stopped(seen, handed, pool.state())?;
        }
        Call::Await(most) => pool.await_end_for(Duration::from_millis(most))?,
    }
    Ok(())
}
