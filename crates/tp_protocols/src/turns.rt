//! One turn of a worker.
ghost use Rattle.std.specs.Prelude.{◌↔◌, IsTrue, Some};
ghost use Rattle.tp_types.specs.Promise.{FitsPromise};
ghost use Rattle.tp_protocols.specs.declared.deeds.Deed.TheVariants as deed;
ghost use Rattle.tp_protocols.specs.Turns.{bare, told, IsOwed, IsTurn, Does, running, departure, GoesOn};

use crate::deeds::{Deed, Departed, EndAnswer, Taken};
use crate::gates::Point;
use crate::jobs::Job;
use std::sync::Wait;
use tp_types::ids::{SlotId, TaskId};
use tp_types::tasks::Outcome;

/// What came of a worker's `begin`, with the job that it hands out.
#[derive(Drop)]
pub enum BeginAnswer<J> {
    /// This task, with its job.
    Run(TaskId, J),
    /// Nothing: this task was cancelled, and is gone.
    Skip(TaskId),
    /// Nothing: the pool did not take it.
    Refused,
}

/// Where a worker works: its pool, as it steps there, and the pool's users. Each call is one deed.
pub trait Workplace<J: Job, R: Wait> {
    ghost use Rattle.tp_types.specs.declared.tasks.Promise.{Promise};
    ghost use Rattle.tp_protocols.specs.Turns.{Act};

    // it is so before a deed and after it, with the job that the deed hands out or runs. By this relation the contract of a turn
    // says which deeds led from its beginning to its end. A pool's worker keeps no list of its deeds, and a stand-in may
    ghost did: { Self → Act J → Self → Type 0 };

    // the task that was begun is to end as it promised
    ghost owes: { Self → Promise → Type 0 };

    /// Passes the gate.
    fn pass(&mut self, p: Point)
        ensures done { did self.old (bare (deed.Passed p)) self.new }
        ensures owes { (p : Promise) → owes self.old p → owes self.new p };

    /// Asks for the next task, and sleeps as long as there is none.
    fn take(&mut self, rt: &R) -> Taken
        ensures done { did self.old (bare (deed.Took result)) self.new };

    /// Begins the task that it took.
    fn begin(&mut self, rt: &R) -> BeginAnswer<J>
        ensures done { did self.old (told result) self.new }
        ensures owes { IsOwed J.promised (owes self.new) result };

    /// Calls the hook before a task.
    fn before(&mut self, rt: &R, t: TaskId)
        ensures done { did self.old (bare (deed.Before t)) self.new }
        ensures owes { (p : Promise) → owes self.old p → owes self.new p };

    /// Runs a body, with the flag by which that hears of its cancelling.
    fn run(&mut self, job: J) -> Outcome
        ensures done { did self.old (deed.Ran result, Some job) self.new }
        ensures outcome { FitsPromise (J.promised job) result }
        ensures owes { (p : Promise) → owes self.old p → owes self.new p };

    /// Calls the hook after a task.
    fn after(&mut self, rt: &R, t: TaskId, outcome: Option<Outcome>)
        ensures done { did self.old (bare (deed.After t outcome)) self.new }
        ensures owes { (p : Promise) → owes self.old p → owes self.new p };

    /// Tells the outcome of its task, which is as its job promised.
    fn end(&mut self, rt: &R, outcome: Outcome) -> EndAnswer
        requires promised { (p : Promise) × owes self.old p × FitsPromise p outcome }
        ensures done { did self.old (bare (deed.Ended outcome result)) self.new };

    /// Leaves, after a fault of its plain task.
    fn leave(&mut self, rt: &R) -> Departed
        ensures done { did self.old (bare (deed.Left result)) self.new };

    /// Has a worker made for the slot that is reserved in its place.
    fn replace(&mut self, rt: &R, w: SlotId)
        ensures done { did self.old (bare (deed.Replaced w)) self.new };

    /// Ends the pool, where the pool can end.
    fn tidy(&mut self, rt: &R)
        ensures done { did self.old (bare deed.Tidied) self.new };
}

/// How a turn went.
#[derive(Clone, Copy, Debug, PartialEq, Eq)]
pub enum Turn {
    /// It took nothing: it left.
    Left,
    /// It took nothing: there is no such slot any more.
    Refused,
    /// It did not begin the task that it took.
    Unbegun,
    /// It skipped this task, which was cancelled.
    Skipped(TaskId),
    /// It ran this task to this outcome.
    Ran(TaskId, Outcome, Closing),
}

/// How a turn closed in which a body ran.
#[derive(Clone, Copy, Debug, PartialEq, Eq)]
pub enum Closing {
    /// The worker goes on.
    Live,
    /// Its plain task faulted, and it left.
    Died(Departed),
    /// The pool did not take the outcome.
    Refused,
}

impl Turn {
    /// Whether the worker makes one turn more.
    pub fn goes_on(&self) -> bool
        ensures { IsTrue result ↔ GoesOn self.now }
    {
        matches!(self, Turn::Skipped(_) | Turn::Ran(_, _, Closing::Live))
    }
}

/// One turn of a worker, from the gate before its first `take` on.
pub fn one_turn<J: Job, R: Wait, W: Workplace<J, R>>(rt: &R, work: &mut W) -> Turn
    ensures { IsTurn W.did work.old result work.new }
{
    work.pass(Point::Take);
    match work.take(rt) {
        Taken::Task => {}
        Taken::Left => {
            work.tidy(rt);
            return Turn::Left;
        }
        Taken::Refused => return Turn::Refused,
    }
    match work.begin(rt) {
        BeginAnswer::Run(t, job) => {
            let (outcome, closing) = run_task(rt, work, t, job);
            Turn::Ran(t, outcome, closing)
        }
        BeginAnswer::Skip(t) => {
            work.before(rt, t);
            work.after(rt, t, None);
            Turn::Skipped(t)
        }
        BeginAnswer::Refused => Turn::Unbegun,
    }
}

// The task that was begun, from its hook to its end.
fn run_task<J: Job, R: Wait, W: Workplace<J, R>>(
    rt: &R,
    work: &mut W,
    t: TaskId,
    job: J,
) -> (Outcome, Closing)
    requires owed { W.owes work.old (J.promised job) }
    ensures deeds { Does W.did work.old (running t job result.0 result.1) work.new }
{
    work.before(rt, t);
    work.pass(Point::Body);
    let outcome = work.run(job);
    work.after(rt, t, Some(outcome));
    work.pass(Point::End);
    let closing = match work.end(rt, outcome) {
        EndAnswer::Live => Closing::Live,
        EndAnswer::Dying => Closing::Died(depart(rt, work)),
        EndAnswer::Refused => Closing::Refused,
    };
    (outcome, closing)
}

// Leaves, with another worker in its place where the pool wants one.
fn depart<J: Job, R: Wait, W: Workplace<J, R>>(rt: &R, work: &mut W) -> Departed
    ensures { Does W.did work.old (departure result) work.new }
{
    let departed = work.leave(rt);
    match departed {
        Departed::Alone => work.tidy(rt),
        Departed::Replaced(w) => {
            work.replace(rt, w);
            work.tidy(rt);
        }
        Departed::Refused => {}
    }
    departed
}
