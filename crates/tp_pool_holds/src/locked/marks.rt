//! What an accepted step is to the cancel flags of tasks, and which tasks may be gone with it for good. Most steps are nothing
//! to either. A step tells both by its answer alone: what follows from that is done here, once for all steps. A method that is
//! given the book would state the layout of all that the book is made of, in each step's `impl`, also where it does nothing.

ghost use Rattle.std.specs.Prelude.{◌≡◌, ◌↔◌, List, map, IsSome, IsTrue};
ghost use Rattle.tp_types.specs.declared.configs.Config.{Config};
ghost use Rattle.tp_record.specs.declared.entries.Entry.{Entry};
ghost use Rattle.tp_record.specs.Fields.{queue};
ghost use Rattle.tp_record.specs.State.{State, slot_at};
ghost use Rattle.tp_record.specs.Step.{Gives};
ghost use Rattle.tp_machine.specs.Seen.{task_of_row};
ghost use Rattle.tp_book.specs.BookView.{ForgetsAllGone, config, state_of};
ghost use Rattle.tp_pool_holds.specs.Gone.{gone_ruled, gone_with, named};

use crate::flags::Flags;
use crate::names::PoolNaming;
use crate::tasks::Payload;
use tp_book::book::Book;
use tp_glance::glance::Glance;
use tp_machine::answers::{Begun, Judged};
use tp_machine::machine::releases::Keeper;
use tp_machine::typed::controllers::{
    Cancel, Ended, Purge, Remove, Shutdown, Stop, TakeDone, Tidy,
};
use tp_machine::typed::settings::{Core, CoreTimeout, Keep, Maximum, Prestart, Tick};
use tp_machine::typed::submitters::{CallerEnd, Grow, Judge, Look, Offer, Second, Submit};
use tp_machine::typed::workers::{Begin, End, Fail, Leave, Open, Take};
use tp_machine::typed::{Plain, Step};
use tp_record::entries::{Did, Failed, Grown, Looked, Offered, Opened, Ruled, Seconded, Took};
use tp_types::ids::{SlotId, TaskId};
use tp_types::limits::MAX_WORKERS;
use tp_types::tasks::Place;

/// What an accepted step is to the cancel flags of tasks.
#[derive(Clone, Copy)]
pub enum Mark {
    /// Nothing.
    Nothing,
    /// This task begins at its caller.
    BeginsAtCaller(TaskId),
    /// This task, which its caller ran, is gone.
    EndsAtCaller(TaskId),
    /// This task is cancelled: its job hears of that where it has begun.
    Cancels(TaskId),
    /// The pool is stopped: the tasks in slots hear of that, those that run and those that are about to.
    Stops,
}

/// The tasks that may be gone for good with an accepted step: those that it finishes, drops or drains, and the one whose
/// second look it pays.
#[derive(Clone, Copy)]
pub enum Gone<'a, J> {
    /// None.
    Nobody,
    /// This one.
    One(TaskId),
    /// Those that a stop drained.
    Drained(&'a [(TaskId, Option<Payload<J>>)]),
}

/// A step that can be made under a pool's lock.
pub trait Marks<J>: Step<Payload<J>> {
    /// What it is to the flags, so answered.
    #[inline(always)]
    fn mark(self, _answer: &Self::Answer) -> Mark {
        Mark::Nothing
    }

    /// Which tasks may be gone with it, so answered.
    fn gone<'a>(self, answer: &'a Self::Answer) -> Gone<'a, J>
        requires { (c : Config) × (s : State) × Gives c s (Self.ask self) (Self.did self answer.now) }
        ensures { (c : Config) (h : List Entry) → Self.says self answer.now c h → named result ≡ gone_with (Self.did self answer.now) (queue c h) };
}

// Sets the flags that the step sets. A task that its caller runs has a flag from the step that begins it to the one that ends it.
#[inline(always)]
pub(super) fn mark_flags<G: PoolNaming, J, R: Keeper>(
    book: &Book<G, Payload<J>, R>,
    flags: &mut Flags,
    mark: Mark,
) {
    match mark {
        Mark::Nothing => {}
        Mark::BeginsAtCaller(t) => flags.begin_at_caller(t),
        Mark::EndsAtCaller(t) => flags.end_at_caller(t),
        Mark::Cancels(t) => cancel(book, flags, t),
        Mark::Stops => stop(book, flags),
    }
}

// The job of this task hears of its cancel where it has begun.
fn cancel<G: PoolNaming, J, R: Keeper>(book: &Book<G, Payload<J>, R>, flags: &Flags, t: TaskId) {
    match book.place(t) {
        Ok(Place::Running(w)) => flags.set_slot(w),
        Ok(Place::Caller) => flags.set_at_caller(t),
        _ => {}
    }
}

// The tasks in slots hear of the stop. One in a slot that is not open yet never begins there: after a stop no slot with a task opens.
fn stop<G: PoolNaming, J, R: Keeper>(book: &Book<G, Payload<J>, R>, flags: &Flags) {
    for w in 0..MAX_WORKERS as usize {
        if hears(book, SlotId(w)) {
            flags.set_slot(SlotId(w));
        }
    }
}

// Whether a task in this slot is to hear of a stop: also one that is about to begin.
fn hears<G: PoolNaming, J, R: Keeper>(book: &Book<G, Payload<J>, R>, w: SlotId) -> bool
    ensures { IsTrue result ↔ IsSome (task_of_row (slot_at (state_of book.now).slots w.0)) }
{
    book.task_in(w).is_some()
}

// The book forgets of these tasks those that it may.
#[inline(always)]
pub(super) fn forget<G: PoolNaming, J: Drop, R: Keeper>(
    book: &mut Book<G, Payload<J>, R>,
    gone: Gone<'_, J>,
    glance: &Glance<G>,
)
    ensures forgets_gone { ForgetsAllGone R.RECEIPTS book.old book.new (named gone.entry) }
    ensures config { config book.new ≡ config book.old }
    ensures history { book.new.history ≡ book.old.history }
{
    match gone {
        Gone::Nobody => {}
        Gone::One(t) => book.forget(t, glance),
        Gone::Drained(tasks) => forget_all(book, tasks, glance),
    }
}

fn forget_all<G: PoolNaming, J: Drop, R: Keeper>(
    book: &mut Book<G, Payload<J>, R>,
    tasks: &[(TaskId, Option<Payload<J>>)],
    glance: &Glance<G>,
)
    ensures forgets_gone { ForgetsAllGone R.RECEIPTS book.old book.new (map (λ x. x.0.0) tasks.now) }
    ensures config { config book.new ≡ config book.old }
    ensures history { book.new.history ≡ book.old.history }
{
    for (t, _) in tasks {
        book.forget(*t, glance);
    }
}

impl<J: Drop> Marks<J> for Submit {
    #[inline(always)]
    fn gone<'a>(self, _answer: &'a (TaskId, Looked)) -> Gone<'a, J> {
        Gone::Nobody
    }
}

impl<J> Marks<J> for Plain<Look> {
    #[inline(always)]
    fn gone<'a>(self, _answer: &'a Looked) -> Gone<'a, J> {
        Gone::Nobody
    }
}

impl<J> Marks<J> for Plain<Offer> {
    #[inline(always)]
    fn gone<'a>(self, _answer: &'a Offered) -> Gone<'a, J> {
        Gone::Nobody
    }
}

impl<J: Drop> Marks<J> for Plain<Second> {
    // A worker may have run the task before its submitter looked a second time.
    #[inline(always)]
    fn gone<'a>(self, _answer: &'a Seconded) -> Gone<'a, J> {
        Gone::One(self.0.0)
    }
}

impl<J> Marks<J> for Plain<Grow> {
    #[inline(always)]
    fn gone<'a>(self, _answer: &'a Grown) -> Gone<'a, J> {
        Gone::Nobody
    }
}

// What was rejected, discarded or dropped is gone.
fn judged<'a, J>(t: TaskId, ruled: Ruled) -> Gone<'a, J>
    ensures { named result ≡ gone_ruled t.0 ruled }
{
    match ruled {
        Ruled::Rejected | Ruled::Discarded => Gone::One(t),
        Ruled::RetryDrop(head) => Gone::One(head),
        Ruled::Caller | Ruled::Skip | Ruled::Retry => Gone::Nobody,
    }
}

impl<J: Drop> Marks<J> for Judge {
    // A task that its caller is to run begins.
    fn mark(self, answer: &Judged<Payload<J>>) -> Mark {
        match answer.did {
            Did::Verdict(t, _, Ruled::Caller) => Mark::BeginsAtCaller(t),
            _ => Mark::Nothing,
        }
    }

    fn gone<'a>(self, answer: &'a Judged<Payload<J>>) -> Gone<'a, J> {
        match answer.did {
            Did::Verdict(t, _, ruled) => judged(t, ruled),
            _ => Gone::Nobody,
        }
    }
}

impl<J: Drop> Marks<J> for Plain<CallerEnd> {
    fn mark(self, _answer: &()) -> Mark {
        Mark::EndsAtCaller(self.0.0)
    }

    fn gone<'a>(self, _answer: &'a ()) -> Gone<'a, J> {
        Gone::One(self.0.0)
    }
}

impl<J> Marks<J> for Plain<Open> {
    #[inline(always)]
    fn gone<'a>(self, _answer: &'a Opened) -> Gone<'a, J> {
        Gone::Nobody
    }
}

impl<J> Marks<J> for Plain<Fail> {
    #[inline(always)]
    fn gone<'a>(self, _answer: &'a Failed) -> Gone<'a, J> {
        Gone::Nobody
    }
}

impl<J> Marks<J> for Plain<Take> {
    #[inline(always)]
    fn gone<'a>(self, _answer: &'a Took) -> Gone<'a, J> {
        Gone::Nobody
    }
}

impl<J> Marks<J> for Begin {
    #[inline(always)]
    fn gone<'a>(self, _answer: &'a Begun<Payload<J>>) -> Gone<'a, J> {
        Gone::Nobody
    }
}

impl<J> Marks<J> for Plain<Leave> {
    #[inline(always)]
    fn gone<'a>(self, _answer: &'a Option<SlotId>) -> Gone<'a, J> {
        Gone::Nobody
    }
}

impl<J: Drop> Marks<J> for Plain<End> {
    #[inline(always)]
    fn gone<'a>(self, answer: &'a TaskId) -> Gone<'a, J> {
        Gone::One(*answer)
    }
}

impl<J> Marks<J> for Plain<Shutdown> {
    #[inline(always)]
    fn gone<'a>(self, _answer: &'a ()) -> Gone<'a, J> {
        Gone::Nobody
    }
}

impl<J: Drop> Marks<J> for Stop {
    fn mark(self, _answer: &Vec<(TaskId, Option<Payload<J>>)>) -> Mark {
        Mark::Stops
    }

    // The tasks that were queued are gone.
    fn gone<'a>(self, answer: &'a Vec<(TaskId, Option<Payload<J>>)>) -> Gone<'a, J> {
        Gone::Drained(answer.as_slice())
    }
}

impl<J> Marks<J> for Plain<Tidy> {
    #[inline(always)]
    fn gone<'a>(self, _answer: &'a ()) -> Gone<'a, J> {
        Gone::Nobody
    }
}

impl<J> Marks<J> for Plain<Ended> {
    #[inline(always)]
    fn gone<'a>(self, _answer: &'a ()) -> Gone<'a, J> {
        Gone::Nobody
    }
}

impl<J> Marks<J> for Plain<Purge> {
    #[inline(always)]
    fn gone<'a>(self, _answer: &'a u32) -> Gone<'a, J> {
        Gone::Nobody
    }
}

impl<J> Marks<J> for Plain<TakeDone> {
    #[inline(always)]
    fn gone<'a>(self, _answer: &'a TaskId) -> Gone<'a, J> {
        Gone::Nobody
    }
}

impl<J: Drop> Marks<J> for Remove {
    fn gone<'a>(self, answer: &'a Option<(TaskId, Option<Payload<J>>)>) -> Gone<'a, J> {
        if answer.is_some() {
            Gone::One(self.0)
        } else {
            Gone::Nobody
        }
    }
}

impl<J> Marks<J> for Cancel {
    // A job that has begun hears of the cancel where that asks for it.
    fn mark(self, answer: &(bool, Option<Payload<J>>)) -> Mark {
        match answer {
            (true, None) if self.1 => Mark::Cancels(self.0),
            _ => Mark::Nothing,
        }
    }

    // What has a future is its caller's to release.
    fn gone<'a>(self, _answer: &'a (bool, Option<Payload<J>>)) -> Gone<'a, J> {
        Gone::Nobody
    }
}

impl<J> Marks<J> for Plain<Core> {
    #[inline(always)]
    fn gone<'a>(self, _answer: &'a u32) -> Gone<'a, J> {
        Gone::Nobody
    }
}

impl<J> Marks<J> for Maximum {
    #[inline(always)]
    fn gone<'a>(self, _answer: &'a ()) -> Gone<'a, J> {
        Gone::Nobody
    }
}

impl<J> Marks<J> for Plain<Keep> {
    #[inline(always)]
    fn gone<'a>(self, _answer: &'a ()) -> Gone<'a, J> {
        Gone::Nobody
    }
}

impl<J> Marks<J> for Plain<CoreTimeout> {
    #[inline(always)]
    fn gone<'a>(self, _answer: &'a ()) -> Gone<'a, J> {
        Gone::Nobody
    }
}

impl<J> Marks<J> for Plain<Tick> {
    #[inline(always)]
    fn gone<'a>(self, _answer: &'a ()) -> Gone<'a, J> {
        Gone::Nobody
    }
}

impl<J> Marks<J> for Plain<Prestart> {
    #[inline(always)]
    fn gone<'a>(self, _answer: &'a Option<SlotId>) -> Gone<'a, J> {
        Gone::Nobody
    }
}
