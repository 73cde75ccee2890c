//! A worker's thread: its turns, and its end.
ghost use Rattle.std.specs.Prelude.{◌≡◌, IfSome, IfNone};
ghost use Rattle.tp_record.specs.State.{state};
ghost use Rattle.tp_protocols.specs.Turns.{told};
ghost use Rattle.tp_pool_holds.specs.Steps.{taking_of, begun_of, departed_of, IsEndOf};
ghost use Rattle.tp_pool_holds.specs.Deeds.{Takes, BeginsAt, Ends, Leaves, EndsPool};

use crate::edges::Edge;
use crate::lock::polite;
use crate::locked::{Locked, Taking};
use crate::names::PoolNaming;
use crate::pauses::{DOZE, Holds, Pace, Pause, rest};
use crate::roster::Start;
use crate::shared::{Event, Shared};
use std::sync::{Arc, MutexGuard, Wait};
use std::thread::{Threads, yield_now};
use tp_book::passes::WorkerPass;
use tp_machine::machine::releases::Keeper;
use tp_machine::typed::workers::{End, Leave};
use tp_machine::typed::{Plain, controllers};
use tp_protocols::deeds::{Departed, EndAnswer, Taken};
use tp_protocols::flags::{CancelFlag, SlotFlag};
use tp_protocols::gates::Point;
use tp_protocols::jobs::Job;
use tp_protocols::turns::{BeginAnswer, Workplace, one_turn};
use tp_record::recorders::Full;
use tp_types::ids::{SlotId, TaskId};
use tp_types::tasks::Outcome;

/// A worker at its slot.
#[derive(Drop)]
pub struct Post<G: PoolNaming, J, E, K: Keeper = Full> {
    shared: Arc<Shared<G, J, E, K>>,
    w: SlotId,
    pass: WorkerPass<G>,
    // The slot that is reserved in its place, once it has left.
    heir: Option<SlotId>,
    // Its slot's flag.
    flag: SlotFlag,
    // How its tasks came of late.
    pace: Pace,
    // How its holds of the lock followed one another.
    holds: Holds,
}

impl<
    G: PoolNaming + Send + Sync + 'static,
    J: Job + 'static,
    E: Edge + Send + Sync + 'static,
    K: Keeper + Send + 'static,
    R: Threads + Wait + Copy + Send + 'static,
> Workplace<J, R> for Post<G, J, E, K> {
    ghost use Rattle.std.specs.Prelude.{◌≡◌};
    ghost use Rattle.tp_pool_holds.specs.Deeds.{IsDone, heir_after};

    ghost did = { λ old d new. (new.w ≡ old.w) × (new.pass.number ≡ old.pass.number) × (new.heir ≡ heir_after old.heir d.0) × IsDone J K.RECEIPTS (K.terms G.config) old.w old.pass.number old.pass.front new.pass.front old.heir d.0 d.1 };

    ghost owes = { λ _ _. Unit {0} };

    fn pass(&mut self, p: Point) {
        self.shared.around.edge.pass(p, self.w);
    }

    fn take(&mut self, rt: &R) -> Taken {
        let mut taking = (self.shared).take(rt, self.w, &mut self.holds, &mut self.pass);
        for _ in rt.forever() {
            match taking {
                Taking::Task => {
                    self.pace.found();
                    return Taken::Task;
                }
                Taking::Left => return Taken::Left,
                Taking::Refused => return Taken::Refused,
                Taking::Sleeps => {
                    taking = (self.shared).sleep(rt, self.w, &mut self.pace, &mut self.pass);
                }
            }
        }
        unreachable!()
    }

    fn begin(&mut self, rt: &R) -> BeginAnswer<J> {
        self.shared
            .begin(rt, self.w, &mut self.holds, &mut self.pass)
    }

    fn before(&mut self, rt: &R, t: TaskId) {
        self.shared.around.edge.before(rt, self.w, t);
    }

    fn run(&mut self, job: J) -> Outcome {
        let mut job = job;
        job.call(self.flag.lent())
    }

    fn after(&mut self, rt: &R, t: TaskId, outcome: Option<Outcome>) {
        self.shared
            .around
            .edge
            .after(rt, self.w, t, outcome.as_ref());
    }

    fn end(&mut self, rt: &R, outcome: Outcome) -> EndAnswer {
        let holds = &mut self.holds;
        let ended = (self.shared).end(rt, self.w, outcome, holds, &mut self.pass);
        if let Some(kept) = self.flag.renew(self.shared.around.alloc) {
            self.shared.seat_flag(rt, self.w, kept);
        }
        ended
    }

    fn leave(&mut self, rt: &R) -> Departed {
        self.shared.leave(rt, self.w, &mut self.pass)
    }

    // The turn ends here. Its thread has the other worker made right after it, and then does what is left, so
    // that no turn starts a thread that makes turns.
    fn replace(&mut self, _rt: &R, w: SlotId) {
        self.heir = Some(w);
    }

    fn tidy(&mut self, rt: &R) {
        if self.heir.is_none() {
            self.shared.try_end_as_worker(rt, &mut self.pass);
        }
    }
}

impl<
    G: PoolNaming + Send + Sync + 'static,
    J: Job + 'static,
    E: Edge + Send + Sync + 'static,
    K: Keeper + Send + 'static,
> Post<G, J, E, K> {
    /// A worker that is yet to hear of its slot.
    pub fn new(
        shared: Arc<Shared<G, J, E, K>>,
        w: SlotId,
        pass: WorkerPass<G>,
        flag: SlotFlag,
    ) -> Post<G, J, E, K> {
        Post {
            shared,
            w,
            pass,
            heir: None,
            flag,
            pace: Pace::new(),
            holds: Holds::new(),
        }
    }

    /// Makes its turns, once its slot is live, and answers the slot that is reserved in its place, where one
    /// is.
    pub fn work<R: Threads + Wait + Copy + Send + 'static>(&mut self, rt: &R) -> Option<SlotId> {
        if !self.shared.await_start(rt, self.w, &self.pass) {
            return None;
        }
        for _ in rt.forever() {
            if !one_turn(rt, self).goes_on() {
                return self.heir;
            }
        }
        unreachable!()
    }

    /// Its pool and its pass, once its turns are over.
    pub fn into_parts(self) -> (Arc<Shared<G, J, E, K>>, WorkerPass<G>) {
        let Post {
            shared,
            w: _,
            pass,
            heir: _,
            flag: _,
            pace: _,
            holds: _,
        } = self;
        (shared, pass)
    }
}

impl<G: PoolNaming, J: Drop, E: Edge, K: Keeper> Shared<G, J, E, K> {
    // Takes the lock, for a step of a worker's turn.
    #[inline(always)]
    fn hold_in_turn<R: Wait>(&self, rt: &R, holds: &mut Holds) -> MutexGuard<'_, Locked<G, J, K>> {
        let locked = polite(rt, self.lock.mutex(), holds.patience());
        holds.begin(locked.book().steps(), locked.running());
        locked
    }

    // Lets go of it.
    #[inline(always)]
    fn release_in_turn(&self, locked: MutexGuard<'_, Locked<G, J, K>>, holds: &mut Holds) {
        holds.end(locked.book().steps());
        self.release(locked);
    }

    // One hold of a worker that asks for its next task.
    #[inline(always)]
    fn take<R: Wait>(
        &self,
        rt: &R,
        w: SlotId,
        holds: &mut Holds,
        pass: &mut WorkerPass<G>,
    ) -> Taking
        ensures asks { Takes J K.RECEIPTS (K.terms G.config) pass.old.number pass.old.front w pass.new.front (λ r. result ≡ taking_of r) }
        ensures number { pass.new.number ≡ pass.old.number }
    {
        let mut locked = self.hold_in_turn(rt, holds);
        let taking = locked.take(w, &self.around.glance, pass);
        self.release_in_turn(locked, holds);
        taking
    }

    // One hold of a worker that begins the task that it took.
    #[inline(always)]
    fn begin<R: Wait>(
        &self,
        rt: &R,
        w: SlotId,
        holds: &mut Holds,
        pass: &mut WorkerPass<G>,
    ) -> BeginAnswer<J>
        ensures asks { BeginsAt J K.RECEIPTS (K.terms G.config) pass.old.number pass.old.front w pass.new.front (λ r. result ≡ begun_of r) }
        ensures number { pass.new.number ≡ pass.old.number }
    {
        let mut locked = self.hold_in_turn(rt, holds);
        let begun = locked.begin(w, &self.around.glance, pass);
        self.release_in_turn(locked, holds);
        begun
    }

    // One hold of a worker that tells its task's outcome.
    #[inline(always)]
    fn end<R: Wait>(
        &self,
        rt: &R,
        w: SlotId,
        outcome: Outcome,
        holds: &mut Holds,
        pass: &mut WorkerPass<G>,
    ) -> EndAnswer
        ensures asks { Ends J K.RECEIPTS (K.terms G.config) pass.old.number pass.old.front w outcome pass.new.front (IsEndOf (state (K.terms G.config) pass.new.front) w.0 result) }
        ensures number { pass.new.number ≡ pass.old.number }
    {
        let mut locked = self.hold_in_turn(rt, holds);
        let told = locked.step(Plain(End(w, outcome)), &self.around.glance, pass);
        let dying = locked.is_dying(w);
        self.release_in_turn(locked, holds);
        match told {
            Ok(_) if dying => EndAnswer::Dying,
            Ok(_) => EndAnswer::Live,
            Err(_) => EndAnswer::Refused,
        }
    }

    // One hold of a worker that goes on with another flag, of which this is the pool's hold. The one before is let go of after it.
    #[cold]
    #[inline(never)]
    fn seat_flag<R: Wait>(&self, rt: &R, w: SlotId, kept: CancelFlag) {
        let mut locked = self.hold_as_worker(rt);
        let before = locked.seat_flag(w, kept);
        self.release(locked);
        drop(before);
    }

    // One hold of a worker that leaves after a fault.
    fn leave<R: Wait>(&self, rt: &R, w: SlotId, pass: &mut WorkerPass<G>) -> Departed
        ensures asks { Leaves J K.RECEIPTS (K.terms G.config) pass.old.number pass.old.front w pass.new.front (λ r. result ≡ departed_of r) }
        ensures number { pass.new.number ≡ pass.old.number }
    {
        match self.step(rt, Plain(Leave(w)), pass) {
            Ok(Some(next)) => Departed::Replaced(next),
            Ok(None) => Departed::Alone,
            Err(_) => Departed::Refused,
        }
    }

    // One hold of a worker that was listed among the sleepers: where another thread took it off the list, it asks for its
    // next task in the same hold. A worker that is listed still must not ask, since it might get a task and be called for
    // another one while it runs.
    fn take_if_called<R: Wait>(&self, rt: &R, w: SlotId, pass: &mut WorkerPass<G>) -> Option<Taking>
        ensures asks { IfSome result (λ k. Takes J K.RECEIPTS (K.terms G.config) pass.old.number pass.old.front w pass.new.front (λ r. k ≡ taking_of r)) }
        ensures unchanged { IfNone result (pass.new ≡ pass.old) }
        ensures number { pass.new.number ≡ pass.old.number }
    {
        let mut locked = self.hold_as_worker(rt);
        if locked.is_asleep(w) {
            return None;
        }
        let taking = locked.take(w, &self.around.glance, pass);
        self.release(locked);
        Some(taking)
    }

    // Sleeps until another thread took the worker off the list of sleepers, and asks for its next task then. Where a task
    // comes before the worker parks, neither thread makes a system call. Each wake is checked under the lock, since one
    // may be left over from an earlier sleep.
    fn sleep<R: Wait>(&self, rt: &R, w: SlotId, pace: &mut Pace, pass: &mut WorkerPass<G>) -> Taking
        ensures asks { Takes J K.RECEIPTS (K.terms G.config) pass.old.number pass.old.front w pass.new.front (λ r. result ≡ taking_of r) }
        ensures number { pass.new.number ≡ pass.old.number }
    {
        pace.begin_wait();
        for _ in rt.forever() {
            match pace.next_pause() {
                Pause::GiveWay => yield_now(),
                Pause::Doze => rest(DOZE),
                Pause::Park => self.park(rt, w),
            }
            if let Some(taking) = self.take_if_called(rt, w, pass) {
                return taking;
            }
        }
        unreachable!()
    }

    // Ends the pool, where it can end now, by a worker's steps.
    fn try_end_as_worker<R: Wait>(&self, rt: &R, pass: &mut WorkerPass<G>)
        ensures ends { EndsPool J K.RECEIPTS (K.terms G.config) pass.old.number pass.old.front pass.new.front }
        ensures number { pass.new.number ≡ pass.old.number }
    {
        if self.step(rt, Plain(controllers::Tidy), pass).is_ok() {
            self.around.edge.terminated(rt);
            let _ = self.step(rt, Plain(controllers::Ended), pass);
        }
    }

    // Waits until the thread of this slot and pass is told whether its slot is live. It is told by its pass,
    // since a slot that was given up may be reserved anew before this thread has looked.
    fn await_start<R: Wait>(&self, rt: &R, w: SlotId, pass: &WorkerPass<G>) -> bool {
        let mut locked = self.hold_as_worker(rt);
        for _ in rt.forever() {
            match locked.told(w, pass) {
                Start::Live => return true,
                Start::GivenUp => return false,
                Start::Waits => locked = self.wait_at(rt, Event::Begun, locked),
            }
        }
        unreachable!()
    }

    /// Takes back the pass of a thread that needs it no more.
    pub fn hand_in<R: Wait>(&self, rt: &R, pass: WorkerPass<G>) {
        self.hold_as_worker(rt).hand_in(pass);
        self.around.conditions.wake_all(Event::Gone);
    }
}
