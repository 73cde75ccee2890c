//! The value that all threads of a pool share, and the holds of its lock.
ghost use Rattle.std.specs.Prelude.{true, ◌≡◌, ◌+◌, ◌<◌, ◌≤◌, [], ◌∷◌, length, IsTrue, IfOk, IfErr, OnOk, OnErr};
ghost use Rattle.tp_record.specs.Fields.{rank};
ghost use Rattle.tp_record.specs.State.{state};
ghost use Rattle.tp_pool_holds.specs.Left.{IsLeft};
ghost use Rattle.tp_pool_holds.specs.Moments.{AtFront};
ghost use Rattle.tp_pool_holds.specs.Passes.{Adds, AddsNone, AddsStep, KnowsStep, IsRefusal, LooksOnly, Refuses, tidied, ended, entry_of};
ghost use Rattle.tp_pool_holds.specs.Steps.{Makes, Refused as IsRefusedAt, Stops};
ghost use Rattle.tp_pool_holds.specs.Waits.{HasNoOutcome};
ghost use Rattle.tp_pool_holds.specs.Endings.{AddsEnding, IsBarred};
ghost use Rattle.tp_pool_holds.specs.Refusals.{none_forgotten};

use crate::answers::Drained;
use crate::edges::Edge;
use crate::lock::{PoolLock, polite};
use crate::locked::{Locked, Marks};
use crate::names::PoolNaming;
use crate::pauses::{CALLER, WORKER};
use crate::policies::PolicyOf;
use crate::tasks::Payload;
use std::alloc::Global;
use std::collections::VecDeque;
use std::sync::{Condvar, Mutex, MutexGuard, Wait};
use std::thread::Parker;
use std::time::{Clock, Duration};
use tp_book::passes::Pass;
use tp_book::payers::Payer;
use tp_glance::glance::Glance;
use tp_machine::machine::releases::Keeper;
use tp_machine::typed::controllers::{Ended, Tidy};
use tp_machine::typed::{Plain, Step};
use tp_protocols::rescues::Remains;
use tp_record::entries::{Ask, Did};
use tp_record::recorders::Full;
use tp_types::ids::{SlotId, TaskId};
use tp_types::refusals::PoolError;
use tp_waking::calls::{Calls, Waiters};

/// What a thread waits for that sleeps at one of the pool's conditions.
#[derive(Clone, Copy, Debug, PartialEq, Eq)]
pub enum Event {
    /// The pool's end, as in `await_termination`.
    End,
    /// A future's answer, or a done task.
    Results,
    /// A longer record, as in `wait_step`.
    Steps,
    /// Room for a submission.
    Room,
    /// The passes of the workers' threads, as a close does.
    Gone,
    /// What becomes of a slot, as the thread does that was made for it.
    Begun,
}

/// The places where waiters sleep, one condition for each event.
#[derive(Drop)]
pub struct Conditions {
    end: Condvar,
    results: Condvar,
    steps: Condvar,
    room: Condvar,
    gone: Condvar,
    begun: Condvar,
}

impl Conditions {
    /// No thread sleeps.
    pub fn new() -> Conditions {
        Conditions {
            end: Condvar::new(),
            results: Condvar::new(),
            steps: Condvar::new(),
            room: Condvar::new(),
            gone: Condvar::new(),
            begun: Condvar::new(),
        }
    }

    // Where those sleep who wait for this.
    fn of(&self, event: Event) -> &Condvar {
        match event {
            Event::End => &self.end,
            Event::Results => &self.results,
            Event::Steps => &self.steps,
            Event::Room => &self.room,
            Event::Gone => &self.gone,
            Event::Begun => &self.begun,
        }
    }

    /// Wakes all who wait for this.
    pub fn wake_all(&self, event: Event) {
        self.of(event).notify_all();
    }

    // Wakes the waiters of these kinds.
    fn call(&self, waiters: Waiters) {
        if waiters.end {
            self.end.notify_all();
        }
        if waiters.results {
            self.results.notify_all();
        }
        if waiters.steps {
            self.steps.notify_all();
        }
        if waiters.room {
            self.room.notify_all();
        }
    }
}

/// What stands around a pool's lock: the places where threads sleep, the word, and the caller's objects.
#[derive(Drop)]
pub struct Around<G: PoolNaming, E> {
    /// The places where waiters sleep.
    pub conditions: Conditions,
    /// The places where workers sleep, one for each slot number.
    pub parkers: Vec<Parker>,
    /// The word of the run state, which is read with no lock held.
    pub glance: Glance<G>,
    /// The caller's objects.
    pub edge: E,
    /// The rejection policy.
    pub policy: PolicyOf<G>,
    /// The allocator of the calls' answers.
    pub alloc: Global,
    /// Futures of which nobody asks any more, in a pool that keeps no record: each is forgotten once it is gone.
    pub abandoned: Mutex<VecDeque<TaskId>>,
}

/// What all threads of a pool share.
#[derive(Drop)]
pub struct Shared<G: PoolNaming, J, E, K: Keeper = Full> {
    /// The value under the lock.
    pub lock: PoolLock<G, J, K>,
    /// What stands around it.
    pub around: Around<G, E>,
}

/// What is left to do in the pool, as its hold knows.
#[inline(always)]
pub fn left_in<G: PoolNaming, J: Drop, K: Keeper>(locked: &Locked<G, J, K>) -> Remains
    ensures { IsLeft (state (K.terms G.config) locked.now.book.history) result }
{
    locked.law_is_book();
    locked.remains()
}

impl<G: PoolNaming, J: Drop, E: Edge, K: Keeper> Shared<G, J, E, K> {
    /// Takes the lock, for a caller.
    #[inline(always)]
    pub fn hold<R: Wait>(&self, rt: &R) -> MutexGuard<'_, Locked<G, J, K>> {
        polite(rt, self.lock.mutex(), CALLER)
    }

    /// Takes the lock, for a worker.
    #[inline(always)]
    pub fn hold_as_worker<R: Wait>(&self, rt: &R) -> MutexGuard<'_, Locked<G, J, K>> {
        polite(rt, self.lock.mutex(), WORKER)
    }

    /// Lets go of the lock, and only then wakes the threads that the hold concerned: a thread that is woken
    /// needs the lock. Most holds concern none.
    #[inline(always)]
    pub fn release(&self, locked: MutexGuard<'_, Locked<G, J, K>>) {
        if locked.calls_nobody() {
            return drop(locked);
        }
        self.release_and_wake(locked);
    }

    #[inline(never)]
    fn release_and_wake(&self, locked: MutexGuard<'_, Locked<G, J, K>>) {
        let mut locked = locked;
        let calls = locked.release();
        drop(locked);
        self.wake(&calls);
    }

    fn wake(&self, calls: &Calls) {
        if let Some(w) = calls.worker {
            self.unpark(w);
        }
        if calls.everyone {
            for parker in &self.around.parkers {
                parker.unpark();
            }
        }
        self.around.conditions.call(calls.waiters);
    }

    fn unpark(&self, w: SlotId) {
        if let Some(parker) = self.around.parkers.get(w.0) {
            parker.unpark();
        }
    }

    /// Sleeps at this slot's place until a thread wakes it, or for no reason.
    pub fn park<R: Wait>(&self, rt: &R, w: SlotId) {
        if let Some(parker) = self.around.parkers.get(w.0) {
            parker.park(rt);
        }
    }

    /// Sleeps, with the lock let go, until a thread wakes those who wait for this, or for no reason. All waits without a time that
    /// threads of the pool make at its conditions go through here.
    pub fn wait_at<'a, R: Wait>(
        &'a self,
        rt: &R,
        event: Event,
        locked: MutexGuard<'a, Locked<G, J, K>>,
    ) -> MutexGuard<'a, Locked<G, J, K>> {
        self.around.conditions.of(event).wait(rt, locked)
    }

    /// As `wait_at`, for at most so long by the clock.
    pub fn wait_at_for<'a, R: Wait + Clock>(
        &'a self,
        rt: &R,
        event: Event,
        locked: MutexGuard<'a, Locked<G, J, K>>,
        most: Duration,
    ) -> MutexGuard<'a, Locked<G, J, K>> {
        let (locked, _) = (self.around.conditions.of(event)).wait_timeout(rt, locked, most);
        locked
    }

    /// Makes this step in a hold of its own, with a pass, a caller's or a worker's, and wakes the threads that
    /// it concerns after the hold.
    #[inline(always)]
    pub fn step<R: Wait, S: Marks<J> + Step<Payload<J>, Load = ()>, A: Payer<G>>(
        &self,
        rt: &R,
        step: S,
        pass: &mut A,
    ) -> Result<S::Answer, PoolError>
        requires brings { S.brings step tt }
        requires ready { A.ready pass.old (S.ask step) }
        ensures answers { IfOk result (λ x. S.answers step x) }
        ensures makes { IfOk result (λ x. Makes J (K.terms G.config) (A.number pass.old) (A.front pass.old) (S.ask step) (S.did step x) (S.moves step tt x) (A.front pass.new)) }
        ensures paid { IfOk result (λ x. A.paid pass.old (entry_of (A.number pass.old) (S.ask step) (S.did step x)) pass.new) }
        ensures refused { IfErr result (λ e. IsRefusedAt J K.RECEIPTS (K.terms G.config) (A.front pass.old) (S.ask step) e (A.front pass.new)) }
        ensures shown { OnErr result (A.shown pass.old pass.new) }
        ensures number { A.number pass.new ≡ A.number pass.old }
    {
        let mut locked = self.hold_as_worker(rt);
        let answer = locked.step(step, &self.around.glance, pass);
        self.release(locked);
        answer
    }

    /// As `step`, with a caller's pass that has room for its receipt.
    #[inline(always)]
    pub fn ask<R: Wait, S: Marks<J> + Step<Payload<J>, Load = ()>>(
        &self,
        rt: &R,
        step: S,
        pass: &mut Pass<G>,
    ) -> Result<S::Answer, PoolError>
        requires brings { S.brings step tt }
        requires room { 0 < pass.old.room }
        ensures answers { IfOk result (λ x. S.answers step x) }
        ensures makes { IfOk result (λ x. Makes J (K.terms G.config) pass.old.number pass.old.front (S.ask step) (S.did step x) (S.moves step tt x) pass.new.front) }
        ensures step { IfOk result (λ x. AddsStep (K.terms G.config) pass.old (S.ask step) (S.did step x) pass.new) }
        ensures left { OnOk result (pass.old.room ≤ pass.new.room + 1) }
        ensures refused { IfErr result (λ e. HasNoOutcome (S.ask step) → IsRefusal (none_forgotten K.RECEIPTS (S.ask step)) (K.terms G.config) pass.new (S.ask step) e) }
        ensures unchanged { OnErr result (LooksOnly (K.terms G.config) pass.old pass.new) }
    {
        let mut locked = self.hold(rt);
        let answer = locked.step(step, &self.around.glance, pass);
        self.release(locked);
        answer
    }

    /// As `ask`, and tells what is left to do after it, as the hold of the step knows.
    #[inline(always)]
    pub fn ask_left<R: Wait, S: Marks<J> + Step<Payload<J>, Load = ()>>(
        &self,
        rt: &R,
        step: S,
        pass: &mut Pass<G>,
    ) -> (Result<S::Answer, PoolError>, Remains)
        requires brings { S.brings step tt }
        requires room { 0 < pass.old.room }
        ensures answers { IfOk result.0 (λ x. S.answers step x) }
        ensures makes { IfOk result.0 (λ x. Makes J (K.terms G.config) pass.old.number pass.old.front (S.ask step) (S.did step x) (S.moves step tt x) pass.new.front) }
        ensures step { IfOk result.0 (λ x. AddsStep (K.terms G.config) pass.old (S.ask step) (S.did step x) pass.new) }
        ensures known { IfOk result.0 (λ x. KnowsStep pass.old (S.ask step) (S.did step x) (S.says step x (K.terms G.config)) pass.new) }
        ensures left { OnOk result.0 (pass.old.room ≤ pass.new.room + 1) }
        ensures refused { IfErr result.0 (λ e. HasNoOutcome (S.ask step) → IsRefusal (none_forgotten K.RECEIPTS (S.ask step)) (K.terms G.config) pass.new (S.ask step) e) }
        ensures unchanged { OnErr result.0 (LooksOnly (K.terms G.config) pass.old pass.new) }
        ensures remains { IsLeft (state (K.terms G.config) pass.new.front) result.1 }
    {
        let mut locked = self.hold(rt);
        let answer = locked.step(step, &self.around.glance, pass);
        let remains = left_in(&locked);
        self.release(locked);
        (answer, remains)
    }

    /// As `ask`, for a step with which no outcome comes. The memory of its receipt is taken first, since an
    /// accepted step can't be taken back.
    pub fn control<R: Wait, S: Marks<J> + Step<Payload<J>, Load = ()>>(
        &self,
        rt: &R,
        step: S,
        pass: &mut Pass<G>,
    ) -> Result<S::Answer, PoolError>
        requires brings { S.brings step tt }
        requires no_outcome { HasNoOutcome (S.ask step) }
        ensures answers { IfOk result (λ x. S.answers step x) }
        ensures makes { IfOk result (λ x. Makes J (K.terms G.config) pass.old.number pass.old.front (S.ask step) (S.did step x) (S.moves step tt x) pass.new.front) }
        ensures step { IfOk result (λ x. AddsStep (K.terms G.config) pass.old (S.ask step) (S.did step x) pass.new) }
        ensures refused { IfErr result (Refuses (none_forgotten K.RECEIPTS (S.ask step)) (K.terms G.config) (pass.old.room < 1) pass.new (S.ask step)) }
        ensures unchanged { OnErr result (AddsNone pass.old pass.new) }
    {
        if let Err(error) = pass.reserve(1) {
            return Err(error);
        }
        self.ask(rt, step, pass)
    }

    /// As `control`; and where the step leaves a pool that is shut down without a task and a worker, it ends the
    /// pool with a pass of the pool's own.
    pub fn control_and_end<R: Wait, S: Marks<J> + Step<Payload<J>, Load = ()>>(
        &self,
        rt: &R,
        step: S,
        pass: &mut Pass<G>,
    ) -> Result<S::Answer, PoolError>
        requires brings { S.brings step tt }
        requires no_outcome { HasNoOutcome (S.ask step) }
        ensures answers { IfOk result (λ x. S.answers step x) }
        ensures makes { IfOk result (λ x. Makes J (K.terms G.config) pass.old.number pass.old.front (S.ask step) (S.did step x) (S.moves step tt x) pass.new.front) }
        ensures step { IfOk result (λ x. AddsStep (K.terms G.config) pass.old (S.ask step) (S.did step x) pass.new) }
        ensures known { IfOk result (λ x. KnowsStep pass.old (S.ask step) (S.did step x) (S.says step x (K.terms G.config)) pass.new) }
        ensures refused { IfErr result (Refuses (none_forgotten K.RECEIPTS (S.ask step)) (K.terms G.config) (pass.old.room < 1) pass.new (S.ask step)) }
        ensures unchanged { OnErr result (AddsNone pass.old pass.new) }
    {
        if let Err(error) = pass.reserve(1) {
            return Err(error);
        }
        let (answer, remains) = self.ask_left(rt, step, pass);
        let left = if answer.is_ok() {
            remains
        } else {
            Remains::Nothing
        };
        self.end_left(rt, left);
        answer
    }

    /// Makes the step `stop` in a hold of its own, as `ask`. The answer's memory is taken in the same hold,
    /// before the step, so that no job is lost for want of memory. NoMemory (4) comes only where a task is queued.
    pub fn stop<R: Wait>(&self, rt: &R, pass: &mut Pass<G>) -> Result<Vec<Drained<J>>, PoolError>
        requires room { 0 < pass.old.room }
        ensures stops { IfOk result (λ drained. Stops J (K.terms G.config) pass.old.number pass.old.front drained.items pass.new.front) }
        ensures step { IfOk result (λ drained. AddsStep (K.terms G.config) pass.old Ask.Stop (Did.Stop (length drained.items)) pass.new) }
        ensures left { OnOk result (pass.old.room ≤ pass.new.room + 1) }
        ensures refused { IfErr result (Refuses true (K.terms G.config) (AtFront (K.terms G.config) pass.new.front (λ s. 0 < length s.queue)) pass.new Ask.Stop) }
        ensures unchanged { OnErr result (AddsNone pass.old pass.new) }
    {
        let mut locked = self.hold(rt);
        let drained = locked.stop(self.around.alloc, &self.around.glance, pass);
        self.release(locked);
        drained
    }

    /// Ends the pool, where it can end now: the step `tidy`, the terminated hook and the step `ended`.
    pub fn try_end<R: Wait>(&self, rt: &R, pass: &mut Pass<G>)
        requires room { 2 ≤ pass.old.room }
        ensures { AddsEnding (K.terms G.config) pass.old pass.new }
    {
        if self.tidy(rt, pass) {
            let _ = self.terminate(rt, pass);
        }
    }

    // The step `tidy`, where the pool can end: whether it was made.
    fn tidy<R: Wait>(&self, rt: &R, pass: &mut Pass<G>) -> bool
        requires room { 0 < pass.old.room }
        ensures tidied { IsTrue result → Adds (K.terms G.config) pass.old (tidied pass.old.number ∷ []) pass.new }
        ensures left { pass.old.room ≤ pass.new.room + 1 }
        ensures refused { ¬ IsTrue result → IsBarred (K.terms G.config) pass.new.front Ask.Tidy }
        ensures unchanged { ¬ IsTrue result → LooksOnly (K.terms G.config) pass.old pass.new }
    {
        self.ask(rt, Plain(Tidy), pass).is_ok()
    }

    /// The terminated hook, with no lock held, and the step `ended`, by the pass that made the step
    /// `tidy`. TornRecord (22) where the book does not take it.
    pub fn terminate<R: Wait>(&self, rt: &R, pass: &mut Pass<G>) -> Result<(), PoolError>
        requires room { 0 < pass.old.room }
        ensures step { OnOk result (Adds (K.terms G.config) pass.old (ended pass.old.number ∷ []) pass.new) }
        ensures seen { OnOk result (rank pass.new.front ≡ 4) }
        ensures refused { IfErr result (λ e. (e ≡ PoolError.TornRecord) × IsBarred (K.terms G.config) pass.new.front Ask.Ended) }
        ensures unchanged { OnErr result (LooksOnly (K.terms G.config) pass.old pass.new) }
    {
        self.around.edge.terminated(rt);
        match self.ask(rt, Plain(Ended), pass) {
            Ok(()) => Ok(()),
            Err(_) => Err(PoolError::TornRecord),
        }
    }
}
