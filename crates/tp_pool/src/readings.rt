//! Readings of a pool, each in one hold of its lock. No reading makes a step. Each answer holds of some
//! moment: before its caller acts on it, another thread may have made a step.
ghost use Rattle.std.specs.Prelude.{◌≡◌, ◌↔◌, length, Err, IsTrue};
ghost use Rattle.tp_types.specs.RunState.{state_rank};
ghost use Rattle.tp_record.specs.Left.{MayRelease};
ghost use Rattle.tp_record.specs.State.{counts as counts_of, fate_of, slot_at};
ghost use Rattle.tp_machine.specs.Readings.{HasOpen};
ghost use Rattle.tp_machine.specs.Seen.{task_of_row};
ghost use Rattle.tp_pool_holds.specs.Readings.{known, IsPromiseOf, IsResult};
ghost use Rattle.tp_glance.specs.Word.{IsFrontOf};
ghost use Rattle.tp_book.specs.BookView.{OrReleased, state_of};
ghost use Rattle.tp_pool_holds.specs.Left.{IsStranded, IsUnstaffed};
ghost use Rattle.tp_pool_holds.specs.Moments.{AtFront, AtSome, BookAtSome, BookOf};
ghost use Rattle.tp_pool_holds.specs.Passes.{LooksOnly};
ghost use Rattle.tp_pool_holds.specs.declared.tasks.Payload.{Payload};

use crate::pool::PoolOf;
use std::sync::Wait;
use tp_book::passes::Pass;
use tp_book::sights::Sight;
use tp_machine::machine::releases::Keeper;
use tp_pool_holds::edges::Edge;
use tp_pool_holds::locked::Locked;
use tp_pool_holds::names::PoolNaming;
use tp_types::ids::{SlotId, TaskId};
use tp_types::refusals::PoolError;
use tp_types::states::{Counts, RunState};
use tp_types::tasks::{Fate, Place, Promise};

/// What `look` reads, all of one moment.
#[derive(Clone, Copy, Debug, PartialEq, Eq)]
pub struct Reading {
    /// The run state.
    pub state: RunState,
    /// The twelve counters.
    pub counts: Counts,
    /// The moment, in ticks.
    pub now: u64,
    /// The record's length, in entries.
    pub steps: u64,
}

// What is read of the value under the lock, which shows this run state.
fn reading_of<G: PoolNaming, J: Drop, K: Keeper>(
    locked: &Locked<G, J, K>,
    state: RunState,
) -> Reading
    ensures state { result.state ≡ state }
    ensures counts { result.counts ≡ counts_of (state_of locked.now.book) }
    ensures now { result.now ≡ (state_of locked.now.book).now }
    ensures steps { result.steps ≡ length locked.now.book.history }
{
    let book = locked.book();
    Reading {
        state,
        counts: book.counts(),
        now: book.now(),
        steps: book.steps(),
    }
}

impl<G: PoolNaming, J: Drop, E: Edge, K: Keeper> PoolOf<G, J, E, K> {
    /// The run state, the counters, the moment and the record's length, as they are after the record that the
    /// pass knows then. That record goes on from the one that it knew; the call makes no step.
    pub fn look<R: Wait>(&self, rt: &R, pass: &mut Pass<G>) -> Reading
        ensures reads { AtFront (K.terms G.config) pass.new.front (λ s. (state_rank result.state ≡ s.rank) × (result.counts ≡ counts_of s) × (result.now ≡ s.now)) }
        ensures steps { result.steps ≡ length pass.new.front }
        ensures looks { LooksOnly (K.terms G.config) pass.old pass.new }
    {
        let shared = self.shared();
        let mut locked = shared.hold(rt);
        locked.law_is_book();
        let state = locked.show(&shared.around.glance, pass);
        reading_of(&locked, state)
    }

    /// As `look`, with a sight in place of a pass: for a thread that looks at the pool and makes no step.
    pub fn look_by<R: Wait>(&self, rt: &R, sight: &mut Sight<G>) -> Reading
        ensures reads { AtFront (K.terms G.config) sight.new (λ s. (state_rank result.state ≡ s.rank) × (result.counts ≡ counts_of s) × (result.now ≡ s.now)) }
        ensures steps { result.steps ≡ length sight.new }
        ensures goes_on { IsFrontOf sight.old sight.new }
    {
        let shared = self.shared();
        let mut locked = shared.hold(rt);
        locked.law_is_book();
        let state = locked.show_sight(&shared.around.glance, sight);
        reading_of(&locked, state)
    }

    /// Lets a sight and a pass know the record as it is now, which goes on from what each of them knew. It makes no step. A pool that is
    /// closed with this pass goes on from what the sight knew.
    pub fn catch_up<R: Wait>(&self, rt: &R, sight: &mut Sight<G>, pass: &mut Pass<G>)
        ensures same { sight.new ≡ pass.new.front }
        ensures goes_on { IsFrontOf sight.old sight.new }
        ensures looks { LooksOnly (K.terms G.config) pass.old pass.new }
    {
        let shared = self.shared();
        let mut locked = shared.hold(rt);
        locked.law_is_book();
        locked.show_sight(&shared.around.glance, sight);
        locked.show(&shared.around.glance, pass);
    }

    /// A sight, which knows what the pass knows. It is no pass: a close wants none back, and it may be dropped.
    pub fn sight(&self, pass: &mut Pass<G>) -> Sight<G>
        ensures begins { result ≡ pass.old.front }
        ensures same { pass.new ≡ pass.old }
    {
        pass.sight(&self.shared().around.glance)
    }

    /// The run state, as the record has it. `glance` answers without the lock.
    pub fn state<R: Wait>(&self, rt: &R) -> RunState
        ensures { AtSome (K.terms G.config) (λ s. state_rank result ≡ s.rank) }
    {
        self.shared().hold(rt).book().state()
    }

    /// The twelve counters, all of one moment, as `getTaskCount`, `getPoolSize` and their like.
    pub fn counts<R: Wait>(&self, rt: &R) -> Counts
        ensures { AtSome (K.terms G.config) (λ s. result ≡ counts_of s) }
    {
        self.shared().hold(rt).book().counts()
    }

    /// The core size, in workers, as `getCorePoolSize`.
    pub fn core_size<R: Wait>(&self, rt: &R) -> u32
        ensures { AtSome (K.terms G.config) (λ s. result ≡ s.core) }
    {
        self.shared().hold(rt).book().core_size()
    }

    /// Whether tasks are stranded: they are queued in a pool that is shut down and has no slot, live or reserved. Then no
    /// worker comes for them unless a call has one made, and the pool stays open until `remove` or `shutdown_now` takes them
    /// out. Java has no such call.
    pub fn is_stranded<R: Wait>(&self, rt: &R) -> bool
        ensures { AtSome (K.terms G.config) (λ s. IsTrue result ↔ IsStranded s) }
    {
        self.shared().hold(rt).is_stranded()
    }

    /// Whether the pool is unstaffed: it runs with queued tasks and has no slot, since no worker could be made. The next submission asks for
    /// one; so do `prestart_core`, and at core size 0 `set_core`. A worker's thread that ends has tried once for each queued task, and a
    /// life's own thread goes on trying. Java's pool waits for the next submission.
    pub fn is_unstaffed<R: Wait>(&self, rt: &R) -> bool
        ensures { AtSome (K.terms G.config) (λ s. IsTrue result ↔ IsUnstaffed s) }
    {
        self.shared().hold(rt).is_unstaffed()
    }

    /// The moment, in ticks.
    pub fn now<R: Wait>(&self, rt: &R) -> u64
        ensures { AtSome (K.terms G.config) (λ s. result ≡ s.now) }
    {
        self.shared().hold(rt).book().now()
    }

    /// Whether a task of the group has no fate yet.
    pub fn group_open<R: Wait>(&self, rt: &R, g: u32) -> bool
        ensures { AtSome (K.terms G.config) (λ s. IsTrue result ↔ HasOpen g s) }
    {
        self.shared().hold(rt).book().group_open(g)
    }

    /// The task in the slot of this number, None where the slot has none or there is no such slot.
    pub fn task_in<R: Wait>(&self, rt: &R, w: SlotId) -> Option<TaskId>
        ensures { AtSome (K.terms G.config) (λ s. result ≡ task_of_row (slot_at s.slots w.0)) }
    {
        self.shared().hold(rt).book().task_in(w)
    }

    /// The task's place. UnknownTask (6) where no submission got this number.
    pub fn place<R: Wait>(&self, rt: &R, t: TaskId) -> Result<Place, PoolError>
        ensures { AtSome (K.terms G.config) (λ s. OrReleased K.RECEIPTS (result ≡ known s t.0 (λ r. r.place)) ((result ≡ Err PoolError.UnknownTask) × MayRelease s t.0)) }
    {
        self.shared().hold(rt).book().place(t)
    }

    /// The promise of the task's job. UnknownTask (6) where no submission got this number.
    pub fn promise<R: Wait>(&self, rt: &R, t: TaskId) -> Result<Promise, PoolError>
        ensures { BookAtSome (Payload J) (K.terms G.config) (λ b. IsPromiseOf b t.0 K.RECEIPTS result) }
    {
        self.shared().hold(rt).book().promise(t)
    }

    /// The task's fate, None while it is open. UnknownTask (6) where no submission got this number.
    pub fn fate<R: Wait>(&self, rt: &R, t: TaskId) -> Result<Option<Fate>, PoolError>
        ensures { AtSome (K.terms G.config) (λ s. OrReleased K.RECEIPTS (result ≡ known s t.0 fate_of) ((result ≡ Err PoolError.UnknownTask) × MayRelease s t.0)) }
    {
        self.shared().hold(rt).book().fate(t)
    }

    /// The answer of the task's future, as `Future.get` gives it, but without waiting: None while the task is
    /// open, else its value. An outcome is as the job promised.
    ///
    /// UnknownTask (6) where no submission got this number; NotFuture (9) for a plain task;
    /// CancelledTask (13), as a `CancellationException`; Faulted (14) with the job's fault, as an
    /// `ExecutionException`; Lost (15) with the fate of a task that left without running, at which Java's
    /// `get` waits for ever.
    pub fn result<R: Wait>(&self, rt: &R, t: TaskId) -> Result<Option<i64>, PoolError>
        ensures { BookAtSome (Payload J) (K.terms G.config) (λ b. IsResult b t.0 K.RECEIPTS result) }
    {
        self.shared().hold(rt).book().result(t)
    }

    /// As `result`, as it is after the record that the pass knows then. That record goes on from the one that it
    /// knew; the call makes no step.
    pub fn result_with<R: Wait>(
        &self,
        rt: &R,
        t: TaskId,
        pass: &mut Pass<G>,
    ) -> Result<Option<i64>, PoolError>
        ensures reads { BookOf (Payload J) (K.terms G.config) pass.new (λ b. IsResult b t.0 K.RECEIPTS result) }
        ensures looks { LooksOnly (K.terms G.config) pass.old pass.new }
        ensures knew { IsFrontOf pass.old.released pass.new.released }
    {
        let shared = self.shared();
        shared.hold(rt).show_result(t, &shared.around.glance, pass)
    }

    /// The record's length, in entries.
    pub fn steps<R: Wait>(&self, rt: &R) -> u64
        ensures { BookAtSome (Payload J) (K.terms G.config) (λ b. result ≡ length b.history) }
    {
        self.shared().hold(rt).book().steps()
    }
}
