//! Waits by the clock. They make no tick, and a wait for a future no step at all. A waiter begins to wait with the guard of the hold
//! in which its look failed, so no step falls between the look and the sleep.
ghost use Rattle.std.specs.Prelude.{◌≡◌, ◌⊎◌, ◌<◌, ◌≤◌, [], ◌∷◌, IfOk, IfErr, OnOk, OnErr};
ghost use Rattle.tp_record.specs.Fields.{rank};
ghost use Rattle.tp_glance.specs.Word.{IsFrontOf};
ghost use Rattle.tp_pool_holds.specs.Moments.{AtFront, BookOf};
ghost use Rattle.tp_pool_holds.specs.Passes.{Adds, AddsNone, AddsStep, LooksOnly, tidied, ended};
ghost use Rattle.tp_pool_holds.specs.Readings.{got};
ghost use Rattle.tp_pool_holds.specs.declared.tasks.Payload.{Payload};
ghost use Rattle.tp_pool_holds.specs.Endings.{IsBarred};
ghost use Rattle.tp_pool.specs.Timed.{IsFoundInTime, IsUndoneInTime};

use crate::pool::PoolOf;
use std::sync::Wait;
use std::time::{Clock, Duration, Instant};
use tp_book::passes::Pass;
use tp_machine::machine::releases::Keeper;
use tp_pool_holds::edges::Edge;
use tp_pool_holds::locked::EndSeen;
use tp_pool_holds::names::PoolNaming;
use tp_pool_holds::shared::Event;
use tp_record::entries::{Ask, Did};
use tp_types::ids::TaskId;
use tp_types::refusals::PoolError;

/// The time of a wait by the clock: when it began, None where the clock could not be read, and how long it may last.
#[derive(Clone, Copy)]
pub struct Timer {
    begun: Option<Instant>,
    most: Duration,
}

impl Timer {
    /// A wait begins, of at most so long.
    pub fn new<R: Clock>(rt: &R, most: Duration) -> Timer {
        Timer {
            begun: Instant::now(rt).ok(),
            most,
        }
    }

    /// How much of its time is left: None where none is, or the clock can't be read.
    pub fn left<R: Clock>(&self, rt: &R) -> Option<Duration> {
        let spent = self.begun?.elapsed(rt).ok()?;
        self.most.checked_sub(spent)
    }
}

impl<G: PoolNaming, J: Drop, E: Edge, K: Keeper> PoolOf<G, J, E, K> {
    /// As `await_result_with`, but for at most so long by the clock, as `Future.get` with a timeout. The answer is as it is after the
    /// record that the pass knows then. The call makes no step and no tick.
    ///
    /// TimedOut (16) where the time is over, or the clock can't be read, and the future is open. Else as `result`: UnknownTask (6),
    /// NotFuture (9), CancelledTask (13), Faulted (14) or Lost (15).
    pub fn await_result_for<R: Wait + Clock>(
        &self,
        rt: &R,
        t: TaskId,
        most: Duration,
        pass: &mut Pass<G>,
    ) -> Result<i64, PoolError>
        ensures reads { BookOf (Payload J) (K.terms G.config) pass.new (λ b. IsFoundInTime b t.0 K.RECEIPTS (got result)) }
        ensures looks { LooksOnly (K.terms G.config) pass.old pass.new }
        ensures knew { IsFrontOf pass.old.released pass.new.released }
    {
        let timer = Timer::new(rt, most);
        let shared = self.shared();
        let mut locked = shared.hold(rt);
        for _ in rt.forever() {
            let found = locked.show_awaited(t, None, &shared.around.glance, pass);
            if let Some(answer) = found.transpose() {
                return answer;
            }
            let Some(left) = timer.left(rt) else {
                return Err(PoolError::TimedOut);
            };
            locked = shared.wait_at_for(rt, Event::Results, locked, left);
        }
        unreachable!()
    }

    /// As `await_done`, but for at most so long by the clock, as `ExecutorCompletionService.poll` with a timeout.
    ///
    /// NoMemory (4) for its receipt, else NothingOpen (19) where none is done and none is open, TimedOut (16) where the time is over, or the
    /// clock can't be read, and one is open, or BookFull (5). After a refusal nothing was taken. It makes no tick.
    pub fn await_done_for<R: Wait + Clock>(
        &self,
        rt: &R,
        group: u32,
        most: Duration,
        pass: &mut Pass<G>,
    ) -> Result<TaskId, PoolError>
        ensures step { IfOk result (λ t. AddsStep (K.terms G.config) pass.old (Ask.TakeDone group) (Did.TakeDone group t) pass.new) }
        ensures refused { IfErr result (λ e. ((e ≡ PoolError.NoMemory) × (pass.old.room < 1)) ⊎ AtFront (K.terms G.config) pass.new.front (λ s. IsUndoneInTime (K.terms G.config) s group e)) }
        ensures unchanged { OnErr result (AddsNone pass.old pass.new) }
    {
        if let Err(error) = pass.reserve(1) {
            return Err(error);
        }
        self.done_in_time(rt, group, Timer::new(rt, most), pass)
    }

    // The same with a pass that has room for the receipt.
    fn done_in_time<R: Wait + Clock>(
        &self,
        rt: &R,
        group: u32,
        timer: Timer,
        pass: &mut Pass<G>,
    ) -> Result<TaskId, PoolError>
        requires room { 0 < pass.old.room }
        ensures step { IfOk result (λ t. AddsStep (K.terms G.config) pass.old (Ask.TakeDone group) (Did.TakeDone group t) pass.new) }
        ensures refused { IfErr result (λ e. AtFront (K.terms G.config) pass.new.front (λ s. IsUndoneInTime (K.terms G.config) s group e)) }
        ensures unchanged { OnErr result (LooksOnly (K.terms G.config) pass.old pass.new) }
    {
        let shared = self.shared();
        let mut locked = shared.hold(rt);
        for _ in rt.forever() {
            match locked.await_done(group, &shared.around.glance, pass) {
                Ok(Some(t)) => {
                    shared.release(locked);
                    return Ok(t);
                }
                Ok(None) => {
                    let Some(left) = timer.left(rt) else {
                        return Err(PoolError::TimedOut);
                    };
                    locked = shared.wait_at_for(rt, Event::Results, locked, left);
                }
                Err(error) => {
                    shared.release(locked);
                    return Err(error);
                }
            }
        }
        unreachable!()
    }

    /// As `await_termination`, but for at most so long by the clock. It makes no tick.
    ///
    /// NoMemory (4) for its receipts, else TimedOut (16) where the time is over, or the clock can't be read, and the pool is not
    /// terminated: these calls make no step. TornRecord (22) does not come as long as the pool's book is sound.
    pub fn await_end_for<R: Wait + Clock>(
        &self,
        rt: &R,
        most: Duration,
        pass: &mut Pass<G>,
    ) -> Result<(), PoolError>
        ensures steps { OnOk result (Adds (K.terms G.config) pass.old [] pass.new ⊎ Adds (K.terms G.config) pass.old (tidied pass.old.number ∷ ended pass.old.number ∷ []) pass.new) }
        ensures seen { OnOk result (rank pass.new.front ≡ 4) }
        ensures late { IfErr result (λ e. e ≡ PoolError.TimedOut → AtFront (K.terms G.config) pass.new.front (λ s. ¬ (s.rank ≡ 4))) }
        ensures refused { IfErr result (λ e. ((e ≡ PoolError.NoMemory) × (pass.old.room < 2) × AddsNone pass.old pass.new)
            ⊎ ((e ≡ PoolError.TimedOut) × Adds (K.terms G.config) pass.old [] pass.new)
            ⊎ ((e ≡ PoolError.TornRecord) × IsBarred (K.terms G.config) pass.new.front Ask.Ended × Adds (K.terms G.config) pass.old (tidied pass.old.number ∷ []) pass.new)) }
    {
        if let Err(error) = pass.reserve(2) {
            return Err(error);
        }
        self.end_in_time(rt, Timer::new(rt, most), pass)
    }

    // The same with a pass that has room for the receipts.
    fn end_in_time<R: Wait + Clock>(
        &self,
        rt: &R,
        timer: Timer,
        pass: &mut Pass<G>,
    ) -> Result<(), PoolError>
        requires room { 2 ≤ pass.old.room }
        ensures steps { OnOk result (Adds (K.terms G.config) pass.old [] pass.new ⊎ Adds (K.terms G.config) pass.old (tidied pass.old.number ∷ ended pass.old.number ∷ []) pass.new) }
        ensures seen { OnOk result (rank pass.new.front ≡ 4) }
        ensures late { IfErr result (λ e. e ≡ PoolError.TimedOut → AtFront (K.terms G.config) pass.new.front (λ s. ¬ (s.rank ≡ 4))) }
        ensures refused { IfErr result (λ e. ((e ≡ PoolError.TimedOut) × Adds (K.terms G.config) pass.old [] pass.new) ⊎ ((e ≡ PoolError.TornRecord) × IsBarred (K.terms G.config) pass.new.front Ask.Ended × Adds (K.terms G.config) pass.old (tidied pass.old.number ∷ []) pass.new)) }
    {
        let shared = self.shared();
        let mut locked = shared.hold(rt);
        for _ in rt.forever() {
            let left = timer.left(rt);
            // Once the time is over it is past tick 0, as at each moment: so the look answers that it is late.
            let deadline = if left.is_none() { Some(0) } else { None };
            match locked.look(deadline, &shared.around.glance, pass) {
                EndSeen::Terminated => return Ok(()),
                EndSeen::Late => return Err(PoolError::TimedOut),
                EndSeen::Tidied => {
                    shared.release(locked);
                    return shared.terminate(rt, pass);
                }
                EndSeen::Waits => {
                    let left = left.unwrap_or(Duration::ZERO);
                    locked = shared.wait_at_for(rt, Event::End, locked, left);
                }
            }
        }
        unreachable!()
    }
}
