//! Waits: for a pool's end, for done tasks of a group, and for the workers' threads. A waiter begins to wait with the
//! guard of the hold in which its look failed, so no step falls between.
ghost use Rattle.std.specs.Prelude.{true, false, ◌≡◌, ◌⊎◌, ◌<◌, ◌≤◌, [], ◌∷◌, IfOk, IfErr, OnOk, OnErr};
ghost use Rattle.tp_record.specs.Fields.{rank};
ghost use Rattle.tp_machine.specs.Readings.{lacks_room};
ghost use Rattle.tp_pool_holds.specs.Moments.{AtFront, AtSome};
ghost use Rattle.tp_pool_holds.specs.Passes.{Adds, AddsStep, LooksOnly, tidied, ended};
ghost use Rattle.tp_pool_holds.specs.Readings.{has_come, IsUndoneAt};
ghost use Rattle.tp_pool_holds.specs.Endings.{IsBarred};

use crate::edges::Edge;
use crate::locked::EndSeen;
use crate::names::PoolNaming;
use crate::shared::{Event, Shared};
use std::sync::Wait;
use tp_book::passes::Pass;
use tp_machine::machine::releases::Keeper;
use tp_record::entries::{Ask, Did};
use tp_types::ids::TaskId;
use tp_types::refusals::PoolError;

impl<G: PoolNaming, J: Drop, E: Edge, K: Keeper> Shared<G, J, E, K> {
    /// Waits until the pool is terminated, or now has reached the deadline, if there is one, and ends the pool
    /// where it can end.
    pub fn await_end<R: Wait>(
        &self,
        rt: &R,
        deadline: Option<u64>,
        pass: &mut Pass<G>,
    ) -> Result<(), PoolError>
        requires room { 2 ≤ pass.old.room }
        ensures steps { OnOk result (Adds (K.terms G.config) pass.old [] pass.new ⊎ Adds (K.terms G.config) pass.old (tidied pass.old.number ∷ ended pass.old.number ∷ []) pass.new) }
        ensures seen { OnOk result (rank pass.new.front ≡ 4) }
        ensures late { IfErr result (λ e. e ≡ PoolError.TimedOut → AtFront (K.terms G.config) pass.new.front (λ s. (has_come deadline s.now ≡ true) × ¬ (s.rank ≡ 4))) }
        ensures refused { IfErr result (λ e. ((e ≡ PoolError.TimedOut) × Adds (K.terms G.config) pass.old [] pass.new) ⊎ ((e ≡ PoolError.TornRecord) × IsBarred (K.terms G.config) pass.new.front Ask.Ended × Adds (K.terms G.config) pass.old (tidied pass.old.number ∷ []) pass.new)) }
    {
        let mut locked = self.hold(rt);
        for _ in rt.forever() {
            match locked.look(deadline, &self.around.glance, pass) {
                EndSeen::Terminated => return Ok(()),
                EndSeen::Late => return Err(PoolError::TimedOut),
                EndSeen::Tidied => {
                    self.release(locked);
                    return self.terminate(rt, pass);
                }
                EndSeen::Waits => locked = self.wait_at(rt, Event::End, locked),
            }
        }
        unreachable!()
    }

    /// Takes the task of this group that was done first, or waits while none is done and one is open, with a pass that has
    /// room for the receipt.
    pub fn await_done<R: Wait>(
        &self,
        rt: &R,
        group: u32,
        pass: &mut Pass<G>,
    ) -> Result<TaskId, PoolError>
        requires room { 0 < pass.old.room }
        ensures step { IfOk result (λ t. AddsStep (K.terms G.config) pass.old (Ask.TakeDone group) (Did.TakeDone group t) pass.new) }
        ensures refused { IfErr result (λ e. AtFront (K.terms G.config) pass.new.front (λ s. IsUndoneAt (K.terms G.config) s group e)) }
        ensures unchanged { OnErr result (LooksOnly (K.terms G.config) pass.old pass.new) }
    {
        let mut locked = self.hold(rt);
        for _ in rt.forever() {
            match locked.await_done(group, &self.around.glance, pass) {
                Ok(Some(t)) => {
                    self.release(locked);
                    return Ok(t);
                }
                Ok(None) => locked = self.wait_at(rt, Event::Results, locked),
                Err(error) => {
                    self.release(locked);
                    return Err(error);
                }
            }
        }
        unreachable!()
    }

    /// Waits until a task that is submitted would find room, or the pool runs no more. Another submission may be first, so what
    /// becomes of the task is told by its own submission.
    pub fn await_room<R: Wait>(&self, rt: &R)
        ensures { AtSome (K.terms G.config) (λ s. lacks_room (K.terms G.config).queue s ≡ false) }
    {
        if self.around.policy.has_endless_queue::<K>() {
            return;
        }
        let mut locked = self.hold(rt);
        for _ in rt.forever() {
            if locked.await_room() {
                return;
            }
            locked = self.wait_at(rt, Event::Room, locked);
        }
        unreachable!()
    }

    /// Waits until all threads of workers have handed in their passes.
    pub fn await_workers<R: Wait>(&self, rt: &R) {
        let mut locked = self.hold(rt);
        for _ in rt.forever() {
            if locked.running() == 0 {
                return;
            }
            locked = self.wait_at(rt, Event::Gone, locked);
        }
    }
}
