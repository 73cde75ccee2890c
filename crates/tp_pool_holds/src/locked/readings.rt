//! What is read in one hold of the lock. A thread that looks for what is not there yet says so in the same hold.
ghost use Rattle.std.specs.Prelude.{◌≡◌, ◌↔◌, ◌<◌, ◌≤◌, not, true, false, length, Ok, Err, None, IsTrue, IfOk, IfErr, IfSome, IfNone, OnErr};
ghost use Rattle.tp_types.specs.RunState.{state_rank};
ghost use Rattle.tp_record.specs.State.{counts as counts_of, fate_of, slot_at};
ghost use Rattle.tp_machine_state.specs.Payloads.{Keeps};
ghost use Rattle.tp_machine.specs.Readings.{HasOpen, lacks_room as is_without_room};
ghost use Rattle.tp_machine.specs.Seen.{task_of_row};
ghost use Rattle.tp_machine.specs.Steps.{IsRefusedAt};
ghost use Rattle.tp_record.specs.Left.{MayRelease};
ghost use Rattle.tp_book.specs.BookView.{state_of, IsReleased, IsUnmoved, OrReleased};
ghost use Rattle.tp_glance.specs.Word.{IsFrontOf};
ghost use Rattle.tp_pool_holds.specs.Holds.{Holds};
ghost use Rattle.tp_pool_holds.specs.Moments.{AtFront, AtSome, BookAtSome, BookOf};
ghost use Rattle.tp_pool_holds.specs.Passes.{AddsStep, LooksOnly};
ghost use Rattle.tp_pool_holds.specs.Readings.{known, has_come as come, unless_late as found_unless, IsPromiseOf, IsResult, IsFound, IsUndoneAt};
ghost use Rattle.tp_pool_holds.specs.declared.tasks.Payload.{Payload as TaskOf};

use super::Locked;
use crate::names::PoolNaming;
use tp_book::passes::Pass;
use tp_glance::glance::Glance;
use tp_machine::machine::releases::Keeper;
use tp_machine::typed::Plain;
use tp_machine::typed::controllers::TakeDone;
use tp_record::entries::{Ask, Did};
use tp_types::ids::{SlotId, TaskId};
use tp_types::refusals::PoolError;
use tp_types::states::{Counts, RunState};
use tp_types::tasks::{Fate, Place, Promise};

/// Whether now has reached the deadline, if there is one.
pub(super) fn has_come(deadline: Option<u64>, now: u64) -> bool
    ensures { result ≡ come deadline now }
{
    match deadline {
        Some(deadline) => deadline <= now,
        None => false,
    }
}

// What a wait for a future finds that answers so.
fn unless_late(late: bool, found: Result<Option<i64>, PoolError>) -> Result<Option<i64>, PoolError>
    ensures { result ≡ found_unless late found }
{
    match found {
        Ok(None) if late => Err(PoolError::TimedOut),
        _ => found,
    }
}

impl<G: PoolNaming, J: Drop, R: Keeper> Locked<G, J, R> {
    /// What the task's future answers: `Book::result`. The pass then knows the whole history, at whose end this is the answer.
    pub fn show_result(
        &mut self,
        t: TaskId,
        glance: &Glance<G>,
        pass: &mut Pass<G>,
    ) -> Result<Option<i64>, PoolError>
        ensures reads { BookOf (TaskOf J) (R.terms G.config) pass.new (λ b. IsResult b t.0 R.RECEIPTS result) }
        ensures looks { LooksOnly (R.terms G.config) pass.old pass.new }
        ensures knew { IsFrontOf pass.old.released pass.new.released }
        ensures same { self.new ≡ self.old }
    {
        self.law_is_book();
        self.show(glance, pass);
        self.book().result(t)
    }

    /// One look of a waiter for the task's future: what it answers, as `result`; while it is open TimedOut (16)
    /// where now has reached the deadline. Where it is to wait, it has said so.
    pub fn await_result(
        &mut self,
        t: TaskId,
        deadline: Option<u64>,
    ) -> Result<Option<i64>, PoolError>
        ensures here { IsFound self.old.book t.0 R.RECEIPTS deadline result }
        ensures same { self.new ≡ record self.old { waking = record self.old.waking { awaited = self.new.waking.awaited } } }
        ensures awaits { result ≡ Ok None → IsTrue self.new.waking.awaited.results }
        ensures some { BookAtSome (TaskOf J) (R.terms G.config) (λ b. IsFound b t.0 R.RECEIPTS deadline result) }
    {
        self.law_is_book();
        let late = has_come(deadline, self.book.now());
        let found = unless_late(late, self.book.result(t));
        if matches!(found, Ok(None)) {
            self.waking.await_result();
        }
        found
    }

    /// As `await_result`. The pass then knows the whole history, at whose end the look was made.
    pub fn show_awaited(
        &mut self,
        t: TaskId,
        deadline: Option<u64>,
        glance: &Glance<G>,
        pass: &mut Pass<G>,
    ) -> Result<Option<i64>, PoolError>
        ensures reads { BookOf (TaskOf J) (R.terms G.config) pass.new (λ b. IsFound b t.0 R.RECEIPTS deadline result) }
        ensures looks { LooksOnly (R.terms G.config) pass.old pass.new }
        ensures knew { IsFrontOf pass.old.released pass.new.released }
        ensures same { self.new ≡ record self.old { waking = record self.old.waking { awaited = self.new.waking.awaited } } }
        ensures awaits { result ≡ Ok None → IsTrue self.new.waking.awaited.results }
    {
        self.law_is_book();
        self.show(glance, pass);
        self.await_result(t, deadline)
    }

    /// One look of a waiter for a done task of the group, which takes it: the step `take_done`. Where none is
    /// done and none is open it is NothingOpen (19), and where one is open it is to wait, and has said so. Else
    /// BookFull (5).
    pub fn await_done(
        &mut self,
        group: u32,
        glance: &Glance<G>,
        pass: &mut Pass<G>,
    ) -> Result<Option<TaskId>, PoolError>
        requires room { 0 < pass.old.room }
        ensures step { IfOk result (λ found. IfSome found (λ t. AddsStep (R.terms G.config) pass.old (Ask.TakeDone group) (Did.TakeDone group t) pass.new)) }
        ensures holds { IfOk result (λ found. IfSome found (λ t. Holds R.RECEIPTS self.old self.new pass.old.number (Ask.TakeDone group) (Did.TakeDone group t) Keeps)) }
        ensures waits { IfOk result (λ found. IfNone found (LooksOnly (R.terms G.config) pass.old pass.new)) }
        ensures open { IfOk result (λ found. IfNone found (AtFront (R.terms G.config) pass.new.front (λ s. HasOpen group s × IsRefusedAt (R.terms G.config) s (Ask.TakeDone group) PoolError.NotThere))) }
        ensures awaits { IfOk result (λ found. IfNone found (IsTrue self.new.waking.awaited.results)) }
        ensures unmoved { IfOk result (λ found. IfNone found (IsUnmoved self.old.book self.new.book)) }
        ensures asleep { IfOk result (λ found. IfNone found (self.new.waking ≡ record self.old.waking { awaited = self.new.waking.awaited })) }
        ensures stands { OnErr result (IsUnmoved self.old.book self.new.book × (self.new.waking ≡ self.old.waking)) }
        ensures threads { self.new.roster ≡ self.old.roster }
        ensures refused { IfErr result (λ e. AtFront (R.terms G.config) pass.new.front (λ s. IsUndoneAt (R.terms G.config) s group e)) }
        ensures unchanged { OnErr result (LooksOnly (R.terms G.config) pass.old pass.new) }
        ensures front { (OnErr result (pass.new.front ≡ self.old.book.history)) × (IfOk result (λ found. IfNone found (pass.new.front ≡ self.old.book.history))) }
    {
        let open = self.book.group_open(group);
        let error = match self.step(Plain(TakeDone(group)), glance, pass) {
            Ok(t) => return Ok(Some(t)),
            Err(error) => error,
        };
        if error != PoolError::NotThere {
            return Err(error);
        }
        if !open {
            return Err(PoolError::NothingOpen);
        }
        self.waking.await_result();
        Ok(None)
    }

    /// Whether a task that is submitted now would be refused for want of room: the pool runs, it has as many slots as it may, and its
    /// queue is full.
    pub fn lacks_room(&self) -> bool
        ensures here { result ≡ is_without_room (R.terms G.config).queue (state_of self.now.book) }
        ensures some { AtSome (R.terms G.config) (λ s. result ≡ is_without_room (R.terms G.config).queue s) }
    {
        self.law_is_book();
        self.book.lacks_room()
    }

    /// One look of a waiter for room: whether a task that is submitted now would find some, or the pool runs no more. Where the thread
    /// is to wait, it has said so.
    pub fn await_room(&mut self) -> bool
        ensures here { is_without_room (R.terms G.config).queue (state_of self.old.book) ≡ not result }
        ensures awaits { result ≡ false → IsTrue self.new.waking.awaited.room }
        ensures same { self.new ≡ record self.old { waking = record self.old.waking { awaited = self.new.waking.awaited } } }
        ensures some { AtSome (R.terms G.config) (λ s. is_without_room (R.terms G.config).queue s ≡ not result) }
    {
        if self.lacks_room() {
            self.waking.await_room();
            return false;
        }
        true
    }

    /// One look of a waiter for a record longer than this, in entries: its length. Where it is to wait, it has
    /// said so.
    pub fn await_step(&mut self, seen: u64) -> Option<u64>
        ensures here { IfSome result (λ n. n ≡ length self.old.book.history) }
        ensures waits { IfNone result (length self.old.book.history ≤ seen) }
        ensures awaits { IfNone result (IsTrue self.new.waking.awaited.steps) }
        ensures same { self.new ≡ record self.old { waking = record self.old.waking { awaited = self.new.waking.awaited } } }
        ensures some { IfSome result (λ n. (seen < n) × BookAtSome (TaskOf J) (R.terms G.config) (λ b. n ≡ length b.history)) }
    {
        self.law_is_book();
        let steps = self.book.steps();
        if steps > seen {
            return Some(steps);
        }
        self.waking.await_step();
        None
    }
}
