//! What workers do in one hold of the lock.
ghost use Rattle.std.specs.Prelude.{◌≡◌, ◌⊎◌, ◌↔◌, ◌+◌, ◌-◌, ◌<◌, ◌≤◌, ◌++◌, [], ◌∷◌, set, Result, IfOk, IfErr, OnOk, OnErr, IsTrue};
ghost use Rattle.tp_record.specs.State.{state};
ghost use Rattle.tp_waking.specs.Rests.{rest_at};
ghost use Rattle.tp_machine_state.specs.Payloads.{Keeps};
ghost use Rattle.tp_machine_workers.specs.Begun.{Begins};
ghost use Rattle.tp_machine.specs.Answers.{payload_begun, started_of};
ghost use Rattle.tp_machine.specs.Readings.{IsDyingAt};
ghost use Rattle.tp_book.specs.BookView.{released_of};
ghost use Rattle.tp_waking.specs.Told.{HasLooked};
ghost use Rattle.tp_pool_holds.specs.LockedView.{LockedView};
ghost use Rattle.tp_pool_holds.specs.Holds.{Answers};
ghost use Rattle.tp_pool_holds.specs.Rosters.{gathered_with, told_at};
ghost use Rattle.tp_pool_holds.specs.Steps.{Asks, begun_of, taking_of};
ghost use Rattle.tp_pool_holds.specs.declared.tasks.Payload.{Payload as TaskOf};

use super::Locked;
use crate::names::PoolNaming;
use crate::roster::Start;
use crate::tasks::Payload;
use tp_book::passes::WorkerPass;
use tp_glance::glance::Glance;
use tp_machine::answers::Begun as Started;
use tp_machine::machine::releases::Keeper;
use tp_machine::typed::Plain;
use tp_machine::typed::workers::{Begin, Take};
use tp_protocols::flags::CancelFlag;
use tp_protocols::turns::BeginAnswer;
use tp_record::entries::{Ask, Did, Took};
use tp_types::ids::SlotId;
use tp_types::refusals::PoolError;
use tp_waking::sleepers::Rest;

/// What a worker's `take` came to, in one hold.
#[derive(Clone, Copy, Debug, PartialEq, Eq)]
pub enum Taking {
    /// It has a task to begin.
    Task,
    /// It left.
    Left,
    /// There is no such slot.
    Refused,
    /// It sleeps from now on, until it is woken.
    Sleeps,
}

// What a worker's `take` came to.
#[inline(always)]
fn taking_from(took: &Result<Took, PoolError>) -> Taking
    ensures { result ≡ taking_of took.now }
{
    match took {
        Ok(Took::Held(_) | Took::Head(_)) => Taking::Task,
        Ok(Took::Leave) => Taking::Left,
        Ok(Took::Idle) => Taking::Sleeps,
        // A worker that is idle already stays so.
        Err(PoolError::NotThere) => Taking::Sleeps,
        Err(_) => Taking::Refused,
    }
}

// What a worker's `begin` came to.
#[inline(always)]
fn begun_from<J: Drop>(begun: Result<Started<Payload<J>>, PoolError>) -> BeginAnswer<J>
    ensures { result ≡ begun_of begun }
{
    match begun {
        Ok(Started::Run(t, task)) => BeginAnswer::Run(t, task.into_job()),
        Ok(Started::Skip(t)) => BeginAnswer::Skip(t),
        Err(_) => BeginAnswer::Refused,
    }
}

impl<G: PoolNaming, J: Drop, R: Keeper> Locked<G, J, R> {
    /// The worker of slot `w` asks for its next task; where it finds none, it is listed among the workers that
    /// sleep.
    #[inline(always)]
    pub fn take(&mut self, w: SlotId, glance: &Glance<G>, pass: &mut WorkerPass<G>) -> Taking
        ensures number { pass.new.number ≡ pass.old.number }
        ensures works { (result ≡ Taking.Task) ⊎ (result ≡ Taking.Left) → pass.new.amount ≡ pass.old.amount + 1 }
        ensures worked { (mid : LockedView J) × (r : Result Took PoolError) × Answers R.RECEIPTS self.old mid pass.old.number (Ask.Take w) (λ x. Did.Take w x) (λ _. Keeps) r
            × (result ≡ taking_of r) × (self.new ≡ record mid { waking = self.new.waking }) × HasLooked mid.waking self.new.waking w.0 (result ≡ Taking.Sleeps) }
        ensures asks { Asks J R.RECEIPTS (R.terms G.config) pass.old.number pass.old.front (Ask.Take w) (λ x. Did.Take w x) (λ _. Keeps) pass.new.front (λ r. result ≡ taking_of r) }
    {
        let taking = taking_from(&self.step(Plain(Take(w)), glance, pass));
        let queued = self.book.counts().queued;
        self.waking.took(w, taking == Taking::Sleeps, queued);
        taking
    }

    /// The worker of slot `w` begins the task that it took, and gets its job. By the slot's flag the pool has the job hear of a
    /// cancel.
    #[inline(always)]
    pub fn begin(
        &mut self,
        w: SlotId,
        glance: &Glance<G>,
        pass: &mut WorkerPass<G>,
    ) -> BeginAnswer<J>
        ensures number { pass.new.number ≡ pass.old.number }
        ensures worked { (r : Result (Started (TaskOf J)) PoolError) × Answers R.RECEIPTS self.old self.new pass.old.number (Ask.Begin w) (λ x. Did.Begin w (started_of x)) (λ x old new. Begins old (started_of x) new (payload_begun x)) r
            × (result ≡ begun_of r) }
        ensures asks { Asks J R.RECEIPTS (R.terms G.config) pass.old.number pass.old.front (Ask.Begin w) (λ x. Did.Begin w (started_of x)) (λ x old new. Begins old (started_of x) new (payload_begun x)) pass.new.front (λ r. result ≡ begun_of r) }
    {
        begun_from(self.step(Begin(w), glance, pass))
    }

    /// The worker of slot `w` goes on with this flag. The pool's hold of the one before comes back, to be let go of with no
    /// lock held, since its memory may be given back.
    pub fn seat_flag(&mut self, w: SlotId, kept: CancelFlag) -> Option<CancelFlag>
        ensures { self.new ≡ self.old }
    {
        self.flags.seat(w, kept)
    }

    /// Whether the worker of this slot is to leave, since its plain task faulted.
    #[inline(always)]
    pub fn is_dying(&self, w: SlotId) -> bool
        ensures { IsTrue result ↔ IsDyingAt (state (R.terms G.config) self.now.book.history) w.0 }
    {
        self.book.is_dying(w)
    }

    /// A pass for the worker of a slot that is reserved, whose thread waits to be told. The slot has this flag then, of which
    /// the worker has the other hold. NoMemory (4) or BookFull (5).
    pub fn enlist(
        &mut self,
        w: SlotId,
        kept: CancelFlag,
        glance: &Glance<G>,
    ) -> Result<WorkerPass<G>, PoolError>
        ensures new { IfOk result (λ p. p ≡ record { number = self.old.book.accounts.made; amount = 0; front = self.old.book.history; released = released_of self.old.book }) }
        ensures made { OnOk result (self.new.book ≡ record self.old.book { accounts = record self.old.book.accounts { made = self.old.book.accounts.made + 1 } }) }
        ensures waits { OnOk result (self.new.roster.seats ≡ set self.old.roster.seats w.0 (record { pass = self.old.book.accounts.made; start = Start.Waits })) }
        ensures running { OnOk result (self.new.roster.running ≡ self.old.roster.running + 1) }
        ensures ended { self.new.roster.ended ≡ self.old.roster.ended }
        ensures asleep { self.new.waking ≡ self.old.waking }
        ensures unchanged { OnErr result (self.new ≡ self.old) }
        ensures refused { IfErr result (λ e. (e ≡ PoolError.NoMemory) ⊎ ((e ≡ PoolError.BookFull) × (4294967295 ≤ self.old.book.accounts.made))) }
    {
        if let Err(error) = self.roster.admits(w) {
            return Err(error);
        }
        match self.book.new_worker_pass(glance) {
            Ok(pass) => {
                self.roster.add(w, pass.number());
                self.flags.seat(w, kept);
                Ok(pass)
            }
            Err(error) => Err(error),
        }
    }

    /// What the thread of this slot and pass was told.
    pub fn told(&self, w: SlotId, pass: &WorkerPass<G>) -> Start
        ensures { result ≡ told_at self.now.roster.seats w.0 pass.now.number }
    {
        self.roster.told(w, pass.number())
    }

    /// Whether the worker of this slot sleeps.
    pub fn is_asleep(&self, w: SlotId) -> bool
        ensures { IsTrue result ↔ (rest_at self.now.waking.sleepers w.0 ≡ Rest.Listed) }
    {
        self.waking.sleepers.rest(w) == Rest::Listed
    }

    /// Takes back the pass of a thread that ends.
    pub fn hand_in(&mut self, pass: WorkerPass<G>)
        ensures back { 0 < self.old.roster.running → self.new ≡ record self.old { roster = record self.old.roster { running = self.old.roster.running - 1; ended = gathered_with self.old.roster.ended pass } } }
        ensures none { self.old.roster.running ≡ 0 → self.new ≡ self.old }
    {
        self.roster.take_back(pass);
    }

    /// How many threads have not handed in their passes.
    pub fn running(&self) -> usize
        ensures { result ≡ self.now.roster.running }
    {
        self.roster.running()
    }
}
