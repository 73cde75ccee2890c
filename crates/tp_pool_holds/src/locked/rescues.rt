//! What a thread that leaves a pool to nobody learns in one hold of the lock, and with what it goes on.
ghost use Rattle.std.specs.Prelude.{◌≡◌, ◌↔◌, ◌⊎◌, ◌+◌, ◌≤◌, length, IsTrue, IfOk, IfErr, OnOk, OnErr};
ghost use Rattle.tp_types.specs.RunState.{state_rank};
ghost use Rattle.tp_record.specs.State.{State};
ghost use Rattle.tp_record.specs.Step.{slot_count};
ghost use Rattle.tp_book.specs.BookView.{released_of, state_of};
ghost use Rattle.tp_pool_holds.specs.Left.{IsLeft, IsStranded, IsUnstaffed, IsWanted};
ghost use Rattle.tp_pool_holds.specs.Moments.{AtSome};

use super::Locked;
use crate::names::PoolNaming;
use tp_book::passes::WorkerPass;
use tp_glance::glance::Glance;
use tp_machine::machine::releases::Keeper;
use tp_protocols::rescues::Remains;
use tp_types::refusals::PoolError;
use tp_types::states::RunState;

// What is left in a pool in this state, with so many slots and queued tasks, and with this core size.
#[inline(always)]
fn left_in(state: RunState, slots: usize, queued: u32, core: u32) -> Remains
    ensures { (s : State) → state_rank state ≡ s.rank → slots ≡ slot_count s → queued ≡ length s.queue → core ≡ s.core → IsLeft s result }
{
    if slots > 0 {
        return Remains::Nothing;
    }
    match state {
        RunState::Running | RunState::Tidying | RunState::Terminated => Remains::Nothing,
        RunState::Stop => Remains::End,
        RunState::Shutdown if queued == 0 => Remains::End,
        RunState::Shutdown if core == 0 => Remains::Nothing,
        RunState::Shutdown => Remains::Worker(queued),
    }
}

// Whether the tasks of a pool in this state are stranded, with so many slots and queued tasks.
#[inline(always)]
fn strands(state: RunState, slots: usize, queued: u32) -> bool
    ensures { (s : State) → state_rank state ≡ s.rank → slots ≡ slot_count s → queued ≡ length s.queue → (IsTrue result ↔ IsStranded s) }
{
    slots == 0 && queued > 0 && state == RunState::Shutdown
}

// Whether a pool in this state runs with queued tasks and without a slot.
fn lacks_staff(state: RunState, slots: usize, queued: u32) -> bool
    ensures { (s : State) → state_rank state ≡ s.rank → slots ≡ slot_count s → queued ≡ length s.queue → (IsTrue result ↔ IsUnstaffed s) }
{
    slots == 0 && queued > 0 && state == RunState::Running
}

// What a pool in this state wants, with so many slots and queued tasks, and with this core size.
fn wanted_in(state: RunState, slots: usize, queued: u32, core: u32) -> Remains
    ensures { (s : State) → state_rank state ≡ s.rank → slots ≡ slot_count s → queued ≡ length s.queue → core ≡ s.core → IsWanted s result }
{
    if lacks_staff(state, slots, queued) && core > 0 {
        return Remains::Worker(queued);
    }
    Remains::Nothing
}

impl<G: PoolNaming, J: Drop, R: Keeper> Locked<G, J, R> {
    /// What is left to do in a pool that is shut down and has no slot: its end, or a worker for the tasks that
    /// are queued.
    #[inline(always)]
    pub fn remains(&self) -> Remains
        ensures { IsLeft (state_of self.now.book) result }
    {
        let book = &self.book;
        left_in(
            book.state(),
            book.slots(),
            book.counts().queued,
            book.core_size(),
        )
    }

    /// Whether tasks are stranded: they are queued in a pool that is shut down and has no slot, so no worker comes for them
    /// unless one is made.
    pub fn is_stranded(&self) -> bool
        ensures here { IsTrue result ↔ IsStranded (state_of self.now.book) }
        ensures some { AtSome (R.terms G.config) (λ s. IsTrue result ↔ IsStranded s) }
    {
        self.law_is_book();
        let book = &self.book;
        strands(book.state(), book.slots(), book.counts().queued)
    }

    /// Whether the pool is unstaffed: it runs with queued tasks and has no slot, since no worker could be made. No worker comes for
    /// them before somebody asks for one, as each submission does.
    pub fn is_unstaffed(&self) -> bool
        ensures here { IsTrue result ↔ IsUnstaffed (state_of self.now.book) }
        ensures some { AtSome (R.terms G.config) (λ s. IsTrue result ↔ IsUnstaffed s) }
    {
        self.law_is_book();
        let book = &self.book;
        lacks_staff(book.state(), book.slots(), book.counts().queued)
    }

    /// A worker for the queued tasks of a pool that is unstaffed, where its core size allows one.
    pub fn wanted(&self) -> Remains
        ensures { IsWanted (state_of self.now.book) result }
    {
        let book = &self.book;
        wanted_in(
            book.state(),
            book.slots(),
            book.counts().queued,
            book.core_size(),
        )
    }

    /// A pass of the pool's own, for a thread that does what is left: a worker's, of no slot, which is to be
    /// handed in. NoMemory (4) or BookFull (5).
    pub fn engage(&mut self, glance: &Glance<G>) -> Result<WorkerPass<G>, PoolError>
        ensures new { IfOk result (λ p. p ≡ record { number = self.old.book.accounts.made; amount = 0; front = self.old.book.history; released = released_of self.old.book }) }
        ensures made { OnOk result (self.new.book ≡ record self.old.book { accounts = record self.old.book.accounts { made = self.old.book.accounts.made + 1 } }) }
        ensures running { OnOk result (self.new.roster.running ≡ self.old.roster.running + 1) }
        ensures others { (self.new.roster.seats ≡ self.old.roster.seats) × (self.new.roster.ended ≡ self.old.roster.ended) }
        ensures asleep { self.new.waking ≡ self.old.waking }
        ensures unchanged { OnErr result (self.new ≡ self.old) }
        ensures refused { IfErr result (λ e. (e ≡ PoolError.NoMemory) ⊎ ((e ≡ PoolError.BookFull) × (4294967295 ≤ self.old.book.accounts.made))) }
    {
        if let Err(error) = self.roster.admits_guest() {
            return Err(error);
        }
        match self.book.new_worker_pass(glance) {
            Ok(pass) => {
                self.roster.add_guest();
                Ok(pass)
            }
            Err(error) => Err(error),
        }
    }
}
