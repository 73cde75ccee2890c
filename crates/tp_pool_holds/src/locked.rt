//! The value under a pool's lock.
ghost use Rattle.std.specs.Prelude.{◌≡◌, ◌↔◌, ◌+◌, ◌<◌, ◌≤◌, [], replicate, IsTrue, IfOk, IfErr, OnOk, OnErr};
ghost use Rattle.tp_types.specs.Config.{IsConfig};
ghost use Rattle.tp_types.specs.RunState.{state_rank};
ghost use Rattle.tp_record.specs.Fields.{rank};
ghost use Rattle.tp_record.specs.Step.{Legal};
ghost use Rattle.tp_waking.specs.Rests.{IsSettled};
ghost use Rattle.tp_waking.specs.declared.sleepers.Rest.TheVariants as rests;
ghost use Rattle.tp_waking.specs.declared.calls.TheConstants.{NO_WAITERS, NOBODY};
ghost use Rattle.tp_glance.specs.Word.{IsFrontOf};
ghost use Rattle.tp_book.specs.BookView.{config, released_of};
ghost use Rattle.tp_pool_holds.specs.Holds.{Holds, Denies};
ghost use Rattle.tp_pool_holds.specs.Moments.{IsBook};
ghost use Rattle.tp_pool_holds.specs.Passes.{entry_of};
ghost use Rattle.tp_pool_holds.specs.Roused.{IsRoused};
ghost use Rattle.tp_pool_holds.specs.Steps.{Makes, Refused};
ghost use Rattle.tp_pool_holds.specs.Waits.{waits};
ghost use Rattle.tp_pool_holds.specs.declared.tasks.Payload.{Payload as TaskOf};

use crate::flags::Flags;
use crate::names::PoolNaming;
use crate::roster::Roster;
use crate::tasks::Payload;
use std::alloc::Global;
use std::marker::Model;
use tp_book::book::Book;
use tp_book::passes::Pass;
use tp_book::payers::Payer;
use tp_book::sights::Sight;
use tp_glance::glance::Glance;
use tp_machine::machine::releases::Keeper;
use tp_machine::typed::Step;
use tp_record::entries::{Ask, Did};
use tp_record::recorders::Full;
use tp_types::limits::MAX_WORKERS;
use tp_types::refusals::PoolError;
use tp_types::states::RunState;
use tp_waking::calls::Calls;
use tp_waking::waking::Waking;

/// The pool's book, which is of the settings that its name says, and what the pool keeps beside it. While
/// nobody holds the lock, no task is queued where a worker sleeps and nobody looks for a task.
#[derive(Drop)]
pub struct Locked<G: PoolNaming, J, R: Keeper = Full> {
    flags: Flags,
    book: Book<G, Payload<J>, R>,
    waking: Waking,
    roster: Roster<G>,
}

impl<G: PoolNaming, J, R: Keeper> Model for Locked<G, J, R> {
    ghost use Rattle.std.specs.Prelude.{◌≡◌};
    ghost use Rattle.std.specs.Coded.{codes};
    ghost use Rattle.tp_types.specs.Config.{IsConfig};
    ghost use Rattle.tp_tasks.specs.Codes.{tasks_code};
    ghost use Rattle.tp_waking.specs.Rests.{IsSettled};
    ghost use Rattle.tp_book.specs.BookView.{config};
    ghost use Rattle.tp_pool_holds.specs.Codes.{task_code};
    ghost use Rattle.tp_pool_holds.specs.LockedView.{LockedView};
    ghost use Rattle.tp_pool_holds.specs.Waits.{waits};

    ghost Value = { LockedView J };

    ghost coded = { Prim.hlevel (codes, tasks_code (task_code J.code)) };

    ghost view = { λ c. record { book = c.book; roster = c.roster; waking = c.waking } };

    ghost invariant = { λ c. (config c.book ≡ (R.terms G.config)) × IsConfig G.config × IsSettled (waits c.book) c.waking.sleepers };
}

// Whom an accepted step concerns: the workers that sleep, and the waiters. While all work and nobody waits, it is
// nobody, and nothing is counted.
#[inline(always)]
fn rouse<G: PoolNaming, J, R: Keeper>(
    book: &Book<G, Payload<J>, R>,
    waking: &mut Waking,
    ask: &Ask,
    did: &Did,
)
    ensures settled { IsSettled (waits book.now) waking.new.sleepers }
    ensures roused { IsRoused book.now waking.old waking.new ask.now did.now }
{
    let state = book.state();
    if waking.is_quiet() {
        return;
    }
    let counts = book.counts();
    let leaving = book.leaving();
    waking.follow(ask, did, state, counts.live, counts.queued, leaving);
}

mod closing;
mod controllers;
mod marks;
mod readings;
mod releases;
mod rescues;
mod submitters;
mod watching;
mod workers;

pub use closing::Beside;
pub use controllers::EndSeen;
pub use marks::Marks;
use marks::{forget, mark_flags};
pub use watching::Busy;
pub use workers::Taking;

impl<G: PoolNaming, J: Drop, R: Keeper> Locked<G, J, R> {
    /// A new pool's book, of a pool in which nobody sleeps or waits. NoMemory (4).
    pub fn new(alloc: Global, book: Book<G, Payload<J>, R>) -> Result<Locked<G, J, R>, PoolError>
        requires settings { config book ≡ (R.terms G.config) }
        requires good { IsConfig G.config }
        requires fresh { (book.history ≡ []) × (book.accounts ≡ record { total = 0; made = 1; callers = 1 }) }
        ensures book { IfOk result (λ c. c.book ≡ book) }
        ensures threads { IfOk result (λ c. (c.roster.running ≡ 0) × (c.roster.ended ≡ record { passes = 0; amount = 0 })) }
        ensures awake { IfOk result (λ c. c.waking ≡ record { sleepers = replicate 1024 rests.Away; awaited = NO_WAITERS; calls = NOBODY }) }
        ensures refused { IfErr result (λ e. e ≡ PoolError.NoMemory) }
    {
        let slots = MAX_WORKERS as usize;
        let mut book = book;
        let ended = book.gathered();
        let (Ok(flags), Ok(waking), Ok(roster)) = (
            Flags::new(alloc, slots),
            Waking::new(alloc, slots),
            Roster::new(alloc, slots, ended),
        ) else {
            return Err(PoolError::NoMemory);
        };
        Ok(Locked {
            book,
            flags,
            waking,
            roster,
        })
    }

    /// Makes this step with a pass, a caller's or a worker's: `Book::step_by`. Nothing comes with it. The threads that an
    /// accepted step concerns are to be woken, and the flags of tasks that it concerns are set, or let go of. Where no record
    /// is kept, the tasks are forgotten that are gone with it and to which nothing is owed.
    #[inline(always)]
    pub fn step<S: Marks<J> + Step<Payload<J>, Load = ()>, A: Payer<G>>(
        &mut self,
        step: S,
        glance: &Glance<G>,
        pass: &mut A,
    ) -> Result<S::Answer, PoolError>
        requires brings { S.brings step tt }
        requires ready { A.ready pass.old (S.ask step) }
        ensures answers { IfOk result (λ x. S.answers step x) }
        ensures holds { IfOk result (λ x. Holds R.RECEIPTS self.old self.new (A.number pass.old) (S.ask step) (S.did step x) (S.moves step tt x)) }
        ensures makes { IfOk result (λ x. Makes J (R.terms G.config) (A.number pass.old) (A.front pass.old) (S.ask step) (S.did step x) (S.moves step tt x) (A.front pass.new)) }
        ensures says { IfOk result (λ x. S.says step x (R.terms G.config) self.old.book.history) }
        ensures paid { IfOk result (λ x. A.paid pass.old (entry_of (A.number pass.old) (S.ask step) (S.did step x)) pass.new) }
        ensures denies { IfErr result (λ e. Denies R.RECEIPTS self.old self.new (S.ask step) e) }
        ensures refused { IfErr result (λ e. Refused J R.RECEIPTS (R.terms G.config) (A.front pass.old) (S.ask step) e (A.front pass.new)) }
        ensures shown { OnErr result (A.shown pass.old pass.new) }
        ensures number { A.number pass.new ≡ A.number pass.old }
        ensures goes_on { IsFrontOf (A.front pass.old) self.old.book.history }
        ensures front { (OnOk result (A.front pass.new ≡ self.new.book.history)) × (OnErr result (A.front pass.new ≡ self.old.book.history)) }
        ensures released { A.released pass.new ≡ released_of self.old.book }
        ensures stands { IsBook (TaskOf J) (R.terms G.config) self.old.book }
        ensures legal { Legal (R.terms G.config) (A.front pass.new) }
    {
        let Locked {
            book,
            flags,
            waking,
            roster: _,
        } = self;
        book.law_is_balanced();
        let answer = match book.step_by(step, (), glance, pass) {
            Ok(answer) => answer,
            Err((error, ())) => return Err(error),
        };
        rouse(book, waking, &step.ask(), &step.did(&answer));
        mark_flags(book, flags, step.mark(&answer));
        forget(book, step.gone(&answer), glance);
        Ok(answer)
    }

    /// The run state. The pass then knows the whole history, which goes on from what it knew.
    #[inline(always)]
    pub fn show(&mut self, glance: &Glance<G>, pass: &mut Pass<G>) -> RunState
        ensures state { state_rank result ≡ rank self.old.book.history }
        ensures shown { pass.new ≡ record pass.old { front = self.old.book.history; released = released_of self.old.book } }
        ensures goes_on { IsFrontOf pass.old.front self.old.book.history }
        ensures released { IsFrontOf pass.old.released (released_of self.old.book) }
        ensures same { self.new ≡ self.old }
    {
        self.book.show(glance, pass)
    }

    /// The run state. The sight then knows the whole history, which goes on from what it knew.
    pub fn show_sight(&mut self, glance: &Glance<G>, sight: &mut Sight<G>) -> RunState
        ensures state { state_rank result ≡ rank self.old.book.history }
        ensures seen { sight.new ≡ self.old.book.history }
        ensures goes_on { IsFrontOf sight.old self.old.book.history }
        ensures same { self.new ≡ self.old }
    {
        self.book.show_sight(glance, sight)
    }

    /// The book, of which all is read that a hold tells. It stands at its history, which is legal in the pool's settings.
    #[inline(always)]
    pub fn book(&self) -> &Book<G, Payload<J>, R>
        ensures same { result.now ≡ self.now.book }
        ensures stands { IsBook (TaskOf J) (R.terms G.config) result.now }
    {
        self.law_is_book();
        &self.book
    }

    /// The law that the book stands at its history, which is legal in the pool's settings.
    pub fn law_is_book(&self)
        ensures { IsBook (TaskOf J) (R.terms G.config) self.now.book }
    {
        self.book.law_is_balanced();
    }

    /// Whether no thread is to be woken, as after most holds.
    #[inline(always)]
    pub fn calls_nobody(&self) -> bool
        ensures { IsTrue result ↔ (self.now.waking.calls ≡ NOBODY) }
    {
        self.waking.calls.is_nobody()
    }

    /// Which threads are to be woken once the lock is let go.
    pub fn release(&mut self) -> Calls
        ensures calls { result ≡ self.old.waking.calls }
        ensures told { self.new ≡ record self.old { waking = record self.old.waking { calls = NOBODY } } }
    {
        self.waking.release()
    }
}
