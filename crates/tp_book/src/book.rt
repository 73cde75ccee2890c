//! The value under a pool's lock: the machine with its record, the book's side of the ledger, and the seat
//! that raises the word.
ghost use Rattle.std.specs.Prelude.{◌≡◌, ◌⊎◌, ◌<◌, ◌+◌, [], length, IsOk, IfOk, OnOk, IfErr, OnErr, Err};
ghost use Rattle.tp_types.specs.Config.{IsConfig, checked};
ghost use Rattle.tp_types.specs.RunState.{state_rank};
ghost use Rattle.tp_record.specs.Step.{Legal};
ghost use Rattle.tp_book.specs.BookView.{ForgetsGone, StandsThere, config, released_of};
ghost use Rattle.tp_record.specs.Fields.{rank};
ghost use Rattle.tp_glance.specs.Word.{IsFrontOf};

use crate::accounts::Accounts;
use crate::gathered::Gathered;
use crate::opening::Unopened;
use crate::passes::{Pass, WorkerPass};
use crate::payers::Payer;
use crate::sights::Sight;
use std::alloc::Global;
use std::marker::Model;
use tp_glance::glance::{BookSeat, Glance, Naming};
use tp_machine::machine::Machine;
use tp_machine::machine::releases::Keeper;
pub use tp_machine::steps::Stepped;
use tp_record::recorders::Full;
use tp_types::configs::Config;
use tp_types::ids::TaskId;
use tp_types::refusals::PoolError;
use tp_types::states::RunState;

/// One pool, as its lock keeps it: with its record, unless its recorder keeps none. Each of its steps is one
/// step of its machine, made with a pass and accounted for in the ledger. Whenever no step is under way, the
/// machine stands at the history that the seat knows, whose rank the word publishes.
//
// Each call that needs the word is handed it. The pool has the word beside its lock anyway, since `glance`
// takes no lock. So the book is proved with no handle of it, and whoever shares the word chooses how.
#[derive(Drop)]
pub struct Book<G: Naming, P, R: Keeper = Full> {
    accounts: Accounts<G>,
    seat: BookSeat<G>,
    machine: Machine<P, R>,
}

impl<G: Naming, P, R: Keeper> Model for Book<G, P, R> {
    ghost use Rattle.std.specs.Prelude.{◌≡◌, length};
    ghost use Rattle.std.specs.Coded.{codes};
    ghost use Rattle.tp_tasks.specs.Codes.{tasks_code};
    ghost use Rattle.tp_book.specs.BookView.{BookView, IsHeld};

    ghost Value = { BookView P };

    ghost coded = { Prim.hlevel (codes, tasks_code P.code) };

    // The seat knows the record, whether or not it is kept, and the tasks that were released.
    ghost view = { λ b. record {
      machine = record { parts = b.machine.parts; noted = record { history = b.seat.entries; released = b.seat.released; whole = R.RECEIPTS } };
      accounts = b.accounts;
      history = b.seat.entries;
    } };

    ghost invariant = { λ b. IsHeld R.tells R.terms b.machine b.seat × (b.accounts.total ≡ length b.seat.entries) };
}

impl<G: Naming, P, R: Keeper> Book<G, P, R> {
    /// Makes a pool with these settings: the book, the word of its run state, and the pass of number 0. The
    /// pool runs, has no tasks, and stands at tick 0. Where the record is kept, room for the whole of it, and
    /// for the first tasks, is taken and written here: `Machine::roomy`.
    ///
    /// BadSizes (1), BadCapacity (2), BadLimit (3) or KeepZero (11), as `ThreadPoolExecutor`'s constructor
    /// throws `IllegalArgumentException`; good settings are refused with NoMemory (4) alone.
    pub fn open(
        alloc: Global,
        unopened: Unopened,
        settings: Config,
    ) -> Result<(Book<G, P, R>, Glance<G>, Pass<G>), PoolError>
    where
        P: Drop,
        requires { unopened ≡ record { ledger = G.name; parts = G.parts; table = G.table } }
        ensures empty { IfOk result (λ r. r.0.history ≡ []) }
        ensures config { IfOk result (λ r. config r.0 ≡ R.terms settings) }
        ensures accounts { IfOk result (λ r. r.0.accounts ≡ record { total = 0; made = 1; callers = 1 }) }
        ensures pass { IfOk result (λ r. r.2 ≡ record { number = 0; amount = 0; front = []; released = []; keeps = R.RECEIPTS; receipts = []; room = r.2.room }) }
        ensures good { OnOk result (IsConfig settings) }
        ensures refused { IfErr result (λ e. (checked settings ≡ Err e) ⊎ ((e ≡ PoolError.NoMemory) × IsConfig settings)) }
    {
        let machine = Machine::roomy(alloc, settings)?;
        let (mut accounts, glance, mut seat) = unopened.open::<G>();
        let Ok(pass) = accounts.new_pass(alloc, &glance, &mut seat, R::RECEIPTS) else {
            unreachable!()
        };
        let book = Book {
            machine,
            accounts,
            seat,
        };
        Ok((book, glance, pass))
    }

    /// Makes a pass for one more caller, which knows what this caller's pass knows. Callers' and workers'
    /// passes are numbered from 0, in the order in which they are made. BookFull (5) where the number would be
    /// 4,294,967,295, and then nothing has changed.
    pub fn split_pass(
        &mut self,
        alloc: Global,
        glance: &Glance<G>,
        pass: &mut Pass<G>,
    ) -> Result<Pass<G>, PoolError>
        ensures new { IfOk result (λ p. p ≡ record { number = self.old.accounts.made; amount = 0; front = pass.old.front; released = pass.old.released; keeps = R.RECEIPTS; receipts = []; room = p.room }) }
        ensures made { OnOk result (self.new ≡ record self.old { accounts = record self.old.accounts { made = self.old.accounts.made + 1; callers = self.old.accounts.callers + 1 } }) }
        ensures room { self.old.accounts.made < 4294967295 → IsOk result }
        ensures refused { IfErr result (λ e. e ≡ PoolError.BookFull) }
        ensures unchanged { OnErr result (self.new ≡ self.old) }
        ensures same { pass.new ≡ pass.old }
    {
        self.accounts.split_pass(alloc, glance, pass, R::RECEIPTS)
    }

    /// Makes a pass for one more caller, which knows the whole history. It is numbered and refused as by
    /// `split_pass`, with BookFull (5).
    pub fn new_pass(&mut self, alloc: Global, glance: &Glance<G>) -> Result<Pass<G>, PoolError>
        ensures new { IfOk result (λ p. p ≡ record { number = self.old.accounts.made; amount = 0; front = self.old.history; released = released_of self.old; keeps = R.RECEIPTS; receipts = []; room = p.room }) }
        ensures made { OnOk result (self.new ≡ record self.old { accounts = record self.old.accounts { made = self.old.accounts.made + 1; callers = self.old.accounts.callers + 1 } }) }
        ensures room { self.old.accounts.made < 4294967295 → IsOk result }
        ensures refused { IfErr result (λ e. e ≡ PoolError.BookFull) }
        ensures unchanged { OnErr result (self.new ≡ self.old) }
    {
        self.accounts
            .new_pass(alloc, glance, &mut self.seat, R::RECEIPTS)
    }

    /// Makes a pass for a worker, which knows the whole history. It is numbered and refused as by
    /// `split_pass`, with BookFull (5), and takes no memory.
    pub fn new_worker_pass(&mut self, glance: &Glance<G>) -> Result<WorkerPass<G>, PoolError>
        ensures new { IfOk result (λ p. p ≡ record { number = self.old.accounts.made; amount = 0; front = self.old.history; released = released_of self.old }) }
        ensures made { OnOk result (self.new ≡ record self.old { accounts = record self.old.accounts { made = self.old.accounts.made + 1 } }) }
        ensures room { self.old.accounts.made < 4294967295 → IsOk result }
        ensures refused { IfErr result (λ e. e ≡ PoolError.BookFull) }
        ensures unchanged { OnErr result (self.new ≡ self.old) }
    {
        self.accounts.new_worker_pass(glance, &mut self.seat)
    }

    /// No worker's pass has come back.
    pub fn gathered(&mut self) -> Gathered<G>
        ensures none { result ≡ record { passes = 0; amount = 0 } }
        ensures same { self.new ≡ self.old }
    {
        self.accounts.gathered()
    }

    /// A task of this pool may be gone with the step that was made last: where the pool keeps no record, and the task
    /// is plain and nothing is owed to it, it is forgotten. It writes no entry and takes no memory.
    #[inline(always)]
    pub fn forget(&mut self, t: TaskId, glance: &Glance<G>)
    where
        P: Drop,
        ensures { ForgetsGone R.RECEIPTS self.old self.new t.0 }
    {
        R::law_forgets_at_will();
        if !R::forget(&mut self.machine, t) {
            return;
        }
        glance.forget(&mut self.seat, t);
    }

    /// The run state. The pass then knows the whole history, which goes on from what it knew.
    pub fn show(&mut self, glance: &Glance<G>, pass: &mut Pass<G>) -> RunState
        ensures state { state_rank result ≡ rank self.old.history }
        ensures seen { pass.new ≡ record pass.old { front = self.old.history; released = released_of self.old } }
        ensures goes_on { IsFrontOf pass.old.front self.old.history }
        ensures released { IsFrontOf pass.old.released (released_of self.old) }
        ensures same { self.new ≡ self.old }
    {
        pass.account.learn(glance, &mut self.seat);
        self.state()
    }

    /// The run state. The sight then knows the whole history, which goes on from what it knew.
    pub fn show_sight(&mut self, glance: &Glance<G>, sight: &mut Sight<G>) -> RunState
        ensures state { state_rank result ≡ rank self.old.history }
        ensures seen { sight.new ≡ self.old.history }
        ensures goes_on { IsFrontOf sight.old self.old.history }
        ensures same { self.new ≡ self.old }
    {
        glance.show(&mut self.seat, &mut sight.seat);
        self.state()
    }

    /// The law that what a pass knows is a front of the history.
    pub fn law_is_front<A: Payer<G>>(&mut self, glance: &Glance<G>, pass: &mut A)
        ensures front { IsFrontOf (A.front pass.old) self.old.history }
        ensures same { (pass.new ≡ pass.old) × (self.new ≡ self.old) }
    {
        pass.law_is_front(glance, &mut self.seat);
    }

    /// The law that the machine stands at the history, which is legal, and that each of its entries was
    /// accounted for.
    pub fn law_is_balanced(&self)
        ensures stands { StandsThere self.now }
        ensures legal { Legal (config self.now) self.now.history }
        ensures accounted { self.now.accounts.total ≡ length self.now.history }
    {
        R::law_forgets_at_will();
        let _ = &self.seat;
    }
}

mod closing;
mod readings;
mod releases;
mod spaces;
mod steps;

pub use closing::Unclosed;
