//! How a pool's value is made, shared out among callers, and taken apart at its end.
ghost use Rattle.std.specs.Prelude.{◌≡◌, ◌⊎◌, ◌<◌, ◌≤◌, ◌+◌, [], length, IsOk, IfOk, IfErr, OnOk, OnErr};
ghost use Rattle.tp_types.specs.Config.{IsConfig};
ghost use Rattle.tp_record.specs.Fields.{rank};
ghost use Rattle.tp_book.specs.BookView.{config};
ghost use Rattle.tp_pool_holds.specs.Closing.{KeepsOpen};
ghost use Rattle.tp_pool_holds.specs.Moments.{BookAtSome};
ghost use Rattle.tp_pool_holds.specs.declared.tasks.Payload.{Payload};

use super::Locked;
use crate::flags::Flags;
use crate::names::PoolNaming;
use crate::roster::Roster;
use crate::tasks::Payload;
use std::alloc::Global;
use tp_book::book::Book;
use tp_book::gathered::Gathered;
use tp_book::passes::Pass;
use tp_glance::glance::Glance;
use tp_machine::machine::releases::Keeper;
use tp_types::refusals::PoolError;
use tp_types::states::RunState;
use tp_waking::waking::Waking;

/// What a pool keeps beside its book and its workers' passes.
#[derive(Drop)]
pub struct Beside {
    flags: Flags,
    waking: Waking,
}

impl<G: PoolNaming, J: Drop, R: Keeper> Locked<G, J, R> {
    /// A pass for one more caller: `Book::split_pass`. The count of passes is not in the history, so its number is said to be
    /// that of some book of these settings.
    pub fn split_pass(
        &mut self,
        alloc: Global,
        glance: &Glance<G>,
        pass: &mut Pass<G>,
    ) -> Result<Pass<G>, PoolError>
        ensures new { IfOk result (λ p. p ≡ record { number = self.old.book.accounts.made; amount = 0; front = pass.old.front; released = pass.old.released; keeps = R.RECEIPTS; receipts = []; room = p.room }) }
        ensures made { OnOk result (self.new ≡ record self.old { book = record self.old.book { accounts = record self.old.book.accounts { made = self.old.book.accounts.made + 1; callers = self.old.book.accounts.callers + 1 } } }) }
        ensures room { self.old.book.accounts.made < 4294967295 → IsOk result }
        ensures left { OnErr result (self.new ≡ self.old) }
        ensures some { IfOk result (λ p. BookAtSome (Payload J) (R.terms G.config) (λ b. p ≡ record { number = b.accounts.made; amount = 0; front = pass.old.front; released = pass.old.released; keeps = R.RECEIPTS; receipts = []; room = p.room })) }
        ensures refused { IfErr result (λ e. (e ≡ PoolError.BookFull) × BookAtSome (Payload J) (R.terms G.config) (λ b. 4294967295 ≤ b.accounts.made)) }
        ensures same { pass.new ≡ pass.old }
    {
        self.book.law_is_balanced();
        self.book.split_pass(alloc, glance, pass)
    }

    /// Why the pool cannot be closed with these passes of callers: NotTerminated (20), and then none of
    /// them has seen its end, else MissingPass (21), where callers got more or fewer.
    pub fn may_close(
        &mut self,
        glance: &Glance<G>,
        passes: &mut Vec<Pass<G>>,
    ) -> Result<(), PoolError>
        ensures terminated { OnOk result (rank self.old.book.history ≡ 4) }
        ensures callers { OnOk result (length passes.old.items ≡ self.old.book.accounts.callers) }
        ensures stands { self.new ≡ self.old }
        ensures here { IfErr result (λ e. ((e ≡ PoolError.NotTerminated) × ¬ (rank self.old.book.history ≡ 4))
            ⊎ ((e ≡ PoolError.MissingPass) × (rank self.old.book.history ≡ 4) × ¬ (length passes.old.items ≡ self.old.book.accounts.callers))) }
        ensures refused { IfErr result (KeepsOpen (Payload J) (R.terms G.config) passes.old.items) }
        ensures same { passes.new.items ≡ passes.old.items }
    {
        self.law_is_book();
        self.book.law_all_are_fronts(glance, passes);
        if self.book.state() != RunState::Terminated {
            return Err(PoolError::NotTerminated);
        }
        if self.book.callers() as usize != passes.len() {
            return Err(PoolError::MissingPass);
        }
        Ok(())
    }

    /// The book, the passes that workers handed in, and the rest.
    pub(crate) fn part(self) -> (Book<G, Payload<J>, R>, Gathered<G>, Beside)
        ensures book { result.0 ≡ self.book }
        ensures workers { result.1 ≡ self.roster.ended }
        ensures settings { config result.0 ≡ (R.terms G.config) }
        ensures good { IsConfig G.config }
    {
        let Locked {
            book,
            flags,
            waking,
            roster,
        } = self;
        (book, roster.into_ended(), Beside { flags, waking })
    }

    /// What `part` took apart, put together again; no thread of a worker runs.
    pub(crate) fn again(
        alloc: Global,
        book: Book<G, Payload<J>, R>,
        ended: Gathered<G>,
        beside: Beside,
    ) -> Locked<G, J, R>
        requires settings { config book ≡ (R.terms G.config) }
        requires good { IsConfig G.config }
        ensures book { result.book ≡ book }
        ensures workers { (result.roster.running ≡ 0) × (result.roster.ended ≡ ended) }
    {
        let Beside { flags, mut waking } = beside;
        waking.settle(book.counts().queued);
        Locked {
            book,
            flags,
            waking,
            roster: Roster::again(alloc, ended),
        }
    }
}
