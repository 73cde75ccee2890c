//! What a step adds to the pass that it is made with, a caller's or a worker's.
ghost use Rattle.std.specs.Prelude.{◌≡◌, ◌+◌, ◌∷◌};
ghost use Rattle.tp_types.specs.RunState.{state_rank};
ghost use Rattle.tp_record.specs.Asked.{asked};
ghost use Rattle.tp_record.specs.Packed.{HasSmallSlots};
ghost use Rattle.tp_record.specs.Fields.{rank};
ghost use Rattle.tp_glance.specs.Word.{IsFrontOf, with_entry};

use crate::accounts::Accounts;
use crate::passes::{Pass, WorkerPass};
use tp_glance::glance::{BookSeat, Glance, Naming};
use tp_record::entries::Entry;
use tp_record::packed::Packed;
use tp_types::states::RunState;

/// A pass that steps are made with. By this trait one body of a step serves callers and workers, and its proof stands
/// once. What differs are a few words of the contract: what is ready, paid and shown.
pub trait Payer<G: Naming> {
    ghost use Rattle.std.specs.Prelude.{ℕ, List};
    ghost use Rattle.tp_record.specs.declared.entries.Ask.{Ask};
    ghost use Rattle.tp_record.specs.declared.entries.Entry.{Entry};

    /// The number under which its steps stand in the record.
    ghost number: { Self → ℕ };

    /// The front of the pool's history that it knows.
    ghost front: { Self → List Entry };

    /// The tasks that were released in it.
    ghost released: { Self → List ℕ };

    /// The ask is one that the pass may make, and there is room for its receipt.
    ghost ready: { Self → Ask → Type 0 };

    /// The pass after a step with this entry.
    ghost paid: { Self → Entry → Self → Type 0 };

    /// The pass after a look: at most it knows another history.
    ghost shown: { Self → Self → Type 0 };

    /// The number under which its steps stand in the record.
    fn payer(&self) -> u32
        ensures { result ≡ number self.now };

    /// Accounts for one step, and notes its entry: the pass has one unit more, and knows the whole history then.
    fn pay(
        &mut self,
        accounts: &mut Accounts<G>,
        glance: &Glance<G>,
        seat: &mut BookSeat<G>,
        before: RunState,
        after: RunState,
        entry: Entry,
    )
        requires ready { ready self.old entry.ask }
        requires asked { entry.ask ≡ asked entry.did }
        requires slots { HasSmallSlots entry.did }
        requires before { state_rank before ≡ rank seat.old.entries }
        requires after { state_rank after ≡ rank (entry ∷ seat.old.entries) }
        ensures total { accounts.new ≡ record accounts.old { total = accounts.old.total + 1 } }
        ensures noted { seat.new ≡ with_entry entry seat.old }
        ensures paid { paid self.old entry self.new }
        ensures number { number self.new ≡ number self.old }
        ensures front { front self.new ≡ seat.new.entries }
        ensures released { released self.new ≡ seat.new.released }
        ensures knew { IsFrontOf (front self.old) seat.old.entries };

    /// Lets the pass know the whole history.
    fn learn(&mut self, glance: &Glance<G>, seat: &mut BookSeat<G>)
        ensures shown { shown self.old self.new }
        ensures number { number self.new ≡ number self.old }
        ensures front { front self.new ≡ seat.old.entries }
        ensures released { released self.new ≡ seat.old.released }
        ensures knew { IsFrontOf (front self.old) seat.old.entries }
        ensures same { seat.new ≡ seat.old };

    /// The law that what the pass knows is a front of the history.
    fn law_is_front(&mut self, glance: &Glance<G>, seat: &mut BookSeat<G>)
        ensures front { IsFrontOf (front self.old) seat.old.entries }
        ensures same { (self.new ≡ self.old) × (seat.new ≡ seat.old) };
}

impl<G: Naming> Payer<G> for WorkerPass<G> {
    ghost use Rattle.tp_book.specs.Staff.{IsOfStaff};

    ghost number = { λ p. p.number };

    ghost front = { λ p. p.front };

    ghost released = { λ p. p.released };

    ghost ready = { λ p a. IsOfStaff a };

    ghost paid = { λ old e new. new ≡ record { number = old.number; amount = old.amount + 1; front = new.front; released = new.released } };

    ghost shown = { λ old new. new ≡ record old { front = new.front; released = new.released } };

    #[inline(always)]
    fn payer(&self) -> u32 {
        self.account.number
    }

    #[inline(always)]
    fn pay(
        &mut self,
        accounts: &mut Accounts<G>,
        glance: &Glance<G>,
        seat: &mut BookSeat<G>,
        before: RunState,
        after: RunState,
        entry: Entry,
    ) {
        accounts.credit(&mut self.account);
        self.account.note(glance, seat, &entry, before, after);
    }

    #[inline(always)]
    fn learn(&mut self, glance: &Glance<G>, seat: &mut BookSeat<G>) {
        self.account.learn(glance, seat);
    }

    fn law_is_front(&mut self, glance: &Glance<G>, seat: &mut BookSeat<G>) {
        self.account.law_is_front(glance, seat);
    }
}

impl<G: Naming> Payer<G> for Pass<G> {
    ghost use Rattle.std.specs.Prelude.{◌<◌, ◌≤◌, ◌∷◌, []};
    ghost use Rattle.tp_book.specs.PassView.{receipts_with};

    ghost number = { λ p. p.number };

    ghost front = { λ p. p.front };

    ghost released = { λ p. p.released };

    ghost ready = { λ p a. 0 < p.room };

    ghost paid = { λ old e new. (new ≡ record { number = old.number; amount = old.amount + 1; front = new.front; released = new.released; keeps = old.keeps; receipts = receipts_with old (e ∷ []); room = new.room })
        × (old.room ≤ new.room + 1) };

    ghost shown = { λ old new. new ≡ record old { front = new.front; released = new.released } };

    #[inline(always)]
    fn payer(&self) -> u32 {
        self.account.number
    }

    #[inline(always)]
    fn pay(
        &mut self,
        accounts: &mut Accounts<G>,
        glance: &Glance<G>,
        seat: &mut BookSeat<G>,
        before: RunState,
        after: RunState,
        entry: Entry,
    ) {
        accounts.credit(&mut self.account);
        self.account.note(glance, seat, &entry, before, after);
        if self.keeps {
            self.receipts.push_reserved(Packed::pack(entry));
        }
    }

    #[inline(always)]
    fn learn(&mut self, glance: &Glance<G>, seat: &mut BookSeat<G>) {
        self.account.learn(glance, seat);
    }

    fn law_is_front(&mut self, glance: &Glance<G>, seat: &mut BookSeat<G>) {
        self.account.law_is_front(glance, seat);
    }
}
