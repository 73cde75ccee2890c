// The common part of a caller's and a worker's pass.
ghost use Rattle.std.specs.Prelude.{◌≡◌, ◌+◌, ◌∷◌};
ghost use Rattle.tp_types.specs.RunState.{state_rank};
ghost use Rattle.tp_record.specs.Fields.{rank};
ghost use Rattle.tp_glance.specs.Word.{IsFrontOf, with_entry};

use std::marker::Model;
use std::sync::ledger;
use std::sync::ledger::Share;
use tp_glance::glance::{BookSeat, Glance, Naming, PassSeat};
use tp_record::entries::Entry;
use tp_types::states::RunState;

// A number, one part of the ledger with a unit for each step, and a seat of the word.
#[derive(Drop)]
pub struct Account<G: Naming> {
    pub number: u32,
    pub share: Share<G>,
    pub seat: PassSeat<G>,
}

impl<G: Naming> Model for Account<G> {
    ghost use Rattle.std.specs.Prelude.{◌≡◌};
    ghost use Rattle.tp_book.specs.PassView.{AccountView};

    ghost Value = { AccountView };

    ghost view = { λ a. record { number = a.number; amount = a.share.amount; front = a.seat.entries; released = a.seat.released } };

    ghost invariant = { λ a. a.share.parts ≡ 1 };
}

impl<G: Naming> Account<G> {
    // Adds one unit.
    pub fn credit(&mut self, ledger: &mut ledger::Book<G>)
        ensures total { ledger.new.total ≡ ledger.old.total + 1 }
        ensures account { self.new ≡ record self.old { amount = self.old.amount + 1 } }
    {
        ledger.add(&mut self.share, 1);
    }

    // The state that is published now, which is that of the pool's history at this moment.
    pub fn glance(&mut self, glance: &Glance<G>) -> RunState
        ensures state { state_rank result ≡ rank self.new.front }
        ensures goes_on { IsFrontOf self.old.front self.new.front }
        ensures same { self.new ≡ record self.old { front = self.new.front; released = self.new.released } }
        ensures released { IsFrontOf self.old.released self.new.released }
    {
        glance.glance(&mut self.seat)
    }

    // Lets the seat know the whole history.
    pub fn learn(&mut self, glance: &Glance<G>, book: &mut BookSeat<G>)
        ensures seen { self.new ≡ record self.old { front = book.old.entries; released = book.old.released } }
        ensures goes_on { IsFrontOf self.old.front book.old.entries }
        ensures released { IsFrontOf self.old.released book.old.released }
        ensures same { book.new ≡ book.old }
    {
        glance.show(book, &mut self.seat);
    }

    // The law that what the seat knows is a front of the history.
    pub fn law_is_front(&mut self, glance: &Glance<G>, book: &mut BookSeat<G>)
        ensures front { IsFrontOf self.old.front book.old.entries }
        ensures same { (self.new ≡ self.old) × (book.new ≡ book.old) }
    {
        glance.law_is_front(book, &mut self.seat);
    }

    // Notes the entry of a step, publishes the state after it where the step changed that, and lets the seat
    // know the history with it. What the seat knew is a front of the history before.
    pub fn note(
        &mut self,
        glance: &Glance<G>,
        book: &mut BookSeat<G>,
        entry: &Entry,
        before: RunState,
        after: RunState,
    )
        requires before { state_rank before ≡ rank book.old.entries }
        requires after { state_rank after ≡ rank (entry.now ∷ book.old.entries) }
        ensures noted { book.new ≡ with_entry entry.now book.old }
        ensures seen { self.new ≡ record self.old { front = book.new.entries; released = book.new.released } }
        ensures knew { IsFrontOf self.old.front book.old.entries }
    {
        if after.rank() == before.rank() {
            glance.note(book, &mut self.seat, entry);
        } else {
            glance.raise(book, &mut self.seat, entry, after);
        }
    }

    // A seat that knows what this one knows.
    pub fn split_seat(&mut self, glance: &Glance<G>) -> PassSeat<G>
        ensures begins { result ≡ record { entries = self.old.front; released = self.old.released } }
        ensures same { self.new ≡ self.old }
    {
        glance.split(&mut self.seat)
    }

    pub fn into_share(self) -> Share<G>
        ensures parts { result.parts ≡ 1 }
        ensures amount { result.amount ≡ self.amount }
    {
        let Account {
            number: _,
            share,
            seat: _,
        } = self;
        share
    }
}
