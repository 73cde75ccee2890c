//! The word, the book's seat that raises it, and the seats that look at it.
ghost use Rattle.std.specs.Prelude.{◌≡◌, ◌≤◌, [], IfErr};
ghost use Rattle.tp_types.specs.RunState.{state_rank};
ghost use Rattle.tp_record.specs.Effects.{reaches};
ghost use Rattle.tp_record.specs.Fields.{rank};
ghost use Rattle.tp_glance.specs.Word.{IsPartOf, book_view, no_history, with_entry, with_released};

use crate::view::{Begins, Looks, Notes, Noting, Rises, Tells, View};
use atomic_table::{Seat, Table};
use std::alloc::Global;
use std::marker::{Brand, Model, PhantomData};
use std::mem;
use std::sync::ledger::Ledger;
use tp_record::entries::Entry;
use tp_types::ids::TaskId;
use tp_types::refusals::PoolError;
use tp_types::states::RunState;

/// Names one pool: its ledger and its published word. What belongs to two pools has two types, so
/// that a seat of one can't be used with the word of another. A caller picks the name, for which
/// `Brand` stands in the code, at the call that opens a blank word.
pub trait Naming: Ledger {
    ghost use Rattle.atomic_table.specs.Seated.{TableId};

    ghost table: { TableId };
}

impl Naming for Brand {
    ghost use Rattle.tp_glance.specs.Word.{no_table};

    ghost table = { no_table };
}

/// A new word that publishes `Running`, which no type names yet. Contracts see it as the name of
/// its table. A name can be picked only once the table is there, so there is no `Glance::new`.
#[derive(Drop)]
pub struct BlankGlance {
    table: Table<(), View, (), Rises, Global>,
    seat: Seat<(), View>,
}

impl Model for BlankGlance {
    ghost use Rattle.std.specs.Prelude.{◌≡◌, []};
    ghost use Rattle.atomic_table.specs.Seated.{TableId};
    ghost use Rattle.tp_glance.specs.Word.{book_view, no_history};

    ghost Value = { TableId };

    ghost view = { λ b. b.seat.table_id };

    ghost invariant = { λ b. (b.table.shared.table_id ≡ b.seat.table_id) × (b.seat.table_id.words ≡ 1)
        × (b.seat.me ≡ (book_view no_history no_history, [])) };
}

/// The word of one pool: its run state, which any thread may look at without waiting. It can lie in
/// an `Arc`.
#[derive(Drop)]
pub struct Glance<G: Naming> {
    table: Table<(), View, (), Rises, Global>,
    of: PhantomData<G>,
}

impl<G: Naming> Model for Glance<G> {
    ghost use Rattle.std.specs.Prelude.{◌≡◌};

    ghost Value = { Unit {0} };

    ghost view = { λ _. tt };

    ghost invariant = { λ g. (g.table.shared.table_id ≡ G.table) × (g.table.shared.table_id.words ≡ 1) };
}

/// The one seat that notes entries and released tasks, and raises the word. It lies under the pool's
/// lock. Contracts see it as the pool's whole history, the latest first, which exists in proofs alone.
#[derive(Drop)]
pub struct BookSeat<G: Naming> {
    seat: Seat<(), View>,
    of: PhantomData<G>,
}

impl<G: Naming> Model for BookSeat<G> {
    ghost use Rattle.std.specs.Prelude.{◌≡◌, []};
    ghost use Rattle.tp_glance.specs.declared.view.History.{History};
    ghost use Rattle.tp_glance.specs.Word.{book_view};

    ghost Value = { History };

    ghost view = { λ s. s.seat.me.0.front };

    ghost invariant = { λ s. (s.seat.table_id ≡ G.table)
        × (s.seat.me ≡ (book_view s.seat.me.0.front s.seat.me.0.told, [])) };
}

/// A seat that looks at the word, one for each pass. Contracts see it as the front of the pool's
/// history that it knows, the latest first.
#[derive(Drop)]
pub struct PassSeat<G: Naming> {
    seat: Seat<(), View>,
    of: PhantomData<G>,
}

impl<G: Naming> Model for PassSeat<G> {
    ghost use Rattle.std.specs.Prelude.{◌≡◌, []};
    ghost use Rattle.tp_glance.specs.declared.view.History.{History};
    ghost use Rattle.tp_glance.specs.Word.{pass_view};

    ghost Value = { History };

    ghost view = { λ s. s.seat.me.0.front };

    ghost invariant = { λ s. (s.seat.table_id ≡ G.table) × (s.seat.me ≡ (pass_view s.seat.me.0.front, [])) };
}

impl BlankGlance {
    /// A word that publishes `Running`. Refused 4, `NoMemory`, where there is no memory for it.
    pub fn new(alloc: Global) -> Result<BlankGlance, PoolError>
        ensures { IfErr result (λ e. e ≡ PoolError.NoMemory) }
    {
        match Table::of_words(alloc, &[0], &()) {
            Ok((table, seat)) => Ok(BlankGlance { table, seat }),
            Err(_) => Err(PoolError::NoMemory),
        }
    }

    /// The word under the name of its pool, and the book's seat, whose history is empty.
    pub fn open<G: Naming>(self) -> (Glance<G>, BookSeat<G>)
        requires { self ≡ G.table }
        ensures { result.1 ≡ no_history }
    {
        let BlankGlance { table, seat } = self;
        let glance = Glance {
            table,
            of: PhantomData,
        };
        let seat = BookSeat {
            seat,
            of: PhantomData,
        };
        (glance, seat)
    }
}

impl<G: Naming> Glance<G> {
    /// Notes an entry that leaves the run state as it is, for the owner of a seat. What the seat knew is
    /// a front of the history before, and it knows the history with the entry then.
    pub fn note(&self, book: &mut BookSeat<G>, seat: &mut PassSeat<G>, entry: &Entry)
        requires { reaches entry.now.did ≤ rank book.old.entries }
        ensures noted { book.new ≡ with_entry entry.now book.old }
        ensures seen { seat.new ≡ with_entry entry.now book.old }
        ensures knew { IsPartOf seat.old book.old }
    {
        let known = self.split(seat);
        self.note_as::<Brand>(book, known, entry);
        *seat = self.split_book(book);
    }

    fn note_as<N: Noting>(&self, book: &mut BookSeat<G>, known: PassSeat<G>, _entry: &Entry)
        requires same { N.next ≡ with_entry _entry.now }
        requires stays { reaches _entry.now.did ≤ rank book.old.entries }
        ensures noted { book.new ≡ N.next book.old }
        ensures knew { IsPartOf known book.old }
    {
        self.tell(&mut book.seat, known);
        self.table.shared.load::<Notes<N>>(&mut book.seat, 0);
    }

    /// Notes an entry and publishes the state after it, for the owner of a seat, and answers the state
    /// that was published before. What the seat knew is a front of the history before, and it knows the
    /// history with the entry then.
    //
    // This answer, `published` and `law_is_front` show the whole rule of the word in contracts. A rule that
    // none of them shows could be weakened unseen.
    pub fn raise(
        &self,
        book: &mut BookSeat<G>,
        seat: &mut PassSeat<G>,
        entry: &Entry,
        to: RunState,
    ) -> RunState
        requires { state_rank to ≡ rank (with_entry entry.now book.old).entries }
        ensures noted { book.new ≡ with_entry entry.now book.old }
        ensures seen { seat.new ≡ with_entry entry.now book.old }
        ensures knew { IsPartOf seat.old book.old }
        ensures before { state_rank result ≡ rank book.old.entries }
    {
        let known = self.split(seat);
        let before = self.raise_as::<Brand>(book, known, entry, to);
        *seat = self.split_book(book);
        before
    }

    fn raise_as<N: Noting>(
        &self,
        book: &mut BookSeat<G>,
        known: PassSeat<G>,
        _entry: &Entry,
        to: RunState,
    ) -> RunState
        requires same { N.next ≡ with_entry _entry.now }
        requires after { state_rank to ≡ rank (N.next book.old).entries }
        ensures noted { book.new ≡ N.next book.old }
        ensures knew { IsPartOf known book.old }
        ensures before { state_rank result ≡ rank book.old.entries }
    {
        let rank = u64::from(to.rank());
        self.tell(&mut book.seat, known);
        let before = self
            .table
            .shared
            .fetch_max::<Notes<N>>(&mut book.seat, 0, rank);
        RunState::from_rank(before as u8)
    }

    /// Notes that a task was released, which leaves the run state as it is.
    pub fn forget(&self, book: &mut BookSeat<G>, t: TaskId)
        ensures { book.new ≡ with_released t.0 book.old }
    {
        self.forget_as::<Brand>(book, t);
    }

    fn forget_as<N: Noting>(&self, book: &mut BookSeat<G>, _t: TaskId)
        requires { N.next ≡ with_released _t.0 }
        ensures { book.new ≡ N.next book.old }
    {
        self.table.shared.load::<Notes<N>>(&mut book.seat, 0);
    }

    /// The state that is published now, without waiting, as `isShutdown` and `isTerminated` are
    /// answered. It is that of the pool's history at this moment, which the seat then knows, and
    /// which goes on from what it knew.
    pub fn glance(&self, seat: &mut PassSeat<G>) -> RunState
        ensures state { state_rank result ≡ rank seat.new.entries }
        ensures goes_on { IsPartOf seat.old seat.new }
    {
        let found = self.table.shared.load::<Looks>(&mut seat.seat, 0);
        RunState::from_rank(found as u8)
    }

    /// The state that is published, as the book's seat reads it: that of its history.
    pub fn published(&self, book: &mut BookSeat<G>) -> RunState
        ensures known { state_rank result ≡ rank book.old.entries }
        ensures same { book.new ≡ book.old }
    {
        let found = self.table.shared.load::<Looks>(&mut book.seat, 0);
        RunState::from_rank(found as u8)
    }

    /// One more seat, which knows what this one knows.
    pub fn split(&self, seat: &mut PassSeat<G>) -> PassSeat<G>
        ensures begins { result ≡ seat.old }
        ensures same { seat.new ≡ seat.old }
    {
        PassSeat {
            seat: self.table.shared.split_seat::<Begins>(&mut seat.seat),
            of: PhantomData,
        }
    }

    /// A seat for a pass, which knows the whole history.
    pub fn split_book(&self, book: &mut BookSeat<G>) -> PassSeat<G>
        ensures begins { result ≡ book.old }
        ensures same { book.new ≡ book.old }
    {
        PassSeat {
            seat: self.table.shared.split_seat::<Begins>(&mut book.seat),
            of: PhantomData,
        }
    }

    /// Lets a seat know the whole history, which goes on from what it knew: what its owner did under the
    /// lock it has then seen.
    pub fn show(&self, book: &mut BookSeat<G>, seat: &mut PassSeat<G>)
        ensures seen { seat.new ≡ book.old }
        ensures goes_on { IsPartOf seat.old book.old }
        ensures same { book.new ≡ book.old }
    {
        let news = self.split_book(book);
        let known = mem::replace(seat, news);
        self.take_in(book, known);
    }

    /// The law that what a seat knows is a front of the history.
    pub fn law_is_front(&self, book: &mut BookSeat<G>, seat: &mut PassSeat<G>)
        ensures front { IsPartOf seat.old book.old }
        ensures same { (seat.new ≡ seat.old) × (book.new ≡ book.old) }
    {
        let known = self.split(seat);
        self.take_in(book, known);
    }

    // The book's seat is told of what a seat knows, and looks: that is a front of the history.
    fn take_in(&self, book: &mut BookSeat<G>, known: PassSeat<G>)
        ensures front { IsPartOf known book.old }
        ensures same { book.new ≡ book.old }
    {
        self.tell(&mut book.seat, known);
        self.table.shared.load::<Looks>(&mut book.seat, 0);
    }

    // The book's seat is told of what a seat knows. Its next step tells that this is a front of the history.
    fn tell(&self, book: &mut Seat<(), View>, known: PassSeat<G>)
        requires { (book.old.table_id ≡ G.table) × (book.old.me ≡ (book_view book.old.me.0.front book.old.me.0.told, [])) }
        ensures table { book.new.table_id ≡ G.table }
        ensures told { book.new.me ≡ (book_view book.old.me.0.front known, []) }
    {
        let PassSeat { seat, of: _ } = known;
        self.table.shared.join_seat::<Tells>(book, seat);
    }
}
