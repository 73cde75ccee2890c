//! What each seat sees of the published state.

ghost use Rattle.std.specs.Prelude.{◌≡◌};
ghost use Rattle.tp_glance.specs.Word.{no_history};

use crate::compare::same;
use std::marker::Brand;
use std::process::Abort;
use std::test::Fail;
use tp_glance::glance::{BlankGlance, BookSeat, Glance, Naming, PassSeat};
use tp_record::entries::{Ask, Did, Entry};
use tp_types::ids::TaskId;
use tp_types::states::RunState;

const SHUTDOWN: Entry = Entry {
    by: 0,
    ask: Ask::Shutdown,
    did: Did::Shutdown,
};

const TIDY: Entry = Entry {
    by: 0,
    ask: Ask::Tidy,
    did: Did::Tidy,
};

/// Raises the state twice for the owner of a seat, which sees each raise, and notes an entry that raises nothing.
fn raise_twice<G: Naming>(
    rt: &impl Abort,
    glance: &Glance<G>,
    book: &mut BookSeat<G>,
    seat: &mut PassSeat<G>,
)
    requires { book.old ≡ no_history }
{
    let before = glance.raise(book, seat, &SHUTDOWN, RunState::Shutdown);
    same(rt, 1, &before, &RunState::Running);
    same(rt, 2, &glance.glance(seat), &RunState::Shutdown);
    let before = glance.raise(book, seat, &TIDY, RunState::Tidying);
    same(rt, 3, &before, &RunState::Shutdown);
    glance.note(book, seat, &SHUTDOWN);
    same(rt, 4, &glance.glance(seat), &RunState::Tidying);
}

/// What another seat sees then, and the book's own, also once a task is forgotten.
fn look_on<G: Naming>(
    rt: &impl Abort,
    glance: &Glance<G>,
    book: &mut BookSeat<G>,
    seat: &mut PassSeat<G>,
) {
    same(rt, 5, &glance.glance(seat), &RunState::Tidying);
    glance.show(book, seat);
    glance.law_is_front(book, seat);
    glance.forget(book, TaskId(0));
    same(rt, 6, &glance.published(book), &RunState::Tidying);
    same(rt, 7, &glance.glance(seat), &RunState::Tidying);
}

/// What other seats see of a raise, and when.
fn look_at_raises<G: Naming, R: Abort>(rt: &R, blank: BlankGlance)
    requires { blank ≡ G.table }
{
    let (glance, mut book) = blank.open::<G>();
    let mut first = glance.split_book(&mut book);
    let mut second = glance.split(&mut first);
    same(rt, 0, &glance.glance(&mut first), &RunState::Running);
    raise_twice(rt, &glance, &mut book, &mut first);
    look_on(rt, &glance, &mut book, &mut second);
}

#[test]
fn glance_loads_afresh(rt: HostRuntime) -> Result<(), Fail> {
    let blank = BlankGlance::new(rt.alloc())?;
    look_at_raises::<Brand, _>(&rt, blank);
    Ok(())
}
