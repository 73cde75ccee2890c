//! Numbers in an order, each at most once.

ghost use Rattle.std.specs.Prelude.{◌≡◌, ◌<◌, ◌++◌, ◌∷◌, [], length, slice_get, Contains, IfOk, OnOk, OnErr};
ghost use Rattle.tp_ring.specs.Line.{line as placed_line};
ghost use Rattle.tp_record.specs.Lists.{without};
ghost use Rattle.tp_audit.specs.Orders.{next_of};

use indexmap::IndexMap;
use std::alloc::{AllocError, Global};
use std::marker::Model;
use tp_ring::lines::Line;

/// Numbers in the order in which they came, each at most once: the tasks of a queue, idle slots, completed tasks. One is
/// put at the end, taken out wherever it stands, or read at the front, at a cost that does not go by how many there are.
/// A contract sees the numbers, the one that came first in front.
#[derive(Drop)]
pub struct Order {
    line: Line<usize>,
    // The place number of each that is in the line.
    places: IndexMap<usize, u64>,
    came: u64,
}

impl Model for Order {
    ghost use Rattle.std.specs.Prelude.{ℕ, List, ◌≡◌};
    ghost use Rattle.tp_ring.specs.Line.{ids};
    ghost use Rattle.tp_audit.specs.Orders.{ArePlaced};

    ghost Value = { List ℕ };

    ghost view = { λ o. ids o.line.items };

    ghost invariant = { λ o. ArePlaced o.line.items o.places × (o.came ≡ o.line.offers) };
}

impl Order {
    /// An empty order.
    pub fn new(alloc: Global) -> Result<Order, AllocError>
        ensures { IfOk result (λ o. o ≡ []) }
    {
        Ok(Order {
            line: Line::with_capacity(alloc, 0)?,
            places: IndexMap::new(alloc),
            came: 0,
        })
    }

    /// How many there are.
    pub fn len(&self) -> usize
        ensures { result ≡ length self.now }
    {
        self.line.len()
    }

    /// The first.
    pub fn first(&self) -> Option<usize>
        ensures { result ≡ slice_get self.now 0 }
    {
        self.line.head()
    }

    /// The one that came next after `x`, where both are there: a walk along the order asks for one after the other.
    pub fn next_after(&self, x: usize) -> Option<usize>
        ensures { result ≡ next_of x self.now }
    {
        self.line.law_rises();
        let _below = self.came;
        let place = *self.places.get(&x)?;
        let (next, _) = self.line.first_from(place + 1)?;
        Some(next)
    }

    /// Puts `x` at the end. Where memory is refused nothing has changed; so it is after 2^64 - 1 of them.
    pub fn push(&mut self, x: usize) -> Result<(), AllocError>
        requires { Contains self.old x → ⊥ }
        ensures ok { OnOk result (self.new ≡ self.old ++ x ∷ []) }
        ensures err { OnErr result (self.new ≡ self.old) }
    {
        if self.came == u64::MAX {
            return Err(AllocError);
        }
        make_place(&mut self.line)?;
        if self.places.insert(x, self.came).is_err() {
            return Err(AllocError);
        }
        if self.line.offer(x).is_err() {
            unreachable!()
        }
        self.came += 1;
        Ok(())
    }

    /// Takes `x` out, if it is there. The others keep their order.
    pub fn remove(&mut self, x: usize)
        ensures { self.new ≡ without x self.old }
    {
        self.line.law_rises();
        if let Some(place) = self.places.swap_remove(&x) {
            self.line.remove(place);
        }
    }
}

/// Makes a place for one more. Where memory is refused nothing has changed.
fn make_place(line: &mut Line<usize>) -> Result<(), AllocError>
    ensures place { OnOk result (length line.old.items < line.new.capacity) }
    ensures same { line.new ≡ placed_line line.old.items line.new.capacity line.old.offers }
{
    if line.len() < line.capacity() {
        return Ok(());
    }
    line.reserve(line.capacity() + 1)
}
