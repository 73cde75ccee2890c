//! A work queue in the order of the offers.

ghost use Rattle.std.specs.Prelude.{◌≡◌, ◌++◌, ◌∷◌, [], length, slice_get, Contains, IfOk, OnOk, OnErr};
ghost use Rattle.tp_record.specs.Lists.{without};
ghost use Rattle.tp_audit.specs.Orders.{next_of};

use crate::orders::Order;
use std::alloc::{AllocError, Global};
use std::marker::Model;

/// The tasks in a work queue in the order in which they came, its head first. A contract sees their numbers.
#[derive(Drop)]
pub struct Turns {
    order: Order,
}

impl Model for Turns {
    ghost use Rattle.std.specs.Prelude.{ℕ, ◌<◌, ◌^◌, List, All};

    ghost Value = { List ℕ };

    ghost view = { λ q. q.order };

    ghost invariant = { λ q. All (λ t. t < 2 ^ 32) q.order };
}

impl Turns {
    /// An empty queue.
    pub fn new(alloc: Global) -> Result<Turns, AllocError>
        ensures { IfOk result (λ q. q ≡ []) }
    {
        Ok(Turns {
            order: Order::new(alloc)?,
        })
    }

    /// How many tasks wait.
    pub fn len(&self) -> usize
        ensures { result ≡ length self.now }
    {
        self.order.len()
    }

    /// The head.
    pub fn first(&self) -> Option<u32>
        ensures { result ≡ slice_get self.now 0 }
    {
        match self.order.first() {
            Some(t) => Some(t as u32),
            None => None,
        }
    }

    /// The task behind `t`, where both are there: a walk along the queue asks for one after the other.
    pub fn next_after(&self, t: u32) -> Option<u32>
        ensures { result ≡ next_of t self.now }
    {
        match self.order.next_after(t as usize) {
            Some(next) => Some(next as u32),
            None => None,
        }
    }

    /// Puts a task at the end. Where memory is refused nothing has changed; so it is after 2^64 - 1 of them.
    pub fn push(&mut self, t: u32) -> Result<(), AllocError>
        requires { Contains self.old t → ⊥ }
        ensures ok { OnOk result (self.new ≡ self.old ++ t ∷ []) }
        ensures err { OnErr result (self.new ≡ self.old) }
    {
        self.order.push(t as usize)
    }

    /// Takes a task out, if it is there. The others keep their order.
    pub fn remove(&mut self, t: u32)
        ensures { self.new ≡ without t self.old }
    {
        self.order.remove(t as usize);
    }
}
