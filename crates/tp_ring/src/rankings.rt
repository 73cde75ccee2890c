//! A line in the order of ranks.

ghost use Rattle.std.specs.Prelude.{◌≡◌, ◌+◌, ◌-◌, ◌^◌, ◌<◌, ◌≤◌, [], length, drop, slice_get, option_map, IfOk, IfErr, OnOk, OnErr, IsTrue, IsOk, ◌↔◌};
ghost use Rattle.tp_ring.specs.Line.{line, without_place, Ordered};
ghost use Rattle.tp_ring.specs.Ranks.{key, enter, AreNumbered};

use crate::bounds::{behind_rank, first_at};
use crate::items::Ranked;
use std::alloc::{AllocError, Global};
use std::collections::VecDeque;
use std::marker::Model;

/// Values that wait in the order of their ranks, the least first, and of equal ranks in the order of their offers.
///
/// Place numbers count the accepted offers from 0, so none comes twice. A contract sees a line, in which each value stands under
/// one rising key that is made of its rank and its place number: what holds of rising numbers holds of both, and is proved
/// once. A ranking never holds more than its capacity, and takes memory only where its capacity is raised.
#[derive(Drop)]
pub struct Ranking<T: Copy> {
    // In order, since an offer may take no memory, as a tree's would, and a heap has no order in which to hand its values back.
    // Among equal ranks an offer and a take move nothing.
    items: VecDeque<Ranked<T>, Global>,
    // The capacity. It doubles where it is raised; `VecDeque::reserve` by itself doubles the length alone.
    places: usize,
    offers: u64,
}

impl<T: Copy> Model for Ranking<T> {
    ghost use Rattle.std.specs.VecDeque.{deque_capacity};
    ghost use Rattle.tp_ring.specs.Line.{Line as Seen, line, line_code};
    ghost use Rattle.tp_ring.specs.Ranking.{keyed, IsRanking};

    ghost Value = { Seen T };

    ghost coded = { line_code T.code };

    ghost view = { λ r. line (keyed r.items.items) r.places r.offers };

    ghost invariant = { λ r. IsRanking r.items.items r.places (deque_capacity r.items) r.offers };
}

impl<T: Copy> Ranking<T> {
    /// An empty ranking without places, no offer accepted so far.
    pub fn new(alloc: Global) -> Ranking<T>
        ensures { result ≡ line [] 0 0 }
    {
        Ranking {
            items: VecDeque::new(alloc),
            places: 0,
            offers: 0,
        }
    }

    /// The law that keys rise along the ranking, and place numbers stay below the number of accepted offers. So none comes
    /// twice, and no more wait than were accepted.
    pub fn law_rises(&self)
        ensures keys { Ordered 0 self.now.items (2 ^ 96) }
        ensures numbers { AreNumbered self.now.offers self.now.items }
        ensures few { length self.now.items ≤ self.now.offers }
    {
        let _ = &self.items;
        let _offers = self.offers;
    }

    /// How many may wait.
    pub fn capacity(&self) -> usize
        ensures { result ≡ self.now.capacity }
    {
        self.places
    }

    /// How many wait.
    pub fn len(&self) -> usize
        ensures len { result ≡ length self.now.items }
        ensures within { result ≤ self.now.capacity }
    {
        self.items.len()
    }

    /// Whether there is no room for one more.
    pub fn is_full(&self) -> bool
        ensures { IsTrue result ↔ (self.now.capacity ≤ length self.now.items) }
    {
        self.places <= self.len()
    }

    /// Raises the capacity to this one, or further, where it is less: at least to twice what it is, so that to raise it one by
    /// one moves each item but a few times. Where memory is refused nothing changes.
    pub fn reserve(&mut self, capacity: usize) -> Result<(), AllocError>
        ensures ok { OnOk result ((capacity ≤ self.new.capacity) × (self.old.capacity ≤ self.new.capacity)) }
        ensures same { self.new ≡ line self.old.items self.new.capacity self.old.offers }
        ensures err { OnErr result (self.new ≡ self.old) }
    {
        if capacity <= self.places {
            return Ok(());
        }
        let wanted = capacity.max(self.places.saturating_mul(2));
        self.items.reserve(wanted - self.items.len())?;
        self.places = wanted;
        Ok(())
    }

    /// The one that comes first, as `Queue.peek`.
    pub fn head(&self) -> Option<T>
        ensures { result ≡ option_map (λ x. x.0) (slice_get self.now.items 0) }
    {
        match self.items.front() {
            Some(item) => Some(item.id),
            None => None,
        }
    }

    /// Puts one in behind all whose rank is not greater, and answers its place number, or gives it back where the ranking is
    /// full, as `Queue.offer`. It takes no memory, compares as often as a binary search does, and moves those before it or
    /// those behind it, whichever are fewer.
    pub fn offer(&mut self, id: T, rank: u32) -> Result<u64, T>
        requires { self.old.offers < 2 ^ 64 - 1 }
        ensures room { IsOk result ↔ (length self.old.items < self.old.capacity) }
        ensures queued { IfOk result (λ n. (n ≡ self.old.offers) × (self.new ≡ line (enter (key rank n) id self.old.items) self.old.capacity (self.old.offers + 1))) }
        ensures full { IfErr result (λ x. (x ≡ id) × (self.new ≡ self.old)) }
    {
        if self.is_full() {
            return Err(id);
        }
        let number = self.offers;
        let at = behind_rank(&self.items, rank);
        let item = Ranked { id, rank, number };
        if let Err(failed) = self.items.insert(at, item) {
            return Err(failed.value.id);
        }
        self.offers += 1;
        Ok(number)
    }

    /// Takes out the one that comes first, as `Queue.poll`.
    pub fn take_head(&mut self) -> Option<T>
        ensures head { result ≡ option_map (λ x. x.0) (slice_get self.old.items 0) }
        ensures rest { self.new ≡ line (drop 1 self.old.items) self.old.capacity self.old.offers }
    {
        let item = self.items.pop_front()?;
        Some(item.id)
    }

    /// Takes out the one of this rank and place number, if it waits. The others keep their order and numbers. It compares as
    /// often as a binary search does, and moves those before it or those behind it, whichever are fewer. By the number alone a
    /// search from the front would read half of the ranking.
    pub fn remove(&mut self, rank: u32, number: u64)
        ensures { self.new ≡ line (without_place (key rank number) self.old.items) self.old.capacity self.old.offers }
    {
        let at = first_at(&self.items, rank, number);
        if let Some(item) = self.items.get(at) {
            if item.is_at(rank, number) {
                self.items.remove(at);
            }
        }
    }
}
