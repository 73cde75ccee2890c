//! A line on a ring.

ghost use Rattle.std.specs.Prelude.{◌≡◌, ◌==◌, ◌+◌, ◌-◌, ◌^◌, ◌<◌, ◌≤◌, ◌++◌, ◌∷◌, [], length, drop, slice_get, option_map, IfOk, IfErr, OnOk, OnErr, IsTrue, IsOk, ◌↔◌};
ghost use Rattle.tp_ring.specs.Line.{line, without_place, from_place, Ordered};
ghost use Rattle.tp_ring.specs.Ranks.{AreNumbered};

use crate::items::Item;
use crate::places::{find, first_live, kill, lower_bound, make_place, trim};
use circular_buffer::HeapCircularBuffer;
use std::alloc::{AllocError, Global};
use std::marker::Model;

/// Values that wait in order, the one that waits longest first, each under its place number.
///
/// Place numbers count the accepted offers from 0, so they rise along the line and none comes twice.
/// A line never holds more than its capacity, and takes memory only where it is made and where its
/// capacity is raised.
#[derive(Drop)]
pub struct Line<T: Copy> {
    // Twice as many places as the capacity. The dead are given up when it is full, and then half of it
    // and more is free: an offer moves two items at most, over many offers. With just as many places, each offer to a full
    // line might follow a removal from its middle. It would give up that one dead item, at the cost of the whole line.
    ring: HeapCircularBuffer<Item<T>>,
    live: usize,
    offers: u64,
}

impl<T: Copy> Model for Line<T> {
    ghost use Rattle.std.specs.Prelude.{◌/◌};
    ghost use Rattle.tp_ring.specs.Line.{Line as Seen, line, line_code};
    ghost use Rattle.tp_ring.specs.Ring.{living, IsLine};

    ghost Value = { Seen T };

    ghost coded = { line_code T.code };

    ghost view = { λ l. line (living l.ring.items) (l.ring.capacity / 2) l.offers };

    ghost invariant = { λ l. IsLine l.ring.items (l.ring.capacity / 2) l.live l.offers };
}

// Writes each place of an empty ring once.
fn write_places<T: Copy>(ring: &mut HeapCircularBuffer<Item<T>>, blank: T)
    requires { ring.old.items ≡ [] }
    ensures { ring.new ≡ ring.old }
{
    let item = Item {
        id: blank,
        number: 0,
        live: false,
    };
    for _ in 0..ring.capacity() {
        ring.push_back(item);
    }
    ring.clear();
}

impl<T: Copy> Line<T> {
    /// An empty line of this capacity, no offer accepted so far. Its places are made here.
    pub fn with_capacity(alloc: Global, capacity: usize) -> Result<Line<T>, AllocError>
        ensures { IfOk result (λ l. l ≡ line [] capacity 0) }
    {
        let Some(places) = capacity.checked_mul(2) else {
            return Err(AllocError);
        };
        Ok(Line {
            ring: HeapCircularBuffer::with_capacity(alloc, places)?,
            live: 0,
            offers: 0,
        })
    }

    /// As `with_capacity`, with each place written once, so that none of its memory is new to an offer.
    pub fn written(alloc: Global, capacity: usize, blank: T) -> Result<Line<T>, AllocError>
        ensures { IfOk result (λ l. l ≡ line [] capacity 0) }
    {
        let mut line = Line::with_capacity(alloc, capacity)?;
        write_places(&mut line.ring, blank);
        Ok(line)
    }

    /// The law that place numbers rise along the line, and stay below the number of accepted offers. So none comes twice, and
    /// no more wait than were accepted.
    #[inline(always)]
    pub fn law_rises(&self)
        ensures rises { Ordered 0 self.now.items self.now.offers }
        ensures numbers { AreNumbered self.now.offers self.now.items }
        ensures few { length self.now.items ≤ self.now.offers }
    {
        let _ = &self.ring;
        let _offers = self.offers;
    }

    /// How many may wait.
    #[inline(always)]
    pub fn capacity(&self) -> usize
        ensures capacity { result ≡ self.now.capacity }
        ensures small { result < 2 ^ 62 }
    {
        self.ring.capacity() / 2
    }

    /// How many wait.
    #[inline(always)]
    pub fn len(&self) -> usize
        ensures len { result ≡ length self.now.items }
        ensures within { result ≤ self.now.capacity }
    {
        self.live
    }

    /// Whether none waits.
    pub fn is_empty(&self) -> bool
        ensures { IsTrue result ↔ (self.now.items ≡ []) }
    {
        self.live == 0
    }

    /// Whether there is no room for one more.
    #[inline(always)]
    pub fn is_full(&self) -> bool
        ensures { IsTrue result ↔ (self.now.capacity ≤ length self.now.items) }
    {
        self.capacity() <= self.live
    }

    /// Raises the capacity to this one, or further, where it is less: at least to twice what it is, so
    /// that to raise it one by one moves each item but a few times. Where memory is refused nothing
    /// changes.
    #[inline(always)]
    pub fn reserve(&mut self, capacity: usize) -> Result<(), AllocError>
        ensures ok { OnOk result ((capacity ≤ self.new.capacity) × (self.old.capacity ≤ self.new.capacity)) }
        ensures same { self.new ≡ line self.old.items self.new.capacity self.old.offers }
        ensures err { OnErr result (self.new ≡ self.old) }
    {
        let places = self.ring.capacity();
        if capacity <= places / 2 {
            return Ok(());
        }
        let Some(wanted) = capacity.checked_mul(2) else {
            return Err(AllocError);
        };
        self.ring.resize(wanted.max(2 * places))
    }

    /// Who waits longest, as `Queue.peek`.
    #[inline(always)]
    pub fn head(&self) -> Option<T>
        ensures { result ≡ option_map (λ x. x.0) (slice_get self.now.items 0) }
    {
        match self.ring.front() {
            Some(item) => Some(item.id),
            None => None,
        }
    }

    /// Puts one at the end and answers its place number, or gives it back where the line is full, as
    /// `Queue.offer`. It takes no memory.
    #[inline(always)]
    pub fn offer(&mut self, id: T) -> Result<u64, T>
        requires { self.old.offers < 2 ^ 64 - 1 }
        ensures room { IsOk result ↔ (length self.old.items < self.old.capacity) }
        ensures queued { IfOk result (λ n. (n ≡ self.old.offers) × (self.new ≡ line (self.old.items ++ (id, n) ∷ []) self.old.capacity (self.old.offers + 1))) }
        ensures full { IfErr result (λ x. (x ≡ id) × (self.new ≡ self.old)) }
    {
        if self.live >= self.capacity() {
            return Err(id);
        }
        make_place(&mut self.ring);
        let number = self.offers;
        self.ring.push_back(Item {
            id,
            number,
            live: true,
        });
        self.live += 1;
        self.offers += 1;
        Ok(number)
    }

    /// Takes out the one that waits longest, as `Queue.poll`.
    #[inline(always)]
    pub fn take_head(&mut self) -> Option<T>
        ensures head { result ≡ option_map (λ x. x.0) (slice_get self.old.items 0) }
        ensures rest { self.new ≡ line (drop 1 self.old.items) self.old.capacity self.old.offers }
    {
        let item = self.ring.pop_front()?;
        self.live -= 1;
        trim(&mut self.ring);
        Some(item.id)
    }

    /// Takes out the one of this place number, if it waits. The others keep their order and numbers.
    pub fn remove(&mut self, number: u64)
        ensures { self.new ≡ line (without_place number self.old.items) self.old.capacity self.old.offers }
    {
        let Some(at) = find(&self.ring, number) else {
            return;
        };
        if kill(&mut self.ring, at) {
            self.live -= 1;
        }
        trim(&mut self.ring);
    }

    /// Who waits first of those at this place number or a later one, with the place number. A walk
    /// along the line asks again from the number after the one answered, and so passes over each
    /// dead item once.
    pub fn first_from(&self, number: u64) -> Option<(T, u64)>
        ensures { result ≡ slice_get (from_place number self.now.items) 0 }
    {
        first_live(&self.ring, lower_bound(&self.ring, number))
    }
}
