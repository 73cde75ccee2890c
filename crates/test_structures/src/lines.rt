//! Lines of values that equal their place numbers.

ghost use Rattle.std.specs.Prelude.{◌≤◌};

use crate::calls::{Call, Said, Tested};
use std::alloc::{AllocError, Global};
use tp_ring::lines::Line;
use tp_text::numbers::long_number;

/// A line, with a bound on the offers made to it.
#[derive(Drop)]
pub struct Values {
    line: Line<u64>,
    offers: u64,
    ghost few: { line.offers ≤ offers },
}

impl Values {
    /// A line with so many places.
    pub fn new(alloc: Global, capacity: usize) -> Result<Values, AllocError> {
        Ok(Values {
            line: Line::with_capacity(alloc, capacity)?,
            offers: 0,
        })
    }

    /// Offers a value.
    fn offer(&mut self, value: u64) -> Result<u64, u64> {
        let Some(offers) = self.offers.checked_add(1) else {
            return Err(value);
        };
        let placed = self.line.offer(value);
        self.offers = offers;
        placed
    }
}

impl Tested for Values {
    fn answer(&mut self, call: &Call<'_>) -> Said {
        match call.name {
            "offer" => call.says(&self.offer(long_number(call.first)?)),
            "remove" => call.says(&self.line.remove(long_number(call.first)?)),
            "first" => call.says(&self.line.first_from(long_number(call.first)?)),
            "room" => call.says(&(call.size()? <= self.line.capacity())),
            "reserve" => call.says(&self.line.reserve(call.size()?)),
            "head" => call.says(&self.line.head()),
            "take" => call.says(&self.line.take_head()),
            "len" => call.says(&self.line.len()),
            "empty" => call.says(&self.line.is_empty()),
            "full" => call.says(&self.line.is_full()),
            _ => None,
        }
    }
}
