//! A recorder that counts.

ghost use Rattle.std.specs.Prelude.{◌≡◌, ◌+◌, ◌<◌, ◌^◌, [], false, length};

use std::alloc::{AllocError, Global};
use tp_record::entries::Entry;
use tp_record::recorders::Recorder;
use tp_types::configs::Config;

/// Counts the entries of a record, and keeps none: what comes of a scenario is written line by line, and no entry is read again. A
/// third of a long run went into first touches of the record's memory.
#[derive(Drop)]
pub struct Counted {
    /// How many entries were noted.
    noted: u64,
    /// How many more can be noted.
    places: u64,
    ghost within: { noted + places < 2 ^ 64 },
}

impl Counted {
    /// No entries, and places for this many.
    pub fn new(limit: u32) -> Counted
        ensures none { result.noted ≡ 0 }
        ensures places { result.places ≡ limit }
    {
        Counted {
            noted: 0,
            places: limit as u64,
        }
    }
}

impl Recorder for Counted {
    ghost tells = { λ f h rs. (length h ≡ f.noted) × (rs ≡ []) };

    ghost places = { λ f. f.places };

    ghost terms = { λ c. c };

    ghost RECEIPTS = { false };

    const RECEIPTS: bool = false;

    fn limit(config: &Config) -> u64 {
        u64::from(config.record_limit)
    }

    fn make(_alloc: Global, config: &Config) -> Result<Counted, AllocError> {
        Ok(Counted::new(config.record_limit))
    }

    fn room(&self) -> u64 {
        self.places
    }

    fn len(&self) -> u64 {
        self.noted
    }

    #[inline(always)]
    fn note(&mut self, _entry: Entry) {
        self.noted += 1;
        self.places -= 1;
    }
}
