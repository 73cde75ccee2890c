//! The numbers that a pool gives its slots.

use std::alloc::{AllocError, Global};
use tp_record::entries::Did;
use tp_rules::effects::{freed_by, reserved_by};
use tp_types::ids::SlotId;

/// The slots of the model beside those of the pool. The model gives a new slot the least number that is free, and the pool gives it the one
/// that was freed last.
#[derive(Debug, Drop)]
pub struct Slots {
    // The pool's number of each slot of the model.
    given: Vec<Option<usize>>,
    // The pool's numbers that are free, the one that is given next last.
    free: Vec<usize>,
    // The first of the pool's numbers that was never given.
    fresh: usize,
}

impl Slots {
    /// The slots of a new pool: none.
    pub fn new(alloc: Global) -> Slots {
        Slots {
            given: Vec::new(alloc),
            free: Vec::new(alloc),
            fresh: 0,
        }
    }

    /// The pool's number of a slot of the model; of one that there is not, the same number.
    pub fn number(&self, w: SlotId) -> SlotId {
        match self.given.get(w.0) {
            Some(Some(number)) => SlotId(*number),
            _ => w,
        }
    }

    // The slot is free.
    fn free(&mut self, w: SlotId) -> Result<(), AllocError> {
        let SlotId(number) = self.number(w);
        self.free.push(number)?;
        if w.0 < self.given.len() {
            self.given[w.0] = None;
        }
        Ok(())
    }

    // The number that the pool gives next.
    fn next(&mut self) -> usize {
        match self.free.pop() {
            Some(number) => number,
            None => {
                let number = self.fresh;
                self.fresh = number.saturating_add(1);
                number
            }
        }
    }

    // The slot is reserved.
    fn give(&mut self, w: SlotId) -> Result<(), AllocError> {
        let number = self.next();
        while self.given.len() <= w.0 {
            self.given.push(None)?;
        }
        self.given[w.0] = Some(number);
        Ok(())
    }

    /// Follows an entry, which may free a slot and may reserve one. AllocError where there is no memory for it.
    pub fn follow(&mut self, did: Did) -> Result<(), AllocError> {
        if let Some(w) = freed_by(did) {
            self.free(SlotId(w))?;
        }
        if let Some(w) = reserved_by(did) {
            self.give(SlotId(w))?;
        }
        Ok(())
    }
}
