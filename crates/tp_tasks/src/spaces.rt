//! Memory for the homes of tasks, made before it is needed.

ghost use Rattle.std.specs.Prelude.{◌≡◌, []};

use crate::homes::Home;
use std::alloc::{AllocError, Global};

/// Memory for homes of tasks, in which none lie yet. All of it was written: to touch a page first takes longer than most holds
/// of a lock, so it is made while none is held. A page takes some 2 microseconds then, and each thread waits for a hold: one
/// that doubled the table to 16,384 homes took 2 milliseconds. A pool that keeps its record had the room from the beginning.
#[derive(Drop)]
pub struct Space<P> {
    pub(crate) homes: Vec<Option<Home<P>>>,
    ghost empty: { homes.items ≡ [] },
}

impl<P> Space<P> {
    /// Memory for so many homes. AllocError where there is none.
    pub fn new(alloc: Global, homes: usize) -> Result<Space<P>, AllocError>
    where
        P: Drop,
    {
        let mut written = Vec::new(alloc);
        written.resize_with(homes, || None)?;
        written.clear();
        Ok(Space { homes: written })
    }
}
