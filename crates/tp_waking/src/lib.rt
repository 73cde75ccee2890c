//! Who is woken by which step of a pool: the table of `docs/inside/WAKING.md`. Which workers sleep, and which were woken and look
//! for a task, is in `sleepers`.
//!
//! To wake all who wait at each step would cost more than the steps. Who is not woken would have looked, found
//! what was there before, and slept again: a thread looks and begins to wait in one hold, so no step falls between.
#![tactic(auto)]

pub mod calls;
pub mod ends;
pub mod results;
pub mod rooms;
pub mod sleepers;
mod states;
pub mod waking;
