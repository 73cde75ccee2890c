//! What tests of running pools share: what they and a pool's threads tell each other, a pool's users and its jobs, what callers do
//! line by line, and what is found at a pool's end.

pub mod batches;
pub mod boards;
pub mod calls;
pub mod chores;
pub mod dealing;
pub mod findings;
pub mod forgetting;
pub mod lives;
pub mod playing;
pub mod scripts;
pub mod serving;
pub mod users;
