//! Who calls whom, and in which order, before there is any pool: what a pool asks of its users, and what it promises to ask.
//!
//! The traits are the objects that a pool's users write: jobs, thread factories, rejection handlers, hooks and gates. A pool calls
//! all of them outside its lock, so each of them may ask the pool for its state, its counters and its steps. The pages of the
//! traits say which calls from within would wait for ever.
//!
//! `turns` is a worker's turn: what it asks of its pool and of the pool's users, and in which order. `paths` is the path of a
//! submission: what it asks next after each answer, and how it ends.
#![tactic(auto)]

pub mod deeds;
pub mod factories;
pub mod flags;
pub mod gates;
pub mod handlers;
pub mod hooks;
pub mod jobs;
pub mod laws;
pub mod paths;
pub mod rescues;
pub mod turns;
