//! The ends of all interleavings of some callers' calls, and a way to each of them.
//!
//! The walk over a plan stands here, for a type of its own around the plan (`Exploration`). The laws that a walk asks for are proved
//! in `tp_explore`, and a crate's own proofs stand behind no `impl` of it.
#![tactic(auto)]

pub mod explored;
pub mod witnesses;
