//! The exhaustive walk over a finite system of moves: every state that is reached, and how many paths lead to each end.
#![tactic(auto)]

pub mod counts;
pub mod graphs;
pub mod systems;
pub mod trails;
