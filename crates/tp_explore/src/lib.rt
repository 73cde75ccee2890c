//! All that may become of every task: the states that some callers' calls can bring a pool into, whoever moves first.
#![tactic(auto)]

pub mod callers;
pub mod deeds;
pub mod moves;
pub mod plans;
pub mod states;
