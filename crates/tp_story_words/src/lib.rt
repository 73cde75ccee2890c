//! Stories of a record, and the pool after an entry, told line by line.
#![tactic(auto)]

pub mod amounts;
pub mod forms;
pub mod fronts;
mod json;
pub mod numbers;
pub mod objects;
pub mod stories;
mod tallies;
pub mod words;
