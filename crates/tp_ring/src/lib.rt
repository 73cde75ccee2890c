//! A line: values wait in order, each under a place number by which it is found, and taken out also from the middle.
//!
//! A work queue is such a line of tasks, and so is the order in which workers became idle. A ranking
//! is a line in the order of its values' ranks.
#![tactic(auto)]

mod bounds;
mod items;
pub mod lines;
mod places;
pub mod rankings;
