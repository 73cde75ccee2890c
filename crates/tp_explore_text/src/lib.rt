//! The texts of what is explored: a file of callers read, and what is printed of their interleavings.
#![tactic(auto)]

pub mod calls;
pub mod ends;
pub mod explored;
pub mod files;
pub mod outcomes;
pub mod parts;
pub mod pictures;
pub mod scenarios;
pub mod slots;
pub mod texts;
