//! The command line: what its user chose.
#![tactic(auto)]

pub mod choices;
pub mod commands;
pub mod completions;
