//! The commands `steps`, `audit`, `explore`, `why`, `now`, `stats`, `check`, `diff` and `draw`: what they do with a text, with what status
//! they end, and what they tell beside their output.
//!
//! They stand over any reader and writers, and not on the pool's storeys: a change of those then costs the program a few functions.
//! `poolrun` adds files, the command line and `threads`, which alone stands on the pool. Tests of the commands stand above them, in
//! `test_program`, and need no files. `records` and `refusals` hear a scenario's play: they write its record, and keep which steps
//! are refused, and why.
#![tactic(auto)]

pub mod audits;
pub mod checks;
pub mod differences;
pub mod drawings;
mod explains;
pub mod explores;
mod listings;
pub mod objects;
pub mod progress;
pub mod questions;
pub mod records;
pub mod refusals;
pub mod statuses;
pub mod steps;
pub mod telling;
pub mod texts;
