//! The text that a run of a scenario writes: a line for each entry and each refusal, and at the end the fates, the
//! run state and the counters. Each function gives one whole line, exactly as `specs/` has it.
//!
//! Numbers, words, lines, pool lines and printed lines are read and written here alone, and each word stands once. Record texts are
//! read in `tp_text_record`, which stands on this crate. `tp_record` has no texts: all crates above cite its definitions, and would be
//! checked again with each change of a text.
#![tactic(auto)]

mod answers;
pub mod asks;
pub mod commands;
pub mod ends;
pub mod entries;
pub mod inputs;
pub mod lines;
pub mod numbers;
mod pieces;
pub mod pools;
pub mod printing;
pub mod runs;
pub mod watched;
pub mod words;
pub mod writing;
