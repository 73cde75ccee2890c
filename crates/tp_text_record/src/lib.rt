//! Record texts: a pool's configuration and the entries of its record, written and read line by line.
//!
//! `audits` judges such a text by the model alone, and writes the judgment. The text and the auditor's tables are held
//! meanwhile, so want of memory (4) may come with any text, and before a line is read.
#![tactic(auto)]

mod answers;
pub mod audits;
mod dids;
pub mod entries;
mod heads;
pub mod judging;
pub mod judgments;
pub mod laws;
pub mod reading;
pub mod records;
mod steps;
pub mod versions;
mod words;
pub mod writing;
