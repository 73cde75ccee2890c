//! Claims about a record's numbers, and whether they hold; where two records part, and which of their tasks ended otherwise.
#![tactic(auto)]

pub mod checks;
pub mod claims;
pub mod differences;
pub mod endings;
pub mod fates;
pub mod parsing;
pub mod quantities;
pub mod sources;
