//! What a program can know before its pool runs, and tell after: how large a record so many jobs want, usual
//! settings, and refusals in words.
#![tactic(auto)]

pub mod makers;
pub mod reasons;
pub mod sizes;
