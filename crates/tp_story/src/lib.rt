//! What a record tells: the story of one task, or of one slot (`stories`); since when each of them is where it is (`times`); the
//! pool after an entry (`fronts`); and what there is in numbers, as waits, runs, refusals and the longest queue (`stats`).
#![tactic(auto)]

pub mod events;
pub mod fates;
pub mod fronts;
pub mod laws;
pub mod naming;
pub mod reasons;
pub mod scenes;
pub mod spans;
pub mod stats;
pub mod stories;
pub mod subjects;
pub mod times;
