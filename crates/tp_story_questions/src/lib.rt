//! Questions of a record, answered as its text is read: why a task or a slot is where it is, what the pool was like after an entry, and
//! what the record tells in numbers.
#![tactic(auto)]

pub mod accounts;
pub mod asking;
pub mod cuts;
pub mod fronts;
pub mod numbers;
pub mod questions;
pub mod stories;
