//! The auditor: it judges a record from anywhere by the model alone. It knows no machine.
//!
//! It stands above the laws: its answer says that all of them hold of a record that has counters, as the report of a closed
//! pool does.
#![tactic(auto)]

pub mod plain;
pub mod summary;
