//! The rules of steps as programs, and plain programs that compute what the definitions of `tp_record` say of a record.
//!
//! The rule of each step's answer stands once (`submitters`, `workers`, `controllers`), over what is read of a pool (`readings`): the
//! structures of a machine, an auditor's tables, or a plain state. The plain programs each scan a record's entries, the oldest
//! first, and the contract is the definition over the history, which is the same list latest first.
#![tactic(auto)]

pub mod answer;
pub mod build;
pub mod controllers;
pub mod counts;
pub mod effects;
pub mod lists;
pub mod next;
pub mod plain_state;
pub mod pool;
pub mod queues;
pub mod readings;
pub mod results;
pub mod slots;
pub mod step;
pub mod submitters;
pub mod tasks;
pub mod weights;
pub mod workers;
