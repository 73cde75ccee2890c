//! The auditor that judges a record one entry at a time: what it keeps, by tables of its own. It knows no machine.
//!
//! It is for long records: by filters over the list, as `audit_plain` judges, a record of n entries costs n times n. Both have
//! one contract, and tests compare their answers.
//!
//! No structure of the machine is below its tables, so an error in the machine's can't hide in these. Both have in common the
//! line of `tp_ring` and the methods of rows. A line is proved by itself, and a second one would have the same contracts.
#![tactic(auto)]

pub mod auditor;
pub mod audits;
pub mod done;
pub mod named;
pub mod narrow;
pub mod notes;
pub mod orders;
pub mod owed;
pub mod queue;
pub mod ranks;
pub mod readings;
pub mod rows;
pub mod slot_table;
pub mod slots;
pub mod tables;
pub mod tasks;
pub mod turns;
pub mod walks;
pub mod wide;
