//! What a pool keeps beside its record, the state that it shows, and the changes of which each step is made.
//!
//! The contract of a change speaks of what is seen of a state, row by row, and not of the state's lists: no structure with
//! cheap steps equals those, and what is seen after a chain of changes computes.
//!
//! The steps stand in a crate for each wing, so that checks stay short and each wing is read alone. A step is a value (`step`) with
//! two methods, `answer` and `apply`: all refusals stand before the first change, and memory can be taken between the two.
#![tactic(auto)]

pub mod drain_changes;
pub mod entries;
pub mod offer_changes;
pub mod owing;
pub mod parts;
pub mod queue_changes;
pub mod readings;
pub mod releases;
pub mod removal_changes;
pub mod room;
pub mod setting_changes;
pub mod slot_changes;
pub mod step;
pub mod submission_changes;
pub mod task_changes;
