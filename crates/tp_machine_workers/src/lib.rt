//! Workers' steps: each is a value in a module named as the step, whose `answer` reads what the step answers, and whose `apply` makes
//! an accepted answer.
#![tactic(auto)]

pub mod begin;
pub mod end;
pub mod fail;
mod freed;
pub mod leave;
pub mod open;
mod owed;
pub mod take;
