//! Submitters' steps: each is a value in a module named as the step, whose `answer` reads what the step answers, and whose `apply`
//! makes an accepted answer. A submission takes memory between the two, so `submit` has functions. They are the branches of
//! `ThreadPoolExecutor.execute`.
#![tactic(auto)]

pub mod callerend;
pub mod grow;
pub mod look;
pub mod offer;
pub mod second;
pub mod submit;
pub mod verdict;
