//! Scenarios: their texts, read line by line, and the runner that plays them on a pool, once: it writes what comes of each line, and
//! tells a listener. Beside them files of jobs, which are read.
#![tactic(auto)]

pub mod counted;
pub mod forms;
pub mod jobs;
pub mod lines;
pub mod listeners;
pub mod play;
pub mod reading;
pub mod run;
pub mod scenarios;
pub mod step;
pub mod texts;

pub use crate::jobs::read_jobs;
