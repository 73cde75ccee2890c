//! The program `poolrun` over any files, words and writers. Its command `threads` stands here too: the jobs of a file are submitted to a
//! running pool, and its record is written. The other commands are in `poolrun_commands`.
#![tactic(auto)]

pub mod hosts;
mod jobs;
pub mod journals;
pub mod program;
pub mod progress;
pub mod recorded;
pub mod runs;
mod scripted;
mod submissions;
pub mod tallies;
pub mod texts;
