//! A flight recorder: the text of a pool's record, written by a thread of its own while the pool runs. A process that is killed leaves
//! a text that is cut off, and the commands of `poolrun` that ask questions of a record read it.
//!
//! `writers` writes the text, entry by entry. `windows` is where the journal's thread looks at the pool. `following` is what it does, and
//! `journals` what a pool's owner calls. No step of the pool waits for the writer: the thread copies entries in a hold of the lock, as any
//! reading does, and writes them behind it.
#![tactic(auto)]

pub mod endings;
pub mod following;
pub mod journals;
pub mod windows;
pub mod writers;
