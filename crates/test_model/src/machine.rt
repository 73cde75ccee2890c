//! The machine as it is played: texts of what is asked, what each ask answers, and what is read of the machine then.

mod long;
mod memory;
pub mod plays;
#[cfg(test)]
mod tallied;
