//! Why a step is refused, and why an entry is a flaw. Both are told from an auditor's tables.
#![tactic(auto)]

pub mod causes;
pub mod flaws;
pub mod rows;
