//! Why a text is refused: which line, at which column, what stands there and what was expected, told in the form of a compiler's
//! message. The refusal says which line it is.
#![tactic(auto)]

pub mod callers;
pub mod faults;
pub mod forms;
pub mod guesses;
pub mod line_kinds;
pub mod lines;
pub mod messages;
pub mod mistakes;
pub mod numerals;
pub mod places;
pub mod reasons;
pub mod records;
pub mod scenarios;
pub mod sentences;
pub mod settings;
mod shown;
pub mod tellings;
pub mod wordings;
pub mod words;
