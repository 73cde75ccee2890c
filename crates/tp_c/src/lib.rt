//! The proved core for programs in other languages: a static library, whose calls are declared in `bindings/include/zellunkay.h`.
#![tactic(auto)]

pub mod answers;
pub mod asking;
pub mod exploring;
pub mod exports;
pub mod handles;
pub mod homes;
pub mod moments;
pub mod numbers;
pub mod rooms;
pub mod statuses;
pub mod texts;
