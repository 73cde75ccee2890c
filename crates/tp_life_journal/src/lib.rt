//! A pool's whole life in one call, as of `tp_life`, whose record is written while it runs.
//!
//! It stands in a crate of its own, so that a program without a journal reads neither texts nor auditors.
#![tactic(auto)]

pub mod recorded;

/// What a program with a journal names beside `tp_life::prelude`.
pub mod prelude {
    pub use crate::recorded::with_journal;
    pub use tp_journal::endings::{JournalEnd, Wish, wish_at};
}
