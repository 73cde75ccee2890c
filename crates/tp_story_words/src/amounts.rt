//! Numbers of things, with their names.

use std::fmt;

/// A number of things, as `1 task` or `3 tasks`.
#[derive(Clone, Copy, Debug, PartialEq, Eq)]
pub enum Amount {
    /// So many tasks.
    Tasks(u64),
    /// So many entries.
    Entries(u64),
    /// So many ticks.
    Ticks(u64),
    /// So many slots.
    Slots(u64),
    /// So many workers that are live.
    LiveWorkers(u64),
}

impl fmt::Display for Amount {
    fn fmt<W: fmt::Write>(&self, f: &mut fmt::Formatter<W>) -> fmt::Result {
        let (count, one, many) = match *self {
            Amount::Tasks(count) => (count, "task", "tasks"),
            Amount::Entries(count) => (count, "entry", "entries"),
            Amount::Ticks(count) => (count, "tick", "ticks"),
            Amount::Slots(count) => (count, "slot", "slots"),
            Amount::LiveWorkers(count) => (count, "live worker", "live workers"),
        };
        let name = if count == 1 { one } else { many };
        write!(f, "{count} {name}")
    }
}
