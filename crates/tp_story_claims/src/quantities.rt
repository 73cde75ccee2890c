//! The numbers of which a claim speaks.

ghost use Rattle.std.specs.Prelude.{◌≡◌};
ghost use Rattle.tp_story_claims.specs.Claims as claimed;

use crate::fates::Fates;

/// A number that a record tells.
#[derive(Clone, Copy, Debug, PartialEq, Eq)]
pub enum Quantity {
    /// The tasks that were submitted.
    Submitted,
    /// The tasks that workers ran to their end.
    Run,
    /// The tasks that their submitters ran to their end.
    Caller,
    /// The tasks that were rejected.
    Rejected,
    /// The tasks that were discarded.
    Discarded,
    /// The tasks that a stop handed back.
    HandedBack,
    /// The tasks that were removed.
    Removed,
    /// The tasks that were cancelled.
    Cancelled,
    /// The tasks that have no fate.
    Open,
    /// The most tasks that were queued at a time.
    Queued,
    /// The most workers that were live at a time.
    Live,
    /// The longest wait in the queue of a task that a worker took from it, in entries.
    Wait,
    /// The longest run of a body that ended, in entries.
    Busy,
    /// The entries.
    Entries,
}

const ALL: [Quantity; 14] = [
    Quantity::Submitted,
    Quantity::Run,
    Quantity::Caller,
    Quantity::Rejected,
    Quantity::Discarded,
    Quantity::HandedBack,
    Quantity::Removed,
    Quantity::Cancelled,
    Quantity::Open,
    Quantity::Queued,
    Quantity::Live,
    Quantity::Wait,
    Quantity::Busy,
    Quantity::Entries,
];

/// What a record tells at some entry.
#[derive(Clone, Copy, Debug, PartialEq, Eq)]
pub struct Seen {
    /// The tasks that were submitted.
    pub submitted: u64,
    /// How many tasks have each fate.
    pub fates: Fates,
    /// The most tasks that were queued at a time.
    pub queued: u64,
    /// The most workers that were live at a time.
    pub live: u64,
    /// The longest wait so far, in entries.
    pub wait: u64,
    /// The longest run so far, in entries.
    pub busy: u64,
    /// The entries.
    pub entries: u64,
    /// The run state's rank.
    pub rank: u8,
}

impl Seen {
    /// How many tasks have no fate.
    fn open(&self) -> u64
        ensures { result ≡ claimed.open_in self.now }
    {
        let Fates {
            run,
            caller,
            rejected,
            discarded,
            handedback,
            removed,
            cancelled,
        } = self.fates;
        self.submitted
            .saturating_sub(run)
            .saturating_sub(caller)
            .saturating_sub(rejected)
            .saturating_sub(discarded)
            .saturating_sub(handedback)
            .saturating_sub(removed)
            .saturating_sub(cancelled)
    }
}

impl Quantity {
    /// Its name in a claim.
    pub fn name(self) -> &'static str {
        match self {
            Quantity::Submitted => "submitted",
            Quantity::Run => "run",
            Quantity::Caller => "caller",
            Quantity::Rejected => "rejected",
            Quantity::Discarded => "discarded",
            Quantity::HandedBack => "handedback",
            Quantity::Removed => "removed",
            Quantity::Cancelled => "cancelled",
            Quantity::Open => "open",
            Quantity::Queued => "queued",
            Quantity::Live => "live",
            Quantity::Wait => "wait",
            Quantity::Busy => "busy",
            Quantity::Entries => "entries",
        }
    }

    /// The number of this name.
    pub fn named(name: &str) -> Option<Quantity> {
        for quantity in ALL {
            if quantity.name() == name {
                return Some(quantity);
            }
        }
        None
    }

    /// Whether it never falls as entries are told.
    pub fn rises(self) -> bool
        ensures { result ≡ claimed.rises self }
    {
        !matches!(self, Quantity::Open)
    }

    /// How great it is.
    pub fn value(self, seen: &Seen) -> u64
        ensures { result ≡ claimed.value self seen.now }
    {
        match self {
            Quantity::Submitted => seen.submitted,
            Quantity::Run => seen.fates.run,
            Quantity::Caller => seen.fates.caller,
            Quantity::Rejected => seen.fates.rejected,
            Quantity::Discarded => seen.fates.discarded,
            Quantity::HandedBack => seen.fates.handedback,
            Quantity::Removed => seen.fates.removed,
            Quantity::Cancelled => seen.fates.cancelled,
            Quantity::Open => seen.open(),
            Quantity::Queued => seen.queued,
            Quantity::Live => seen.live,
            Quantity::Wait => seen.wait,
            Quantity::Busy => seen.busy,
            Quantity::Entries => seen.entries,
        }
    }
}
