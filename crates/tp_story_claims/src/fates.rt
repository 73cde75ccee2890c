//! How many tasks have each fate, counted entry by entry.

ghost use Rattle.std.specs.Prelude.{◌≡◌};
ghost use Rattle.tp_audit.specs.Tables.{shown};
ghost use Rattle.tp_story_claims.specs.Fates as fated;

use tp_audit::named::{dropped_task, named_task};
use tp_audit::rows::row_at;
use tp_audit::tables::Tables;
use tp_record::entries::Did;
use tp_types::ids::TaskId;
use tp_types::states::Counts;
use tp_types::tasks::Fate;

/// How many tasks have each fate.
#[derive(Clone, Copy, Debug, PartialEq, Eq)]
pub struct Fates {
    /// Workers ran so many to their end.
    pub run: u64,
    /// Submitters ran so many to their end.
    pub caller: u64,
    /// So many were rejected.
    pub rejected: u64,
    /// So many were discarded.
    pub discarded: u64,
    /// A stop handed so many back.
    pub handedback: u64,
    /// So many were removed.
    pub removed: u64,
    /// So many were cancelled.
    pub cancelled: u64,
}

/// The fates of the tasks that an entry names: of the one whose row it changes, and of the queue's head that it drops.
#[derive(Clone, Copy, Debug, PartialEq, Eq)]
pub struct Named {
    /// The fate of the task whose row the entry changes.
    pub task: Option<Fate>,
    /// The fate of the dropped head.
    pub head: Option<Fate>,
}

/// The fate of a task, if there is one and it has a fate.
fn fate_at(tables: &Tables, task: Option<u32>) -> Option<Fate>
    ensures { result ≡ fated.fate_at (shown tables.now) task }
{
    match task {
        Some(t) => row_at(&tables.tasks, TaskId(t)).fate(),
        None => None,
    }
}

/// The fates of the tasks that an entry names.
pub fn named_in(tables: &Tables, did: Did) -> Named
    ensures { result ≡ fated.named_in (shown tables.now) did }
{
    Named {
        task: fate_at(tables, named_task(did)),
        head: fate_at(tables, dropped_task(did)),
    }
}

/// The fate that a task has which had none.
fn new_fate(before: Option<Fate>, after: Option<Fate>) -> Option<Fate>
    ensures { result ≡ fated.new_fate before after }
{
    match before {
        Some(_) => None,
        None => after,
    }
}

/// A count with one more, up to the greatest.
fn more(count: u64) -> u64
    ensures { result ≡ fated.more count }
{
    count.saturating_add(1)
}

impl Fates {
    /// No task.
    pub fn none() -> Fates
        ensures { result ≡ fated.none }
    {
        Fates {
            run: 0,
            caller: 0,
            rejected: 0,
            discarded: 0,
            handedback: 0,
            removed: 0,
            cancelled: 0,
        }
    }

    /// Those of the counters.
    pub fn of(counts: &Counts) -> Fates
        ensures { result ≡ fated.of counts.now }
    {
        Fates {
            run: u64::from(counts.run),
            caller: u64::from(counts.caller),
            rejected: u64::from(counts.rejected),
            discarded: u64::from(counts.discarded),
            handedback: u64::from(counts.handedback),
            removed: u64::from(counts.removed),
            cancelled: u64::from(counts.cancelled),
        }
    }

    /// With one task more that has this fate, if it has one.
    fn with(self, fate: Option<Fate>) -> Fates
        ensures { result ≡ fated.with_fate fate self }
    {
        match fate {
            None => self,
            Some(Fate::Run) => Fates {
                run: more(self.run),
                ..self
            },
            Some(Fate::RunByCaller) => Fates {
                caller: more(self.caller),
                ..self
            },
            Some(Fate::Rejected) => Fates {
                rejected: more(self.rejected),
                ..self
            },
            Some(Fate::Discarded) => Fates {
                discarded: more(self.discarded),
                ..self
            },
            Some(Fate::HandedBack) => Fates {
                handedback: more(self.handedback),
                ..self
            },
            Some(Fate::Removed) => Fates {
                removed: more(self.removed),
                ..self
            },
            Some(Fate::Cancelled) => Fates {
                cancelled: more(self.cancelled),
                ..self
            },
        }
    }

    /// After an entry by which the tasks that it names came from these fates to those.
    pub fn after(self, before: Named, after: Named) -> Fates
        ensures { result ≡ fated.after before after self }
    {
        self.with(new_fate(before.task, after.task))
            .with(new_fate(before.head, after.head))
    }
}
