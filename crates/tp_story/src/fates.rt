//! How many tasks of each kind have each fate.

ghost use Rattle.std.specs.Prelude.{◌≡◌, ◌&&◌, count_by};
ghost use Rattle.tp_record.specs.State as states;
ghost use Rattle.tp_story.specs.Sorts as sorts;

use tp_record::rows::TaskRow;
use tp_rules::counts::is_fate;
use tp_types::tasks::{Fate, Kind};

/// What kind of task, without the group's number.
#[derive(Clone, Copy, Debug, PartialEq, Eq)]
pub enum Sort {
    /// A plain task.
    Plain,
    /// A future of no group.
    Future,
    /// A future of some group.
    Group,
}

/// Whether a kind is of this sort.
fn is_of(sort: Sort, kind: Kind) -> bool
    ensures { result ≡ sorts.is_of sort kind }
{
    match kind {
        Kind::Plain => sort == Sort::Plain,
        Kind::Future => sort == Sort::Future,
        Kind::Group(_) => sort == Sort::Group,
    }
}

/// Whether a task has this fate; None where it is to have none yet.
fn has_fate(fate: Option<Fate>, row: &TaskRow) -> bool
    ensures { result ≡ sorts.has_fate fate (states.fate_of row.now) }
{
    match fate {
        Some(fate) => is_fate(fate, row.fate()),
        None => row.fate().is_none(),
    }
}

/// How many tasks of this sort have this fate, or are open.
pub fn count_fated(sort: Sort, fate: Option<Fate>, tasks: &[TaskRow]) -> usize
    ensures { result ≡ count_by (λ row. sorts.is_of sort row.kind && sorts.has_fate fate (states.fate_of row)) tasks.now }
{
    let mut count = 0usize;
    for row in tasks {
        if is_of(sort, row.kind) && has_fate(fate, row) {
            count += 1;
        }
    }
    count
}
