//! A walk along the queue that changes nothing.

ghost use Rattle.std.specs.Prelude.{◌≡◌, ◌<◌, ◌^◌, count_by, length, if◌then◌else◌};
ghost use Rattle.tp_record.specs.State as states;
ghost use Rattle.tp_record.specs.Lists.{IsOnce};
ghost use Rattle.tp_audit.specs.Queued.{tasks_of};

use crate::queue::QueueTable;
use crate::tasks::cancelled_at;
use tp_record::rows::TaskRow;

/// How many cancelled tasks this is, 1 or 0.
fn cancelled_in(tasks: &Vec<TaskRow>, t: u32) -> u32
    ensures { result ≡ (if (states.row_at tasks.now.items t).cancelled then 1 else 0) }
{
    if cancelled_at(tasks, t) { 1 } else { 0 }
}

/// How many of the queued tasks are cancelled.
pub fn count_cancelled(tasks: &Vec<TaskRow>, queue: &QueueTable) -> u32
    requires once { IsOnce (tasks_of queue.now) }
    requires few { length (tasks_of queue.now) < 2 ^ 32 }
    ensures { result ≡ count_by (λ t. (states.row_at tasks.now.items t).cancelled) (tasks_of queue.now) }
{
    let mut count = 0;
    let mut next = queue.first();
    while let Some(t) = next {
        count += cancelled_in(tasks, t);
        next = queue.next_after(t);
    }
    count
}
