//! What the futures of tasks answer.

ghost use Rattle.std.specs.Prelude.{◌≡◌, ◌≤◌, length, reverse};
ghost use Rattle.tp_record.specs.Fields as fields;
ghost use Rattle.tp_record.specs.State.{result_of};

use crate::tasks::task_row;
use tp_record::entries::Entry;
use tp_types::ids::TaskId;
use tp_types::refusals::PoolError;

/// What the future of task `t` answers: None while the task is open, else its value, or the refusal that says why there
/// is none. `Future.get`.
pub fn result(entries: &[Entry], t: TaskId) -> Option<Result<i64, PoolError>>
    requires { length entries.now ≤ 1048576 }
    ensures { result ≡ result_of (fields.task_row (reverse entries.now) t.0) }
{
    task_row(entries, t).result()
}
