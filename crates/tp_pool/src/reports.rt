//! What a closed pool's report says of its tasks.
ghost use Rattle.std.specs.Prelude.{◌≡◌, All, Any, count_by, IfSome, IfNone};
ghost use Rattle.tp_pool.specs.Outcomes.{Gives, GivesNone, is_fault};

use crate::closing::Report;
use tp_record::entries::Did;
use tp_record::packed::Packed;
use tp_types::ids::TaskId;
use tp_types::tasks::Outcome;

/// The outcome with which this task's body ended, by the record: None where it did not end.
pub fn outcome_of(report: &Report, t: TaskId) -> Option<Outcome>
    ensures some { IfSome result (λ o. Any (Gives t.0 o) report.now.entries.items) }
    ensures none { IfNone result (All (GivesNone t.0) report.now.entries.items) }
{
    for packed in &report.entries {
        if let Some(outcome) = given(packed, t) {
            return Some(outcome);
        }
    }
    None
}

// The outcome that an entry gives this task, if it gives one.
fn given(packed: &Packed, t: TaskId) -> Option<Outcome>
    ensures some { IfSome result (λ o. Gives t.0 o packed.now) }
    ensures none { IfNone result (GivesNone t.0 packed.now) }
{
    match packed.unpack().did {
        Did::End(_, task, outcome) if task == t => Some(outcome),
        Did::CallerEnd(task, outcome) if task == t => Some(outcome),
        _ => None,
    }
}

/// How many tasks answered a fault, by the record. None of the twelve counters says so.
pub fn faulted(report: &Report) -> usize
    ensures { result ≡ count_by is_fault report.now.entries.items }
{
    let mut faults = 0;
    for packed in &report.entries {
        if says_fault(packed) {
            faults += 1;
        }
    }
    faults
}

// Whether a body ended with a fault by this entry.
fn says_fault(packed: &Packed) -> bool
    ensures { result ≡ is_fault packed.now }
{
    matches!(
        packed.unpack().did,
        Did::End(_, _, Err(_)) | Did::CallerEnd(_, Err(_))
    )
}
