//! What the entries say of the pool as a whole.

ghost use Rattle.std.specs.Prelude.{◌≡◌, ◌≤◌, length, reverse};
ghost use Rattle.tp_record.specs.Fields as fields;
ghost use Rattle.tp_record.specs.Effects.{sets_core, sets_maximum, sets_keep, sets_core_timeout};

use crate::effects::{
    core_said, core_timeout_said, is_completion, is_submit, keep_said, maximum_said, now_said,
    reaches,
};
use tp_record::entries::Entry;

/// The run state's rank: 0 running, 1 shutdown, 2 stop, 3 tidying, 4 terminated.
pub fn rank(entries: &[Entry]) -> u8
    ensures { result ≡ fields.rank (reverse entries.now) }
{
    let mut rank = 0;
    for entry in entries {
        rank = reaches(entry.did).max(rank);
    }
    rank
}

/// The core size, which began as `first`.
pub fn core(entries: &[Entry], first: u32) -> u32
    ensures { result ≡ fields.last_set sets_core first (reverse entries.now) }
{
    let mut core = first;
    for entry in entries {
        core = core_said(entry.did).unwrap_or(core);
    }
    core
}

/// The maximum size, which began as `first`.
pub fn maximum(entries: &[Entry], first: u32) -> u32
    ensures { result ≡ fields.last_set sets_maximum first (reverse entries.now) }
{
    let mut maximum = first;
    for entry in entries {
        maximum = maximum_said(entry.did).unwrap_or(maximum);
    }
    maximum
}

/// The keep-alive in ticks, which began as `first`.
pub fn keep(entries: &[Entry], first: u64) -> u64
    ensures { result ≡ fields.last_set sets_keep first (reverse entries.now) }
{
    let mut keep = first;
    for entry in entries {
        keep = keep_said(entry.did).unwrap_or(keep);
    }
    keep
}

/// Whether core workers time out, which began as `first`.
pub fn core_timeout(entries: &[Entry], first: bool) -> bool
    ensures { result ≡ fields.last_set sets_core_timeout first (reverse entries.now) }
{
    let mut on = first;
    for entry in entries {
        on = core_timeout_said(entry.did).unwrap_or(on);
    }
    on
}

/// The moment, in ticks.
pub fn moment(entries: &[Entry]) -> u64
    ensures { result ≡ fields.now (reverse entries.now) }
{
    let mut moment = 0;
    for entry in entries {
        moment = now_said(entry.did).unwrap_or(moment);
    }
    moment
}

/// The number of submissions.
pub fn submitted(entries: &[Entry]) -> u32
    requires { length entries.now ≤ 1048576 }
    ensures number { result ≡ fields.submitted (reverse entries.now) }
    ensures bound { result ≤ length entries.now }
{
    let mut submitted = 0;
    for entry in entries {
        if is_submit(entry.did) {
            submitted += 1;
        }
    }
    submitted
}

/// The number of bodies that workers ended and of cancelled tasks that they skipped.
pub fn completions(entries: &[Entry]) -> u32
    requires { length entries.now ≤ 1048576 }
    ensures number { result ≡ fields.completions (reverse entries.now) }
    ensures bound { result ≤ length entries.now }
{
    let mut completions = 0;
    for entry in entries {
        if is_completion(entry.did) {
            completions += 1;
        }
    }
    completions
}
