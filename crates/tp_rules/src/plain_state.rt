//! All that the entries say of a pool at their end.

ghost use Rattle.std.specs.Prelude.{◌≡◌, count_by, slice_get};
ghost use Rattle.tp_record.specs.State as states;
ghost use Rattle.tp_record.specs.Step as steps;
ghost use Rattle.tp_rules.specs.PlainState.{shown, IsSmall};

use crate::next::{slot_of, task_at};
use crate::readings::{FullReadings, Readings};
use crate::step::leaves_room;
use crate::submitters::retry_of;
use std::alloc::Global;
use tp_record::entries::Did;
use tp_record::rows::{SlotRow, TaskRow};
use tp_types::configs::{Config, Verdict};
use tp_types::ids::{SlotId, TaskId};
use tp_types::refusals::PoolError;
use tp_types::tasks::Kind;

/// What the steps read of a pool, by number where it is of tasks or slots.
#[derive(Debug, Drop)]
pub struct PlainState {
    /// The number of entries.
    pub steps: u32,
    /// The run state's rank.
    pub rank: u8,
    /// The core size in workers.
    pub core: u32,
    /// The maximum size in workers.
    pub maximum: u32,
    /// The keep-alive in ticks.
    pub keep: u64,
    /// Whether core workers time out.
    pub core_timeout: bool,
    /// The moment in ticks.
    pub moment: u64,
    /// The submitted tasks by number.
    pub tasks: Vec<TaskRow>,
    /// Whether the queue goes by priority.
    pub ranked: bool,
    /// The tasks in the work queue, its head first.
    pub queue: Vec<u32>,
    /// The slots by number.
    pub slots: Vec<Option<SlotRow>>,
    /// The idle slots, the one that is idle longest first.
    pub idling: Vec<usize>,
    /// The completed tasks of groups that are not yet handed out, in the order of their completion.
    pub done: Vec<u32>,
    /// The number of bodies that workers ended and of cancelled tasks that they skipped.
    pub completions: u32,
    /// The greatest number of live slots so far.
    pub largest: u32,
}

/// Reserved and live slots together.
fn count_slots(state: &PlainState) -> usize
    ensures { result ≡ steps.slot_count (shown state.now) }
{
    let mut count = 0;
    for slot in &state.slots {
        if slot.is_some() {
            count += 1;
        }
    }
    count
}

/// Whether a kind is that of this group.
fn is_of_group(group: u32, kind: Kind) -> bool
    ensures { result ≡ steps.is_of_group group kind }
{
    match kind {
        Kind::Group(number) => number == group,
        _ => false,
    }
}

/// The first task of this group among the completed ones.
fn first_of_group(state: &PlainState, group: u32) -> Option<u32>
    ensures { result ≡ slice_get (steps.done_of (shown state.now) group) 0 }
{
    for t in &state.done {
        if is_of_group(group, task_at(state, TaskId(*t)).kind) {
            return Some(*t);
        }
    }
    None
}

/// How many of the queued tasks are cancelled.
fn count_cancelled(state: &PlainState) -> u32
    requires { IsSmall 1048576 (shown state.now) }
    ensures { result ≡ count_by (λ t. (states.task_at (shown state.now) t).cancelled) state.now.queue.items }
{
    let mut count = 0;
    for t in &state.queue {
        if task_at(state, TaskId(*t)).cancelled {
            count += 1;
        }
    }
    count
}

impl Readings for PlainState {
    ghost use Rattle.tp_rules.specs.PlainState.{shown as state_shown};

    ghost shows = { λ n s. state_shown n ≡ s };

    fn rank(&self) -> u8 {
        self.rank
    }

    fn core(&self) -> u32 {
        self.core
    }

    fn maximum(&self) -> u32 {
        self.maximum
    }

    fn keep(&self) -> u64 {
        self.keep
    }

    fn core_timeout(&self) -> bool {
        self.core_timeout
    }

    fn moment(&self) -> u64 {
        self.moment
    }

    fn submitted(&self) -> usize {
        self.tasks.len()
    }

    fn task(&self, t: TaskId) -> Option<TaskRow> {
        if (t.0 as usize) < self.tasks.len() {
            Some(task_at(self, t))
        } else {
            None
        }
    }

    fn slot(&self, w: SlotId) -> Option<SlotRow> {
        slot_of(self, w)
    }

    fn slot_count(&self) -> usize {
        count_slots(self)
    }

    fn queued(&self) -> usize {
        self.queue.len()
    }

    fn head(&self) -> Option<u32> {
        self.queue.first().copied()
    }

    fn longest_idle(&self) -> Option<usize> {
        self.idling.first().copied()
    }

    fn first_done(&self, group: u32) -> Option<u32> {
        first_of_group(self, group)
    }
}

impl FullReadings for PlainState {
    ghost use Rattle.std.specs.Prelude.{⊤};
    ghost use Rattle.tp_rules.specs.PlainState.{shown as state_shown, IsSmall};

    ghost stands = { λ n c. IsSmall 1048576 (state_shown n) };

    ghost lacks = { ⊤ };

    fn waiting(&self, _config: &Config) -> u32 {
        self.queue.len() as u32
    }

    fn cancelled_count(&self, _config: &Config) -> u32 {
        count_cancelled(self)
    }

    fn may_retry(&self, alloc: Global, config: &Config, t: TaskId) -> Result<bool, PoolError> {
        let retry = Did::Verdict(
            t,
            Verdict::DiscardOldest,
            retry_of(self.queue.first().copied()),
        );
        leaves_room(alloc, config, self, retry)
    }
}
