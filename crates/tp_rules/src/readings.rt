//! What the rules of steps read of a pool, wherever it is kept: a plain state, an auditor's tables, or the structures of a pool
//! that runs. As programs these rules stand once, over this trait.

ghost use Rattle.std.specs.Prelude.{◌≡◌, true, false, Some, IfOk, IfErr, None};
ghost use Rattle.tp_record.specs.State as states;
ghost use Rattle.tp_record.specs.State.{State};
ghost use Rattle.tp_record.specs.Step as steps;

use std::alloc::Global;
use tp_record::entries::Did;
use tp_record::rows::{SlotRow, TaskRow};
use tp_types::configs::{Config, Verdict};
use tp_types::ids::{SlotId, TaskId};
use tp_types::refusals::PoolError;
use tp_types::tasks::Place;

/// What is read of a pool at one moment.
pub trait Readings {
    ghost use Rattle.std.specs.Prelude.{◌≡◌, false, length, slice_get};
    ghost use Rattle.tp_record.specs.State as states;
    ghost use Rattle.tp_record.specs.Step as steps;
    ghost use Rattle.tp_rules.specs.Answers.{known_row};

    /// That this state is read. It may be one of several: a pool may have forgotten tasks that are gone.
    ghost shows: { Self → states.State → Type 0 };

    /// The run state's rank.
    fn rank(&self) -> u8
        ensures { (s : states.State) → shows self.now s → result ≡ s.rank };

    /// The core size in workers.
    fn core(&self) -> u32
        ensures { (s : states.State) → shows self.now s → result ≡ s.core };

    /// The maximum size in workers.
    fn maximum(&self) -> u32
        ensures { (s : states.State) → shows self.now s → result ≡ s.maximum };

    /// The keep-alive in ticks.
    fn keep(&self) -> u64
        ensures { (s : states.State) → shows self.now s → result ≡ s.keep };

    /// Whether core workers time out.
    fn core_timeout(&self) -> bool
        ensures { (s : states.State) → shows self.now s → result ≡ s.core_timeout };

    /// The moment in ticks.
    fn moment(&self) -> u64
        ensures { (s : states.State) → shows self.now s → result ≡ s.now };

    /// How many tasks were submitted.
    fn submitted(&self) -> usize
        ensures { (s : states.State) → shows self.now s → result ≡ length s.tasks };

    /// The row of task `t`, None where it is not known. Such a task is gone.
    fn task(&self, t: TaskId) -> Option<TaskRow>
        ensures row { (s : states.State) → shows self.now s → result ≡ known_row s t.0 }
        ensures gone { (s : states.State) → shows self.now s → steps.is_known s t.0 ≡ false → (states.task_at s t.0).place ≡ Place.Gone };

    /// Slot `w`, None where it is no slot.
    fn slot(&self, w: SlotId) -> Option<SlotRow>
        ensures { (s : states.State) → shows self.now s → result ≡ states.slot_at s.slots w.0 };

    /// Reserved and live slots together.
    fn slot_count(&self) -> usize
        ensures { (s : states.State) → shows self.now s → result ≡ steps.slot_count s };

    /// How many tasks wait in the queue.
    fn queued(&self) -> usize
        ensures { (s : states.State) → shows self.now s → result ≡ length s.queue };

    /// The queue's head.
    fn head(&self) -> Option<u32>
        ensures { (s : states.State) → shows self.now s → result ≡ slice_get s.queue 0 };

    /// The slot that is idle longest.
    fn longest_idle(&self) -> Option<usize>
        ensures { (s : states.State) → shows self.now s → result ≡ slice_get s.idling 0 };

    /// The group's first completed task that is not handed out.
    fn first_done(&self, group: u32) -> Option<u32>
        ensures { (s : states.State) → shows self.now s → result ≡ slice_get (steps.done_of s group) 0 };
}

/// What is read beside that of a pool whose record is judged: what goes through its queue, and the room after a retry.
pub trait FullReadings: Readings {
    ghost use Rattle.std.specs.Prelude.{◌≡◌, ◌≤◌, count_by, length, IfOk, IsOkUnless, OnErr};
    ghost use Rattle.tp_record.specs.State as states;
    ghost use Rattle.tp_record.specs.Step as steps;
    ghost use Rattle.tp_rules.specs.Answers.{MayTry};
    ghost use Rattle.tp_types.specs.declared.configs.Config.{Config as Settings};

    /// It is as the entries of a pool that was made with these settings left it, as far as the readings rest on that.
    ghost stands: { Self → Settings → Type 0 };

    /// A reading may lack memory.
    ghost lacks: { Type 0 };

    /// How many tasks wait in the queue, as an entry says it.
    fn waiting(&self, config: &Config) -> u32
        requires { stands self.now config.now }
        ensures { (s : states.State) → Self.shows self.now s → result ≡ length s.queue };

    /// How many of the queued tasks are cancelled.
    fn cancelled_count(&self, config: &Config) -> u32
        requires { stands self.now config.now }
        ensures { (s : states.State) → Self.shows self.now s → result ≡ count_by (λ t. (states.task_at s t).cancelled) s.queue };

    /// Whether a refused task of a pool that runs may retry: whether the room that is left then is at least what is owed
    /// then. A retry is refused after 64 of them.
    fn may_retry(&self, alloc: Global, config: &Config, t: TaskId) -> Result<bool, PoolError>
        requires stands { stands self.now config.now }
        requires may { (s : states.State) → Self.shows self.now s → MayTry s t.0 }
        ensures leaves { IfOk result (λ b. (s : states.State) → Self.shows self.now s → b ≡ steps.leaves_room config.now s
            (Did.Verdict t Verdict.DiscardOldest (steps.retry_of s.queue))) }
        ensures memory { IsOkUnless result PoolError.NoMemory }
        ensures lacks { OnErr result lacks };
}

/// The row of task `t`. UnknownTask (6) where it is not known.
#[inline(always)]
pub fn known<S: Readings>(state: &S, t: TaskId) -> Result<TaskRow, PoolError>
    ensures row { IfOk result (λ r. (s : State) → S.shows state.now s → (steps.is_known s t.0 ≡ true) × (states.task_at s t.0 ≡ r)) }
    ensures unknown { IfErr result (λ e. (s : State) → S.shows state.now s → (steps.is_known s t.0 ≡ false) × (e ≡ PoolError.UnknownTask)) }
{
    match state.task(t) {
        Some(row) => Ok(row),
        None => Err(PoolError::UnknownTask),
    }
}

/// The row of slot `v`. UnknownSlot (7) where it is no slot.
#[inline(always)]
pub fn seated<S: Readings>(state: &S, v: SlotId) -> Result<SlotRow, PoolError>
    ensures row { IfOk result (λ r. (s : State) → S.shows state.now s → states.slot_at s.slots v.0 ≡ Some r) }
    ensures unknown { IfErr result (λ e. (s : State) → S.shows state.now s → (states.slot_at s.slots v.0 ≡ None) × (e ≡ PoolError.UnknownSlot)) }
{
    match state.slot(v) {
        Some(row) => Ok(row),
        None => Err(PoolError::UnknownSlot),
    }
}

/// Whether the pool wants a worker for the work that is left: while it runs, and while it is shut down with tasks in its
/// queue, as `addWorker` and `processWorkerExit` have it.
#[inline(always)]
pub fn wants_worker<S: Readings>(state: &S) -> bool
    ensures { (s : State) → S.shows state.now s → result ≡ steps.wants_worker s }
{
    state.rank() == 0 || (state.rank() == 1 && state.queued() > 0)
}
