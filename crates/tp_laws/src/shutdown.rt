//! What holds once a pool is shut down, stopped, tidying or terminated.

ghost use Rattle.std.specs.Prelude.{List, ◌++◌, ◌∷◌};
ghost use Rattle.tp_laws.specs.Laws.{EndedOnce, NoIdleAfterShutdown, NoneIdling, NoSlotsAfterTidy, NothingBeginsAfterShutdown, OwedAfterTidy, QueuedLateNeverBegins, SecondLookOwedAfterStop, StoppedNeverBegins, TidyOnce};
ghost use Rattle.tp_record.specs.Step.{Legal};
ghost use Rattle.tp_record.specs.declared.entries.Entry.{Entry};
ghost use Rattle.tp_types.specs.declared.configs.Config.{Config};

/// A task that is submitted once the pool is shut down or stopped never begins, at a worker or at its
/// caller: new tasks are refused by an executor that has been shut down, and `CallerRunsPolicy`
/// discards them then.
pub fn nothing_begins_after_shutdown()
    ensures { (c : Config) (later h : List Entry) → Legal c (later ++ h) → NothingBeginsAfterShutdown later h }
{}

/// A task that a `stop` finds in the queue never begins, nor does one that is put in the queue of a
/// pool that is stopped: `shutdownNow` halts the processing of waiting tasks, also of those whose
/// submitters looked at the run state before it and come to the queue after it.
pub fn nothing_begins_after_stop()
    ensures waiting { (c : Config) (later : List Entry) (e : Entry) (h : List Entry) → Legal c (later ++ e ∷ h) → StoppedNeverBegins later e h }
    ensures late { (c : Config) (later : List Entry) (e : Entry) (h : List Entry) → Legal c (later ++ e ∷ h) → QueuedLateNeverBegins later e h }
{}

/// No worker is idle once the pool is shut down or stopped, and no task is handed to one: each that
/// waited was woken, and looks at the run state again, as `shutdown` interrupts the idle workers. So
/// none sleeps on while the pool could terminate.
pub fn no_idle_after_shutdown()
    ensures since { (c : Config) (h : List Entry) → Legal c h → NoIdleAfterShutdown h }
    ensures idling { (c : Config) (h : List Entry) → Legal c h → NoneIdling c h }
{}

/// The pool goes on to its terminated hook at most once, as `tryTerminate` lets one thread alone pass
/// to `terminated`.
pub fn tidy_once()
    ensures { (c : Config) (h : List Entry) → Legal c h → TidyOnce h }
{}

/// The terminated hook has run at most once, so those who wait in `awaitTermination` are let go by one
/// step and for good.
pub fn ended_once()
    ensures { (c : Config) (h : List Entry) → Legal c h → EndedOnce h }
{}

/// No slot is reserved or live in any front after a `tidy`: where the terminated hook runs and where
/// `isTerminated` answers true, no worker is left and none comes.
pub fn no_slots_after_tidy()
    ensures { (c : Config) (later : List Entry) (e : Entry) (h : List Entry) → Legal c (later ++ e ∷ h) → NoSlotsAfterTidy later e h }
{}

/// Each task in the queue of a stopped pool owes its second look, at which its submitter takes it back:
/// so what was put there after `shutdownNow` drained the queue is not forgotten there. This is why
/// `execute` looks at the run state again after a task was queued.
pub fn second_look_owed_after_stop()
    ensures { (c : Config) (h : List Entry) → Legal c h → SecondLookOwedAfterStop h }
{}

/// Once the pool is tidying, each task that is not gone is with its submitter, at its caller or in the
/// queue, so that its own submitter still owes it a step: no task waits for a worker that will not
/// come.
pub fn owed_after_tidy()
    ensures { (c : Config) (h : List Entry) → Legal c h → OwedAfterTidy h }
{}
