//! Where a task is, and how often it begins and is finished.

ghost use Rattle.std.specs.Prelude.{List};
ghost use Rattle.tp_laws.specs.Laws.{BeginsOnce, FinishesOnce, OnePlace, OneTaskASlot};
ghost use Rattle.tp_record.specs.Step.{Legal};
ghost use Rattle.tp_record.specs.declared.entries.Entry.{Entry};
ghost use Rattle.tp_types.specs.declared.configs.Config.{Config};

/// Each submitted task is in exactly one place: with its submitter, in the queue, in a slot, at its
/// caller, or gone. So none is lost and none is in two hands, whichever steps of other callers and
/// workers fall between its own: not between `execute` and the queue, nor between the queue and a
/// worker, nor with a thread that the factory could not make.
pub fn one_place()
    ensures { (c : Config) (h : List Entry) → Legal c h → OnePlace h }
{}

/// At most one entry begins a task: no job is run twice, by two workers or by a worker and its caller,
/// as it would be where `CallerRunsPolicy` ran a task that the queue had kept.
pub fn begins_once()
    ensures { (c : Config) (h : List Entry) → Legal c h → BeginsOnce h }
{}

/// At most one entry finishes a task: it ends, is skipped, removed, purged, handed back, rejected or
/// discarded once, so `shutdownNow` hands back no task that `remove` also removed or a worker ran.
pub fn finishes_once()
    ensures { (c : Config) (h : List Entry) → Legal c h → FinishesOnce h }
{}

/// Where a task is in a slot, the slot is reserved or live, and no other task is in it: a worker has
/// at most one task at a time, and a task's worker is there as long as the task is.
pub fn one_task_a_slot()
    ensures { (c : Config) (h : List Entry) → Legal c h → OneTaskASlot h }
{}
