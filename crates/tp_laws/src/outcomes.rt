//! Fates.

ghost use Rattle.std.specs.Prelude.{List, ◌++◌};
ghost use Rattle.tp_laws.specs.Laws.{FateNeverChanges, FatedIsGone, FatesAreDisjoint, GoneHasFate, NumberedInOrder, SubmissionsAddUp};
ghost use Rattle.tp_record.specs.Step.{Legal};
ghost use Rattle.tp_record.specs.declared.entries.Entry.{Entry};
ghost use Rattle.tp_types.specs.declared.configs.Config.{Config};

/// A task has at most one fate: none is counted as both removed and cancelled, or both run and handed
/// back.
pub fn fates_are_disjoint()
    ensures { (c : Config) (h : List Entry) → Legal c h → FatesAreDisjoint h }
{}

/// A fate that a front of the record gives is given by every longer one: a cancel that comes after a
/// task has run has no effect, and a task that was cancelled while it ran stays cancelled, as the
/// first final state of a `FutureTask` is its last.
pub fn fate_never_changes()
    ensures { (c : Config) (later h : List Entry) → Legal c (later ++ h) → FateNeverChanges later h }
{}

/// A task that is gone has a fate, and a task with another fate than cancelled is gone: none vanishes
/// without an account of it, and none is told that it ended while it may still run. A task that was
/// cancelled may run on, or wait in the queue until a worker skips it, as a `FutureTask` does.
pub fn gone_has_fate()
    ensures gone { (c : Config) (h : List Entry) → Legal c h → GoneHasFate h }
    ensures fated { (c : Config) (h : List Entry) → Legal c h → FatedIsGone h }
{}

/// Submissions are numbered from 0 in their order, and are the tasks of the seven fates and the open
/// ones together: the counters account for each task once, and none is lost from them.
pub fn submissions_add_up()
    ensures numbered { (c : Config) (h : List Entry) → Legal c h → NumberedInOrder h }
    ensures sum { (c : Config) (h : List Entry) → Legal c h → SubmissionsAddUp h }
{}
