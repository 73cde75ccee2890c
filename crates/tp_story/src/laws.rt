//! What the times say of a record.

ghost use Rattle.std.specs.Prelude.{ℕ, ◌≡◌, List, Some};
ghost use Rattle.tp_types.specs.declared.configs.Config.{Config};
ghost use Rattle.tp_record.specs.declared.entries.Entry.{Entry as Told};
ghost use Rattle.tp_record.specs.Step.{Legal};
ghost use Rattle.tp_story.specs.declared.times.Since.{Since};
ghost use Rattle.tp_story.specs.Since.{StaysSince, task_since};

/// In a legal record, a task that is not gone is where it is since the last entry that moved it: it is there at each front from
/// that entry on.
pub fn law_stays()
    ensures { (c : Config) (h : List Told) (t : ℕ) (s : Since) → Legal c h → task_since h t ≡ Some s → StaysSince h t s }
{}
