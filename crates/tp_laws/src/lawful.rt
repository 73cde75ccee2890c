//! All laws together.

ghost use Rattle.std.specs.Prelude.{List};
ghost use Rattle.tp_laws.specs.Lawful.{IsLawful};
ghost use Rattle.tp_laws.specs.Laws.{HasGoodSizes};
ghost use Rattle.tp_record.specs.Step.{Legal};
ghost use Rattle.tp_record.specs.declared.entries.Entry.{Entry};
ghost use Rattle.tp_types.specs.declared.configs.Config.{Config};

/// All laws hold at each front of each legal record: for every interleaving of submitters', workers'
/// and controllers' steps, each submitted task is in exactly one place, begins at most once and has at
/// most one fate; queued tasks leave in queue order; nothing that is submitted after a shutdown, and
/// nothing that is queued at or after a stop, begins; submissions add up; and more, a field for each
/// law.
pub fn law_legal_is_lawful()
    ensures { (c : Config) (h : List Entry) → HasGoodSizes c → Legal c h → IsLawful c h }
{}
