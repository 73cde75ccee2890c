//! Laws of entries' lines and of record texts.
ghost use Rattle.std.specs.Prelude.{◌≡◌, ℕ, List, reverse};
ghost use Rattle.std.specs.List.{AllByRecursion};
ghost use Rattle.tp_types.specs.Config.{IsConfig};
ghost use Rattle.tp_types.specs.declared.configs.Config.{Config};
ghost use Rattle.tp_record.specs.declared.entries.Entry.{Entry};
ghost use Rattle.tp_record.specs.Step.{Legal};
ghost use Rattle.tp_text.specs.EntryLine.{entry_line};
ghost use Rattle.tp_text.specs.Fits.{Fits32, Fits64};
ghost use Rattle.tp_text_record.specs.declared.versions.Version.{Version};
ghost use Rattle.tp_text_record.specs.EntryFits.{HasLine, IsInRange};
ghost use Rattle.tp_text_record.specs.RecordText.{HasText, record_text};

/// The law that no two entries share a line, and no two records a text: entries of one line, in the
/// range of their types, are one entry with one number; and records of one text have it in one form, and
/// are one configuration with one list of entries.
pub fn texts_are_distinct()
    ensures entries { (n m : ℕ) (e f : Entry) → Fits32 n → Fits32 m → HasLine e → HasLine f
        → entry_line n e ≡ entry_line m f → (n ≡ m) × (e ≡ f) }
    ensures records { (v w : Version) (c d : Config) (es fs : List Entry) → HasText v c es → HasText w d fs
        → record_text v c es ≡ record_text w d fs → (v ≡ w) × (c ≡ d) × (es ≡ fs) }
{}

/// The law that a legal record has a text in the second form: each of its entries has its line, so what is
/// written of it is read as that record and as no other (`texts_are_distinct`). Its premise is that the numbers are in the
/// range of their types: the rules bound no pass number, group, value, moment, keep-alive or slot number. What Rust's types keep is
/// in range, so the text of a closed pool's record is read again as that record.
pub fn legal_has_text()
    ensures { (c : Config) (es : List Entry) → IsConfig c → Fits64 c.keep → Legal c (reverse es)
        → AllByRecursion IsInRange es → HasText Version.Two c es }
{}
