//! The law of payloads.
ghost use Rattle.std.specs.Prelude.{ℕ, ◌≡◌, ◌⊎◌, List, Some};
ghost use Rattle.tp_machine.specs.Seen.{payload};
ghost use Rattle.tp_book.specs.BookView.{BookView};
ghost use Rattle.tp_book.specs.Carried.{Made, MakesAll, SubmitNone, HandOutOf};

/// A payload lasts: after any steps of its book it lies under its task's number as it came, or one of them has handed
/// it out for that task. So what comes back under a number is what was submitted under it.
pub fn payload_lasts<P>()
    ensures { (t : ℕ) (k : P) (ms : List (Made P)) (old new : BookView P) → MakesAll ms old new → SubmitNone t ms → payload old.machine t ≡ Some k
        → (payload new.machine t ≡ Some k) ⊎ HandOutOf t k ms }
{}
