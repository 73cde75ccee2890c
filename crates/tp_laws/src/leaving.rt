//! What leaving out tasks changes, and what it does not.

ghost use Rattle.std.specs.Prelude.{◌≡◌, ◌∷◌, List, ℕ, true, false, Ok, Err};
ghost use Rattle.tp_types.specs.declared.configs.Config.{Config};
ghost use Rattle.tp_types.specs.declared.refusals.PoolError.TheVariants.{UnknownTask};
ghost use Rattle.tp_record.specs.declared.entries.Ask.{Ask};
ghost use Rattle.tp_record.specs.declared.entries.Did.{Did};
ghost use Rattle.tp_record.specs.declared.entries.Entry.{Entry};
ghost use Rattle.tp_record.specs.State.{State, state, next, counts, due};
ghost use Rattle.tp_record.specs.Step.{step, Legal};
ghost use Rattle.tp_record.specs.Left.{left, mark, MayRelease, MayAll, asked, is_one_of};

/// The step answers as ever where tasks are left out that are gone and owe nothing, unless the ask names one of them. Then the
/// task is unknown (6), as one that was never submitted: a pool that keeps nothing of a task can't tell the two apart, but by
/// the number of submissions. A task that is not gone, owes a second look, or has a completion that waits may not be left out:
/// the next answers could tell.
pub fn left_out_is_not_missed()
    ensures step { (c : Config) (h : List Entry) (rs : List ℕ) (w : ℕ) (a : Ask) → Legal c h → MayAll rs (state c h) →
        is_one_of (asked a) rs ≡ false → step c (left rs (state c h)) w a ≡ step c (state c h) w a }
    ensures unknown { (c : Config) (h : List Entry) (rs : List ℕ) (w : ℕ) (a : Ask) →
        is_one_of (asked a) rs ≡ true → step c (left rs (state c h)) w a ≡ Err UnknownTask }
{}

/// An entry leads on alike: the next state without these tasks is the next of the state without them. And they may still be
/// released.
pub fn left_out_stays_so()
    ensures next { (c : Config) (h : List Entry) (rs : List ℕ) (w : ℕ) (a : Ask) (d : Did) → Legal c h → MayAll rs (state c h) →
        is_one_of (asked a) rs ≡ false → step c (state c h) w a ≡ Ok d → next (left rs (state c h)) d ≡ left rs (next (state c h) d) }
    ensures may { (c : Config) (h : List Entry) (rs : List ℕ) (w : ℕ) (a : Ask) (d : Did) → Legal c h → MayAll rs (state c h) →
        is_one_of (asked a) rs ≡ false → step c (state c h) w a ≡ Ok d → MayAll rs (next (state c h) d) }
{}

/// Neither the counters nor what is owed tell that tasks are left out: a counter never falls.
pub fn left_out_is_counted()
    ensures counts { (c : Config) (h : List Entry) (rs : List ℕ) → Legal c h → MayAll rs (state c h) → counts (left rs (state c h)) ≡ counts (state c h) }
    ensures due { (c : Config) (h : List Entry) (rs : List ℕ) → Legal c h → MayAll rs (state c h) → due (left rs (state c h)) ≡ due (state c h) }
{}

/// One task more may be left out exactly where it may be released in what is left.
pub fn one_more_is_left_out()
    ensures more { (c : Config) (h : List Entry) (rs : List ℕ) (t : ℕ) → Legal c h → MayAll rs (state c h) →
        MayRelease (left rs (state c h)) t → MayAll (t ∷ rs) (state c h) }
    ensures back { (c : Config) (h : List Entry) (rs : List ℕ) (t : ℕ) → Legal c h → MayAll (t ∷ rs) (state c h) →
        MayRelease (left rs (state c h)) t × MayAll rs (state c h) }
{}

/// Whether the rows of the tasks that are left out are blank or whole, the step answers alike, whatever the ask names. So the
/// proofs of steps may speak of the whole state, on which these tasks are only marked. The next state of that one computes, and
/// of a state with blank rows it does not.
pub fn blank_rows_tell_as_much()
    ensures { (c : Config) (h : List Entry) (rs : List ℕ) (w : ℕ) (a : Ask) → Legal c h → MayAll rs (state c h) →
        step c (mark rs (state c h)) w a ≡ step c (left rs (state c h)) w a }
{}
