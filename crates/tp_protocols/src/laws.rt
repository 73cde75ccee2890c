//! Laws of fronts and paths.
ghost use Rattle.std.specs.Prelude.{ℕ, ◌≡◌, List, [], ◌∷◌, ◌++◌, IsTrue};
ghost use Rattle.tp_record.specs.declared.entries.Entry.{Entry};
ghost use Rattle.tp_record.specs.Paths.{Follow, Ends, Admission, IsPath, follows};
ghost use Rattle.tp_protocols.specs.Fronts.{is_submit_of, goes, IsFront};

/// A front of a path goes on by the next entry, and one that has come to an end is a path. So is no
/// other.
pub fn law_fronts_are_paths()
    ensures begins { (t : ℕ) (e : Entry) → IsTrue (is_submit_of t e.did) → IsFront t (e ∷ []) (follows t e.did) }
    ensures goes_on { (t : ℕ) (es : List Entry) (f : Follow) (e : Entry) → IsFront t es f → IsFront t (es ++ e ∷ []) (goes t f e.did) }
    ensures ends { (t : ℕ) (es : List Entry) (a : Admission) → IsFront t es (Ends a) → IsPath t es a }
    ensures whole { (t : ℕ) (es : List Entry) (a : Admission) → IsPath t es a → IsFront t es (Ends a) }
{}
