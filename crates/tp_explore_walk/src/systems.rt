//! What a walk goes over.
ghost use Rattle.std.specs.Prelude.{ℕ, ◌≡◌, ◌<◌, ◌↔◌, List, true, IfOk, map, Contains};

use std::alloc::{AllocError, Global};
use std::hash::Hash;

/// A finite system of moves, in which nothing goes in a circle.
pub trait System {
    /// What a state is, however it is kept.
    ghost Seen: { Type 0 };

    /// A state as it is kept.
    type State: Eq + Hash + Drop;

    /// What a kept state stands for.
    ghost seen: { Self.State → Seen };

    /// The states that one move leads to, in the order of the moves.
    ghost next: { Self → Seen → List Seen };

    /// What holds of each state in which the system may be.
    ghost holds: { Self → Seen → Type 0 };

    /// A number that each move lowers.
    ghost rank: { Self → Seen → ℕ };

    /// The states that one move leads to, in the order of the moves. AllocError where there is no memory for them.
    fn moves(&self, alloc: Global, state: &Self::State) -> Result<Vec<Self::State>, AllocError>
        requires { holds self.now (seen state.now) }
        ensures { IfOk result (λ v. map seen v.items ≡ next self.now (seen state.now)) };

    /// A number that each move lowers: no more moves than this follow.
    fn rank(&self, state: &Self::State) -> u64
        requires { holds self.now (seen state.now) }
        ensures { result ≡ rank self.now (seen state.now) };

    /// Kept states are equal just where they stand for the same.
    ghost tells: { (a b : Self.State) → (Self.State.eq a b ≡ true) ↔ (seen a ≡ seen b) };

    /// A move leads to a state in which the system may be.
    ghost stays: { (s : Self) (x y : Seen) → holds s x → Contains (next s x) y → holds s y };

    /// A move lowers the rank.
    ghost lowers: { (s : Self) (x y : Seen) → holds s x → Contains (next s x) y → rank s y < rank s x };
}

/// Who is told how a walk gets on.
pub trait Watch {
    /// So many states have been walked, and so many are known.
    fn walked(&mut self, walked: usize, known: usize);
}

/// Nobody.
#[derive(Clone, Copy, Debug)]
pub struct Unwatched;

impl Watch for Unwatched {
    fn walked(&mut self, _walked: usize, _known: usize) {}
}
