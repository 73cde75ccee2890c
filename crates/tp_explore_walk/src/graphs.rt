//! The walk: every state that is reached, each once, and the moves between them.
ghost use Rattle.std.specs.Prelude.{◌≡◌, List, [], ◌∷◌, IfOk, map, Err};
ghost use Rattle.tp_explore_walk.specs.declared.graphs.Refusal.TheVariants.{NoMemory, TooMany};
ghost use Rattle.tp_explore_walk.specs.Moves.{Added, IsWalk, ReachesMore, empties};

use crate::systems::{System, Watch};
use indexmap::IndexSet;
use std::alloc::{AllocError, AllocFailed, Global};
use std::hash::Hash;

/// Why a walk gave no answer.
#[derive(Clone, Copy, Debug, PartialEq, Eq, Drop)]
pub enum Refusal {
    /// There was no memory.
    NoMemory,
    /// More states are reached than were allowed.
    TooMany,
}

impl From<AllocError> for Refusal {
    ghost from_gives = { λ _ r. r ≡ NoMemory };

    fn from(_: AllocError) -> Refusal {
        Refusal::NoMemory
    }
}

impl<T: Drop> From<AllocFailed<T>> for Refusal {
    ghost from_gives = { λ _ r. r ≡ NoMemory };

    fn from(_: AllocFailed<T>) -> Refusal {
        Refusal::NoMemory
    }
}

/// The states that are reached, and the moves between them.
#[derive(Drop)]
pub struct Graph<T> {
    /// Each state once, the first one first.
    pub states: Vec<T>,
    /// For each state the places of those that its moves lead to, in the order of the moves.
    pub moves: Vec<Vec<usize>>,
    /// The places of the states without a move, in their order.
    pub ends: Vec<usize>,
}

// The place of a state, which is added if it is new.
fn place<S: System>(
    states: &mut IndexSet<S::State>,
    state: S::State,
) -> Result<usize, AllocFailed<S::State>>
    ensures { IfOk result
        (λ i. Added (map S.seen states.old.keys) (map S.seen states.new.keys) (S.seen state ∷ []) (i ∷ [])) }
{
    let (at, _) = states.insert_full(state)?;
    Ok(at)
}

// The places of the states, of which those that are new are added.
fn add<S: System>(
    alloc: Global,
    states: &mut IndexSet<S::State>,
    moves: Vec<S::State>,
) -> Result<Vec<usize>, AllocError>
    ensures { IfOk result
        (λ row. Added (map S.seen states.old.keys) (map S.seen states.new.keys) (map S.seen moves.items) row.items) }
{
    let mut row = Vec::new(alloc);
    for state in moves {
        row.push(place::<S>(states, state)?)?;
    }
    Ok(row)
}

// The values of a set, in its order.
fn listed<T: Eq + Hash + Drop>(alloc: Global, set: IndexSet<T>) -> Result<Vec<T>, AllocError>
    ensures { IfOk result (λ v. v.items ≡ set.keys) }
{
    set.into_iter().collect(alloc)
}

// The places of the empty rows.
fn empty_rows(alloc: Global, rows: &[Vec<usize>]) -> Result<Vec<usize>, AllocError>
    ensures { IfOk result (λ ends. ends.items ≡ empties 0 (map (λ row. row.items) rows.now)) }
{
    let mut ends = Vec::new(alloc);
    for (i, row) in rows.iter().enumerate() {
        if row.is_empty() {
            ends.push(i)?;
        }
    }
    Ok(ends)
}

/// Every state that is reached from the first, by moves, and told to `watch` as it goes on. NoMemory where there is none, TooMany where
/// more than `most` states are reached.
pub fn walk<S: System, W: Watch>(
    alloc: Global,
    system: &S,
    first: S::State,
    most: usize,
    watch: &mut W,
) -> Result<Graph<S::State>, Refusal>
    requires { S.holds system.now (S.seen first) }
    ensures walked { IfOk result
        (λ g. IsWalk (S.next system.now) (S.seen first) (map S.seen g.states.items) (map (λ row. row.items) g.moves.items) g.ends.items) }
    ensures too_many { (result ≡ Err TooMany) → ReachesMore (S.next system.now) (S.seen first) most }
{
    let mut states = IndexSet::new(alloc);
    states.insert(first)?;
    let mut moves = Vec::new(alloc);
    let mut at = 0;
    while let Some(state) = states.get_index(at) {
        if most < states.len() {
            return Err(Refusal::TooMany);
        }
        watch.walked(at, states.len());
        let reached = system.moves(alloc, state)?;
        moves.push(add::<S>(alloc, &mut states, reached)?)?;
        at += 1;
    }
    let ends = empty_rows(alloc, moves.as_slice())?;
    Ok(Graph {
        states: listed(alloc, states)?,
        moves,
        ends,
    })
}
