//! A shortest path to a place.
ghost use Rattle.std.specs.Prelude.{◌≡◌, ◌<◌, IfOk, length, map};
ghost use Rattle.tp_explore_walk.specs.Moves.{AreLed};
ghost use Rattle.tp_explore_walk.specs.Paths.{AreFirsts, LeadsTo, Notes};

use std::alloc::{AllocError, Global};

/// A move on a path.
#[derive(Clone, Copy, Debug, PartialEq, Eq, Drop)]
pub struct Leg {
    /// The place of the state that it is from.
    pub from: usize,
    /// Which of that state's moves it is, from 0.
    pub choice: usize,
}

// Notes a leg to a place that has none yet.
fn note(firsts: &mut Vec<Option<Leg>>, to: usize, leg: Leg)
    ensures { Notes firsts.old.items to leg firsts.new.items }
{
    if to < firsts.len() && firsts[to].is_none() {
        firsts[to] = Some(leg);
    }
}

// For each place the move by which the walk came to it first. As the walk goes on by the number of moves, a shortest path ends with it.
fn firsts(alloc: Global, rows: &[Vec<usize>]) -> Result<Vec<Option<Leg>>, AllocError>
    ensures { IfOk result (λ v. AreFirsts (map (λ row. row.items) rows.now) (length rows.now) v.items × (length v.items ≡ length rows.now)) }
{
    let mut firsts = vec![in alloc; None; rows.len()]?;
    for (from, row) in rows.iter().enumerate() {
        for (choice, to) in row.iter().enumerate() {
            note(&mut firsts, *to, Leg { from, choice });
        }
    }
    Ok(firsts)
}

/// The moves of a shortest path from the first place to this one. AllocError where there is no memory for them.
pub fn trail(alloc: Global, rows: &[Vec<usize>], end: usize) -> Result<Vec<Leg>, AllocError>
    requires led { AreLed (length rows.now) (map (λ row. row.items) rows.now) }
    requires within { end < length rows.now }
    ensures { IfOk result (λ legs. LeadsTo (map (λ row. row.items) rows.now) 0 legs.items end) }
{
    let firsts = firsts(alloc, rows)?;
    let mut legs = Vec::new(alloc);
    let mut at = end;
    while at > 0 {
        let leg = firsts[at].unwrap();
        legs.insert(0, leg)?;
        at = leg.from;
    }
    Ok(legs)
}
