//! What is explored, with the ends that are told of it.
ghost use Rattle.std.specs.Prelude.{◌≡◌, ◌<◌, true, None, Ok, IfOk, IfSome, length, map, string_bytes};
ghost use Rattle.std.specs.List.{All};
ghost use Rattle.tp_explore_walk.specs.Moves.{IsWalk, ReachesMore};
ghost use Rattle.tp_explore.specs.Moves.{Holds, is_fit, moves, starts};
ghost use Rattle.tp_explore.specs.Situation.{seen};
ghost use Rattle.tp_explore_text.specs.Explored.{FindsEnd, IsExplored};

use crate::ends::{End, ends_of, has_parts};
use crate::files::Named;
use std::alloc::{AllocError, Global};
use tp_explore::states::State;
use tp_explore_ends::explored::explore;
use tp_explore_walk::counts::count_ends;
use tp_explore_walk::graphs::{Graph, Refusal};
use tp_explore_walk::systems::Watch;
use tp_types::refusals::PoolError;

/// What was explored.
#[derive(Drop)]
pub struct Explored {
    /// The plan, with its names.
    pub named: Named,
    /// The states, and the moves between them.
    pub graph: Graph<State>,
    /// The distinct ends: those of most interleavings first, and equal ones in the order of their texts.
    pub ends: Vec<End>,
}

// What was explored, with the ends that are told of it.
fn told(alloc: Global, named: Named, graph: Graph<State>) -> Result<Explored, PoolError>
    requires fit { is_fit named.exploration.plan ≡ true }
    requires walked { IsWalk (moves named.exploration.plan) (starts named.exploration.plan)
        (map seen graph.states.items) (map (λ row. row.items) graph.moves.items) graph.ends.items }
    requires legal { All (λ s. Holds named.exploration.plan (seen s)) graph.states.items }
    requires within { All (λ k. k < length graph.states.items) graph.ends.items }
    ensures { IfOk result (λ e. (e.named ≡ named) × IsExplored e) }
{
    let counts = count_ends(alloc, &named.exploration, &graph)?;
    let ends = ends_of(alloc, named.labels.as_slice(), &graph, counts.as_slice())?;
    Ok(Explored { named, graph, ends })
}

/// Walks all interleavings of a plan, and tells `watch` as it goes on. None where more than `most` states are reached; NoMemory (4) where
/// there is none for them.
pub fn explore_named<W: Watch>(
    alloc: Global,
    named: Named,
    most: usize,
    watch: &mut W,
) -> Result<Option<Explored>, PoolError>
    requires { is_fit named.exploration.plan ≡ true }
    ensures explored { IfOk result (λ o. IfSome o (λ e. (e.named ≡ named) × IsExplored e)) }
    ensures too_many { (result ≡ Ok None) → ReachesMore (moves named.exploration.plan) (starts named.exploration.plan) most }
{
    match explore(alloc, &named.exploration, most, watch) {
        Ok(graph) => Ok(Some(told(alloc, named, graph)?)),
        Err(Refusal::TooMany) => Ok(None),
        Err(Refusal::NoMemory) => Err(PoolError::NoMemory),
    }
}

/// The place of a state that is an end and has all these parts between the semicolons of its line: one to which a shortest interleaving
/// leads. AllocError where there is no memory to look.
pub fn end_with(
    alloc: Global,
    explored: &Explored,
    parts: &[String],
) -> Result<Option<usize>, AllocError>
    requires { IsExplored explored.now }
    ensures { IfOk result (λ o. FindsEnd explored.now (map string_bytes parts.now) o) }
{
    for place in &explored.graph.ends {
        let state = &explored.graph.states[*place];
        if has_parts(alloc, &explored.named.labels, state, parts)? {
            return Ok(Some(*place));
        }
    }
    Ok(None)
}
