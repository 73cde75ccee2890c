//! A way to a state.
ghost use Rattle.std.specs.Prelude.{◌<◌, IfOk, length, map};
ghost use Rattle.std.specs.List.{All};
ghost use Rattle.tp_explore_walk.specs.Moves.{IsAt, IsWalk};
ghost use Rattle.tp_explore.specs.Moves as spec;
ghost use Rattle.tp_explore.specs.Moves.{Holds};
ghost use Rattle.tp_explore.specs.Situation.{Situation, seen as seen_state};
ghost use Rattle.tp_explore_ends.specs.Ways.{IsWitness};

use crate::explored::Exploration;
use std::alloc::Global;
use tp_explore::moves::{Move, moves};
use tp_explore::plans::Plan;
use tp_explore::states::State;
use tp_explore_walk::graphs::Graph;
use tp_explore_walk::trails::trail;
use tp_types::refusals::PoolError;

// The move of this number from a state.
fn move_of(alloc: Global, plan: &Plan, state: &State, choice: usize) -> Result<Move, PoolError>
    requires holds { Holds plan.now (seen_state state.now) }
    requires within { choice < length (spec.moves plan.now (seen_state state.now)) }
    ensures is_move { IfOk result (λ m. spec.IsMove plan.now (seen_state state.now) m) }
    ensures leads { IfOk result (λ m. IsAt (spec.moves plan.now (seen_state state.now)) choice (seen_state m.after)) }
{
    let mut all = moves(alloc, plan, state)?;
    Ok(all.swap_remove(choice))
}

/// A shortest way from the new pool to the state at this place, as the moves on it. They are a run of the model, whose record is legal.
/// NoMemory (4) where there is no memory for them. Each move has its deed, its answer and the state behind it: a text of the way needs
/// all three, and the contract names no place of the graph.
pub fn witness(
    alloc: Global,
    exploration: &Exploration,
    graph: &Graph<State>,
    end: usize,
) -> Result<Vec<Move>, PoolError>
    requires walked { IsWalk (spec.moves exploration.now.plan) (spec.starts exploration.now.plan)
        (map seen_state graph.now.states.items) (map (λ row. row.items) graph.now.moves.items) graph.now.ends.items }
    requires legal { All (λ s. Holds exploration.now.plan (seen_state s)) graph.now.states.items }
    requires within { end < length graph.now.states.items }
    ensures { IfOk result (λ moves. (z : Situation) → IsAt (map seen_state graph.now.states.items) end z
        → IsWitness exploration.now.plan moves.items z) }
{
    let legs = trail(alloc, &graph.moves, end)?;
    let mut way = Vec::new(alloc);
    for leg in &legs {
        way.push(move_of(
            alloc,
            &exploration.plan,
            &graph.states[leg.from],
            leg.choice,
        )?)?;
    }
    Ok(way)
}
