//! Everything that the interleavings of some callers' calls lead to.
ghost use Rattle.std.specs.Prelude.{◌≡◌, ◌<◌, ◌^◌, true, IfOk, Err, length, map, sum_by};
ghost use Rattle.std.specs.List.{All};
ghost use Rattle.tp_explore_walk.specs.Moves.{IsWalk, ReachesMore};
ghost use Rattle.tp_explore_walk.specs.declared.graphs.Refusal.TheVariants.{TooMany};
ghost use Rattle.tp_explore.specs.Moves as spec;
ghost use Rattle.tp_explore.specs.Moves.{Holds};
ghost use Rattle.tp_explore.specs.Same.{tells as tells_states};
ghost use Rattle.tp_explore.specs.Situation.{Situation, seen as seen_state};
ghost use Rattle.tp_explore.proofs.Lowering.{stays_in, lowers_rank};

use std::alloc::{AllocError, Global};
use tp_explore::callers::{Caller, Doing};
use tp_explore::moves::{Move, moves};
use tp_explore::plans::Plan;
use tp_explore::states::{State, first};
use tp_explore_walk::graphs::{Graph, Refusal, walk};
use tp_explore_walk::systems::{System, Watch};

/// A plan whose interleavings are walked.
#[derive(Debug, Drop)]
pub struct Exploration {
    /// The pool, and the calls of its callers.
    pub plan: Plan,
}

// The states that moves lead to.
fn states_of(alloc: Global, moves: Vec<Move>) -> Result<Vec<State>, AllocError>
    ensures { IfOk result (λ v. map seen_state v.items ≡ map (λ m. seen_state m.after) moves.items) }
{
    let mut states = Vec::new(alloc);
    for made in moves {
        states.push(made.after)?;
    }
    Ok(states)
}

// How much a caller has before it.
fn owes(caller: Caller) -> u64
    requires { spec.owes caller < 2 ^ 64 }
    ensures { result ≡ spec.owes caller }
{
    match caller.doing {
        Doing::Nothing => 2 * caller.left as u64,
        Doing::Submitting(_) | Doing::Starting(_) | Doing::Staffing(_, _) => {
            2 * caller.left as u64 + 1
        }
    }
}

// How much the callers have before them.
fn all_owe(callers: &[Caller]) -> u64
    requires { sum_by spec.owes callers.now < 2 ^ 64 }
    ensures { result ≡ sum_by spec.owes callers.now }
{
    let mut sum = 0;
    for caller in callers {
        sum += owes(*caller);
    }
    sum
}

impl System for Exploration {
    type State = State;

    ghost Seen = { Situation };

    ghost seen = { seen_state };

    ghost next = { λ e. spec.moves e.plan };

    ghost holds = { λ e. Holds e.plan };

    ghost rank = { λ e. spec.rank e.plan };

    fn moves(&self, alloc: Global, state: &State) -> Result<Vec<State>, AllocError> {
        match moves(alloc, &self.plan, state) {
            Ok(moves) => states_of(alloc, moves),
            Err(_) => Err(AllocError),
        }
    }

    fn rank(&self, state: &State) -> u64 {
        let room = self.plan.config.record_limit - state.pool.steps;
        2 * u64::from(room) + all_owe(&state.callers)
    }

    ghost tells = { tells_states };

    ghost stays = { λ e. stays_in e.plan };

    ghost lowers = { λ e. lowers_rank e.plan };
}

/// Every state that the interleavings of a plan's calls lead to, each once, the new pool first, with the moves between them and the states
/// in which nobody can move: the ends. The pool of each is that of a legal record. NoMemory where there is none, TooMany where more than
/// `most` states are reached.
pub fn explore<W: Watch>(
    alloc: Global,
    exploration: &Exploration,
    most: usize,
    watch: &mut W,
) -> Result<Graph<State>, Refusal>
    requires { spec.is_fit exploration.now.plan ≡ true }
    ensures walked { IfOk result (λ g. IsWalk (spec.moves exploration.now.plan) (spec.starts exploration.now.plan)
        (map seen_state g.states.items) (map (λ row. row.items) g.moves.items) g.ends.items) }
    ensures legal { IfOk result (λ g. All (λ s. Holds exploration.now.plan (seen_state s)) g.states.items) }
    ensures within { IfOk result (λ g. All (λ k. k < length g.states.items) g.ends.items) }
    ensures too_many { (result ≡ Err TooMany) → ReachesMore (spec.moves exploration.now.plan) (spec.starts exploration.now.plan) most }
{
    match first(alloc, &exploration.plan) {
        Ok(first) => walk(alloc, exploration, first, most, watch),
        Err(_) => Err(Refusal::NoMemory),
    }
}
