//! What a pool does with futures of which nobody asks any more.
ghost use Rattle.std.specs.Prelude.{◌≡◌};
ghost use Rattle.tp_glance.specs.Word.{IsFrontOf};

use std::sync::Wait;
use tp_book::passes::Pass;
use tp_machine::machine::releases::Keeper;
use tp_pool::edges::Edge;
use tp_pool::jobs::Job;
use tp_pool::names::PoolNaming;
use tp_pool::pool::PoolOf;
use tp_record::recorders::{Full, Tally};
use tp_types::ids::TaskId;

/// What keeps a pool's record, by what becomes of futures that a call leaves behind.
pub trait Leaving<G: PoolNaming, J: Job, E: Edge, R: Wait>: Keeper {
    /// Nobody asks for the futures of these tasks any more.
    fn abandon(pool: &PoolOf<G, J, E, Self>, rt: &R, tasks: &[TaskId]);

    /// Has the pool forget such tasks that are gone, after so many looks. It makes no step.
    fn forget_abandoned(pool: &PoolOf<G, J, E, Self>, rt: &R, looks: usize, pass: &mut Pass<G>)
        ensures shown { pass.new ≡ record pass.old { front = pass.new.front; released = pass.new.released } }
        ensures goes_on { IsFrontOf pass.old.front pass.new.front }
        ensures knew { IsFrontOf pass.old.released pass.new.released };
}

/// A record names every task: none is forgotten.
impl<G: PoolNaming, J: Job, E: Edge, R: Wait> Leaving<G, J, E, R> for Full {
    fn abandon(_pool: &PoolOf<G, J, E, Full>, _rt: &R, _tasks: &[TaskId]) {}

    fn forget_abandoned(
        _pool: &PoolOf<G, J, E, Full>,
        _rt: &R,
        _looks: usize,
        _pass: &mut Pass<G>,
    ) {}
}

/// Each is released once it is gone.
impl<G: PoolNaming, J: Job, E: Edge, R: Wait> Leaving<G, J, E, R> for Tally {
    fn abandon(pool: &PoolOf<G, J, E, Tally>, rt: &R, tasks: &[TaskId]) {
        pool.abandon(rt, tasks);
    }

    fn forget_abandoned(pool: &PoolOf<G, J, E, Tally>, rt: &R, looks: usize, pass: &mut Pass<G>) {
        pool.forget_abandoned(rt, looks, pass);
    }
}
