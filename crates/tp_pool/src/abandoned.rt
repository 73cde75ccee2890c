//! Futures of which nobody asks any more, in a pool that keeps no record. A task that is not gone yet can't be forgotten, so
//! its number is kept until it can.
ghost use Rattle.std.specs.Prelude.{◌≡◌};
ghost use Rattle.tp_glance.specs.Word.{IsFrontOf};

use crate::pool::PoolOf;
use std::sync::Wait;
use tp_book::passes::Pass;
use tp_glance::glance::Glance;
use tp_pool_holds::edges::Edge;
use tp_pool_holds::locked::Locked;
use tp_pool_holds::names::PoolNaming;
use tp_record::recorders::Tally;
use tp_types::ids::TaskId;
use tp_types::refusals::PoolError;

// Forgets a task of the value under the lock, where it is gone: false where it is not.
fn forgets_in<G: PoolNaming, J: Drop>(
    locked: &mut Locked<G, J, Tally>,
    t: TaskId,
    glance: &Glance<G>,
    pass: &mut Pass<G>,
) -> bool
    ensures shown { pass.new ≡ record pass.old { front = pass.new.front; released = pass.new.released } }
    ensures goes_on { IsFrontOf pass.old.front pass.new.front }
    ensures knew { IsFrontOf pass.old.released pass.new.released }
{
    locked.release_task(t, glance, pass) != Err(PoolError::NotThere)
}

// The pool's bound on jobs is `Drop` alone: an `impl` for any jobs calls these.
impl<G: PoolNaming, J: Drop, E: Edge> PoolOf<G, J, E, Tally> {
    /// Says that nobody asks for the futures of these tasks any more: `forget_abandoned` releases each once it is gone. Where
    /// there is no memory to keep a number, that task is kept until the close. Java's collector needs no such call.
    pub fn abandon<R: Wait>(&self, rt: &R, tasks: &[TaskId]) {
        let mut abandoned = self.shared().around.abandoned.lock(rt);
        for t in tasks {
            let _ = abandoned.push_back(*t);
        }
    }

    /// Releases abandoned tasks that are gone. It looks at so many of them, the longest abandoned first; one that is not gone
    /// is looked at again after the others. It makes no step. The pass knows the record as it is at the last look.
    pub fn forget_abandoned<R: Wait>(&self, rt: &R, looks: usize, pass: &mut Pass<G>)
        ensures shown { pass.new ≡ record pass.old { front = pass.new.front; released = pass.new.released } }
        ensures goes_on { IsFrontOf pass.old.front pass.new.front }
        ensures knew { IsFrontOf pass.old.released pass.new.released }
    {
        for _ in 0..looks {
            self.forget_first(rt, pass);
        }
    }

    // Releases the task that was abandoned first, if there is one, or puts it behind the others where it is not gone.
    fn forget_first<R: Wait>(&self, rt: &R, pass: &mut Pass<G>)
        ensures shown { pass.new ≡ record pass.old { front = pass.new.front; released = pass.new.released } }
        ensures goes_on { IsFrontOf pass.old.front pass.new.front }
        ensures knew { IsFrontOf pass.old.released pass.new.released }
    {
        let Some(t) = self.first_abandoned(rt) else {
            return;
        };
        let shared = self.shared();
        let gone = forgets_in(&mut shared.hold(rt), t, &shared.around.glance, pass);
        if !gone {
            self.abandon(rt, &[t]);
        }
    }

    // The task that was abandoned first. It is taken off the list.
    fn first_abandoned<R: Wait>(&self, rt: &R) -> Option<TaskId> {
        self.shared().around.abandoned.lock(rt).pop_front()
    }
}
