//! Tasks that a pool forgets that keeps no record.
ghost use Rattle.std.specs.Prelude.{◌≡◌, ◌⊎◌, ◌+◌, length, IfErr, OnErr, OnOk};
ghost use Rattle.tp_machine_state.specs.Releases.{IsKept};
ghost use Rattle.tp_glance.specs.Word.{IsFrontOf};
ghost use Rattle.tp_book.specs.BookView.{Forgets, left_of, released_of, state_of};
ghost use Rattle.tp_pool_holds.specs.Moments.{BookAt, BookAtSome, BookOf};
ghost use Rattle.tp_pool_holds.specs.Readings.{IsRelease};
ghost use Rattle.tp_pool_holds.specs.declared.tasks.Payload.{Payload};

use crate::pool::PoolOf;
use std::sync::Wait;
use tp_book::passes::Pass;
use tp_glance::glance::Glance;
use tp_pool_holds::edges::Edge;
use tp_pool_holds::locked::Locked;
use tp_pool_holds::names::PoolNaming;
use tp_protocols::jobs::Job;
use tp_record::recorders::{Recorder, Tally};
use tp_types::ids::TaskId;
use tp_types::refusals::PoolError;

// Forgets a task of the value under the lock, and no other. The pass then knows the history at which this was so. The caller's
// clause says that its task was the last one that was released, at this history: other threads may have released tasks
// meanwhile, and no pass accounts for releases.
fn release_in<G: PoolNaming, J: Job>(
    locked: &mut Locked<G, J, Tally>,
    t: TaskId,
    glance: &Glance<G>,
    pass: &mut Pass<G>,
) -> Result<(), PoolError>
    ensures released { OnOk result (BookAt (Payload J) (⟦<Tally as Recorder>⟧.terms G.config) pass.new.front (λ b. IsRelease b t.0 pass.new.released)) }
    ensures kept { IfErr result (λ e. BookOf (Payload J) (⟦<Tally as Recorder>⟧.terms G.config) pass.new (λ b. IsKept (left_of b) t.0 e)) }
    ensures refused { IfErr result (λ e. (e ≡ PoolError.UnknownTask) ⊎ (e ≡ PoolError.NotThere)) }
    ensures shown { pass.new ≡ record pass.old { front = pass.new.front; released = pass.new.released } }
    ensures goes_on { IsFrontOf pass.old.front pass.new.front }
    ensures knew { IsFrontOf pass.old.released pass.new.released }
    ensures forgets { OnOk result (Forgets locked.old.book locked.new.book t.0) }
    ensures unchanged { OnErr result (locked.new ≡ locked.old) }
{
    locked.law_is_book();
    locked.release_task(t, glance, pass)
}

impl<G: PoolNaming, J: Job, E: Edge> PoolOf<G, J, E, Tally> {
    /// Forgets a task that is gone: its future was asked for the last time. Plain tasks need no such call, since the pool forgets
    /// them by itself. From then on each call that names the task is refused with UnknownTask (6). It makes no step and takes no
    /// memory.
    ///
    /// UnknownTask (6) where no submission got this number, or the task was released before; NotThere (8) where it is not gone,
    /// where its submission is still under way, or where it is of a group and no completion service has taken it.
    pub fn release<R: Wait>(&self, rt: &R, t: TaskId, pass: &mut Pass<G>) -> Result<(), PoolError>
        ensures released { OnOk result (BookAt (Payload J) (⟦<Tally as Recorder>⟧.terms G.config) pass.new.front (λ b. IsRelease b t.0 pass.new.released)) }
        ensures kept { IfErr result (λ e. BookOf (Payload J) (⟦<Tally as Recorder>⟧.terms G.config) pass.new (λ b. IsKept (left_of b) t.0 e)) }
        ensures refused { IfErr result (λ e. (e ≡ PoolError.UnknownTask) ⊎ (e ≡ PoolError.NotThere)) }
        ensures shown { pass.new ≡ record pass.old { front = pass.new.front; released = pass.new.released } }
        ensures goes_on { IsFrontOf pass.old.front pass.new.front }
        ensures knew { IsFrontOf pass.old.released pass.new.released }
    {
        let shared = self.shared();
        let mut held = shared.hold(rt);
        release_in(&mut held, t, &shared.around.glance, pass)
    }

    /// How many tasks are kept: those that were submitted and not released.
    pub fn kept<R: Wait>(&self, rt: &R) -> u32
        ensures { BookAtSome (Payload J) (⟦<Tally as Recorder>⟧.terms G.config) (λ b. result + length (released_of b) ≡ length (state_of b).tasks) }
    {
        self.shared().hold(rt).kept()
    }
}
