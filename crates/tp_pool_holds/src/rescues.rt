//! What a thread does where its step leaves a pool that is shut down to nobody: with a pass of the pool's own,
//! it ends the pool, or has a worker made for the tasks that are queued. A caller's own pass has no part in it.

use crate::edges::Edge;
use crate::names::PoolNaming;
use crate::shared::Shared;
use crate::staffing::save;
use std::sync::{Arc, Wait};
use std::thread::Threads;
use tp_book::passes::WorkerPass;
use tp_machine::machine::releases::Keeper;
use tp_machine::typed::Plain;
use tp_machine::typed::controllers::{Ended, Tidy};
use tp_machine::typed::settings::Prestart;
use tp_protocols::jobs::Job;
use tp_protocols::rescues::{House, Remains, rescue};
use tp_types::ids::SlotId;

impl<G: PoolNaming, J: Drop, E: Edge, K: Keeper, R: Wait> House<R> for Shared<G, J, E, K> {
    ghost use Rattle.std.specs.Prelude.{◌≡◌};
    ghost use Rattle.tp_pool_holds.specs.Rescues.{IsDone};

    type Pass = WorkerPass<G>;

    ghost did = { λ old d new. (new.number ≡ old.number) × IsDone J K.RECEIPTS (K.terms G.config) old.number old.front new.front d };

    fn tidy(&self, rt: &R, pass: &mut WorkerPass<G>) -> bool {
        self.step(rt, Plain(Tidy), pass).is_ok()
    }

    fn terminated(&self, rt: &R, _pass: &mut WorkerPass<G>) {
        self.around.edge.terminated(rt);
    }

    fn ended(&self, rt: &R, pass: &mut WorkerPass<G>) {
        let _ = self.step(rt, Plain(Ended), pass);
    }

    fn prestart(&self, rt: &R, pass: &mut WorkerPass<G>) -> Option<SlotId> {
        match self.step(rt, Plain(Prestart), pass) {
            Ok(reserved) => reserved,
            Err(_) => None,
        }
    }
}

impl<G: PoolNaming, J: Drop, E: Edge, K: Keeper> Shared<G, J, E, K> {
    /// A pass of the pool's own, which is to be handed in; None where there is no memory or no number for it.
    fn engage<R: Wait>(&self, rt: &R) -> Option<WorkerPass<G>> {
        self.hold(rt).engage(&self.around.glance).ok()
    }

    /// Ends the pool with a pass of its own, where its end is left.
    pub fn end_left<R: Wait>(&self, rt: &R, remains: Remains) {
        if remains != Remains::End {
            return;
        }
        let Some(mut pass) = self.engage(rt) else {
            return;
        };
        rescue(rt, self, &mut pass, remains, 0);
        self.hand_in(rt, pass);
    }
}

/// Does what a step of a caller's thread left to do, with a pass of the pool's own. Where there is no memory or no number for
/// that pass, it is left to the next such step. Where no worker can be made, the tasks stay stranded: a stop would hand their
/// jobs back to nobody.
#[cold]
#[inline(never)]
pub fn rescue_with_own<
    G: PoolNaming + Send + Sync + 'static,
    J: Job + 'static,
    E: Edge + Send + Sync + 'static,
    K: Keeper + Send + 'static,
    R: Threads + Wait + Copy + Send + 'static,
>(rt: R, shared: &Arc<Shared<G, J, E, K>>, remains: Remains) {
    let Some(mut pass) = shared.engage(&rt) else {
        return;
    };
    save(rt, shared, &mut pass, remains, u64::MAX);
    shared.hand_in(&rt, pass);
}
