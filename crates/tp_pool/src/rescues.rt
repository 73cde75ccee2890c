//! What a call of a pool that is shut down does for it, where the call's steps leave the pool to nobody.

use crate::orders::Order;
use crate::pool::{Owner, PoolOf};
use std::sync::Wait;
use std::thread::Threads;
use tp_machine::machine::releases::Keeper;
use tp_pool_holds::edges::Edge;
use tp_pool_holds::names::PoolNaming;
use tp_pool_holds::rescues::rescue_with_own;
use tp_protocols::jobs::Job;
use tp_protocols::rescues::Remains;

impl<
    G: PoolNaming + Send + Sync + 'static,
    J: Job + 'static,
    E: Edge + Send + Sync + 'static,
    K: Keeper + Send + 'static,
> PoolOf<G, J, E, K> {
    /// Does what a step of this thread left to do, with a pass of the pool's own. Where there is no memory or
    /// no number for that pass, it is left to the next such step.
    #[inline(always)]
    pub(crate) fn rescue<R: Threads + Wait + Copy + Send + 'static>(
        &self,
        rt: R,
        remains: Remains,
    ) {
        if remains == Remains::Nothing {
            return;
        }
        if let Owner::Shared(shared) = &self.owner {
            rescue_with_own(rt, shared, remains);
        }
    }

    /// Does what a call asks for, in this thread, and tells whether a worker was made.
    pub fn obey<R: Threads + Wait + Copy + Send + 'static>(&self, rt: R, order: Order) -> bool {
        match order {
            Order::Worker(w) => self.staffed(rt, w),
            Order::Rescue(remains) => {
                self.rescue(rt, remains);
                false
            }
        }
    }
}
