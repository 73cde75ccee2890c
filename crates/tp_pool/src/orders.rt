//! What a call asks of who makes the workers. A call that starts a thread is for callers of whom it is known that the pool may cross
//! to one. Of others nothing is known: they have another thread do it.

use tp_protocols::rescues::Remains;
use tp_types::ids::SlotId;

/// What is asked.
#[derive(Clone, Copy)]
pub enum Order {
    /// A worker for this slot, which is reserved.
    Worker(SlotId),
    /// What a step left to do in a pool that is shut down.
    Rescue(Remains),
}

/// Asks for a worker for this slot, and tells whether one was made.
pub fn staffed_by<F: Fn(Order) -> bool>(make: &F, w: SlotId) -> bool
    requires make { F.IsAlwaysCallable make.now }
{
    make(Order::Worker(w))
}

/// Asks for what a step left to do, where it left anything.
#[inline(always)]
pub fn rescue_by<F: Fn(Order) -> bool>(make: &F, remains: Remains)
    requires make { F.IsAlwaysCallable make.now }
{
    if remains != Remains::Nothing {
        make(Order::Rescue(remains));
    }
}

/// As `rescue_by`, where a worker is left to make: the end is asked for by the caller.
pub fn rescue_tasks_by<F: Fn(Order) -> bool>(make: &F, remains: Remains)
    requires make { F.IsAlwaysCallable make.now }
{
    if let Remains::Worker(_) = remains {
        make(Order::Rescue(remains));
    }
}
