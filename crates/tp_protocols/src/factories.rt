//! Thread factories, which consent to a new worker or refuse it.
ghost use Rattle.std.specs.Prelude.{◌≡◌, true};

use tp_types::ids::SlotId;

/// Says whether a worker may be started, as a `ThreadFactory`, whose `newThread` answers null to refuse. The
/// pool starts the thread itself.
///
/// The thread that reserved the slot asks it, with no lock of the pool held, one ask at a time. It may take
/// its time, and read the pool. A call of the same pool from within that reserves a slot would wait for ever:
/// it asks this factory again while the factory answers. A wait from within for a task of the
/// pool or for its termination may never end: the slot is reserved until the factory has answered.
pub trait ThreadFactory: Send + Drop {
    /// Whether slot `w` may have a worker. Where it may not, the step `fail` gives the slot back and its
    /// first task goes to the queue or to the policy.
    fn allow(&mut self, w: SlotId) -> bool;
}

/// Consents always, as `Executors.defaultThreadFactory`.
#[derive(Drop)]
pub struct Consenting;

impl ThreadFactory for Consenting {
    fn allow(&mut self, _w: SlotId) -> bool
        ensures { result ≡ true }
    {
        true
    }
}
