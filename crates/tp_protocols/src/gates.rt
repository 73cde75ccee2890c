//! Gates, by which a test holds workers.

use tp_types::ids::SlotId;

/// A point of a worker's turn.
#[derive(Clone, Copy, Debug, PartialEq, Eq, Hash)]
pub enum Point {
    /// Before the first `take` of a turn.
    Take,
    /// Before the body of a task that was begun.
    Body,
    /// Before the `end` of that task, after its hook.
    End,
}

/// Is passed by each worker at each point of its turn, so that a test can hold the worker there. Java has no
/// such thing.
///
/// Workers call it with no lock of the pool held, several at once. It may wait for other threads. It would
/// wait for ever for a thing that only the held worker can bring: its task's `end`, a task that no other
/// worker can take, or the pool's termination.
pub trait Gate: Send + Sync + Drop {
    /// The worker of slot `w` is about to pass this point.
    fn before(&self, p: Point, w: SlotId);
}

/// A gate that holds no worker.
#[derive(Drop)]
pub struct OpenGate;

impl Gate for OpenGate {
    fn before(&self, _p: Point, _w: SlotId) {}
}
