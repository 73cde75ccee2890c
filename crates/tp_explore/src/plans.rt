//! What is explored: a pool, and the calls of some callers.

ghost use Rattle.std.specs.Prelude.{◌≡◌, length, nat_le};
ghost use Rattle.std.specs.List.{list_all};
ghost use Rattle.tp_explore.specs.Moves.{is_fit};

use tp_record::entries::Ask;
use tp_types::configs::Config;
use tp_types::tasks::{Kind, Outcome};

/// What the thread factory answers where a worker is to be made (`ThreadFactory.newThread`).
#[derive(Clone, Copy, Debug, PartialEq, Eq)]
pub enum Factory {
    /// A thread each time.
    Consents,
    /// Null each time.
    Refuses,
    /// Either, at any time.
    MayRefuse,
}

/// A job that is submitted.
#[derive(Clone, Copy, Debug, PartialEq, Eq)]
pub struct Submission {
    /// The kind of its task.
    pub kind: Kind,
    /// Its priority.
    pub priority: u32,
    /// How its body ends.
    pub outcome: Outcome,
}

/// What a caller calls. A submission is named by its place in the plan.
#[derive(Clone, Copy, Debug, PartialEq, Eq)]
pub enum Call {
    /// `execute` or `submit`, followed to its end.
    Submit(usize),
    /// A control: one step, and the workers that a larger core starts.
    Control(Ask),
    /// `Future.cancel` of a task, once it was submitted; and whether its flag is to be set.
    Cancel(usize, bool),
    /// `remove` of a task, once it was submitted.
    Remove(usize),
    /// Waits until a task has a fate.
    Await(usize),
    /// Waits until the pool is terminated.
    AwaitEnd,
}

/// A pool, and the calls of some callers: each makes its own in their order.
#[derive(Debug, Drop)]
pub struct Plan {
    /// The settings of the pool.
    pub config: Config,
    /// The thread factory.
    pub factory: Factory,
    /// The jobs, in the order in which they stand.
    pub submissions: Vec<Submission>,
    /// The calls of each caller.
    pub callers: Vec<Vec<Call>>,
}

// Whether each of these has at most 1,048,576 calls.
fn are_short(callers: &[Vec<Call>]) -> bool
    ensures { result ≡ list_all (λ calls. nat_le (length calls.items) 1048576) callers.now }
{
    callers.iter().all(|calls| calls.len() <= 1_048_576)
}

impl Plan {
    /// Whether the plan's numbers are small enough to be counted: its record has at most 1,048,576 entries, and at most 4,096 callers make
    /// at most 1,048,576 calls each.
    pub fn is_fit(&self) -> bool
        ensures { result ≡ is_fit self.now }
    {
        self.config.record_limit <= 1_048_576
            && (self.callers.len() <= 4096 && are_short(&self.callers))
    }
}
