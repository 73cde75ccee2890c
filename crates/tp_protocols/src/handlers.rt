//! Rejection handlers, which rule on tasks that the pool cannot take.
ghost use Rattle.std.specs.Prelude.{◌≡◌};

use tp_types::configs::Verdict;
use tp_types::ids::TaskId;
use tp_types::states::RunState;

/// Rules on each task that a pool under `Policy::Own` cannot take, as a `RejectedExecutionHandler` of one's
/// own. Under the other policies it is not asked.
///
/// The submitter's thread asks it, with no lock of the pool held, one ask at a time. It may take its time,
/// and read the pool. A submission to the same pool from within would wait for ever where it needs a verdict,
/// since this handler has not answered yet. A wait from within for the task that it rules on would never end
/// either.
pub trait RejectionHandler: Send + Drop {
    /// The verdict on task `t`, in a pool that was in this run state when its submitter looked.
    fn verdict(&mut self, t: TaskId, state: RunState) -> Verdict;
}

/// Gives each task the same verdict, as `AbortPolicy` and its kin.
#[derive(Drop)]
pub struct OneVerdict {
    /// The verdict.
    pub verdict: Verdict,
}

impl RejectionHandler for OneVerdict {
    fn verdict(&mut self, _t: TaskId, _state: RunState) -> Verdict
        ensures answer { result ≡ self.old.verdict }
        ensures same { self.new ≡ self.old }
    {
        self.verdict
    }
}
