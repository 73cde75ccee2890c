//! Jobs, the bodies that a pool runs.
ghost use Rattle.std.specs.Prelude.{◌≡◌, ◌⊎◌};
ghost use Rattle.tp_types.specs.Promise.{FitsPromise};

use crate::flags::CancelFlag;
use tp_types::tasks::{Outcome, Promise};

/// A body that a pool runs once, as a `Runnable` or a `Callable`. A boxed job is called at most once and then
/// dropped. A task that is cancelled, discarded, removed or handed back before it begins is not called.
///
/// `call` runs with no lock of the pool held, on a worker's thread, or on its submitter's under
/// `Verdict::CallerRuns`. It may take its time, wait for other tasks that run or will run elsewhere, submit,
/// and step on the pool with a pass of its own. It would wait for ever where it awaits the pool's termination
/// or `get`s its own task, since neither comes before it has returned; and where it waits for a queued task
/// while no other worker is left to run that one, as in Java. A job that is kept after its pool's end, as one that
/// was handed back, is to have no handle of that pool: a close waits for it.
pub trait Job: Send + Drop {
    ghost use Rattle.std.specs.Prelude.{ℕ};
    ghost use Rattle.tp_types.specs.declared.tasks.Promise.{Promise};

    ghost promised: { Self → Promise };

    /// The priority number that it names, where it has a `priority` of its own.
    ghost urgency: { Self → ℕ } = { λ _. 0 };

    /// The outcomes that the body may have. The pool asks when the job is submitted.
    fn promise(&self) -> Promise
        ensures { result ≡ promised self.now };

    /// Its priority: the task with the least number leaves a priority queue first, and of two with one number the
    /// one that was offered first. The pool asks once, before the first step of the submission; queues of the
    /// other kinds keep the number and do not go by it.
    // The body is proved once for all jobs, those that name another number too: so the clause leaves 0 open.
    fn priority(&self) -> u32
        ensures { (result ≡ 0) ⊎ (result ≡ urgency self.now) }
    {
        0
    }

    /// Runs the body, and answers its value, or a fault's code where a Java body throws. The outcome is as
    /// was promised before the call. The flag is set once the task is cancelled with the flag asked for, or
    /// the pool is stopped while a worker runs it; a body may look and end early.
    fn call(&mut self, cancel: &CancelFlag) -> Outcome
        ensures { FitsPromise (promised self.old) result };
}
