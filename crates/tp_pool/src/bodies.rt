//! Jobs without a promise of their own.
ghost use Rattle.std.specs.Prelude.{◌≡◌, ◌⊎◌};

use tp_protocols::flags::CancelFlag;
use tp_protocols::jobs::Job;
use tp_types::tasks::{Outcome, Promise, WIDEST, as_widest};

/// A body that promises nothing of its outcome, as a `Callable<Long>`. In an `Any` it is a job.
pub trait Body: Send + Drop {
    ghost use Rattle.std.specs.Prelude.{ℕ};

    /// The priority number that it names, where it has a `priority` of its own.
    ghost urgency: { Self → ℕ } = { λ _. 0 };

    /// Its priority, as `Job::priority`.
    fn priority(&self) -> u32
        ensures { (result ≡ 0) ⊎ (result ≡ urgency self.now) }
    {
        0
    }

    /// Runs the body, as `Job::call`: it answers a value, or a fault's code where a Java body throws.
    fn run(&mut self, cancel: &CancelFlag) -> Outcome;
}

/// A job of this body. It promises the widest: any value, or a fault.
#[derive(Drop)]
pub struct Any<B>(pub B);

impl<B: Body> Job for Any<B> {
    ghost use Rattle.tp_types.specs.declared.tasks.TheConstants.{WIDEST};

    ghost promised = { λ _. WIDEST };

    ghost urgency = { λ a. B.urgency a.0 };

    fn promise(&self) -> Promise {
        WIDEST
    }

    fn priority(&self) -> u32 {
        self.0.priority()
    }

    fn call(&mut self, cancel: &CancelFlag) -> Outcome {
        as_widest(self.0.run(cancel))
    }
}
