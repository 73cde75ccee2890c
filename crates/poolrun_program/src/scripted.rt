//! Jobs whose outcome was said beforehand.
ghost use Rattle.std.specs.Prelude.{◌≡◌};
ghost use Rattle.tp_types.specs.Promise.{FitsPromise};
ghost use Rattle.tp_types.specs.declared.tasks.TheConstants.{WIDEST};

use tp_protocols::flags::CancelFlag;
use tp_protocols::jobs::Job;
use tp_types::tasks::{Outcome, Promise, WIDEST, as_widest};

/// A job that ends at once, with this outcome. It promises any, so that its promise tells nothing of it.
#[derive(Drop)]
pub struct Scripted {
    /// How it ends.
    pub outcome: Outcome,
}

impl Job for Scripted {
    ghost use Rattle.tp_types.specs.declared.tasks.TheConstants.{WIDEST};

    ghost promised = { λ _. WIDEST };

    fn promise(&self) -> Promise {
        WIDEST
    }

    fn call(&mut self, _cancel: &CancelFlag) -> Outcome
        ensures said { result ≡ self.old.outcome }
        ensures fits { FitsPromise WIDEST result }
    {
        as_widest(self.outcome)
    }
}
