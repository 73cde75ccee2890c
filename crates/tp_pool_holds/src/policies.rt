//! What a pool's settings say of tasks that find no room.
ghost use Rattle.std.specs.Prelude.{◌≡◌, true, false, IfSome, IfNone, IsTrue};
ghost use Rattle.tp_record.specs.State.{State};
ghost use Rattle.tp_record.specs.Step.{allows};
ghost use Rattle.tp_machine.specs.Readings.{lacks_room};

use crate::names::PoolNaming;
use std::marker::{Model, PhantomData};
use tp_record::recorders::Recorder;
use tp_types::configs::{Config, Policy, QueueKind, Verdict};

/// The rejection policy of the pool of this name: that of its settings.
#[derive(Drop)]
pub struct PolicyOf<G: PoolNaming> {
    settings: Config,
    of: PhantomData<G>,
}

impl<G: PoolNaming> Model for PolicyOf<G> {
    ghost use Rattle.std.specs.Prelude.{◌≡◌};

    ghost Value = { Unit {0} };

    ghost view = { λ _. tt };

    ghost invariant = { λ p. p.settings ≡ G.config };
}

impl<G: PoolNaming> PolicyOf<G> {
    /// The policy that these settings say.
    pub fn new(settings: &Config) -> PolicyOf<G>
        requires { settings.now ≡ G.config }
    {
        PolicyOf {
            settings: *settings,
            of: PhantomData,
        }
    }

    /// Its verdict, which is the same on each refused task; None under `Policy::Own`, where the handler is asked. By a recorder's
    /// terms it is the same policy: they are these settings at another limit.
    pub fn verdict<K: Recorder>(&self) -> Option<Verdict>
        ensures given { IfSome result (λ v. allows (K.terms G.config).policy v ≡ true) }
        ensures own { IfNone result ((K.terms G.config).policy ≡ Policy.Own) }
    {
        let _ = K::limit(&self.settings);
        match self.settings.policy {
            Policy::Abort => Some(Verdict::Abort),
            Policy::CallerRuns => Some(Verdict::CallerRuns),
            Policy::Discard => Some(Verdict::Discard),
            Policy::DiscardOldest => Some(Verdict::DiscardOldest),
            Policy::Own => None,
        }
    }

    /// Whether the queue takes each task, so that no submission waits for room.
    pub fn has_endless_queue<K: Recorder>(&self) -> bool
        ensures { IsTrue result → (s : State) → lacks_room (K.terms G.config).queue s ≡ false }
    {
        let _ = K::limit(&self.settings);
        matches!(
            self.settings.queue,
            QueueKind::Unbounded | QueueKind::Priority
        )
    }
}
