//! A caller's jobs and objects in boxes.
//!
//! They stand apart from the traits that they hold. A call into another crate on a boxed object counts as one that may make
//! such an object: `Pool::new` would then be proved of the objects alone that it makes.

use std::sync::{Mutex, Wait};
use tp_pool_holds::edges::Edge;
use tp_protocols::factories::ThreadFactory;
use tp_protocols::flags::CancelFlag;
use tp_protocols::gates::{Gate, Point};
use tp_protocols::handlers::RejectionHandler;
use tp_protocols::hooks::Hooks;
use tp_protocols::jobs::Job;
use tp_types::configs::Verdict;
use tp_types::ids::{SlotId, TaskId};
use tp_types::states::RunState;
use tp_types::tasks::{Outcome, Promise};

/// A job in a box, which is a job again: so one pool holds jobs of several types.
#[derive(Drop)]
pub struct Boxed {
    /// The box.
    pub job: Box<dyn Job>,
}

impl Job for Boxed {
    ghost use Rattle.tp_types.specs.declared.tasks.Promise.{Promise};

    ghost promised = { λ b. (Job-box b.job).promised b.job.value };

    ghost urgency = { λ b. (Job-box b.job).urgency b.job.value };

    fn promise(&self) -> Promise {
        self.job.promise()
    }

    fn priority(&self) -> u32 {
        self.job.priority()
    }

    fn call(&mut self, cancel: &CancelFlag) -> Outcome {
        self.job.call(cancel)
    }
}

/// The caller's boxes. The factory, the handler and the hooks change when they are called, so each of them is
/// behind a lock of its own.
#[derive(Drop)]
pub struct Boxes {
    factory: Mutex<Box<dyn ThreadFactory>>,
    handler: Mutex<Box<dyn RejectionHandler>>,
    hooks: Mutex<Box<dyn Hooks>>,
    gate: Box<dyn Gate>,
}

impl Boxes {
    /// Puts these boxes behind one bound.
    pub fn new(
        factory: Box<dyn ThreadFactory>,
        handler: Box<dyn RejectionHandler>,
        hooks: Box<dyn Hooks>,
        gate: Box<dyn Gate>,
    ) -> Boxes {
        Boxes {
            factory: Mutex::new(factory),
            handler: Mutex::new(handler),
            hooks: Mutex::new(hooks),
            gate,
        }
    }
}

impl Edge for Boxes {
    fn allow<R: Wait>(&self, rt: &R, w: SlotId) -> bool {
        self.factory.lock(rt).allow(w)
    }

    fn verdict<R: Wait>(&self, rt: &R, t: TaskId, state: RunState) -> Verdict {
        self.handler.lock(rt).verdict(t, state)
    }

    fn before<R: Wait>(&self, rt: &R, w: SlotId, t: TaskId) {
        self.hooks.lock(rt).before(w, t);
    }

    fn after<R: Wait>(&self, rt: &R, w: SlotId, t: TaskId, outcome: Option<&Outcome>) {
        self.hooks.lock(rt).after(w, t, outcome);
    }

    fn terminated<R: Wait>(&self, rt: &R) {
        self.hooks.lock(rt).terminated();
    }

    fn pass(&self, p: Point, w: SlotId) {
        self.gate.before(p, w);
    }
}
