//! What a life's pool runs: a task with a value of its own type, which its caller finds behind a ticket.
ghost use Rattle.std.specs.Prelude.{◌≡◌, IfOk, IfErr, IfSome};
ghost use Rattle.tp_types.specs.Promise.{FitsPromise};
ghost use Rattle.tp_life.specs.declared.tasks.TheConstants.{VOID};

use crate::oneshot::{Receiver, Sender, oneshot};
use std::alloc::Global;
use std::marker::Model;
use std::sync::Wait;
use tp_protocols::flags::CancelFlag;
use tp_protocols::jobs::Job;
use tp_types::tasks::{Outcome, Promise};

/// A body that answers a value of its own type, as a `Callable<V>`. It is run at most once.
// It does not say that it crosses to another thread: a life's calls are made where nothing may be known of that. What opens the
// pool asks for it.
pub trait Task: Drop {
    ghost use Rattle.std.specs.Prelude.{◌≡◌, ◌⊎◌, ℕ, IfOk};

    /// What it answers.
    type Output: Drop;

    /// The priority number that it names, where it has a `priority` of its own.
    ghost urgency: { Self → ℕ } = { λ _. 0 };

    /// What is so of a value that it answers.
    ghost gives: { Self → Self.Output → Type 0 } = { λ _ _. Unit {0} };

    /// Its priority, as `Job::priority`.
    fn priority(&self) -> u32
        ensures { (result ≡ 0) ⊎ (result ≡ urgency self.now) }
    {
        0
    }

    /// Runs the body, as `Job::call`: it answers a value, or a fault's code where a Java body throws.
    fn run(&mut self, cancel: &CancelFlag) -> Result<Self::Output, u32>
        ensures { IfOk result (λ v. ∥ gives self.old v ∥₁) };
}

/// A closure as a body, in its box. Its value is a number. A closure with a value of another type sends it (`oneshot`), or is
/// kept in a struct of the program's own that is a `Task`.
// A box of closures that names a type parameter can't be stated by the check.
pub type Closure = Box<dyn FnMut(&CancelFlag) -> Outcome + Send + Drop>;

/// A task that is a closure.
#[derive(Drop)]
pub struct Call {
    run: Closure,
    ghost callable: { IsAlwaysCallable run },
}

/// A task of this closure, as a lambda that is a `Callable<Long>`.
pub fn job(run: Closure) -> Call
    requires { IsAlwaysCallable run }
{
    Call { run }
}

impl Task for Call {
    type Output = i64;

    fn run(&mut self, cancel: &CancelFlag) -> Outcome {
        (self.run)(cancel)
    }
}

/// A value that a task of this type gave.
#[derive(Drop)]
struct Given<W: Task> {
    value: W::Output,
    ghost given: { ∥ ((w : W) × W.gives w value) ∥₁ },
}

/// What the pool is told of a task's outcome: 0 for its value, or its fault.
pub const VOID: Promise = Promise {
    low: 0,
    high: 0,
    may_fault: true,
};

/// A task as its pool holds it. Its value is sent to whoever finds it.
#[derive(Drop)]
pub struct Held<W: Task> {
    task: W,
    value: Sender<Given<W>>,
}

/// A contract sees the task.
impl<W: Task> Model for Held<W> {
    ghost Value = { W };

    ghost view = { λ h. h.task };
}

impl<W: Task> Held<W> {
    /// A task, and where its value is found. NoMemory (4), with the task.
    pub fn placed(alloc: Global, task: W) -> Result<(Held<W>, Find<W>), W>
        ensures held { IfOk result (λ r. r.0 ≡ task) }
        ensures back { IfErr result (λ t. t ≡ task) }
    {
        match oneshot(alloc) {
            Ok((value, found)) => Ok((Held { task, value }, Find { value: found })),
            Err(_) => Err(task),
        }
    }

    /// The task, as a refusal or a stop hands it back.
    pub fn into_task(self) -> W
        ensures { result ≡ self }
    {
        let Held { task, value: _ } = self;
        task
    }

    /// Runs the task, and sends its value to whoever finds it.
    pub fn run(&mut self, cancel: &CancelFlag) -> Outcome
        ensures { FitsPromise VOID result }
    {
        match self.task.run(cancel) {
            Ok(value) => {
                let _ = self.value.send(Given { value });
                Ok(0)
            }
            Err(code) => Err(code),
        }
    }
}

impl<T: Send + Drop, W: Task<Output = T> + Send> Job for Held<W> {
    ghost use Rattle.tp_life.specs.declared.tasks.TheConstants.{VOID};

    ghost promised = { λ _. VOID };

    ghost urgency = { W.urgency };

    fn promise(&self) -> Promise {
        VOID
    }

    fn priority(&self) -> u32 {
        self.task.priority()
    }

    fn call(&mut self, cancel: &CancelFlag) -> Outcome {
        self.run(cancel)
    }
}

/// Where a task's value is found, once it has run.
#[derive(Drop)]
pub struct Find<W: Task> {
    value: Receiver<Given<W>>,
}

impl<W: Task> Find<W> {
    /// Takes the value, where it lies there.
    pub fn take<R: Wait>(&self, rt: &R) -> Option<W::Output>
        ensures { IfSome result (λ v. ∥ ((w : W) × W.gives w v) ∥₁) }
    {
        let Given { value } = self.value.take(rt)?;
        Some(value)
    }
}
