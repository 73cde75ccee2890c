//! The words that a step begins with.

/// A step that a line asks for by a word and a task's number.
#[derive(Clone, Copy, Debug, PartialEq, Eq)]
pub enum TaskVerb {
    /// The submitter looks again, after a retry.
    Look,
    /// The submitter offers the task to the queue.
    Offer,
    /// The submitter looks a second time.
    Second,
    /// The submitter asks for a slot up to the maximum.
    Grow,
    /// The submitter has run the task.
    CallerEnd,
    /// The task is to be removed from the queue.
    Remove,
}

/// A step that a line asks for by a word and a slot's number.
#[derive(Clone, Copy, Debug, PartialEq, Eq)]
pub enum SlotVerb {
    /// The factory made a worker.
    Open,
    /// The factory made none.
    Fail,
    /// The worker takes a task.
    Take,
    /// The worker begins its task.
    Begin,
    /// The worker has run its task.
    End,
    /// A dying worker leaves.
    Leave,
}

/// A step that a line asks for by a word alone.
#[derive(Clone, Copy, Debug, PartialEq, Eq)]
pub enum PoolVerb {
    /// `shutdown`.
    Shutdown,
    /// `shutdownNow`.
    Stop,
    /// The pool without slots goes on to the terminated hook.
    Tidy,
    /// The terminated hook has run.
    Ended,
    /// Cancelled tasks leave the queue.
    Purge,
    /// A worker is to be started before there is work.
    Prestart,
}

/// A step that a line asks for by a word and a number of 32 bits.
#[derive(Clone, Copy, Debug, PartialEq, Eq)]
pub enum SizeVerb {
    /// The next completed task of the group of this number.
    TakeDone,
    /// The core size.
    Core,
    /// The maximum size.
    Maximum,
}

/// A step that a line asks for by a word and ticks.
#[derive(Clone, Copy, Debug, PartialEq, Eq)]
pub enum TickVerb {
    /// The keep-alive.
    Keep,
    /// The moment.
    Tick,
}

/// The word that a line begins with.
#[derive(Clone, Copy, Debug, PartialEq, Eq)]
pub enum Command {
    /// `submit`.
    Submit,
    /// A word before a task's number.
    OfTask(TaskVerb),
    /// `verdict`.
    Verdict,
    /// A word before a slot's number.
    OfSlot(SlotVerb),
    /// A word that stands alone.
    OfPool(PoolVerb),
    /// `cancel`.
    Cancel,
    /// A word before a size or a group.
    OfSize(SizeVerb),
    /// A word before ticks.
    OfTicks(TickVerb),
    /// `coretimeout`.
    CoreTimeout,
}
