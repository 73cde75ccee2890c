//! The entries of a record: one for each step that the pool accepted, with what was asked and what
//! was done.

ghost use Rattle.std.specs.Prelude.{◌≡◌};

use tp_types::configs::Verdict;
use tp_types::ids::{SlotId, TaskId};
use tp_types::tasks::{Kind, Outcome};

/// What a step asks of the pool.
#[derive(Clone, Copy, Debug, PartialEq, Eq)]
pub enum Ask {
    /// A new task of this kind and priority, as in `execute` and `submit`.
    Submit(Kind, u32),
    /// The submitter looks for a core slot again, after a retry.
    Look(TaskId),
    /// The submitter offers the task to the queue.
    Offer(TaskId),
    /// The submitter looks at the run state a second time, after its offer was taken.
    Second(TaskId),
    /// The submitter asks for a slot up to the maximum, after a full queue.
    Grow(TaskId),
    /// The policy or a handler says what becomes of a refused task.
    Verdict(TaskId, Verdict),
    /// The submitter has run the task, with this outcome.
    CallerEnd(TaskId, Outcome),
    /// The thread factory made a worker for a reserved slot.
    Open(SlotId),
    /// The thread factory made no worker for a reserved slot.
    Fail(SlotId),
    /// A worker asks for its next task, as in `getTask`.
    Take(SlotId),
    /// A worker begins the task that it took.
    Begin(SlotId),
    /// A worker has run its task, with this outcome.
    End(SlotId, Outcome),
    /// A worker whose plain task faulted leaves.
    Leave(SlotId),
    /// `shutdown`.
    Shutdown,
    /// `shutdownNow`.
    Stop,
    /// The pool without slots goes on to the terminated hook, as in `tryTerminate`.
    Tidy,
    /// The terminated hook has run.
    Ended,
    /// `ThreadPoolExecutor.remove`.
    Remove(TaskId),
    /// `purge`.
    Purge,
    /// `Future.cancel`, with whether the task's cancel flag is to be set.
    Cancel(TaskId, bool),
    /// The group's next completed task, as in `ExecutorCompletionService.poll`.
    TakeDone(u32),
    /// `setCorePoolSize`, in workers.
    Core(u32),
    /// `setMaximumPoolSize`, in workers.
    Maximum(u32),
    /// `setKeepAliveTime`, in ticks.
    Keep(u64),
    /// `allowCoreThreadTimeOut`.
    CoreTimeout(bool),
    /// The moment is this tick now.
    Tick(u64),
    /// `prestartCoreThread`.
    Prestart,
}

/// The answer to a look for a core slot.
#[derive(Clone, Copy, Debug, PartialEq, Eq)]
pub enum Looked {
    /// The task is held by a new slot, which is reserved for the core.
    Reserve(SlotId),
    /// The task is to be offered to the queue.
    Queue,
    /// The pool is shut down: the task is refused.
    Refuse,
}

/// The answer to an offer.
#[derive(Clone, Copy, Debug, PartialEq, Eq)]
pub enum Offered {
    /// The task is at the queue's tail.
    Queued,
    /// The task is held by this slot, whose worker was idle longest.
    Hand(SlotId),
    /// The queue has no room.
    Full,
}

/// The answer to a second look.
#[derive(Clone, Copy, Debug, PartialEq, Eq)]
pub enum Seconded {
    /// The task stays where it is.
    Stay,
    /// The task stays, and a bare slot is reserved since there was none.
    StayReserve(SlotId),
    /// The pool was shut down meanwhile: the task is out of the queue and refused.
    Back,
}

/// The answer to an attempt to grow.
#[derive(Clone, Copy, Debug, PartialEq, Eq)]
pub enum Grown {
    /// The task is held by a new slot, which is reserved up to the maximum.
    Reserve(SlotId),
    /// The pool may not grow: the task is refused.
    Refuse,
}

/// What became of a refused task by its verdict.
#[derive(Clone, Copy, Debug, PartialEq, Eq)]
pub enum Ruled {
    /// It is gone, with the fate rejected.
    Rejected,
    /// Its submitter runs it.
    Caller,
    /// It was cancelled and is gone.
    Skip,
    /// It is gone, with the fate discarded.
    Discarded,
    /// It is to look again.
    Retry,
    /// It is to look again, and this task, the queue's head, is gone with the fate discarded.
    RetryDrop(TaskId),
}

/// The answer to a worker that the factory made.
#[derive(Clone, Copy, Debug, PartialEq, Eq)]
pub enum Opened {
    /// The slot is live.
    Live,
    /// The pool was shut down meanwhile: the slot is freed.
    GivenUp,
    /// The slot is freed, and its first task is refused.
    GivenUpRefuse(TaskId),
}

/// What becomes of a reserved slot's first task where the factory made no worker.
#[derive(Clone, Copy, Debug, PartialEq, Eq)]
pub enum Failed {
    /// There was none.
    Nothing,
    /// It is to be offered to the queue.
    Offer(TaskId),
    /// It is refused.
    Refuse(TaskId),
}

/// What a worker takes.
#[derive(Clone, Copy, Debug, PartialEq, Eq)]
pub enum Took {
    /// The task that its slot held.
    Held(TaskId),
    /// The queue's head.
    Head(TaskId),
    /// Nothing: it leaves, and its slot is freed.
    Leave,
    /// Nothing: it is idle.
    Idle,
}

/// What a worker begins.
#[derive(Clone, Copy, Debug, PartialEq, Eq)]
pub enum Started {
    /// The task's body.
    Run(TaskId),
    /// Nothing: the task was cancelled and is gone.
    Skip(TaskId),
}

/// What was done: the answer to an ask, with the tasks and slots that it speaks of.
#[derive(Clone, Copy, Debug, PartialEq, Eq)]
pub enum Did {
    /// The task's number, kind and priority, and what its first look answered.
    Submit(TaskId, Kind, u32, Looked),
    /// What a look after a retry answered.
    Look(TaskId, Looked),
    /// What an offer answered.
    Offer(TaskId, Offered),
    /// What a second look answered.
    Second(TaskId, Seconded),
    /// What an attempt to grow answered.
    Grow(TaskId, Grown),
    /// What became of the task by this verdict.
    Verdict(TaskId, Verdict, Ruled),
    /// The submitter ended its task.
    CallerEnd(TaskId, Outcome),
    /// What became of the slot.
    Open(SlotId, Opened),
    /// The slot is freed, and what became of its first task.
    Fail(SlotId, Failed),
    /// What the worker took.
    Take(SlotId, Took),
    /// What the worker began.
    Begin(SlotId, Started),
    /// The worker ended this task.
    End(SlotId, TaskId, Outcome),
    /// The slot is freed, and the slot that is reserved in its place, if there is one.
    Leave(SlotId, Option<SlotId>),
    /// The run state is at least shutdown.
    Shutdown,
    /// The run state is at least stop, and so many queued tasks were handed back.
    Stop(u32),
    /// The run state is tidying.
    Tidy,
    /// The run state is terminated.
    Ended,
    /// Whether the task was in the queue, and is gone.
    Remove(TaskId, bool),
    /// So many cancelled tasks were in the queue, and are gone.
    Purge(u32),
    /// Whether the flag was asked for, and whether the cancel had effect.
    Cancel(TaskId, bool, bool),
    /// The group's next completed task.
    TakeDone(u32, TaskId),
    /// The core size, and for how many slots `prestart` is to be asked.
    Core(u32, u32),
    /// The maximum size.
    Maximum(u32),
    /// The keep-alive in ticks.
    Keep(u64),
    /// Whether core workers time out.
    CoreTimeout(bool),
    /// The moment.
    Tick(u64),
    /// The bare slot that was reserved, if one was.
    Prestart(Option<SlotId>),
}

/// One step of a record.
#[derive(Clone, Copy, Debug, PartialEq, Eq)]
pub struct Entry {
    /// The number of the pass that asked.
    pub by: u32,
    /// What was asked.
    pub ask: Ask,
    /// What was done.
    pub did: Did,
}

impl Did {
    ghost use Rattle.tp_record.specs.Asked.{asked};

    /// What was asked: each answer tells the one ask that it answers.
    #[inline(always)]
    pub fn ask(self) -> Ask
        ensures { result ≡ asked self }
    {
        match self {
            Did::Submit(_, kind, priority, _) => Ask::Submit(kind, priority),
            Did::Look(t, _) => Ask::Look(t),
            Did::Offer(t, _) => Ask::Offer(t),
            Did::Second(t, _) => Ask::Second(t),
            Did::Grow(t, _) => Ask::Grow(t),
            Did::Verdict(t, verdict, _) => Ask::Verdict(t, verdict),
            Did::CallerEnd(t, outcome) => Ask::CallerEnd(t, outcome),
            Did::Open(w, _) => Ask::Open(w),
            Did::Fail(w, _) => Ask::Fail(w),
            Did::Take(w, _) => Ask::Take(w),
            Did::Begin(w, _) => Ask::Begin(w),
            Did::End(w, _, outcome) => Ask::End(w, outcome),
            Did::Leave(w, _) => Ask::Leave(w),
            Did::Shutdown => Ask::Shutdown,
            Did::Stop(_) => Ask::Stop,
            Did::Tidy => Ask::Tidy,
            Did::Ended => Ask::Ended,
            Did::Remove(t, _) => Ask::Remove(t),
            Did::Purge(_) => Ask::Purge,
            Did::Cancel(t, flag, _) => Ask::Cancel(t, flag),
            Did::TakeDone(group, _) => Ask::TakeDone(group),
            Did::Core(size, _) => Ask::Core(size),
            Did::Maximum(size) => Ask::Maximum(size),
            Did::Keep(ticks) => Ask::Keep(ticks),
            Did::CoreTimeout(on) => Ask::CoreTimeout(on),
            Did::Tick(moment) => Ask::Tick(moment),
            Did::Prestart(_) => Ask::Prestart,
        }
    }
}
