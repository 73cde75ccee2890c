//! What callers do with their pool, line by line, and what the pool is to leave.

use crate::harness::boards::Signal;
use crate::harness::calls::Call;
use crate::harness::chores::Work;
use crate::harness::findings::Finding;
use crate::harness::users::{MANNER, Manner, Stance};
use tp_types::configs::{Config, Policy, QueueKind};
use tp_types::ids::TaskId;
use tp_types::refusals::PoolError;
use tp_types::states::RunState;
use tp_types::tasks::{Kind, Outcome};

/// What a submission answers, of the task that has the next number.
#[derive(Clone, Copy)]
pub enum Answer {
    Accepted,
    RanHere(Outcome),
    Discarded,
    /// Refused with 12, and with the job.
    Rejected,
    /// Any but a refusal.
    Taken,
}

/// What the pool shows.
#[derive(Clone, Copy)]
pub enum View {
    Live(u32),
    Completed(u32),
    Queued(u32),
    /// All tasks that were not rejected are completed.
    AllCompleted,
    /// All counters are 0.
    NoTasks,
    State(RunState),
    Now(u64),
    /// The steps that it has made.
    Steps(u64),
}

/// What a caller tells other threads, or hears from them.
#[derive(Clone, Copy)]
pub enum Cue {
    Put(Signal, u64),
    /// Waits until the count is so high.
    Reaches(Signal, u64),
    Is(Signal, u64),
    /// Sleeps for so many microseconds, or a little longer.
    Rest(u64),
    /// Sleeps for so many more from life to life: none in the first one.
    RestLonger(u64),
    /// Sleeps for 0 to 180 microseconds. The time differs from round to round, so the worker is met anywhere between its task's
    /// end and its sleep.
    Vary,
}

/// What takes more than one call.
#[derive(Clone, Copy)]
pub enum Deal {
    /// Hands in a task until a worker is there for it.
    Give(Work),
    /// The receipts are the first so many entries of a pool without workers.
    Unstaffed(usize),
    /// Reads the pool whenever a callback waits for that, until the other caller is over.
    Answers,
    /// Lets the keep-alive pass until so many workers live.
    TimesOut(u32),
    /// One of two workers leaves, where both were idle at the last tick.
    OneLeaves,
    /// Hands in a task whose job has this number. Where memory is wanted that job has come back and nothing has changed: it is
    /// handed in once more.
    InsistsTask(u32),
    /// Makes the call, and makes it once more where memory is wanted and nothing has changed. This is the last answer.
    Insists(Call, Result<bool, PoolError>),
    /// The same. The pass has so many receipts then, and the pool has made as many steps.
    Counts(Call, Result<bool, PoolError>, u64),
    /// The moment is later by so many ticks.
    Pass(u64),
}

/// Many jobs at once.
#[derive(Clone, Copy)]
pub enum Many {
    /// The numbers that are answered begin with this one, and are as many as the jobs.
    All(&'static [Work], u32),
    /// Until this moment.
    AllUntil(&'static [Work], u64, u32),
    /// For at most so many microseconds by the clock.
    AllFor(&'static [Work], u64, u32),
    AllRefused(&'static [Work], PoolError),
    Any(&'static [Work], Result<i64, PoolError>),
}

/// What a thread sees of a pool that it watches: the run state, the number of steps, the number of queued tasks, and each slot that has a
/// task, with the task's number.
#[derive(Clone, Copy)]
pub struct Seen {
    pub state: RunState,
    pub steps: u64,
    pub queued: u32,
    pub busy: &'static [(usize, u32)],
}

/// A line of a script. Each says how it is answered.
#[derive(Clone, Copy)]
pub enum Step {
    /// Hands in a job of this kind.
    Hand(Kind, Work, Answer),
    /// A call that is answered as it says, and one that is refused.
    Call(Call),
    Refused(Call, PoolError),
    /// The pool shows this now, or comes to show it within some seconds.
    Is(View),
    Becomes(View),
    Cue(Cue),
    Deal(Deal),
    /// Submits a job of this kind by a service, and gets this number.
    Submit(Kind, Work, u32),
    Get(u32, Result<i64, PoolError>),
    GetUntil(u32, u64, Result<i64, PoolError>),
    TryGet(u32, Result<Option<i64>, PoolError>),
    /// Waits by the clock, for at most so many microseconds: for the future of this number, or for the pool's end.
    GetFor(u32, u64, Result<i64, PoolError>),
    EndFor(u64, Result<(), PoolError>),
    /// A done task of this group.
    Take(u32, Result<TaskId, PoolError>),
    /// The same, but by the clock, for at most so many microseconds.
    TakeFor(u32, u64, Result<TaskId, PoolError>),
    Poll(u32, Result<Option<TaskId>, PoolError>),
    Many(Many),
    /// A thread that watches the pool sees this. The pool keeps its record.
    Watch(Seen),
    /// Releases the task of this number. The pool keeps no record; nor do those of the lines below.
    Release(u32, Result<(), PoolError>),
    /// Has these jobs run, all of them or up to one that is rejected, and releases each task whose number comes back.
    Releases(&'static [Work]),
    /// The pool keeps so many tasks, or so many at most.
    Keeps(u32),
    KeepsAtMost(u32),
}

/// A line of the caller of this number.
pub type Turn = (usize, Step);

/// A close that is refused so, with all passes or without the last one, and what is done then. The pass that was withheld comes back
/// behind the others, or before the last of them.
#[derive(Clone, Copy)]
pub struct Refusal {
    pub withholds: bool,
    pub error: PoolError,
    pub then: &'static [Turn],
    pub exchanged: bool,
}

/// When a pool's gate yields at all points: never, always, or in the first life and in every other one after it.
#[derive(Clone, Copy)]
pub enum Yields {
    Never,
    Always,
    InTurns,
}

/// How a pool lives, and how many times.
#[derive(Clone, Copy)]
pub struct Life {
    pub settings: Config,
    pub manner: Manner,
    pub yields: Yields,
    pub times: u32,
    pub callers: usize,
    /// Lines of all callers, who take turns in one thread. They come first, where no second caller has a thread of its own.
    pub turns: &'static [Turn],
    /// The first caller's lines, in three parts, of which the middle one is played so many times.
    pub first: &'static [Step],
    pub middle: &'static [Step],
    pub rounds: u32,
    pub last: &'static [Step],
    /// The lines of a second caller, in a thread of its own beside the first. They stand in parts, which several lives may share.
    pub beside: &'static [&'static [Step]],
    /// Closes that come too early, or without all passes.
    pub refusals: &'static [Refusal],
    /// What the pool has left.
    pub findings: &'static [Finding],
}

/// Two workers, and a queue without end.
pub const SETTINGS: Config = Config {
    core: 2,
    maximum: 2,
    queue: QueueKind::Unbounded,
    keep: 7,
    core_timeout: false,
    policy: Policy::Abort,
    record_limit: 4096,
};

/// One worker.
pub const ONE_WORKER: Config = Config {
    core: 1,
    maximum: 1,
    ..SETTINGS
};

/// One caller does nothing: once with a gate that yields, and once with one that never does.
pub const LIFE: Life = Life {
    settings: SETTINGS,
    manner: MANNER,
    yields: Yields::InTurns,
    times: 2,
    callers: 1,
    turns: &[],
    first: &[],
    middle: &[],
    rounds: 1,
    last: &[],
    beside: &[],
    refusals: &[],
    findings: &[],
};

/// Two callers, each in a thread of its own.
pub const PAIR: Life = Life { callers: 2, ..LIFE };

/// Workers that are held before bodies.
pub const HELD: Manner = Manner {
    stance: Stance::Held,
    ..MANNER
};

/// A plain task that looks at its flag, and is accepted.
pub const LOOKS: Step = Step::Hand(Kind::Plain, Work::Look, Answer::Accepted);

/// One that waits in its body.
pub const WAITS: Step = Step::Hand(Kind::Plain, Work::Wait, Answer::Accepted);

pub const SHUTS_DOWN: Step = Step::Call(Call::Shutdown);

/// Waits for the pool's end, without a limit.
pub const AWAITS_END: Step = Step::Call(Call::Await(u64::MAX));

/// Lets workers go on that are held before bodies.
pub const LETS_GO: Step = Step::Cue(Cue::Put(Signal::Open, 1));

/// Lets jobs go on that wait in their bodies.
pub const TELLS: Step = Step::Cue(Cue::Put(Signal::Told, 1));

/// Waits until a worker has come to the gate that holds it.
pub const CAME: Step = Step::Cue(Cue::Reaches(Signal::Came, 1));

/// Says that the second caller is over.
pub const IS_OVER: Step = Step::Cue(Cue::Put(Signal::Over, 1));

/// Task 0 is a future, and answers 6.
pub const FIRST: Step = Step::Submit(Kind::Future, Work::End(Ok(6)), 0);
