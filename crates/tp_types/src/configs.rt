//! A pool's configuration, and the ranges that its settings have to keep.
ghost use Rattle.std.specs.Prelude.{◌≡◌, ◌↔◌, ◌/◌};
ghost use Rattle.tp_types.specs.Policy.{policy_name, PoliciesAreDistinct};
ghost use Rattle.tp_types.specs.Verdict.{verdict_name, VerdictsAreDistinct};
ghost use Rattle.tp_types.specs.Config.{IsConfig, HasBadSizes, HasBadCapacity, HasBadLimit, HasZeroKeep, HasGoodCapacity, are_good_sizes, is_good_capacity, is_good_limit, is_good_keep, checked};
ghost use Rattle.tp_types.specs.Queues.{is_ranked, is_open};

use crate::limits::{MAX_CAPACITY, MAX_RECORD_LIMIT, MAX_WORKERS, MIN_RECORD_LIMIT};
use crate::refusals::PoolError;

// The entries of a task that waits and runs: `submit`, `offer`, `second`, `take`, `begin` and `end`.
const ENTRIES_OF_A_RUN: u32 = 6;

/// The kind of the queue in which tasks wait for a worker.
#[derive(Clone, Copy, Debug, PartialEq, Eq, Hash)]
pub enum QueueKind {
    /// No places: a task is handed to an idle worker, as in a `SynchronousQueue`.
    Handoff,
    /// Always room, as in a `LinkedBlockingQueue`.
    Unbounded,
    /// So many places for tasks, as in an `ArrayBlockingQueue`: 1 to 65,536, else BadCapacity (2).
    Bounded(u32),
    /// Always room, and the task with the least priority number leaves first, as in a `PriorityBlockingQueue`. Of equal ones
    /// that leaves first which was offered first.
    Priority,
}

/// The rule for tasks that the pool cannot take, as the `RejectedExecutionHandler` given to a
/// `ThreadPoolExecutor`.
#[derive(Clone, Copy, Debug, PartialEq, Eq, Hash)]
pub enum Policy {
    /// It is rejected, with Rejected (12), as by `AbortPolicy`.
    Abort,
    /// Its submitter runs it, as by `CallerRunsPolicy`; once the pool is shut down it is dropped.
    CallerRuns,
    /// It is dropped, as by `DiscardPolicy`.
    Discard,
    /// The head of the queue is dropped and the task is offered again, as by `DiscardOldestPolicy`,
    /// at most 64 times for one task; once the pool is shut down the task itself is dropped.
    DiscardOldest,
    /// A handler of the caller's answers a verdict each time, as a `RejectedExecutionHandler` of one's own.
    Own,
}

/// The ruling on one task that the pool cannot take: the policy's, or the answer of the caller's handler
/// under `Policy::Own`.
#[derive(Clone, Copy, Debug, PartialEq, Eq, Hash)]
pub enum Verdict {
    /// It is rejected, with Rejected (12).
    Abort,
    /// Its submitter runs it; once the pool is shut down it is dropped.
    CallerRuns,
    /// It is dropped.
    Discard,
    /// The head of the queue is dropped, and the task is offered again; once the pool is shut down, after 64
    /// times, or without room in the record, the task itself is dropped.
    DiscardOldest,
}

/// A pool's settings at its start, as the arguments of a `ThreadPoolExecutor`'s constructor. A value may have
/// any numbers: `check` says whether a pool can start with them.
#[derive(Clone, Copy, Debug, PartialEq, Eq, Hash)]
pub struct Config {
    /// The core size, in workers, as `corePoolSize`: 0 to the maximum, else BadSizes (1).
    pub core: u32,
    /// The maximum size, in workers, as `maximumPoolSize`: 1 to 1,024, else BadSizes (1).
    pub maximum: u32,
    /// The work queue, as `workQueue`.
    pub queue: QueueKind,
    /// The time that a worker may be idle, in ticks, as `keepAliveTime`: any number, but for 0 where core
    /// workers time out, which is KeepZero (11).
    pub keep: u64,
    /// Whether core workers time out too, as `allowCoreThreadTimeOut`: with a keep-alive of 0 it is
    /// KeepZero (11).
    pub core_timeout: bool,
    /// The rejection policy, as `handler`.
    pub policy: Policy,
    /// The record's limit, in entries: 64 to 1,048,576, else BadLimit (3). Java keeps no record.
    pub record_limit: u32,
}

impl QueueKind {
    /// Whether its tasks leave by their priorities.
    pub fn is_ranked(self) -> bool
        ensures { result ≡ is_ranked self }
    {
        matches!(self, QueueKind::Priority)
    }

    /// Whether it always has room, once its places are reserved.
    pub fn is_open(self) -> bool
        ensures { result ≡ is_open self }
    {
        matches!(self, QueueKind::Unbounded | QueueKind::Priority)
    }

    /// Whether a queue may have so many places: 1 to 65,536 where it is bounded.
    pub fn is_good_capacity(self) -> bool
        ensures { result ≡ is_good_capacity self }
    {
        match self {
            QueueKind::Handoff | QueueKind::Unbounded | QueueKind::Priority => true,
            QueueKind::Bounded(places) => 1 <= places && places <= MAX_CAPACITY,
        }
    }
}

impl Policy {
    /// The policy's name in texts: `abort`, `callerruns`, `discard`, `discardoldest` or `own`.
    pub fn name(self) -> &'static str
        ensures { result.now ≡ policy_name self }
    {
        match self {
            Policy::Abort => "abort",
            Policy::CallerRuns => "callerruns",
            Policy::Discard => "discard",
            Policy::DiscardOldest => "discardoldest",
            Policy::Own => "own",
        }
    }
}

impl Verdict {
    /// The verdict's name in texts: `abort`, `callerruns`, `discard` or `discardoldest`.
    pub fn name(self) -> &'static str
        ensures { result.now ≡ verdict_name self }
    {
        match self {
            Verdict::Abort => "abort",
            Verdict::CallerRuns => "callerruns",
            Verdict::Discard => "discard",
            Verdict::DiscardOldest => "discardoldest",
        }
    }
}

/// The law that no two policies share a name.
pub fn policies_are_distinct()
    ensures { PoliciesAreDistinct }
{}

/// The law that no two verdicts share a name.
pub fn verdicts_are_distinct()
    ensures { VerdictsAreDistinct }
{}

impl Config {
    /// How many tasks that wait and run the record has room for, where each has its six entries.
    pub fn runs(&self) -> u32
        ensures { result ≡ self.now.record_limit / 6 }
    {
        self.record_limit / ENTRIES_OF_A_RUN
    }

    /// Refuses settings that no pool can have, as `ThreadPoolExecutor`'s constructor with its
    /// `IllegalArgumentException`. The first of these that applies is answered: BadSizes (1),
    /// BadCapacity (2), BadLimit (3) or KeepZero (11).
    pub fn check(&self) -> Result<(), PoolError>
        ensures computed { result ≡ checked self.now }

        ensures accepts { (result ≡ Ok tt) ↔ IsConfig self.now }
        ensures sizes { (result ≡ Err PoolError.BadSizes) ↔ HasBadSizes self.now }
        ensures capacity { (result ≡ Err PoolError.BadCapacity)
            ↔ (¬ HasBadSizes self.now × HasBadCapacity self.now.queue) }
        ensures limit { (result ≡ Err PoolError.BadLimit)
            ↔ (¬ HasBadSizes self.now × HasGoodCapacity self.now.queue × HasBadLimit self.now) }
        ensures keep { (result ≡ Err PoolError.KeepZero)
            ↔ (¬ HasBadSizes self.now × HasGoodCapacity self.now.queue × ¬ HasBadLimit self.now
            × HasZeroKeep self.now) }
    {
        if !are_good_sizes(self.core, self.maximum) {
            return Err(PoolError::BadSizes);
        }
        if !self.queue.is_good_capacity() {
            return Err(PoolError::BadCapacity);
        }
        if !is_good_limit(self.record_limit) {
            return Err(PoolError::BadLimit);
        }
        if !is_good_keep(self.keep, self.core_timeout) {
            return Err(PoolError::KeepZero);
        }
        Ok(())
    }
}

/// Whether a pool may have this core size beside this maximum, both in workers: the maximum is 1 to 1,024,
/// and the core size 0 to the maximum.
pub fn are_good_sizes(core: u32, maximum: u32) -> bool
    ensures { result ≡ are_good_sizes core maximum }
{
    1 <= maximum && maximum <= MAX_WORKERS && core <= maximum
}

/// Whether a record may have this limit, in entries: 64 to 1,048,576.
pub fn is_good_limit(entries: u32) -> bool
    ensures { result ≡ is_good_limit entries }
{
    MIN_RECORD_LIMIT <= entries && entries <= MAX_RECORD_LIMIT
}

/// Whether a keep-alive, in ticks, goes with this choice on core workers: it is not 0 where they time out.
pub fn is_good_keep(keep: u64, core_timeout: bool) -> bool
    ensures { result ≡ is_good_keep keep core_timeout }
{
    0 < keep || !core_timeout
}
