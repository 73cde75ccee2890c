//! The line that says which pool a scenario is about.

ghost use Rattle.std.specs.Prelude.{◌≡◌, List, ℕ, Option, Some, None};
ghost use Rattle.std.specs.Option.{option_map};
ghost use Rattle.std.specs.Fmt.{decimal};
ghost use Rattle.tp_text.specs.Reads.{Any, ReadsAs, ReadsNumberOn, spaced};
ghost use Rattle.tp_text.specs.Fits.{Fits32, Fits64};
ghost use Rattle.tp_text.specs.Pools.{FitsOptions, FitsPool, FitsQueue, FitsSizes, config_of, sizes_text, keep_text, limit_text, options_text, policy_text, pool_text, queue_text, waiting_text};
ghost use Rattle.tp_types.specs.Policy.{policy_name};

use crate::numbers::{long_number, number};
use crate::words::{behind, first_word};
use std::fmt;
use tp_types::configs::{Config, Policy, QueueKind};
use tp_types::limits::DEFAULT_RECORD_LIMIT;

/// The line that says which pool a scenario is about. Its numbers may be out of range for a pool.
#[derive(Clone, Copy, Debug, PartialEq, Eq)]
pub struct PoolLine {
    /// The core size in workers.
    pub core: u32,
    /// The maximum size in workers.
    pub maximum: u32,
    /// The work queue.
    pub queue: QueueKind,
    /// The keep-alive in ticks.
    pub keep: u64,
    /// The rejection policy.
    pub policy: Policy,
    /// Whether core workers time out too.
    pub core_timeout: bool,
    /// The record limit in entries, where the line says one.
    pub limit: Option<u32>,
}

/// A work queue, as a pool line says it: `bounded 8`.
#[derive(Clone, Copy)]
pub struct ShownQueue(pub QueueKind);

impl fmt::Display for ShownQueue {
    ghost output = { λ queue. Some (queue_text queue.0) };

    fn fmt<W: fmt::Write>(&self, f: &mut fmt::Formatter<W>) -> fmt::Result {
        match self.0 {
            QueueKind::Handoff => f.write_str("handoff"),
            QueueKind::Unbounded => f.write_str("unbounded"),
            QueueKind::Bounded(places) => write!(f, "bounded {places}"),
            QueueKind::Priority => f.write_str("priority"),
        }
    }
}

/// Whether core workers time out, and the record limit where one is said.
type Options = (bool, Option<u32>);

fn policy(word: &str) -> Option<Policy>
    ensures { ReadsAs policy_name Any word.now result }
{
    match word {
        "abort" => Some(Policy::Abort),
        "callerruns" => Some(Policy::CallerRuns),
        "discard" => Some(Policy::Discard),
        "discardoldest" => Some(Policy::DiscardOldest),
        "own" => Some(Policy::Own),
        _ => None,
    }
}

/// A record limit behind its word.
fn limit(text: &str) -> Option<u32>
    ensures { ReadsAs limit_text Fits32 text.now result }
{
    number(behind(text, "limit")?)
}

/// What follows the policy, where something does.
fn stated_options(text: &str) -> Option<Options>
    ensures { ReadsAs options_text FitsOptions (Some text.now) result }
{
    if text == "coretimeout" {
        return Some((true, None));
    }
    match behind(text, "coretimeout") {
        None => Some((false, Some(limit(text)?))),
        Some(text) => Some((true, Some(limit(text)?))),
    }
}

/// What follows the policy.
fn options(rest: Option<&str>) -> Option<Options>
    ensures { ReadsAs options_text FitsOptions (option_map (λ r. r.now) rest.entry) result }
{
    match rest {
        None => Some((false, None)),
        Some(text) => stated_options(text),
    }
}

/// The policy, and what follows it.
fn policy_on(text: &str) -> Option<(Policy, Options)>
    ensures { ReadsAs policy_text (λ p. FitsOptions p.1) text.now result }
{
    let (word, rest) = first_word(text);
    Some((policy(word)?, options(rest)?))
}

/// A number, and what follows it after a space.
fn number_on(text: &str) -> Option<(u32, &str)>
    ensures { ReadsNumberOn Fits32 text.now (option_map (λ p. (p.0, p.1.now)) result) }
{
    let (word, rest) = first_word(text);
    Some((number(word)?, rest?))
}

/// Ticks, and what follows them after a space.
fn ticks_on(text: &str) -> Option<(u64, &str)>
    ensures { ReadsNumberOn Fits64 text.now (option_map (λ p. (p.0, p.1.now)) result) }
{
    let (word, rest) = first_word(text);
    Some((long_number(word)?, rest?))
}

/// The keep-alive behind its word, and what follows it.
fn keep_on(text: &str) -> Option<(u64, (Policy, Options))>
    ensures { ReadsAs keep_text (λ p. Fits64 p.0 × FitsOptions p.1.1) text.now result }
{
    let (keep, rest) = ticks_on(behind(text, "keep")?)?;
    Some((keep, policy_on(rest)?))
}

/// A capacity, and what follows it.
fn capacity_on(text: &str) -> Option<(u32, (u64, (Policy, Options)))>
    ensures { ReadsAs (λ p. spaced (decimal p.0) (keep_text p.1)) (λ p. Fits32 p.0 × Fits64 p.1.0 × FitsOptions p.1.1.1) text.now result }
{
    let (capacity, rest) = number_on(text)?;
    Some((capacity, keep_on(rest)?))
}

/// The queue, and what follows it.
fn queue_on(text: &str) -> Option<(QueueKind, (u64, (Policy, Options)))>
    ensures { ReadsAs waiting_text (λ p. FitsQueue p.0 × Fits64 p.1.0 × FitsOptions p.1.1.1) text.now result }
{
    let (word, rest) = first_word(text);
    let rest = rest?;
    match word {
        "handoff" => Some((QueueKind::Handoff, keep_on(rest)?)),
        "unbounded" => Some((QueueKind::Unbounded, keep_on(rest)?)),
        "bounded" => {
            let (capacity, on) = capacity_on(rest)?;
            Some((QueueKind::Bounded(capacity), on))
        }
        "priority" => Some((QueueKind::Priority, keep_on(rest)?)),
        _ => None,
    }
}

/// The sizes, and what follows them.
fn sizes_on(text: &str) -> Option<(u32, (u32, (QueueKind, (u64, (Policy, Options)))))>
    ensures { ReadsAs sizes_text FitsSizes text.now result }
{
    let (core, rest) = number_on(text)?;
    let (maximum, rest) = number_on(rest)?;
    Some((core, (maximum, queue_on(rest)?)))
}

/// The pool that a text says.
pub fn pool_of(text: &str) -> Option<PoolLine>
    ensures { ReadsAs pool_text FitsPool text.now result }
{
    let (core, (maximum, (queue, (keep, (policy, (core_timeout, limit)))))) = sizes_on(behind(
        text, "pool",
    )?)?;
    Some(PoolLine {
        core,
        maximum,
        queue,
        keep,
        policy,
        core_timeout,
        limit,
    })
}

impl PoolLine {
    /// The configuration that the line says: without a limit the record has 4,096 entries.
    pub fn config(&self) -> Config
        ensures { result ≡ config_of self.now }
    {
        Config {
            core: self.core,
            maximum: self.maximum,
            queue: self.queue,
            keep: self.keep,
            core_timeout: self.core_timeout,
            policy: self.policy,
            record_limit: self.limit.unwrap_or(DEFAULT_RECORD_LIMIT),
        }
    }
}
