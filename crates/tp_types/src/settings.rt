//! Settings made from Java's defaults: a maker, and a setter by value for each field.
ghost use Rattle.std.specs.Prelude.{◌≡◌, ◌≤◌, false};
ghost use Rattle.tp_types.specs.Config.{IsConfig};

use crate::configs::{Config, Policy, QueueKind};
use crate::limits::DEFAULT_RECORD_LIMIT;

impl Config {
    /// A pool of so many workers, as `Executors.newFixedThreadPool(nThreads)`: the core and the maximum size are
    /// `workers`, the queue takes any number of tasks, no worker times out, a refused task is aborted, and the
    /// record has room for 4,096 entries. A pool starts with it where `workers` is 1 to 1,024.
    pub fn fixed(workers: u32) -> Config
        ensures settings { result ≡ record { core = workers; maximum = workers; queue = QueueKind.Unbounded; keep = 0; core_timeout = false; policy = Policy.Abort; record_limit = 4096 } }
        ensures good { 1 ≤ workers → workers ≤ 1024 → IsConfig result }
    {
        Config {
            core: workers,
            maximum: workers,
            queue: QueueKind::Unbounded,
            keep: 0,
            core_timeout: false,
            policy: Policy::Abort,
            record_limit: DEFAULT_RECORD_LIMIT,
        }
    }

    /// These settings with the core size `workers`, as the argument `corePoolSize`. The maximum stays as it is.
    pub fn core(self, workers: u32) -> Config
        ensures { result ≡ record self { core = workers } }
    {
        Config {
            core: workers,
            ..self
        }
    }

    /// These settings with the maximum size `workers`, as the argument `maximumPoolSize`. The core size stays as
    /// it is.
    pub fn maximum(self, workers: u32) -> Config
        ensures { result ≡ record self { maximum = workers } }
    {
        Config {
            maximum: workers,
            ..self
        }
    }

    /// These settings with this work queue, as the argument `workQueue`.
    pub fn queue(self, queue: QueueKind) -> Config
        ensures { result ≡ record self { queue = queue } }
    {
        Config { queue, ..self }
    }

    /// These settings with a keep-alive of `ticks`, as the argument `keepAliveTime`.
    pub fn keep(self, ticks: u64) -> Config
        ensures { result ≡ record self { keep = ticks } }
    {
        Config {
            keep: ticks,
            ..self
        }
    }

    /// These settings with core workers that time out, or do not, as `allowCoreThreadTimeOut(value)`.
    pub fn core_timeout(self, value: bool) -> Config
        ensures { result ≡ record self { core_timeout = value } }
    {
        Config {
            core_timeout: value,
            ..self
        }
    }

    /// These settings with this rejection policy, as the argument `handler`.
    pub fn policy(self, policy: Policy) -> Config
        ensures { result ≡ record self { policy = policy } }
    {
        Config { policy, ..self }
    }

    /// These settings with a record of so many entries. Java keeps no record.
    pub fn record_limit(self, entries: u32) -> Config
        ensures { result ≡ record self { record_limit = entries } }
    {
        Config {
            record_limit: entries,
            ..self
        }
    }
}
