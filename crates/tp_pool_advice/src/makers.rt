//! Settings after the makers of `Executors`. `Executors.newFixedThreadPool` is `Config::fixed`.
ghost use Rattle.std.specs.Prelude.{ℕ, ◌≡◌, false};
ghost use Rattle.tp_types.specs.Config.{IsConfig};

use std::thread::{Threads, available_parallelism};
use tp_types::configs::{Config, Policy, QueueKind};
use tp_types::limits::MAX_WORKERS;

/// One worker, and a queue that always has room, as `Executors.newSingleThreadExecutor`.
pub fn single() -> Config
    ensures settings { result ≡ record { core = 1; maximum = 1; queue = QueueKind.Unbounded; keep = 0; core_timeout = false; policy = Policy.Abort; record_limit = 4096 } }
    ensures good { IsConfig result }
{
    Config::fixed(1)
}

/// As `Executors.newCachedThreadPool`: a task goes to an idle worker, or to a new one where there are fewer than 1,024. A worker ends
/// once it was idle for so many ticks.
pub fn cached(keep: u64) -> Config
    ensures settings { result ≡ record { core = 0; maximum = 1024; queue = QueueKind.Handoff; keep = keep; core_timeout = false; policy = Policy.Abort; record_limit = 4096 } }
    ensures good { IsConfig result }
{
    Config::fixed(MAX_WORKERS)
        .core(0)
        .queue(QueueKind::Handoff)
        .keep(keep)
}

/// As `Config::fixed`, with a worker for each processor that this thread may run on: at most 1,024, and one where their number is not
/// known.
pub fn by_processors<R: Threads>(rt: &R) -> Config
    ensures settings { (n : ℕ) × (result ≡ record { core = n; maximum = n; queue = QueueKind.Unbounded; keep = 0; core_timeout = false; policy = Policy.Abort; record_limit = 4096 }) }
    ensures good { IsConfig result }
{
    let workers = match available_parallelism(rt) {
        Ok(processors) => processors.get(),
        Err(_) => 1,
    };
    Config::fixed(workers.clamp(1, MAX_WORKERS as usize) as u32)
}
