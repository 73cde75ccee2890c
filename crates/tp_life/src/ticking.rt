//! Keep-alives by the clock: a caller of a life's pool tells it the time.
ghost use Rattle.std.specs.Prelude.{true, ◌≡◌, suc, vec_len, IfOk, IfErr};
ghost use Rattle.tp_book.specs.Reports.{TellsRecord};
ghost use Rattle.tp_life.specs.Lived.{IsLived, IsUnlived};
ghost use Rattle.tp_life.specs.Ticking.{LeavesTicked, Tells};

use crate::calls::{Calls, Life};
use crate::lives::with_pool;
use crate::tasks::Task;
use std::alloc::Global;
use std::sync::{Condvar, Mutex, Wait};
use std::time::{Clock, Duration, Instant};
use tp_book::reports::Report;
use tp_pool::Runtime;
use tp_pool::readings::Reading;
use tp_pool_holds::edges::Edge;
use tp_types::configs::Config;
use tp_types::refusals::PoolError;

/// What came of a caller of `with_ticker`.
#[derive(Drop)]
pub enum End<O> {
    /// Of its life.
    Lived(O),
    /// Of the ticker, who is the last one: the refusal of a tick, where one was refused. After it no worker times out any more.
    Ticker(Option<PoolError>),
}

/// As `with_pool`, with a ticker, whose end comes last among those of the callers: it tells the time in milliseconds, so that
/// `keep` is a keep-alive of so many. Java's pool reads the clock itself.
///
/// Time stands still where no worker could time out: it is told while a worker lives, until a keep-alive has gone by since the pool's last
/// step. It is told eight times in a keep-alive, so a worker may end an eighth early or late, and a record takes at most nine ticks for
/// a step of a caller or a worker. The ticker goes by the keep-alive of these settings, also where a caller sets another one. Who tells
/// the time beside it may have it refused.
///
/// Refused as `with_pool`. A tick that is refused ends the ticker alone.
pub fn with_ticker<
    V: Send + Drop + 'static,
    W: Task<Output = V> + Send + 'static,
    O: Send + Drop,
    L: Life<Task = W, Out = O> + Sync,
    E: Edge + Send + Sync + 'static,
    R: Runtime + Clock,
>(
    rt: &R,
    alloc: Global,
    settings: Config,
    edge: E,
    callers: u32,
    life: &L,
) -> Result<(Vec<End<O>>, Report), PoolError>
    ensures outs { IfOk result (λ r. vec_len r.0 ≡ suc callers) }
    ensures lived { IfOk result (λ r. IsLived (LeavesTicked settings callers (L.leaves life.now settings)) true TellsRecord settings settings r.0.items r.1) }
    ensures refused { IfErr result (IsUnlived settings settings) }
{
    let Some(all) = callers.checked_add(1) else {
        return Err(PoolError::NoMemory);
    };
    let ticking = Ticking {
        life,
        last: callers,
        ticker: Ticker {
            keep: settings.keep,
            callers: Mutex::new(callers),
            gone: Condvar::new(),
        },
    };
    with_pool(rt, alloc, settings, edge, all, &ticking)
}

// The lives of callers, and of the ticker behind them. It comes last, so that nobody waits for it who lives in one thread with it.
#[derive(Drop)]
struct Ticking<'a, L> {
    life: &'a L,
    last: u32,
    ticker: Ticker,
}

// The ticker, who is there until all others are through.
#[derive(Drop)]
struct Ticker {
    // The keep-alive, in milliseconds.
    keep: u64,
    // How many callers are not through.
    callers: Mutex<u32>,
    // Somebody is through.
    gone: Condvar,
}

// What the ticker saw when it looked last.
#[derive(Clone, Copy)]
struct Sight {
    // The record's length, in entries.
    steps: u64,
    // For how long no step was seen but the ticker's own, in milliseconds.
    quiet: u64,
}

impl Sight {
    // It looks once more, so many milliseconds later: whether time goes by for the pool's workers, of whom none lives for longer than
    // this keep-alive without a step.
    fn goes_by(&mut self, seen: &Reading, keep: u64, passed: u64) -> bool {
        if seen.steps != self.steps {
            self.steps = seen.steps;
            self.quiet = 0;
        }
        if seen.counts.live == 0 || keep <= self.quiet {
            return false;
        }
        // The tick to come is the ticker's own step.
        self.steps = self.steps.saturating_add(1);
        self.quiet = self.quiet.saturating_add(passed);
        true
    }
}

impl Ticker {
    // Tells the time until all callers are through, or a moment is refused, as it answers.
    fn tell<P: Calls>(&self, pool: &mut P) -> Option<PoolError>
        ensures { Tells P.terms (P.pass pool.old) (P.pass pool.new) result }
    {
        let steps = pool.look().steps;
        let mut sight = Sight { steps, quiet: 0 };
        for _ in 0..u64::MAX {
            let Some(passed) = self.pause(pool.host()) else {
                return None;
            };
            let seen = pool.look();
            if sight.goes_by(&seen, self.keep, passed) {
                let now = seen.now.saturating_add(passed);
                if let Err(error) = pool.tick(now) {
                    return Some(error);
                }
            }
        }
        None
    }

    // Waits for an eighth of the keep-alive, and answers how many milliseconds have gone by; None once all callers are through.
    fn pause<H: Wait + Clock>(&self, host: &H) -> Option<u64> {
        let eighth = match self.keep {
            0 => 1_000,
            keep => (keep / 8).max(1),
        };
        let begun = Instant::now(host);
        let callers = self.callers.lock(host);
        let most = Duration::from_millis(eighth);
        let (callers, _) = (self.gone).wait_timeout_while(host, callers, most, |left| 0 < *left);
        if *callers == 0 {
            return None;
        }
        match begun.and_then(|begun| begun.elapsed(host)) {
            Ok(passed) => Some(u64::try_from(passed.as_millis()).unwrap_or(eighth)),
            Err(_) => Some(eighth),
        }
    }

    // A caller is through.
    fn leave<H: Wait>(&self, host: &H) {
        let mut callers = self.callers.lock(host);
        *callers = callers.saturating_sub(1);
        drop(callers);
        self.gone.notify_all();
    }
}

impl<'a, L: Life> Life for Ticking<'a, L> {
    ghost use Rattle.tp_life.specs.Ticking.{LeavesTicked};

    type Out = End<L::Out>;

    type Task = L::Task;

    ghost leaves = { λ t c who old new end. LeavesTicked c t.last (L.leaves t.life.now c) who old new end };

    fn live<P: Calls<Task = L::Task>>(&self, pool: &mut P, who: u32) -> End<L::Out> {
        if who == self.last {
            return End::Ticker(self.ticker.tell(pool));
        }
        let out = self.life.live(pool, who);
        self.ticker.leave(pool.host());
        End::Lived(out)
    }
}
