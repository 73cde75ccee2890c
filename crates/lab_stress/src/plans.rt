//! What a pool is to live through.

use crate::calls::Line;
use crate::chores::Work;
use crate::luck::Luck;
use tp_life::prelude::*;
use tp_types::tasks::Outcome;

/// The submitters of a pool that lives by chance.
pub const SUBMITTERS: u32 = 4;

/// What a caller does, line by line.
pub type Lines = &'static [Line];

/// What becomes of a worker that was asked for: it is made, unless chance has the factory refuse it; the factory refuses it; its thread can't
/// be made.
#[derive(Clone, Copy, PartialEq, Eq)]
pub enum Making {
    Made,
    Refused,
    NoThread,
}

/// A pool's settings, its users, and its callers.
#[derive(Clone, Copy)]
pub struct Plan {
    /// From which all sources of chance are made.
    pub seed: u64,
    /// The settings.
    pub settings: Config,
    /// Whether it keeps a record.
    pub keeps: bool,
    /// Whether its callers make the pool's own calls. Then they can start workers, too.
    pub owned: bool,
    /// Of eight asks for a worker the factory refuses so many.
    pub refusals: u32,
    /// What becomes of the first two workers.
    pub makings: (Making, Making),
    /// Which ask for a worker is answered only once that is told, the first being 1; 0 for none.
    pub halts: u64,
    /// How many callers it has, and how many jobs they have.
    pub callers: u32,
    pub jobs: u32,
    /// How many calls a controller makes, where its callers live by chance: the others are submitters. Else two play their lines.
    pub chance: Option<u32>,
    /// The lines of the first caller, with its way to go on and how it hears of the end, and those of the second one.
    pub first: Lines,
    pub way: Lines,
    pub end: Lines,
    pub second: Lines,
    /// How many jobs workers run, where that does not hang on chance.
    pub run: Option<u32>,
}

impl Plan {
    /// Two callers of a pool with one worker, who is no core worker, and so many jobs.
    pub fn plain(seed: u64, jobs: u32, first: Lines, second: Lines) -> Plan {
        Plan {
            seed,
            settings: Config::fixed(1).core(0),
            keeps: true,
            owned: Luck::new(seed, 4).once_in(2),
            refusals: 0,
            makings: (Making::Made, Making::Made),
            halts: 0,
            callers: 2,
            jobs,
            chance: None,
            first,
            way: &[],
            end: &[],
            second,
            run: None,
        }
    }

    /// A pool with 1 to 8 workers, which lives by chance.
    pub fn by_chance(seed: u64) -> Plan {
        let mut luck = Luck::new(seed, 0);
        let maximum = 1 + luck.below(8);
        let settings = Config {
            core: luck.below(maximum + 1),
            maximum,
            queue: match luck.below(5) {
                0 => QueueKind::Handoff,
                1 => QueueKind::Unbounded,
                2 => QueueKind::Priority,
                _ => QueueKind::Bounded(1 + luck.below(6)),
            },
            keep: 1 + u64::from(luck.below(4)),
            core_timeout: luck.once_in(2),
            policy: match luck.below(5) {
                0 => Policy::Abort,
                1 => Policy::CallerRuns,
                2 => Policy::Discard,
                3 => Policy::DiscardOldest,
                _ => Policy::Own,
            },
            record_limit: if luck.once_in(8) { 96 } else { 240 },
        };
        Plan {
            settings,
            refusals: if luck.once_in(4) { 2 } else { 0 },
            callers: SUBMITTERS + 1,
            chance: Some(luck.below(64)),
            ..Plan::plain(seed, SUBMITTERS * (1 + luck.below(7)), &[], &[])
        }
    }

    /// What becomes of the worker of this ask, the first being 1.
    pub fn making(&self, ask: u64) -> Making {
        match ask {
            1 => self.makings.0,
            2 => self.makings.1,
            _ => Making::Made,
        }
    }

    /// What the job of this number does, where chance says it.
    pub fn work(&self, number: u32) -> Work {
        let mut luck = Luck::new(self.seed, 1_000 + u64::from(number));
        match luck.below(6) {
            0 => Work::Yields(luck.below(20)),
            1 => Work::Spins(luck.below(5_000)),
            2 => Work::Faults,
            _ => Work::Nothing,
        }
    }

    /// What the pool is told of the outcome of the job of this number. Its value lies beside that.
    pub fn outcome(&self, number: u32) -> Outcome {
        match self.work(number) {
            Work::Faults if self.chance.is_some() => Err(number),
            _ => Ok(0),
        }
    }
}
