//! Settings that no pool can have.

use crate::tellings::Saying;
use tp_text::pools::PoolLine;
use tp_types::configs::QueueKind;
use tp_types::limits::{DEFAULT_RECORD_LIMIT, MAX_WORKERS};
use tp_types::refusals::PoolError;

/// A setting that no pool can have beside the others of its line.
#[derive(Clone, Copy)]
pub enum Setting {
    /// The maximum is 0 or above 1,024.
    Maximum(u32),
    /// The core size is above the maximum: these are the two.
    Core(u32, u32),
    /// The queue's capacity is 0 or above 65,536.
    Capacity(u32),
    /// The record's limit is below 64 or above 1,048,576.
    Limit(u32),
    /// The keep-alive is 0, and core workers are to time out.
    Keep,
}

const MAXIMUM: Saying = Saying {
    sentence: "no pool has a MAX of {}",
    advice: " MAX is 1 to 1024",
};

const CORE: Saying = Saying {
    sentence: "a CORE of {}",
    advice: " CORE is 0 to MAX",
};

const CAPACITY: Saying = Saying {
    sentence: "no queue is bounded by {}",
    advice: " 1 to 65536",
};

const LIMIT: Saying = Saying {
    sentence: "no record has a limit of {}",
    advice: " 64 to 1048576",
};

const KEEP: Saying = Saying {
    sentence: "with coretimeout no pool has a keep-alive of 0",
    advice: " 1 or more, or leave out coretimeout",
};

impl Setting {
    /// What is said of it.
    pub fn saying(self) -> &'static Saying {
        match self {
            Setting::Maximum(_) => &MAXIMUM,
            Setting::Core(_, _) => &CORE,
            Setting::Capacity(_) => &CAPACITY,
            Setting::Limit(_) => &LIMIT,
            Setting::Keep => &KEEP,
        }
    }
}

/// The setting for which a pool line is refused so, and its word, counted from 0.
pub fn refused_setting(pool: PoolLine, refusal: PoolError) -> Option<(usize, Setting)> {
    let behind_queue = match pool.queue {
        QueueKind::Handoff | QueueKind::Unbounded | QueueKind::Priority => 4,
        QueueKind::Bounded(_) => 5,
    };
    let core_timeout = usize::from(pool.core_timeout);
    match (refusal, pool.queue) {
        (PoolError::BadSizes, _) if pool.maximum == 0 || pool.maximum > MAX_WORKERS => {
            Some((2, Setting::Maximum(pool.maximum)))
        }
        (PoolError::BadSizes, _) => Some((1, Setting::Core(pool.core, pool.maximum))),
        (PoolError::BadCapacity, QueueKind::Bounded(places)) => Some((
            4,
            Setting::Capacity(places),
        )),
        (PoolError::BadLimit, _) => {
            let limit = pool.limit.unwrap_or(DEFAULT_RECORD_LIMIT);
            Some((behind_queue + 4 + core_timeout, Setting::Limit(limit)))
        }
        (PoolError::KeepZero, _) => Some((behind_queue + 1, Setting::Keep)),
        _ => None,
    }
}
