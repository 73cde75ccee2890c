//! Why a comparison was broken off.

use std::alloc::{AllocError, AllocFailed};
use std::io;
use thiserror::Error;
use tp_types::refusals::PoolError;

/// Why a comparison was broken off.
#[derive(Debug, Drop, Error)]
pub enum Unmeasured {
    /// A pool refused what it must not refuse here.
    #[error("{0}")]
    Refused(PoolError),
    /// There was no memory.
    #[error("no memory")]
    NoMemory,
    /// The clock failed.
    #[error("{0}")]
    Failed(io::Error),
    /// A thread was not made.
    #[error("a thread was not made")]
    NoThread,
    /// A pool ran another number of tasks than were submitted.
    #[error("another number of tasks ran")]
    Differs,
}

impl From<PoolError> for Unmeasured {
    fn from(error: PoolError) -> Unmeasured {
        Unmeasured::Refused(error)
    }
}

impl From<AllocError> for Unmeasured {
    fn from(_error: AllocError) -> Unmeasured {
        Unmeasured::NoMemory
    }
}

impl<T: Drop> From<AllocFailed<T>> for Unmeasured {
    fn from(_failed: AllocFailed<T>) -> Unmeasured {
        Unmeasured::NoMemory
    }
}

impl From<io::Error> for Unmeasured {
    fn from(error: io::Error) -> Unmeasured {
        Unmeasured::Failed(error)
    }
}
