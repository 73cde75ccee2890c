//! How long after its submission the body of a task begins.

use crate::courses::nanoseconds;
use crate::unmeasured::Unmeasured;
use std::alloc::{AllocError, Global};
use std::hint::spin_loop;
use std::sync::Arc;
use std::sync::atomic::{AtomicU64, Ordering};
use std::time::{Clock, Duration, Instant};

// A submitter gives up after so many looks whether the body has begun.
const LOOKS: u32 = 100_000_000;

/// The watch of one start. The body reads it: where the worker wakes on the processor of its submitter, that one goes on
/// only once the worker has parked again.
#[derive(Drop)]
pub struct Watch<R> {
    rt: R,
    set: Instant,
    // When the body began, in nanoseconds since the watch was set; 0 as long as it has not.
    begun: Arc<AtomicU64>,
}

impl<R: Clock + Copy> Watch<R> {
    /// A watch that is set now.
    pub fn new(rt: R, alloc: Global) -> Result<Watch<R>, Unmeasured> {
        Ok(Watch {
            rt,
            set: Instant::now(&rt)?,
            begun: Arc::new(alloc, AtomicU64::new(0))?,
        })
    }

    /// The same watch, for the body.
    pub fn try_clone(&self) -> Result<Watch<R>, AllocError> {
        Ok(Watch {
            rt: self.rt,
            set: self.set,
            begun: Arc::try_clone(&self.begun)?,
        })
    }

    /// How long ago it was set.
    pub fn time(&self) -> Result<Duration, Unmeasured> {
        Ok(self.set.elapsed(&self.rt)?)
    }

    /// The body begins.
    pub fn begin(&self) {
        let time = match self.set.elapsed(&self.rt) {
            Ok(time) => nanoseconds(time).max(1),
            Err(_) => u64::MAX,
        };
        self.begun.store(time, Ordering::SeqCst);
    }

    /// How long after this time the body began, once it has.
    pub fn begun_after(&self, submitted: Duration) -> Result<Duration, Unmeasured> {
        for _ in 0..LOOKS {
            let begun = self.begun.load(Ordering::SeqCst);
            if begun != 0 {
                return Ok(Duration::from_nanos(begun).saturating_sub(submitted));
            }
            spin_loop();
        }
        Err(Unmeasured::Differs)
    }
}
