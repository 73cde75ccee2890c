//! Jobs that cost little or nothing themselves, each in a box.

use crate::unmeasured::Unmeasured;
use crate::watches::Watch;
use std::alloc::{AllocError, Global};
use std::hint::spin_loop;
use std::time::Clock;
use tp_protocols::flags::CancelFlag;
use tp_protocols::jobs::Job;
use tp_types::tasks::{Outcome, Promise, WIDEST, as_widest};

// What lies in the box.
#[derive(Drop)]
struct Errand<R> {
    watch: Option<Watch<R>>,
    turns: u32,
}

/// A job that reads a watch where it begins, or none, and then passes some time.
#[derive(Drop)]
pub struct Parcel<R> {
    answer: i64,
    errand: Box<Errand<R>>,
}

impl<R: Clock + Copy> Parcel<R> {
    /// A job with no watch that passes so many turns of `spin_loop`.
    pub fn new(alloc: Global, turns: u32) -> Result<Parcel<R>, AllocError> {
        Parcel::packed(alloc, Errand { watch: None, turns })
    }

    /// An empty job with a watch that is set now, and that watch.
    pub fn timed(rt: R, alloc: Global) -> Result<(Parcel<R>, Watch<R>), Unmeasured> {
        let watch = Watch::new(rt, alloc)?;
        let errand = Errand {
            watch: Some(watch.try_clone()?),
            turns: 0,
        };
        Ok((Parcel::packed(alloc, errand)?, watch))
    }

    fn packed(alloc: Global, errand: Errand<R>) -> Result<Parcel<R>, AllocError> {
        Ok(Parcel {
            answer: 0,
            errand: Box::new(alloc, errand)?,
        })
    }
}

impl<R: Clock + Copy + Send> Job for Parcel<R> {
    ghost use Rattle.tp_types.specs.declared.tasks.TheConstants.{WIDEST};

    ghost promised = { λ _. WIDEST };

    fn promise(&self) -> Promise {
        WIDEST
    }

    fn call(&mut self, _cancel: &CancelFlag) -> Outcome {
        if let Some(watch) = &self.errand.watch {
            watch.begin();
        }
        for _ in 0..self.errand.turns {
            spin_loop();
        }
        as_widest(Ok(self.answer))
    }
}
