//! Futures for a pool's callers, with one thread that waits and with two.

mod answers;
mod cancels;
mod endless;
mod refusals;
mod waits;
mod watching;

use crate::harness::scripts::{LIFE, Life, ONE_WORKER};
use crate::harness::users::{MANNER, Manner, Stance};

// Workers whose threads have small stacks.
const SMALL: Manner = Manner {
    stack: 262_144,
    ..MANNER
};

// A pool of one worker.
pub const ONE: Life = Life {
    settings: ONE_WORKER,
    manner: SMALL,
    ..LIFE
};

// The same, where the worker is held before bodies.
pub const HELD_ONE: Life = Life {
    manner: Manner {
        stance: Stance::Held,
        ..SMALL
    },
    ..ONE
};
