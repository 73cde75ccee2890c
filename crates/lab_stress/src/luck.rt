//! Random numbers, the same for the same seed.

ghost use Rattle.std.specs.Prelude.{◌≤◌};

use rand_core::utils::NextWord;
use rand_pcg::Pcg32;

/// A source of random numbers.
#[derive(Drop)]
pub struct Luck {
    words: Pcg32,
}

impl Luck {
    /// The source of this seed, and of this stream among those of the seed.
    pub fn new(seed: u64, stream: u64) -> Luck {
        Luck {
            words: Pcg32::new(seed, stream),
        }
    }

    /// A number below `bound`, or 0 where that is 0.
    pub fn below(&mut self, bound: u32) -> u32
        ensures { result ≤ bound }
    {
        self.words.next_word() % bound.max(1)
    }

    /// True once in so many times.
    pub fn once_in(&mut self, times: u32) -> bool {
        self.below(times) == 0
    }
}
