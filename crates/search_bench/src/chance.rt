//! Numbers by chance, the same for the same seed.

ghost use Rattle.std.specs.Prelude.{◌<◌, ◌≤◌};

use rand_core::utils::NextWord;
use rand_pcg::Pcg32;

// Which of the generator's streams is drawn from.
const STREAM: u64 = 1;

/// A stream of numbers by chance.
#[derive(Drop)]
pub struct Chance {
    words: Pcg32,
}

impl Chance {
    /// The stream of a seed.
    pub fn new(seed: u64) -> Chance {
        Chance {
            words: Pcg32::new(seed, STREAM),
        }
    }

    /// A number below the count.
    pub fn below(&mut self, count: u32) -> u32
        requires { 0 < count }
        ensures { result < count }
    {
        self.words.next_word() % count
    }

    /// A number from the least to the most, both included.
    pub fn between(&mut self, least: u32, most: u32) -> u32
        requires order { least ≤ most }
        requires range { most < 65536 }
        ensures least { least ≤ result }
        ensures most { result ≤ most }
    {
        least + self.below(most - least + 1)
    }

    /// Yes or no.
    pub fn flip(&mut self) -> bool {
        self.below(2) == 0
    }
}
