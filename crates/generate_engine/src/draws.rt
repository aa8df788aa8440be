//! Numbers drawn from a seed.
ghost use Rattle.std.specs.Prelude.{◌≡◌, ◌<◌};
ghost use Rattle.rand_pcg.specs.Lcg.{started, increment_of};
ghost use Rattle.rand_pcg.specs.Pcg.{multiplier_64, pcg32};

use rand_core::utils::NextWord;
use rand_pcg::Pcg32;
use std::marker::Model;

/// The words of the generator of a seed, on its stream 0.
#[derive(Drop)]
pub(crate) struct Draws {
    generator: Pcg32,
}

impl Model for Draws {
    ghost use Rattle.rand_pcg.specs.Lcg.{Lcg};

    ghost Value = { Lcg };

    ghost view = { λ d. d.generator };
}

impl Draws {
    pub(crate) fn new(seed: u64) -> Draws
        ensures { result ≡ started 64 multiplier_64 seed (increment_of 64 0) }
    {
        Draws {
            generator: Pcg32::new(seed, 0),
        }
    }

    /// The next word.
    pub(crate) fn word(&mut self) -> u32
        ensures { (result, self.new) ≡ pcg32 self.old }
    {
        self.generator.next_word()
    }

    /// A number below the count.
    pub(crate) fn below(&mut self, count: u32) -> u32
        requires { 0 < count }
        ensures { result < count }
    {
        self.word() % count
    }

    /// Whether one of so many chances comes.
    pub(crate) fn chance(&mut self, count: u32) -> bool
        requires { 0 < count }
    {
        self.below(count) == 0
    }
}
