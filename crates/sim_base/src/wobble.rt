//! The random words by which ticks drift and edges are off.
ghost use Rattle.std.specs.Prelude.{◌≡◌, ◌%◌, ◌<◌, ◌≤◌};
ghost use Rattle.rand_core.specs.Pcg32Seed.{pcg32_seed};
ghost use Rattle.rand_pcg.specs.Pcg.{pcg32_of_seed};
ghost use Rattle.sim_base.specs.Wobbles.{behind_word, word};

use rand_core::SeedableRng;
use rand_core::utils::NextWord;
use rand_pcg::Lcg64Xsh32;
use std::marker::Model;

/// A generator of random words (PCG: XSH RR, 64 bits of state, 32-bit words). Contracts see its state and its
/// increment.
#[derive(Clone, Debug, PartialEq, Eq, Drop)]
pub struct Wobble {
    generator: Lcg64Xsh32,
}

impl Model for Wobble {
    ghost use Rattle.rand_pcg.specs.Lcg.{Lcg};

    ghost Value = { Lcg };

    ghost view = { λ w. w.generator };

    ghost inverse = { λ g. record { generator = g } };
}

impl Wobble {
    /// The generator that this number is expanded to.
    pub fn new(seed: u64) -> Wobble
        ensures { result ≡ pcg32_of_seed (pcg32_seed 16 seed) }
    {
        Wobble {
            generator: Lcg64Xsh32::seed_from_u64(seed),
        }
    }

    /// Draws the next word, and gives its remainder by `n`, which is at least 1.
    pub fn pick(&mut self, n: u64) -> u64
        requires { 1 ≤ n }
        ensures value { result ≡ word self.old % n }
        ensures next { self.new ≡ behind_word self.old }
        ensures below { result < n }
    {
        u64::from(self.generator.next_word()) % n
    }
}
