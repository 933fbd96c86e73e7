//! Random words from a seed.
ghost use Rattle.std.specs.Prelude.{◌≡◌, ◌<◌, ◌+◌, ◌^◌};
ghost use Rattle.sampler.specs.Words.{seed_bytes, random_word};

use rand_chacha::ChaCha20Rng;
use rand_core::SeedableRng;
use rand_core::utils::next_u64_via_u32;
use std::marker::Model;

/// The words of 64 bits that the generator ChaCha20 makes of a seed, one after another. Nothing is claimed of their quality.
#[derive(Drop)]
pub struct Words {
    seed: u64,
    number: u64,
    generator: ChaCha20Rng,
}

impl Model for Words {
    ghost use Rattle.sampler.specs.Words.{FromWord, StandsAt};

    ghost Value = { FromWord };

    ghost view = { λ w. record { seed = w.seed; number = w.number } };

    ghost invariant = { λ w. StandsAt w.generator w.seed w.number };
}

impl Words {
    /// The words of a seed, from the first one on.
    pub fn of_seed(seed: u64) -> Words
        ensures { result ≡ record { seed = seed; number = 0 } }
    {
        Words {
            seed,
            number: 0,
            generator: ChaCha20Rng::from_seed(bytes_of(seed)),
        }
    }

    /// The next word. It takes no memory.
    pub fn next(&mut self) -> u64
        requires { self.old.number < 2 ^ 60 }
        ensures word { result ≡ random_word self.old.seed self.old.number }
        ensures more { self.new ≡ record { seed = self.old.seed; number = self.old.number + 1 } }
    {
        let word = next_u64_via_u32(&mut self.generator);
        self.number += 1;
        word
    }
}

// The bytes of the number, lowest first, and 24 zeros.
fn bytes_of(seed: u64) -> [u8; 32]
    ensures { result ≡ seed_bytes seed }
{
    let mut bytes = [0; 32];
    bytes[0..8].copy_from_slice(&seed.to_le_bytes());
    bytes
}
