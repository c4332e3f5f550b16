//! The words of a seeded ChaCha8 generator.

ghost use Rattle.std.specs.Prelude.{◌≡◌, ℕ};
ghost use Rattle.road_words.specs.Words.{seeded_word};

use crate::words::Words;
use rand_chacha::ChaCha8Rng;
use rand_core::SeedableRng;
use rand_core::utils::NextWord;

/// The words of a ChaCha8 generator (D. J. Bernstein, "ChaCha, a variant of Salsa20", 2008; eight rounds). Any word can
/// be computed from its stream and place, without the words before it.
#[derive(Clone, Copy, Debug, PartialEq, Eq)]
pub struct ChaChaWords {
    key: [u8; 32],
}

impl ChaChaWords {
    /// Make the words of this seed. Their key is its eight big-endian bytes, then 24 zeros. It does not allocate.
    pub fn new(seed: u64) -> Self
        ensures { (stream place : ℕ) →
            ⟦<ChaChaWords as Words>⟧.word_of result stream place ≡ seeded_word seed stream place }
    {
        let mut key = [0u8; 32];
        key[..8].copy_from_slice(&seed.to_be_bytes());
        ChaChaWords { key }
    }
}

impl Words for ChaChaWords {
    ghost use Rattle.road_words.specs.Words.{chacha_word};

    ghost word_of = { λ words. chacha_word words.key };

    fn word(&self, stream: u64, place: u64) -> u32 {
        let mut generator = ChaCha8Rng::from_seed(self.key);
        generator.set_stream(stream);
        generator.set_word_pos(u128::from(place));
        generator.next_word()
    }
}
