//! Words by a plain formula.

use crate::words::Words;

/// Words for tests and worked examples, simple enough to be worked out by hand. They are not random.
#[derive(Clone, Copy, Debug, PartialEq, Eq)]
pub struct SteadyWords;

impl Words for SteadyWords {
    ghost use Rattle.road_words.specs.Words.{steady_word};

    ghost word_of = { λ _. steady_word };

    fn word(&self, stream: u64, place: u64) -> u32 {
        let line = stream % 65_536 * 40_503 + place % 65_536 * 30_011;
        (line % 65_536 * 65_536) as u32
    }
}
