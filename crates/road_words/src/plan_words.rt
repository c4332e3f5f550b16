//! The words that a plan selects, of either kind.

ghost use Rattle.std.specs.Prelude.{◌≡◌, ℕ};
ghost use Rattle.road_words.specs.Words.{word};

use crate::chacha::ChaChaWords;
use crate::steady::SteadyWords;
use crate::words::Words;
use road_plan::{Plan, WordKind};

/// The words that a plan selects.
#[derive(Clone, Copy, Debug, PartialEq, Eq)]
pub enum PlanWords {
    /// The words of the plan's seed.
    Seeded(ChaChaWords),
    /// The words for tests.
    Steady(SteadyWords),
}

impl PlanWords {
    /// Make the words of this plan. It does not allocate.
    pub fn of(plan: &Plan) -> Self
        ensures { (stream place : ℕ) →
            ⟦<PlanWords as Words>⟧.word_of result stream place ≡ word plan.now.words stream place }
    {
        match plan.words() {
            WordKind::Seeded(seed) => PlanWords::Seeded(ChaChaWords::new(seed)),
            WordKind::Steady => PlanWords::Steady(SteadyWords),
        }
    }
}

impl Words for PlanWords {
    ghost use Rattle.road_words.specs.PlanWords.{source_word};

    ghost word_of = { source_word };

    fn word(&self, stream: u64, place: u64) -> u32 {
        match self {
            PlanWords::Seeded(words) => words.word(stream, place),
            PlanWords::Steady(words) => words.word(stream, place),
        }
    }
}
