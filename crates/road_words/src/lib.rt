//! Random words, addressed by stream and place. A word is a function of the plan, the stream and the place. So it does
//! not matter which words are drawn, or in what order.
//!
//! ```rust
//! use road_words::{PlanWords, Words};
//!
//! let words = PlanWords::of(&plan);
//! // The word of the car with the number 48 in step 5: its upper 16 bits decide whether the car is slowed.
//! let word = words.word(48, 5);
//! let is_slowed = word >> 16 < chance;
//! // Each word is independent of what was drawn before: this one is always the same.
//! let later = words.word(48, 6);
//! ```
#![tactic(auto)]

mod chacha;
mod plan_words;
mod steady;
mod words;

pub use chacha::ChaChaWords;
pub use plan_words::PlanWords;
pub use steady::SteadyWords;
pub use words::Words;
