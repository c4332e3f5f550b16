//! The four rules of the traffic automaton of Nagel and Schreckenberg (J. Phys. I France 2 (1992) 2221).
//!
//! [`wanted`] is rules 1 and 2 (acceleration and slowing) as one, [`two_rules`] the same two as published in 1992,
//! [`slowed`] rule 3 (randomization), and [`moved`] rule 4 (motion). Speeds and limits are in cells per step.
//!
//! ```
//! // A car of speed 2 under limit 3 with four free cells in front wants to drive 3 cells. The chance 65,536 slows it.
//! let wished = wanted(2, 3, 4);
//! let speed = slowed(wished, word, 65_536);
//! // The road of two cars, at cells 3 and 7, after the first has driven 2 cells and the second 1.
//! let mut cars = Vec::new(alloc);
//! cars.push(Car { number: 0, cell: 3, speed: 2 })?;
//! cars.push(Car { number: 16, cell: 7, speed: 0 })?;
//! let road = moved(alloc, &Road::of(cars), &[2, 1])?;
//! ```
#![tactic(auto)]

mod motion;
mod speeds;

pub use motion::moved;
pub use speeds::{slowed, two_rules, wanted};
/// Out of memory: an allocation failed.
pub use std::alloc::AllocError as OutOfMemory;
