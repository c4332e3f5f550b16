//! Observations of the road: detectors count the cars that pass their sites, and rows of text show where cars are.
//!
//! ```
//! // Step 4 of a plan, from a road.
//! let settings = Settings::of_plan(alloc, &plan)?;
//! let done = step_alone(alloc, &plan, settings, 4, &road, &mut Meter::new())?;
//! // The counts of the plan's first detector in that step, and the road after it as a row of text. By a law of runs
//! // the speed of each car is a digit (`laws::cars_have_digits`).
//! let counted = passes(&done.input, &done.speeds, 0);
//! let row = row_text(alloc, &done.road, done.input.settings().blocks(), plan.length())?;
//! println!(rt; "{row} {} cars, speeds {}", counted.cars, counted.speeds)?;
//! ```
#![tactic(auto)]

mod counts;
pub mod laws;
mod rows;
mod span_result;

pub use counts::{Totals, passes};
pub use rows::row_text;
pub use span_result::SpanResult;
/// Out of memory: an allocation failed.
pub use std::alloc::AllocError as OutOfMemory;
