//! The step and the run of the road: entries, the speeds of all cars, motion, and the deletion of cars at the exit.
//! Also the laws of runs, and the letters of rows.
//!
//! A step visits the inlets and the cars, not every cell.
//!
//! ```
//! // Ten steps of a plan by its own settings, from the empty road.
//! let mut road = Road::empty(alloc);
//! let mut meter = Meter::new();
//! for step in 0..10 {
//!     let settings = Settings::of_plan(alloc, &plan)?;
//!     let done = step_alone(alloc, &plan, settings, step, &road, &mut meter)?;
//!     road = done.road;
//! }
//! println!(rt; "{} steps, {} cars", meter.ticks(), road.cars().len())?;
//! ```
#![tactic(auto)]

mod alone;
mod chance;
mod entries;
mod input;
pub mod laws;
mod letters;
mod meter;
mod pass;
mod span;
mod step;
mod step_settings;
mod stretch;

pub use alone::{Stepped, step_alone};
pub use input::sameness::{are_same_cars, are_same_settings, is_same_plan};
pub use input::{StepInput, enter};
pub use letters::{BLOCKED, EMPTY, STANDING};
pub use meter::Meter;
pub use span::Span;
/// Out of memory: an allocation failed.
pub use std::alloc::AllocError as OutOfMemory;
pub use step::{finish, leave};
pub use stretch::Stretch;
