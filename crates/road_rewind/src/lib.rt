//! Late edits: a sheet takes edits, and only the steps that they can change are simulated again. This begins at most 63
//! steps before the first of them.
//!
//! ```
//! // A run to step 100; then its first zone is closed from step 70 on.
//! let mut meter = Meter::new();
//! let opening = Sheet::opening(alloc, plan)?;
//! let nothing = Scenario::empty(alloc);
//! let run = grown(alloc, &opening, &nothing, 100, &mut Alone, &mut meter)?.sheet;
//! let stamp = Stamp { count: 1, number: 0 };
//! let object = Object::Limit(0);
//! let closing = nothing.with_edit(&Edit { object, step: 70, stamp, value: Value::Put(0) })?;
//! let late = grown(alloc, &run, &closing, 100, &mut Alone, &mut meter)?;
//! // Step 70 is the first that it touches; the steps 64 to 99 were computed again.
//! println!(rt; "{} {}", late.touched == Some(70), meter.ticks() == 136)?;
//! ```
#![tactic(auto)]

mod outcome;
mod rewind;

pub use outcome::Grown;
pub use rewind::grown;
/// Out of memory: an allocation failed.
pub use std::alloc::AllocError as OutOfMemory;
/// The reason why `grown` failed: its crew returned `WorkersGone`, or an allocation failed.
pub use road_workers::CrewFault as GrownFault;
