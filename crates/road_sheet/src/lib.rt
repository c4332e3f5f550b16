//! Sheets: a scenario, a horizon, and the run up to it. A sheet returns the state at any past step, and any count.
//!
//! ```
//! // A sheet simulated for one step.
//! let opening = Sheet::opening(alloc, plan)?;
//! let mut draft = opening.draft(alloc, &Scenario::empty(alloc), 0)?;
//! let input = draft.input(alloc)?;
//! let speeds = input.speeds(alloc)?;
//! draft.push(alloc, &input, &speeds)?;
//! let sheet = draft.sheet();
//! // The road at its horizon, and what its first detector counted in its only step.
//! let road = sheet.state(alloc, 1)?;
//! let counted = sheet.totals(alloc, 0, 0, 1)?;
//! ```
#![tactic(auto)]

mod checkpoint;
mod draft;
mod faults;
mod interval;
mod query_cache;
mod settings_cache;
mod shared_intervals;
mod sheet;
mod shelf;
mod shown_run;
pub mod simulation;
mod span_draft;

pub use draft::Draft;
pub use faults::SheetFault;
pub use interval::{INTERVAL_STEPS, Interval};
pub use query_cache::QueryCache;
pub use sheet::Sheet;
pub use span_draft::SpanDraft;
/// Out of memory: an allocation failed.
pub use std::alloc::AllocError as OutOfMemory;
