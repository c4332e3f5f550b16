//! The plan of a road: its length, its zones, inlets and detectors, and where its random words come from. `Plan` is
//! within the limits of the laboratory (`limits`), `Settings` are all settings of a road at one step, and `Object` is
//! what an edit sets.
//!
//! ```rust
//! use road_plan::{Object, Plan, PlanParts, Settings, WordKind};
//!
//! let zones = vec![in alloc; (2, 0)]?;
//! let inlets = vec![in alloc; (0, 65_536)]?;
//! let detectors = vec![in alloc; 5]?;
//! let words = WordKind::Seeded(7);
//! let plan = Plan::new(PlanParts { length: 12, exit: 1, width: 12, zones, inlets, detectors, words })?;
//! let settings = Settings::of_plan(alloc, &plan)?;
//! let slow = Object::Slow(0);
//! let is_slow_allowed = slow.in_plan(&plan) && slow.allows(6_554);
//! ```
#![tactic(auto)]

mod checks;
mod faults;
pub mod limits;
mod object;
mod object_exact;
mod parts;
mod plan;
mod settings;

pub use faults::PlanFault;
pub use object::Object;
pub use parts::{PlanParts, WordKind};
pub use plan::Plan;
pub use settings::Settings;

/// An allocation failed.
pub use std::alloc::AllocError as OutOfMemory;
