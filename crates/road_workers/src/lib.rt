//! Crews, which run the steps of a span or compute the speeds of one step. Every crew, with any number of workers, has
//! the same results.
//!
//! ```
//! // One step of a road, whose speeds a crew computes. The settings must fit the plan.
//! fn next<C: Crew>(
//!     alloc: Global,
//!     plan: &Arc<Plan>,
//!     settings: Settings,
//!     road: &Road,
//!     crew: &mut C,
//! ) -> Result<Road, CrewFault> {
//!     let input = enter(alloc, plan, settings, 0, road)?;
//!     let speeds = crew.speeds(alloc, &input)?;
//!     Ok(finish(alloc, &input, &speeds)?)
//! }
//! ```
#![tactic(auto)]

mod alone;
mod crew;
mod faults;
mod gate;
mod kept_run;
mod piece;
mod pool;
mod scoped;
mod step_by_step;
mod stretch;
mod whole;

pub use alone::Alone;
pub use crew::Crew;
pub use faults::CrewFault;
pub use gate::{Gate, NoGate};
pub use pool::Pool;
pub use scoped::{Scoped, SharedGate};
