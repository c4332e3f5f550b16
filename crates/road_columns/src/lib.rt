//! Runs under way: roads that are simulated step by step. Callers see the road of a run as an array.
//!
//! Inside, the cars are stored in columns: one column for the cells, one for the speeds, one for the numbers, with the
//! car at the far end first. The random words for the 64 steps of an interval are stored in rows, one row for each
//! step, so a step is a few passes over contiguous memory.
//!
//! ```
//! // Simulate a hundred steps of a plan from the empty road, and print the road as a row of text.
//!     run.step(alloc, 100)?;
//! }
//! println!(rt; "{}", run.row(alloc)?)?;
//! ```
#![tactic(auto)]

mod cars;
mod counts;
mod cutting;
mod drawing;
mod entered;
mod entering;
mod finding;
mod holding;
mod inlets;
mod interval;
mod layout;
mod motion;
mod passing;
mod pieces;
mod regions;
mod road_or_run;
mod room;
mod row_text;
mod shifting;
mod starting;
mod step;
mod step_words;
mod turning;
mod under_way;
mod words;

pub use road_or_run::{RoadOrRun, SpanOutcome};
pub use under_way::{UnderWay, is_runnable};
