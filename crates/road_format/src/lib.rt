//! The lines of the laboratory: how an input is cut into lines, which lines are a plan line or a command, and the line
//! that is written for an answer. Every line is one JSON value, and so is every reply.
//!
//! ```
//! // Read a plan line, and write the answer: the number of replicas that it opens, or why it is refused.
//! let answer = match read_plan(alloc, line) {
//!     Ok(plan_line) => Answer::Open { replicas: plan_line.names.len() as u32 },
//!     Err(fault) => match fault.refusal() {
//!         Some(refusal) => Answer::Refused(refusal),
//!         None => return Err(OutOfMemory),
//!     },
//! };
//! let reply = reply_line(alloc, &answer)?;
//! ```
#![tactic(auto)]

mod answer;
mod command;
mod command_line;
mod crowd;
mod edits;
mod faults;
mod fields;
mod form;
pub mod laws;
mod list_values;
mod lists;
mod message_commands;
mod names;
mod object;
mod plan_line;
mod reading;
mod refusal;
mod replica_commands;
mod reply;

pub use answer::Answer;
pub use command::Command;
pub use command_line::read_command;
pub use faults::{LineFault, PlanLineFault};
pub use form::{FIRST_FORM, LAST_FORM};
pub use plan_line::{PlanLine, read_plan};
pub use refusal::Refusal;
pub use reply::reply_line;
pub use road_plan::OutOfMemory;
