//! Laboratories. A laboratory is a world whose replicas and messages have names, and it answers commands.
//!
//! ```
//! // The laboratory of a plan line. A command is read, answered by a crew (or by sessions on threads if it is a
//! // crowd), and its reply is written.
//! let mut laboratory = Laboratory::open(alloc, read_plan(alloc, first_line)?, RandomState::new(&rt)?)?;
//! let (mut crew, crowds) = (Alone, OnThreads::new(&rt));
//! for line in lines {
//!     let command = read_command(alloc, line)?;
//!     let answer = laboratory.answer(alloc, command, &mut crew, &crowds)?;
//!     write_all(reply_line(alloc, &answer)?.as_str())?;
//! }
//! ```
#![tactic(auto)]

mod crowds;
mod laboratory;
pub mod laws;
mod names;
mod queries;
mod translation;

pub use laboratory::Laboratory;
/// Out of memory: an allocation failed.
pub use std::alloc::AllocError as OutOfMemory;
