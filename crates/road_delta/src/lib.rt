//! Deltas: a replica sends the heads of its edits, and another replies with the edits beyond them, instead of all its
//! edits.
//!
//! This caller has two scenarios, and the second holds one more edit. The owner of the first sends its heads, and the
//! owner of the second replies with the edits beyond them. The first then holds what it would hold after joining all
//! edits of the second:
//!
//! ```
//! let stamp = Stamp { count: 1, number: 0 };
//! let lower = Edit { object: Object::Limit(0), step: 40, stamp, value: Value::Put(2) };
//! let ours = Scenario::of_edits(alloc, &[lower])?;
//! let stamp = Stamp { count: 2, number: 1 };
//! let closed = Edit { object: Object::Block(8), step: 60, stamp, value: Value::Put(1) };
//! let theirs = Scenario::of_edits(alloc, &[lower, closed])?;
//! let heads = heads_of(alloc, &ours)?;
//! let delta = beyond(alloc, &theirs, &heads)?;
//! let merged = ours.joined(&delta)?;
//! assert_eq!(rt; merged.edits(alloc)?, ours.joined(&theirs)?.edits(alloc)?);
//! ```
#![tactic(auto)]

mod deltas;
mod heads;
pub mod laws;

pub use deltas::beyond;
pub use heads::{Head, Heads, heads_of};
pub use road_plan::OutOfMemory;
