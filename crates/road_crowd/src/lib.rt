//! Crowds: sessions of one replica that write at the same time, each on a thread of its own. The result does not depend
//! on the order of their writes.
//!
//! ```
//! // Two engineers, each with a list of edits. The result has the winners of all edits, and the road at step 6.
//! let result = crowd(rt, alloc, &plan, &[first_edits, second_edits], 6, &NoGate)?;
//! println!(rt; "{} edits, {} writes: {}", result.edits.len(), result.journal, result.row)?;
//! ```
#![tactic(auto)]

mod arriving;
mod faults;
mod gathering;
mod on_threads;
mod permit;
mod threads;
mod work;

pub use gathering::crowd;
pub use on_threads::OnThreads;
