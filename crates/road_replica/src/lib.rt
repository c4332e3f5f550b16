//! Replicas: each makes edits, takes those of others, and shows the run of all edits that it holds.
//!
//! ```
//! // A run to step 100; then an engineer closes the first zone from step 70 on.
//! let (mut crew, mut meter) = (Alone, Meter::new());
//! let mut here = Replica::open(alloc, Arc::try_clone(&plan)?, 0)?;
//! let horizon = here.advance(alloc, 100, &mut crew, &mut meter)?;
//! let stamp = here.edit(alloc, Object::Limit(0), 70, 0, &mut crew, &mut meter)?;
//! // Another replica takes all edits of the first one. They change what it shows from step 70 on.
//! let mut there = Replica::open(alloc, plan, 1)?;
//! let touched = there.take(alloc, &here.message()?, &mut crew, &mut meter)?;
//! println!(rt; "{horizon} {} {}", stamp.count, touched == Some(70))?;
//! ```
#![tactic(auto)]

mod crowds;
mod faults;
mod local_edit;
mod replica;
mod reply;

pub use crowds::{Crowd, Crowds, MOST_CROWD_WRITES, write_count};
pub use faults::ReplicaFault;
pub use local_edit::LocalEdit;
pub use replica::{Replica, shares_fault};
pub use reply::Reply;
/// Out of memory: an allocation failed.
pub use std::alloc::AllocError as OutOfMemory;
