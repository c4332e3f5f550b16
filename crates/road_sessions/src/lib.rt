//! Sessions: one replica that sessions on several threads share. Each looks without a lock, and writes under one.
//!
//! A look never waits. It returns the sheet after a legal history that contains everything its session saw, heard of or
//! wrote. Once the store is closed, the journal says exactly who wrote what.
//!
//! ```
//! // A store for up to 1,000 writes by two sessions, which may move to threads of their own.
//! let prepared = prepare(rt, alloc, plan, 0, 2, 1_000)?;
//! let (shared, mut sessions) = open::<J, R>(prepared)?;
//! // The first session blocks a cell from step 4 on. The second hears of it, so its next look includes it.
//! sessions[0].advance(rt, &shared, 6, &mut Alone, &mut Meter::new())?;
//! let wrote = sessions[0].edit(rt, &shared, Object::Block(8), 4, 1, &mut Alone, &mut Meter::new())?;
//! sessions[1].hear(wrote.receipt);
//! let road = sessions[1].state(alloc, &shared, 6)?;
//! // The closed store has the journal: an advance and an edit, both by session 0.
//! let closed = close(shared, sessions)?;
//! ```
#![tactic(auto)]

mod closing;
mod entry;
mod faults;
mod held;
mod history;
mod merging;
mod naming;
mod perform;
mod query;
mod reader_view;
mod reading;
mod session;
mod shared;
mod store;
mod wish;

pub use closing::{CloseFault, Closed, close};
pub use entry::{Entry, MOST_WRITES, SheetCommand};
pub use faults::{CloseCause, LookFault, OpenFault, WriteFault};
pub use naming::Naming;
pub use session::{Receipt, Session, Wrote};
pub use shared::{Of, Prepared, Shared, open, prepare};
/// Out of memory: an allocation failed.
pub use std::alloc::AllocError as OutOfMemory;

/// The state behind the lock with its writes, for contracts and proofs; and laws of all journals, each as the contract
/// of a function that does nothing.
pub mod laws {
    pub use crate::held::Held;
    pub use crate::merging::{journals_hold_what_was_written, journals_merge};
    pub use crate::shared::open_held;
    pub use crate::wish::Wish;
}
