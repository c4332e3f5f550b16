//! Worlds: the replicas of one plan and the messages between them. For every list of events each replica shows the run,
//! from step zero, of the winners of the edits that reached it.
//!
//! ```
//! // Two engineers work on one road: each makes an edit at a simulated step, and takes the edit of the other.
//! let events = [
//!     Event::Advance { at: 0, to: 100 },
//!     Event::Advance { at: 1, to: 100 },
//!     Event::Edit { at: 0, object: Object::Block(8), step: 40, value: 1 },
//!     Event::Edit { at: 1, object: Object::Limit(0), step: 60, value: 2 },
//!     Event::Send { at: 0 },
//!     Event::Send { at: 1 },
//!     Event::Take { at: 0, message: 1 },
//!     Event::Take { at: 1, message: 0 },
//! ];
//! let played = play(alloc, plan, 2, &events, &mut Alone, &mut Meter::new())?;
//! // Both replicas now show the same road at every step up to 100.
//! ```
#![tactic(auto)]

mod event;
mod faults;
pub mod laws;
mod message;
mod playing;
mod sending;
mod world;

pub use event::Event;
pub use faults::{PlayFault, WorldFault};
pub use message::Message;
pub use playing::{Played, play};
pub use road_replica::Reply;
pub use sending::Sending;
/// Out of memory: an allocation failed.
pub use std::alloc::AllocError as OutOfMemory;
pub use world::World;
