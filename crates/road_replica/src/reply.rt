//! Replies to the writes and other calls of a replica.

use road_scenario::Stamp;

/// The reply to a write, or to the making of a message.
#[derive(Clone, Copy, Debug, PartialEq, Eq)]
pub enum Reply {
    /// The stamp of the edit that the replica made.
    Stamped(Stamp),
    /// The first step at which the received edits changed the numbers set, or `None` if they changed no number.
    Touched(Option<u32>),
    /// The number of the message that was made.
    Message(u64),
    /// The horizon.
    Horizon(u32),
}
