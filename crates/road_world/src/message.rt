//! The messages between replicas.

use road_delta::Heads;
use road_scenario::Scenario;

/// A message from one replica to the others. It is what its sender held when it was made, and never changes. A message
/// with edits may be taken at any replica, however often. A message with heads may be answered by any replica.
#[derive(Drop)]
pub enum Message {
    /// All edits that its sender held, by the event `Send`.
    Whole(Scenario),
    /// The reply to a message of heads, by the event `Beyond`: the edits that its sender held beyond those heads.
    Answer(Scenario),
    /// The heads of all edits that its sender held, by the event `Heads`. The reply to it is what another replica holds
    /// beyond them.
    Asked(Heads),
}
