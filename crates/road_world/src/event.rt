//! The events of a world. Each happens at one replica.

ghost use Rattle.std.specs.Prelude.{◌≡◌};
ghost use Rattle.road_world.specs.Answers as answers;

use road_plan::Object;
use road_scenario::Edit;

/// An event at a replica, which is named by its number. Messages are named by their numbers.
#[derive(Drop)]
pub enum Event {
    /// The replica sets a number for an object from a step on, in the object's units.
    Edit {
        /// The replica.
        at: u32,
        /// The object that is set.
        object: Object,
        /// The first step at which the number takes effect.
        step: u32,
        /// The number.
        value: u32,
    },
    /// The replica withdraws what is set for an object at a step.
    Withdraw {
        /// The replica.
        at: u32,
        /// The object that is no longer set.
        object: Object,
        /// The step of what is withdrawn.
        step: u32,
    },
    /// Edits reach the replica from outside this world, either all of them or none.
    Import {
        /// The replica.
        at: u32,
        /// The edits, in any order. Their stamps have numbers from 64 on.
        edits: Vec<Edit>,
    },
    /// The replica sends all edits that it holds.
    Send {
        /// The replica.
        at: u32,
    },
    /// The replica sends the heads of all edits that it holds, to ask for missing edits.
    Heads {
        /// The replica.
        at: u32,
    },
    /// The replica replies to heads with the edits that it holds beyond them.
    Beyond {
        /// The replica.
        at: u32,
        /// The message with the heads.
        message: u64,
    },
    /// A message with edits reaches the replica, whoever sent it, for the first time or again.
    Take {
        /// The replica.
        at: u32,
        /// The message.
        message: u64,
    },
    /// The replica simulates up to a step.
    Advance {
        /// The replica.
        at: u32,
        /// The step.
        to: u32,
    },
}

impl Event {
    /// Return the number of the event's replica.
    pub fn replica(&self) -> u32
        ensures { result ≡ answers.replica_number self.now }
    {
        match self {
            Event::Edit { at, .. } => *at,
            Event::Withdraw { at, .. } => *at,
            Event::Import { at, .. } => *at,
            Event::Send { at } => *at,
            Event::Heads { at } => *at,
            Event::Beyond { at, .. } => *at,
            Event::Take { at, .. } => *at,
            Event::Advance { at, .. } => *at,
        }
    }
}
