//! The messages that a replica sends.

ghost use Rattle.std.specs.Prelude.{◌≡◌};
ghost use Rattle.road_world.specs.Events.{sending_event};

use crate::event::Event;

/// The message that a replica makes.
#[derive(Clone, Copy)]
pub enum Sending {
    /// All edits that it holds.
    Whole,
    /// The heads of all edits that it holds.
    Asked,
    /// The edits that it holds beyond the heads of a message.
    Answer {
        /// The number of that message.
        asked: u64,
    },
}

impl Sending {
    /// Return the event in which a replica makes the message.
    pub fn event(self, at: u32) -> Event
        ensures { result ≡ sending_event at self }
    {
        match self {
            Sending::Whole => Event::Send { at },
            Sending::Asked => Event::Heads { at },
            Sending::Answer { asked } => Event::Beyond { at, message: asked },
        }
    }
}
