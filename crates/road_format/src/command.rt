//! Commands, which are the lines after the first.

ghost use Rattle.std.specs.Prelude.{◌≡◌, option_map};
ghost use Rattle.road_format.specs.CommandGrammar.{replica_name};
ghost use Rattle.road_format.specs.Views.{command_view};

use road_plan::Object;
use road_scenario::Edit;

/// The command of a line after the first.
#[derive(Debug, Drop)]
pub enum Command {
    /// Sets a number for an object from a step on.
    Edit {
        /// The name of the replica.
        at: String,
        /// The object that is set.
        object: Object,
        /// The step from which the edit takes effect.
        step: u32,
        /// The number.
        value: u32,
    },
    /// Withdraws the number that was set for an object at a step.
    Withdraw {
        /// The name of the replica.
        at: String,
        /// The object that was set.
        object: Object,
        /// The step from which that edit takes effect.
        step: u32,
    },
    /// Raises a replica's horizon to a step, if the horizon is lower.
    Advance {
        /// The name of the replica.
        at: String,
        /// The step.
        to: u32,
    },
    /// Requests the row of cells of a replica's road at a step.
    Cells {
        /// The name of the replica.
        at: String,
        /// The step.
        step: u32,
    },
    /// Requests the cars of a replica's road at a step.
    Cars {
        /// The name of the replica.
        at: String,
        /// The step.
        step: u32,
    },
    /// Requests the number of cars that a detector of a replica's road counted between two steps, and the sum of their
    /// speeds.
    Count {
        /// The name of the replica.
        at: String,
        /// The detector's index.
        detector: u32,
        /// The first step.
        from: u32,
        /// The step before which the count ends.
        to: u32,
    },
    /// Requests the rows of cells of a replica's road from one step to another, both included.
    Diagram {
        /// The name of the replica.
        at: String,
        /// The first step.
        from: u32,
        /// The last step.
        to: u32,
    },
    /// Requests the edits that a replica holds.
    Scenario {
        /// The name of the replica.
        at: String,
    },
    /// Makes a replica take edits from outside.
    Import {
        /// The name of the replica.
        at: String,
        /// The edits, in the order of the line.
        edits: Vec<Edit>,
    },
    /// Makes a message of the edits that a replica holds.
    Send {
        /// The name of the replica.
        at: String,
        /// The name of the message.
        name: String,
    },
    /// Makes a message of the heads of the edits that a replica holds.
    Heads {
        /// The name of the replica.
        at: String,
        /// The name of the message.
        name: String,
    },
    /// Makes a message of the edits that a replica holds beyond the heads of another message.
    Beyond {
        /// The name of the replica.
        at: String,
        /// The name of the message of heads.
        heads: String,
        /// The name of the message.
        name: String,
    },
    /// Makes a replica take the edits of a message.
    Take {
        /// The name of the replica.
        at: String,
        /// The name of the message.
        message: String,
    },
    /// Starts a session for each share. The session takes the share's edits, and then advances. All sessions write to
    /// one road, which belongs to no replica.
    Crowd {
        /// 1 to 8 shares, each with its edits in the order of the line.
        shares: Vec<Vec<Edit>>,
        /// The step to which each session advances.
        to: u32,
    },
}

impl Command {
    /// Return the name of the command's replica. A crowd names none.
    pub fn replica(&self) -> Option<&str>
        ensures { option_map (λ name. name.now) result ≡ replica_name (command_view self.now) }
    {
        match self {
            Command::Edit { at, .. } => Some(at),
            Command::Withdraw { at, .. } => Some(at),
            Command::Advance { at, .. } => Some(at),
            Command::Cells { at, .. } => Some(at),
            Command::Cars { at, .. } => Some(at),
            Command::Count { at, .. } => Some(at),
            Command::Diagram { at, .. } => Some(at),
            Command::Scenario { at } => Some(at),
            Command::Import { at, .. } => Some(at),
            Command::Send { at, .. } => Some(at),
            Command::Heads { at, .. } => Some(at),
            Command::Beyond { at, .. } => Some(at),
            Command::Take { at, .. } => Some(at),
            Command::Crowd { .. } => None,
        }
    }
}
