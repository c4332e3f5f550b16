//! Answers to lines.

use crate::refusal::Refusal;
use road_cells::Car;
use road_delta::Head;
use road_scenario::{Edit, Stamp};

/// The answer to a line.
#[derive(Debug, Drop)]
pub enum Answer {
    /// The plan is open.
    Open {
        /// The number of its replicas.
        replicas: u32,
    },
    /// The line is refused.
    Refused(Refusal),
    /// The replica's horizon, in steps.
    Horizon(u32),
    /// One row of cells, with a character for each cell.
    Cells(String),
    /// The cars of a road, sorted by cell.
    Cars(Vec<Car>),
    /// The counts of a detector.
    Counted {
        /// The number of cars that passed it.
        cars: u32,
        /// The sum of their speeds, in cells per step.
        speeds: u32,
    },
    /// Rows of cells, one for each step, with a character for each cell.
    Rows(Vec<String>),
    /// The stamp of an edit.
    Stamped(Stamp),
    /// The edits that a replica holds, by object and step.
    Edits(Vec<Edit>),
    /// The first step at which the number set for an object has changed, if there is such a step.
    Touched(Option<u32>),
    /// A message of all the edits that a replica holds.
    Sent {
        /// The name of the message.
        message: String,
        /// The number of its edits.
        size: u64,
    },
    /// A message of heads.
    Heads {
        /// The name of the message.
        message: String,
        /// The heads, by object and step.
        heads: Vec<Head>,
    },
    /// A message of the edits that are beyond the heads of another message.
    Delta {
        /// The name of the message.
        message: String,
        /// The edits, by object and step.
        edits: Vec<Edit>,
    },
    /// The result of a crowd.
    Crowd {
        /// The winners of the edits of all sessions, by object and step.
        edits: Vec<Edit>,
        /// The number of writes that the sessions made: one for each edit, and one for each session's advance.
        journal: u32,
        /// The row of cells of the step to which the sessions advanced, with a character for each cell.
        row: String,
    },
}
