//! The entries of a journal.

use road_scenario::Scenario;

/// The most writes that a journal can have room for.
pub const MOST_WRITES: u64 = 1_000_000;

/// A command to the replica's sheet: what a write did to it. A local edit is recorded as taking that one edit.
#[derive(Drop)]
pub enum SheetCommand {
    /// These edits were taken.
    Take(Scenario),
    /// The run was simulated up to this step.
    Advance(u32),
}

/// An entry of the journal: one write.
#[derive(Drop)]
pub struct Entry {
    /// The session that wrote, numbered from 0.
    pub session: u32,
    /// What it wrote.
    pub command: SheetCommand,
}
