//! Journals in the form that tables use.

use road_scenario::{Edit, Scenario};
use road_sessions::{Entry, SheetCommand};
use std::alloc::Global;

/// A session and its write: it took these edits, or advanced to this step.
#[derive(Clone, Copy)]
pub(crate) enum Line {
    Took(u32, &'static [Edit]),
    Advanced(u32, u32),
}

// Return whether a scenario has exactly these edits.
fn has_edits(alloc: Global, scenario: &Scenario, edits: &[Edit]) -> bool {
    match scenario.edits(alloc) {
        Ok(held) => held.as_slice() == edits,
        Err(_) => false,
    }
}

// Return whether an entry of a journal is this line.
fn is_line(alloc: Global, entry: &Entry, line: Line) -> bool {
    match (line, &entry.command) {
        (Line::Took(session, edits), SheetCommand::Take(taken)) => {
            entry.session == session && has_edits(alloc, taken, edits)
        }
        (Line::Advanced(session, to), SheetCommand::Advance(step)) => {
            entry.session == session && *step == to
        }
        _ => false,
    }
}

/// Return whether a journal has exactly these lines.
pub(crate) fn is_journal(alloc: Global, journal: &[Entry], lines: &[Line]) -> bool {
    let mut well = journal.len() == lines.len();
    for (entry, line) in journal.iter().zip(lines.iter()) {
        well = well && is_line(alloc, entry, *line);
    }
    well
}
