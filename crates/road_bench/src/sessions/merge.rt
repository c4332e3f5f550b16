//! The writes of sessions, and journals that merge them.

use crate::sessions::crowd::SESSIONS;
use road_plan::Object;
use road_scenario::{Edit, Stamp, Value};
use road_sessions::{Entry, OutOfMemory, SheetCommand};
use road_sheet::Sheet;
use std::alloc::Global;

const LIMIT: Object = Object::Limit(0);

// Return the number that a write sets.
fn value_of(write: u32) -> u32 {
    write % 10
}

/// Return the edit of a session's write: it sets the first zone's limit, from the step with the write's number on.
pub(crate) fn edit_of(session: u32, write: u32) -> Edit {
    Edit {
        object: LIMIT,
        step: write,
        stamp: Stamp {
            count: u64::from(write).saturating_add(1),
            number: (64 + session % 64) as u16,
        },
        value: Value::Put(value_of(write)),
    }
}

/// Return whether a sheet shows a session's write, or the write of another session with the same number.
pub(crate) fn is_shown(sheet: &Sheet, write: u32) -> bool {
    if write % 2 == 1 {
        return sheet.horizon() >= write;
    }
    LIMIT.in_plan(sheet.plan())
        && sheet.scenario().setting(sheet.plan(), LIMIT, write) == value_of(write)
}

// Return whether an entry of a journal is this write of its session.
fn is_write(alloc: Global, entry: &Entry, write: u32) -> Result<bool, OutOfMemory> {
    match &entry.command {
        SheetCommand::Advance(to) => Ok(write % 2 == 1 && *to == write),
        SheetCommand::Take(edits) => {
            let edits = edits.edits(alloc)?;
            Ok(write % 2 == 0 && edits.as_slice() == [edit_of(entry.session, write)].as_slice())
        }
    }
}

// Return whether the entries of a session are all its writes, in order.
fn are_writes(
    alloc: Global,
    journal: &[Entry],
    session: u32,
    count: u32,
) -> Result<bool, OutOfMemory> {
    let mut write = 0u32;
    for entry in journal {
        if entry.session == session {
            if !is_write(alloc, entry, write)? {
                return Ok(false);
            }
            write = write.saturating_add(1);
        }
    }
    Ok(write == count)
}

/// Return whether a journal is the merge of `count` writes of each session.
pub(crate) fn is_merge(alloc: Global, journal: &[Entry], count: u32) -> Result<bool, OutOfMemory> {
    for session in 0..SESSIONS {
        if !are_writes(alloc, journal, session, count)? {
            return Ok(false);
        }
    }
    Ok(journal.len() as u64 == u64::from(count).saturating_mul(u64::from(SESSIONS)))
}
