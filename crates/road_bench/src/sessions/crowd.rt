//! Sessions that write and look, each on its own thread.

ghost use Rattle.std.specs.Prelude.{◌≡◌};

use crate::sessions::merge::{edit_of, is_merge, is_shown};
use anyhow::Result;
use road_ends::Meter;
use road_plan::Plan;
use road_scenario::Scenario;
use road_sessions::{Closed, Naming, OutOfMemory, Prepared, Session, Shared, close, open, prepare};
use road_workers::Alone;
use std::alloc::Global;
use std::marker::Brand;
use std::sync::atomic::{AtomicBool, Ordering};
use std::sync::{Arc, Wait};
use std::thread::{Threads, for_each_mut};

/// The number of sessions that write.
pub(crate) const SESSIONS: u32 = 8;

// Make the write of a session that has this number: an advance if it is odd, otherwise an edit. Return whether it
// succeeded.
fn write_once<J: Naming, R: Wait + Drop, W: Wait>(
    rt: &W,
    alloc: Global,
    shared: &Shared<J, R>,
    session: &mut Session<J>,
    write: u32,
) -> bool {
    let mut meter = Meter::new();
    if write % 2 == 1 {
        return session
            .advance(rt, shared, write, &mut Alone, &mut meter)
            .is_ok();
    }
    let edit = edit_of(session.number(), write);
    match Scenario::empty(alloc).with_edit(&edit) {
        Ok(edits) => session
            .take(rt, shared, &edits, &mut Alone, &mut meter)
            .is_ok(),
        Err(_) => false,
    }
}

// Return whether a session that looks sees its own write.
fn sees_own_write<J: Naming, R: Wait + Drop>(
    shared: &Shared<J, R>,
    session: &mut Session<J>,
    write: u32,
) -> bool {
    match session.look(shared) {
        Ok(sheet) => is_shown(&sheet, write),
        Err(_) => false,
    }
}

// Let a session write `count` times, and look after each write. Return whether all results are right.
fn write_and_look<J: Naming, R: Wait + Drop, W: Wait>(
    rt: &W,
    alloc: Global,
    shared: &Shared<J, R>,
    session: &mut Session<J>,
    count: u32,
) -> bool {
    let mut is_right = true;
    for write in 0..count {
        is_right = is_right
            && write_once(rt, alloc, shared, session, write)
            && sees_own_write(shared, session, write);
    }
    is_right
}

// Let all sessions write and look, each on its own thread. Return whether all results are right.
fn all_work<J: Naming + Send + Sync, R: Wait + Drop + Send, W: Threads + Wait + Sync>(
    rt: &W,
    alloc: Global,
    shared: &Shared<J, R>,
    sessions: &mut [Session<J>],
    count: u32,
) -> bool {
    let are_right = AtomicBool::new(true);
    for_each_mut(
        rt,
        sessions,
        SESSIONS as usize,
        &|_, session| {
            if !write_and_look(rt, alloc, shared, session, count) {
                are_right.store(false, Ordering::SeqCst);
            }
        },
    );
    are_right.load(Ordering::SeqCst)
}

// Close the store. Return the result, or None if the store could not be closed.
fn close_store<J: Naming, R: Wait + Drop>(
    shared: Shared<J, R>,
    sessions: Vec<Session<J>>,
) -> Option<Closed> {
    match close(shared, sessions) {
        Ok(closed) => Some(closed),
        Err(_fault) => None,
    }
}

// Return whether the result's journal is the merge of all writes.
fn has_merge(alloc: Global, closed: &Option<Closed>, count: u32) -> Result<bool, OutOfMemory> {
    match closed {
        Some(closed) => is_merge(alloc, &closed.journal, count),
        None => Ok(false),
    }
}

// Close the store. Return whether its journal is the merge of all writes.
fn close_and_check_merge<J: Naming, R: Wait + Drop>(
    alloc: Global,
    shared: Shared<J, R>,
    sessions: Vec<Session<J>>,
    count: u32,
) -> Result<bool, OutOfMemory> {
    let closed = close_store(shared, sessions);
    has_merge(alloc, &closed, count)
}

// Let all sessions of a prepared store work. Return whether the journal is then the merge of all writes.
fn is_merged<J: Naming + Send + Sync, R: Wait + Drop + Send, W: Threads + Wait + Sync>(
    rt: &W,
    alloc: Global,
    prepared: Prepared<R>,
    count: u32,
) -> Result<bool>
    requires book { prepared.book ≡ J.book }
    requires replica { prepared.replica ≡ J.replica }
    requires ledger { (prepared.ledger.name ≡ J.name) × (prepared.ledger.parts ≡ J.parts) }
    requires limit { prepared.limit ≡ J.limit }
{
    let (shared, mut sessions) = open::<J, R>(prepared)?;
    let well = all_work(rt, alloc, &shared, sessions.as_mut_slice(), count);
    let is_merged = close_and_check_merge(alloc, shared, sessions, count);
    Ok(well && is_merged?)
}

/// Let eight sessions work, each on its own thread. Return whether their journal is the merge of their writes.
pub(crate) fn merges<W: Threads + Wait + Sync>(
    rt: &W,
    alloc: Global,
    plan: &Arc<Plan>,
    count: u32,
) -> Result<bool> {
    let limit = u64::from(count).saturating_mul(8).max(1).min(1_000_000);
    let prepared = prepare(rt, alloc, Arc::try_clone(plan)?, 0, SESSIONS, limit)?;
    is_merged::<Brand, _, _>(rt, alloc, prepared, count)
}
