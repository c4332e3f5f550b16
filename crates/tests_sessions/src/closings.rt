//! The closing of a store, and its result.

use crate::acts::{Script, try_acts};
use road_sessions::{CloseCause, CloseFault, Closed, Naming, Session, Shared, close};
use std::alloc::Global;
use std::sync::Wait;

/// How the sessions of a store are handed over to be closed.
#[derive(Clone, Copy, PartialEq)]
pub(crate) enum Closing {
    /// In their order.
    InOrder,
    /// In reverse, the last one first.
    LastFirst,
    /// First all but the last one, then all.
    WithoutLast,
    /// First all but the first one, then all, with the first one at the end.
    WithoutFirst,
}

/// Close a store with all its sessions, and return the result, or None if it could not be closed.
pub(crate) fn close_all<J: Naming, R: Wait + Drop>(
    shared: Shared<J, R>,
    sessions: Vec<Session<J>>,
) -> Option<Closed> {
    match close(shared, sessions) {
        Ok(closed) => Some(closed),
        Err(_fault) => None,
    }
}

// Close a store with all its sessions after one was missing, and return the result. Before, the sessions that were
// handed back act again.
fn close_late<J: Naming, R: Wait + Drop, W: Wait>(
    rt: &W,
    alloc: Global,
    fault: CloseFault<J, R>,
    late: Session<J>,
    script: &Script,
) -> Option<Closed> {
    let CloseFault {
        cause,
        shared,
        mut sessions,
    } = fault;
    let others = sessions.as_mut_slice();
    if cause != CloseCause::Missing || !try_acts(rt, alloc, &shared, others, script.handed_back) {
        return None;
    }
    if sessions.push(late).is_err() {
        return None;
    }
    if !try_acts(rt, alloc, &shared, sessions.as_mut_slice(), script.together) {
        return None;
    }
    close_all(shared, sessions)
}

/// Close a store as its script says, and return the result.
pub(crate) fn close_as_scripted<J: Naming, R: Wait + Drop, W: Wait>(
    rt: &W,
    alloc: Global,
    shared: Shared<J, R>,
    mut sessions: Vec<Session<J>>,
    script: &Script,
) -> Option<Closed> {
    let closing = script.closing;
    if closing == Closing::LastFirst || closing == Closing::WithoutFirst {
        sessions.reverse();
    }
    if closing == Closing::InOrder || closing == Closing::LastFirst {
        return close_all(shared, sessions);
    }
    let late = sessions.pop()?;
    match close(shared, sessions) {
        Ok(_closed) => None,
        Err(fault) => close_late(rt, alloc, fault, late, script),
    }
}
