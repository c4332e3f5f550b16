//! Arriving at the gate of a crowd.

ghost use Rattle.std.specs.Prelude.{◌≡◌, []};

use crossbeam_utils::sync::WaitGroup;
use road_sessions::{Naming, Session};
use road_workers::Gate;
use std::sync::Wait;

// A session has arrived at the gate; with its handle of the group of sessions that still take edits. Only `arrive` makes
// this value, and the session's writes take it.
#[derive(Drop)]
pub(crate) struct Arrived {
    taking: WaitGroup,
}

// Let a session arrive at the gate. It has written nothing yet.
pub(crate) fn arrive<J: Naming, G: Gate>(
    gate: &G,
    session: &Session<J>,
    taking: WaitGroup,
) -> Arrived
    requires { session.now.view.own ≡ [] }
{
    gate.arrive(session.number());
    Arrived { taking }
}

impl Arrived {
    // Leave the group, and wait until all other sessions have left it.
    pub(crate) fn wait_for_others<R: Wait>(self, rt: &R) {
        let Arrived { taking } = self;
        taking.wait(rt);
    }
}
