//! Worked lists of events.

use crate::worlds::{A1, A2, A3, Answer, B3, check_all_edits, check_all_rows, play_and_check};
use road_delta::Head;
use road_replica::Reply;
use road_scenario::{Edit, Stamp, Value};
use road_world::{Event, Message, World, WorldFault};
use std::process::Abort;
use std::test::Fail;
use tests_plans::{BLOCK, LIMIT, answered_events, edit, head};

const ASKED: ([Event; 11], [Answer; 11]) = answered_events![
    edit(0, LIMIT, 3, 1) => Ok(Reply::Stamped(A1)),
    edit(0, BLOCK, 4, 1) => Ok(Reply::Stamped(A2)),
    send(0) => Ok(Reply::Message(0)),
    take(1, 0) => Ok(Reply::Touched(Some(3))),
    edit(1, LIMIT, 3, 0) => Ok(Reply::Stamped(B3)),
    edit(0, LIMIT, 5, 0) => Ok(Reply::Stamped(A3)),
    heads(1) => Ok(Reply::Message(1)),
    beyond(0, 1) => Ok(Reply::Message(2)),
    take(2, 2) => Ok(Reply::Touched(Some(4))),
    take(1, 2) => Ok(Reply::Touched(Some(5))),
    take(1, 2) => Ok(Reply::Touched(None)),
];

const CLOSED: Edit = edit!(LIMIT, 3, (3, 1), 0);

const CLOSED_LATER: Edit = edit!(LIMIT, 5, (3, 0), 0);

const BLOCKED: Edit = edit!(BLOCK, 4, (2, 0), 1);

/// The heads of the second replica when it asks for what it lacks.
const HEADS: &[Head] = &[head!(LIMIT, 3, (3, 1)), head!(BLOCK, 4, (2, 0))];

// Assert that a message of a world has these heads.
fn assert_heads(rt: &impl Abort, world: &World, number: u64, heads: &[Head]) {
    let Some(Message::Asked(asked)) = world.message(number) else {
        panic!(rt; "no heads");
    };
    assert!(rt; asked.list() == heads);
}

#[test]
fn a_replica_is_sent_what_it_lacks(rt: HostRuntime) -> Result<(), Fail> {
    let played = play_and_check(&rt, rt.alloc(), &ASKED.0, &ASKED.1)?;
    assert_heads(&rt, &played.world, 1, HEADS);
    check_all_edits(
        &rt,
        rt.alloc(),
        &played.world,
        &[
            (1, &[CLOSED, CLOSED_LATER, BLOCKED]),
            (2, &[CLOSED_LATER, BLOCKED]),
        ],
    )
}

/// Refused events among accepted ones. The first message is empty, and it is made after somebody has asked for it.
const REFUSED_BETWEEN: ([Event; 6], [Answer; 6]) = answered_events![
    advance(0, 6) => Ok(Reply::Horizon(6)),
    advance(7, 1) => Err(WorldFault::NoReplica),
    take(1, 0) => Err(WorldFault::NoMessage),
    send(0) => Ok(Reply::Message(0)),
    take(1, 0) => Ok(Reply::Touched(None)),
    advance(1, 3) => Ok(Reply::Horizon(3)),
];

#[test]
fn refused_events_do_not_end_a_list(rt: HostRuntime) -> Result<(), Fail> {
    let (events, answers) = REFUSED_BETWEEN;
    let played = play_and_check(&rt, rt.alloc(), &events, &answers)?;
    check_all_rows(
        &rt,
        rt.alloc(),
        &played.world,
        &[(1, &[(3, ".1...2......")])],
    )
}
