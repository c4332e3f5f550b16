//! Edits in messages: an edit that is withdrawn after its message was made, and two edits whose messages cross.

use crate::worlds::{A1, A2, Answer, check_all_edits, check_all_rows, play_and_check};
use road_replica::Reply;
use road_scenario::{Edit, Stamp, Value};
use road_world::Event;
use std::alloc::Global;
use std::process::Abort;
use std::test::Fail;
use tests_plans::{BLOCK, LIMIT, answered_events, edit, stamp};

/// The first replica blocks a cell, sends that edit, and withdraws it. Its own message then changes nothing.
const WITHDRAWN: ([Event; 5], [Answer; 5]) = answered_events![
    advance(0, 6) => Ok(Reply::Horizon(6)),
    edit(0, BLOCK, 4, 1) => Ok(Reply::Stamped(A1)),
    send(0) => Ok(Reply::Message(0)),
    withdraw(0, BLOCK, 4) => Ok(Reply::Stamped(A2)),
    take(0, 0) => Ok(Reply::Touched(None)),
];

/// The last row of the first replica, before it takes the message and after that.
const FREE_AGAIN: &[(u32, &str)] = &[(6, "0..2...2....")];

// Assert that the first replica shows that row after these events.
fn assert_free_again(
    rt: &impl Abort,
    alloc: Global,
    events: &[Event],
    answers: &[Answer],
) -> Result<(), Fail> {
    let played = play_and_check(rt, alloc, events, answers)?;
    check_all_rows(rt, alloc, &played.world, &[(0, FREE_AGAIN)])
}

#[test]
fn a_withdrawn_edit_does_not_come_back_with_its_message(rt: HostRuntime) -> Result<(), Fail> {
    let (events, answers) = WITHDRAWN;
    assert_free_again(&rt, rt.alloc(), &events[..4], &answers[..4])?;
    assert_free_again(&rt, rt.alloc(), &events, &answers)
}

/// The second replica sets another limit over that of the first one. The third replica takes both messages, the later
/// one first.
const CROSSED: ([Event; 7], [Answer; 7]) = answered_events![
    edit(0, LIMIT, 3, 1) => Ok(Reply::Stamped(A1)),
    send(0) => Ok(Reply::Message(0)),
    take(1, 0) => Ok(Reply::Touched(Some(3))),
    edit(1, LIMIT, 3, 2) => Ok(Reply::Stamped(stamp!(2, 1))),
    send(1) => Ok(Reply::Message(1)),
    take(2, 1) => Ok(Reply::Touched(Some(3))),
    take(2, 0) => Ok(Reply::Touched(None)),
];

const LATER_LIMIT: &[Edit] = &[edit!(LIMIT, 3, (2, 1), 2)];

#[test]
fn an_older_message_changes_nothing(rt: HostRuntime) -> Result<(), Fail> {
    let played = play_and_check(&rt, rt.alloc(), &CROSSED.0, &CROSSED.1)?;
    check_all_edits(&rt, rt.alloc(), &played.world, &[(2, LATER_LIMIT)])
}
