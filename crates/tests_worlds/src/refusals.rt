//! Refused events: each leaves the world unchanged.

use crate::worlds::{Answer, check_all_edits, check_rows, play_and_check};
use road_plan::Object;
use road_replica::{ReplicaFault, Reply};
use road_scenario::{Edit, Stamp, Value};
use road_world::{Event, Message, WorldFault};
use std::alloc::Global;
use std::test::Fail;
use tests_plans::{LIMIT, answered_events, edit, pairs};

/// One event of each kind, at a replica that is not in the world.
const NOWHERE: ([Event; 7], [Answer; 7]) = answered_events![
    edit(3, Object::Limit(1), 1_048_576, 10) => Err(WorldFault::NoReplica),
    withdraw(3, Object::Limit(1), 1_048_576) => Err(WorldFault::NoReplica),
    send(3) => Err(WorldFault::NoReplica),
    heads(4_294_967_295) => Err(WorldFault::NoReplica),
    beyond(64, 0) => Err(WorldFault::NoReplica),
    take(3, 0) => Err(WorldFault::NoReplica),
    advance(3, 1_048_577) => Err(WorldFault::NoReplica),
];

#[test]
fn a_missing_replica_is_the_first_cause(rt: HostRuntime) -> Result<(), Fail> {
    let played = play_and_check(&rt, rt.alloc(), &NOWHERE.0, &NOWHERE.1)?;
    assert!(&rt; played.world.replica(2).is_some());
    assert!(&rt; played.world.replica(3).is_none());
    assert!(&rt; played.world.message(0).is_none());
    Ok(())
}

const WRONG: ([Event; 8], [Answer; 8]) = answered_events![
    heads(0) => Ok(Reply::Message(0)),
    take(0, 0) => Err(WorldFault::NoMessage),
    send(1) => Ok(Reply::Message(1)),
    beyond(0, 1) => Err(WorldFault::NoMessage),
    beyond(0, 0) => Ok(Reply::Message(2)),
    beyond(0, 2) => Err(WorldFault::NoMessage),
    beyond(0, 9) => Err(WorldFault::NoMessage),
    take(0, 18_446_744_073_709_551_615) => Err(WorldFault::NoMessage),
];

#[test]
fn a_message_of_another_kind_is_refused(rt: HostRuntime) -> Result<(), Fail> {
    let played = play_and_check(&rt, rt.alloc(), &WRONG.0, &WRONG.1)?;
    assert!(&rt; matches!(played.world.message(0), Some(Message::Asked(_))));
    assert!(&rt; matches!(played.world.message(1), Some(Message::Whole(_))));
    assert!(&rt; matches!(played.world.message(2), Some(Message::Answer(_))));
    assert!(&rt; played.world.message(3).is_none());
    Ok(())
}

const TWO: Edit = edit!(LIMIT, 0, (7, 64), 2);

const THREE: Edit = edit!(LIMIT, 0, (7, 64), 3);

const INSIDER: Edit = edit!(LIMIT, 0, (9, 63), 2);

/// Replicas, edits that they import, and the answers.
const IMPORTS: &[((u32, &[Edit]), Answer)] = pairs![
    (0, &[TWO]) => Ok(Reply::Touched(Some(0))),
    (0, &[THREE]) => Ok(Reply::Touched(Some(0))),
    (1, &[THREE]) => Ok(Reply::Touched(Some(0))),
    (1, &[TWO]) => Ok(Reply::Touched(None)),
    (2, &[TWO, INSIDER]) => Err(WorldFault::Replica(ReplicaFault::Insider)),
];

// Return these imports, one after another, and their answers.
fn imports(alloc: Global) -> Result<(Vec<Event>, Vec<Answer>), Fail> {
    let (mut events, mut answers) = (Vec::new(alloc), Vec::new(alloc));
    for ((at, edits), answer) in IMPORTS {
        let edits = edits.to_vec(alloc)?;
        events.push(Event::Import { at: *at, edits })?;
        answers.push(*answer)?;
    }
    Ok((events, answers))
}

#[test]
fn imports_are_taken_in_any_order_and_whole_or_not_at_all(rt: HostRuntime) -> Result<(), Fail> {
    let (events, answers) = imports(rt.alloc())?;
    let played = play_and_check(&rt, rt.alloc(), &events, &answers)?;
    check_rows(&rt, rt.alloc(), &played.world, 2, &[(0, "............")])?;
    check_all_edits(
        &rt,
        rt.alloc(),
        &played.world,
        &[(0, &[THREE]), (1, &[THREE]), (2, &[])],
    )
}
