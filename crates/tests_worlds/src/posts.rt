//! Messages that the caller has already made. If such a message is posted for its event, it is the message that the
//! event would have made.

use crate::worlds::{Answer, check_edits};
use road_ends::Meter;
use road_replica::Reply;
use road_scenario::{Edit, Stamp, Value};
use road_workers::Alone;
use road_world::{Event, Message, Sending, World, WorldFault};
use std::alloc::Global;
use std::sync::Arc;
use std::test::Fail;
use tests_plans::{BLOCK, FREE, edit, event, plan_of};

const CLOSED: Edit = edit!(BLOCK, 4, (1, 0), 1);

// Return a world of three replicas of the free road. Replica 0 has closed a cell, and replica 2 has run to step 6.
fn open_world(alloc: Global) -> Result<World, Fail> {
    let plan = Arc::new(alloc, plan_of(alloc, &FREE)?)?;
    let mut world = World::open(alloc, plan, 3)?;
    let mut meter = Meter::new();
    for event in [event!(edit(0, BLOCK, 4, 1)), event!(advance(2, 6))] {
        world.apply(alloc, &event, &mut Alone, &mut meter)?;
    }
    Ok(world)
}

// Make a message of a replica, check whether it has heads or edits, and post it. Return its number.
fn post(alloc: Global, world: &mut World, at: u32, sending: Sending) -> Result<u64, Fail> {
    let message = world.message_by(alloc, at, sending)?;
    if matches!(sending, Sending::Asked) != matches!(&message, Message::Asked(_)) {
        return Err(Fail::new("a message of heads must be made exactly if heads are sent"));
    }
    Ok(world.post(&sending.event(at), message)?)
}

/// Replicas, the messages that they take, and the answers. The first message has heads and no edits.
const TAKEN: &[(u32, u64, Answer)] = &[
    (1, 0, Err(WorldFault::NoMessage)),
    (1, 1, Ok(Reply::Touched(Some(4)))),
    (2, 2, Ok(Reply::Touched(Some(4)))),
];

#[test]
fn a_posted_message_is_that_of_its_event(rt: HostRuntime) -> Result<(), Fail> {
    let alloc = rt.alloc();
    let mut world = open_world(alloc)?;
    let mut meter = Meter::new();
    assert!(&rt; post(alloc, &mut world, 1, Sending::Asked)? == 0);
    assert!(&rt; post(alloc, &mut world, 0, Sending::Answer { asked: 0 })? == 1);
    assert!(&rt; post(alloc, &mut world, 0, Sending::Whole)? == 2);
    let refused = world
        .message_by(alloc, 0, Sending::Answer { asked: 1 })
        .err();
    assert!(&rt; refused == Some(WorldFault::NoMessage));
    for (at, message, answer) in TAKEN {
        let event = event!(take(*at, *message));
        let reply = world.apply(alloc, &event, &mut Alone, &mut meter);
        assert!(&rt; reply == *answer);
    }
    check_edits(&rt, alloc, &world, 1, &[CLOSED])?;
    check_edits(&rt, alloc, &world, 2, &[CLOSED])
}
