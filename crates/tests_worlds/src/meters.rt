//! The number of steps that a meter counts for events, and what a world shows of its replicas by their numbers.

use crate::worlds::{Answer, B1, check_answers};
use road_ends::Meter;
use road_plan::Object;
use road_replica::{ReplicaFault, Reply};
use road_workers::Alone;
use road_world::{Event, Played, World, WorldFault, play};
use std::alloc::Global;
use std::sync::Arc;
use std::test::Fail;
use tests_plans::{BLOCK, FREE, answered_events, plan_of};

const EVENTS: ([Event; 8], [Answer; 8]) = answered_events![
    advance(0, 6) => Ok(Reply::Horizon(6)),
    advance(7, 1) => Err(WorldFault::NoReplica),
    edit(0, Object::Limit(1), 2, 1) => Err(WorldFault::Replica(ReplicaFault::NoObject)),
    advance(1, 1_048_577) => Err(WorldFault::Replica(ReplicaFault::Horizon)),
    edit(1, BLOCK, 4, 1) => Ok(Reply::Stamped(B1)),
    send(1) => Ok(Reply::Message(0)),
    take(0, 0) => Ok(Reply::Touched(Some(4))),
    take(0, 0) => Ok(Reply::Touched(None)),
];

// Play the events in a world of two replicas, and return the result.
fn play_events(alloc: Global, meter: &mut Meter) -> Result<Played, Fail> {
    let plan = Arc::new(alloc, plan_of(alloc, &FREE)?)?;
    Ok(play(alloc, plan, 2, &EVENTS.0, &mut Alone, meter)?)
}

#[test]
fn refused_events_and_messages_compute_nothing(rt: HostRuntime) -> Result<(), Fail> {
    let mut meter = Meter::new();
    let played = play_events(rt.alloc(), &mut meter)?;
    check_answers(&rt, &played, &EVENTS.1);
    // Six steps for the first advance, and six more for the block.
    assert!(&rt; meter.ticks() == 12);
    Ok(())
}

#[test]
fn replicas_are_shown_by_their_numbers(rt: HostRuntime) -> Result<(), Fail> {
    let alloc = rt.alloc();
    let plan = Arc::new(alloc, plan_of(alloc, &FREE)?)?;
    let mut world = World::open(alloc, plan, 2)?;
    assert!(&rt; world.replica(1).is_some());
    assert!(&rt; world.replica(2).is_none());
    let event = Event::Advance { at: 1, to: 6 };
    let reply = world.apply(alloc, &event, &mut Alone, &mut Meter::new());
    assert!(&rt; reply == Ok(Reply::Horizon(6)));
    let road = world.state(alloc, 1, 6)?;
    assert!(&rt; road.car_at(0).is_some());
    assert!(&rt; road.car_at(1).is_none());
    // Cars arrive at cell 5 at steps 3 and 5, each with speed 2.
    let counted = world.totals(alloc, 1, 0, 0, 6)?;
    assert!(&rt; counted.cars == 2);
    assert!(&rt; counted.speeds == 4);
    let late = world.state(alloc, 0, 6);
    assert!(&rt; late.err() == Some(WorldFault::Replica(ReplicaFault::NotSimulated)));
    let missing = world.totals(alloc, 2, 0, 0, 6);
    assert!(&rt; missing.err() == Some(WorldFault::NoReplica));
    Ok(())
}

#[test]
fn a_world_of_none_has_no_replica(rt: HostRuntime) -> Result<(), Fail> {
    let alloc = rt.alloc();
    let plan = Arc::new(alloc, plan_of(alloc, &FREE)?)?;
    let world = World::open(alloc, plan, 0)?;
    assert!(&rt; world.replica(0).is_none());
    Ok(())
}
