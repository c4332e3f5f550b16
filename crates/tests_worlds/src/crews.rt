//! A crew that fails in one event.

use crate::worlds::{Answer, check_all_rows, check_answers};
use road_ends::Meter;
use road_replica::{ReplicaFault, Reply};
use road_world::{Event, Played, WorldFault, play};
use std::alloc::Global;
use std::sync::Arc;
use std::test::Fail;
use tests_plans::{BLOCK, FREE, FailingCrew, answered_events, plan_of};

const EVENTS: ([Event; 4], [Answer; 4]) = answered_events![
    advance(0, 6) => Ok(Reply::Horizon(6)),
    edit(0, BLOCK, 4, 1) => Err(WorldFault::Replica(ReplicaFault::WorkersGone)),
    advance(0, 3) => Ok(Reply::Horizon(6)),
    advance(1, 6) => Ok(Reply::Horizon(6)),
];

// Play the events in a world of two replicas, with a crew that fails once, and return the result.
fn play_events(alloc: Global, crew: &mut FailingCrew) -> Result<Played, Fail> {
    let plan = Arc::new(alloc, plan_of(alloc, &FREE)?)?;
    Ok(play(alloc, plan, 2, &EVENTS.0, crew, &mut Meter::new())?)
}

#[test]
fn lost_workers_cost_one_event(rt: HostRuntime) -> Result<(), Fail> {
    let mut crew = FailingCrew::after(8);
    let played = play_events(rt.alloc(), &mut crew)?;
    check_answers(&rt, &played, &EVENTS.1);
    assert!(&rt; crew.gone == 1);
    check_all_rows(
        &rt,
        rt.alloc(),
        &played.world,
        &[(0, &[(6, "0..2...2....")]), (1, &[(6, "0..2...2....")])],
    )
}
