//! The crew of one.

use crate::rows::{compare_all_rows, first_input};
use road_ends::finish;
use road_workers::{Alone, Crew};
use std::test::Fail;
use tests_plans::{FREE, Parts};

#[test]
fn one_worker_gives_the_worked_rows(rt: HostRuntime) -> Result<(), Fail> {
    compare_all_rows(&rt, rt.alloc(), &mut Alone)
}

/// No car is on the road, and no car enters.
const CLOSED: Parts = Parts {
    inlets: &[(0, 0)],
    ..FREE
};

/// Without a car there is no speed.
#[test]
fn an_empty_road_has_no_speeds(rt: HostRuntime) -> Result<(), Fail> {
    let input = first_input(rt.alloc(), &CLOSED)?;
    assert!(rt; input.road().cars().is_empty());
    let speeds = Alone.speeds(rt.alloc(), &input);
    assert!(rt; matches!(&speeds, Ok(speeds) if speeds.is_empty()));
    let later = finish(rt.alloc(), &input, &speeds?);
    assert!(rt; matches!(&later, Ok(road) if road.cars().is_empty()));
    Ok(())
}
