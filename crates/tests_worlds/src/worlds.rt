//! Lists of events on the free road, their answers, and what the world then shows.

use road_ends::Meter;
use road_replica::Reply;
use road_scenario::{Edit, Stamp};
use road_workers::Alone;
use road_world::{Event, Played, World, WorldFault, play};
use std::alloc::Global;
use std::process::Abort;
use std::sync::Arc;
use std::test::Fail;
use tests_plans::{FREE, plan_of, stamp};

/// The answer to an event: its reply, or why it is refused.
pub(crate) type Answer = Result<Reply, WorldFault>;

/// The stamps of a replica's edits.
pub(crate) const A1: Stamp = stamp!(1, 0);

pub(crate) const A2: Stamp = stamp!(2, 0);

pub(crate) const A3: Stamp = stamp!(3, 0);

pub(crate) const B1: Stamp = stamp!(1, 1);

pub(crate) const B3: Stamp = stamp!(3, 1);

/// Return the world of three replicas of the free road after some events.
pub(crate) fn play_events(alloc: Global, events: &[Event]) -> Result<Played, Fail> {
    let plan = Arc::new(alloc, plan_of(alloc, &FREE)?)?;
    Ok(play(alloc, plan, 3, events, &mut Alone, &mut Meter::new())?)
}

/// Assert that some events have these answers.
pub(crate) fn check_answers(rt: &impl Abort, played: &Played, expected: &[Answer]) {
    assert!(rt; played.replies.as_slice() == expected);
}

/// Return the world after some events. The events must have these answers.
pub(crate) fn play_and_check(
    rt: &impl Abort,
    alloc: Global,
    events: &[Event],
    expected: &[Answer],
) -> Result<Played, Fail> {
    let played = play_events(alloc, events)?;
    check_answers(rt, &played, expected);
    Ok(played)
}

/// Assert that a replica of a world shows these rows at these steps.
pub(crate) fn check_rows(
    rt: &impl Abort,
    alloc: Global,
    world: &World,
    number: u32,
    rows: &[(u32, &str)],
) -> Result<(), Fail> {
    for (step, text) in rows {
        let shown = world.rows(alloc, number, *step, *step)?;
        assert!(rt; shown.first().map(|row| row.as_str()) == Some(*text));
    }
    Ok(())
}

/// Assert that a replica of a world has exactly these winning edits.
pub(crate) fn check_edits(
    rt: &impl Abort,
    alloc: Global,
    world: &World,
    number: u32,
    edits: &[Edit],
) -> Result<(), Fail> {
    let Some(replica) = world.replica(number) else {
        panic!(rt; "no replica {number}");
    };
    assert!(rt; replica.scenario().edits(alloc)?.as_slice() == edits);
    Ok(())
}

/// Steps, and the rows that a replica shows there.
pub(crate) type Rows<'a> = &'a [(u32, &'a str)];

/// Assert that replicas of a world show these rows.
pub(crate) fn check_all_rows(
    rt: &impl Abort,
    alloc: Global,
    world: &World,
    shown: &[(u32, Rows<'_>)],
) -> Result<(), Fail> {
    for (number, rows) in shown {
        check_rows(rt, alloc, world, *number, rows)?;
    }
    Ok(())
}

/// Assert that replicas of a world have exactly these winning edits.
pub(crate) fn check_all_edits(
    rt: &impl Abort,
    alloc: Global,
    world: &World,
    held: &[(u32, &[Edit])],
) -> Result<(), Fail> {
    for (number, edits) in held {
        check_edits(rt, alloc, world, *number, edits)?;
    }
    Ok(())
}
