//! Crews that fail. The replica stays unchanged, and the same write then succeeds as if nothing had happened.

use crate::growing::extension_survives;
use crate::replicas::{Write, apply_write, replica_after};
use road_ends::Meter;
use road_replica::{Replica, ReplicaFault, Reply};
use road_scenario::{Edit, Stamp, Value};
use road_sheet::Sheet;
use road_workers::{Alone, Crew, CrewFault, Pool};
use std::alloc::Global;
use std::process::Abort;
use std::test::Fail;
use tests_plans::{BLOCK, FailingCrew, LIMIT, Running, edit, stamp};
use tests_portraits::Portrait;

const BLOCKED: &[Edit] = &[edit!(BLOCK, 4, (1, 64), 1)];

/// The edits before the crew fails: the limit is 1 from step 2 on.
const SLOWED: &[Write] = &[Write::Edit(LIMIT, 2, 1), Write::Advance(6)];

/// A write after other writes, its reply, the number of steps that it computes, and the number of runs. A run ends
/// where an edit takes effect, or where an interval of 64 steps ends.
struct Case(&'static [Write], Write, Reply, u64, u64);

const CASES: &[Case] = &[
    Case(&[], Write::Advance(6), Reply::Horizon(6), 6, 1),
    Case(
        &[Write::Advance(6)],
        Write::Edit(BLOCK, 4, 1),
        Reply::Stamped(stamp!(1, 0)),
        6,
        2,
    ),
    Case(
        &[Write::Advance(6), Write::Edit(BLOCK, 4, 1)],
        Write::Withdraw(BLOCK, 4),
        Reply::Stamped(stamp!(2, 0)),
        6,
        2,
    ),
    Case(
        SLOWED,
        Write::Edit(BLOCK, 4, 1),
        Reply::Stamped(stamp!(2, 0)),
        6,
        3,
    ),
    Case(
        SLOWED,
        Write::Withdraw(LIMIT, 2),
        Reply::Stamped(stamp!(2, 0)),
        6,
        2,
    ),
    Case(
        SLOWED,
        Write::Import(BLOCKED),
        Reply::Touched(Some(4)),
        6,
        3,
    ),
    Case(SLOWED, Write::Take(BLOCKED), Reply::Touched(Some(4)), 6, 3),
    Case(SLOWED, Write::Advance(12), Reply::Horizon(12), 6, 1),
    Case(
        &[Write::Advance(6), Write::Edit(BLOCK, 4, 1)],
        Write::Advance(70),
        Reply::Horizon(70),
        64,
        2,
    ),
];

/// Draw a sheet.
pub(crate) fn draw(alloc: Global, sheet: &Sheet) -> Result<Portrait, Fail> {
    let mut portrait = Portrait::new(alloc);
    match portrait.draw_sheet(alloc, sheet) {
        Some(()) => Ok(portrait),
        None => Err(Fail::new("no allocation of a portrait may fail")),
    }
}

/// Return whether a sheet shows everything that was drawn.
pub(crate) fn is_as(alloc: Global, sheet: &Sheet, portrait: &Portrait) -> Result<bool, Fail> {
    Ok(draw(alloc, sheet)?.is_same(portrait))
}

// Return whether a write is refused for a fault of its crew, and leaves the replica as it was drawn before.
fn is_lost_from<C: Crew>(
    alloc: Global,
    replica: &mut Replica,
    case: &Case,
    crew: &mut C,
    meter: &mut Meter,
    fault: CrewFault,
    before: &Portrait,
) -> Result<bool, Fail> {
    if apply_write(alloc, replica, case.1, crew, meter) != Err(ReplicaFault::from(fault)) {
        return Ok(false);
    }
    is_as(alloc, replica.sheet(), before)
}

// Return whether a write is refused for a fault of its crew, and leaves the replica unchanged.
fn is_lost<C: Crew>(
    alloc: Global,
    replica: &mut Replica,
    case: &Case,
    crew: &mut C,
    meter: &mut Meter,
    fault: CrewFault,
) -> Result<bool, Fail> {
    let before = draw(alloc, replica.sheet())?;
    is_lost_from(alloc, replica, case, crew, meter, fault, &before)
}

// Return whether a write succeeds, and the replica then shows what it should show.
fn is_done<C: Crew>(
    alloc: Global,
    replica: &mut Replica,
    case: &Case,
    crew: &mut C,
    meter: &mut Meter,
    last: &Portrait,
) -> Result<bool, Fail> {
    if apply_write(alloc, replica, case.1, crew, meter) != Ok(case.2) {
        return Ok(false);
    }
    is_as(alloc, replica.sheet(), last)
}

// Return whether a replica survives a crew that fails after `calls` steps.
fn survives_failing_step(
    alloc: Global,
    replica: &mut Replica,
    case: &Case,
    calls: u64,
    last: &Portrait,
) -> Result<bool, Fail> {
    let (mut crew, mut meter) = (FailingCrew::after(calls), Meter::new());
    let gone = CrewFault::WorkersGone;
    if !is_lost(alloc, replica, case, &mut crew, &mut meter, gone)? {
        return Ok(false);
    }
    if (meter.ticks(), crew.gone) != (calls, 1) {
        return Ok(false);
    }
    is_done(alloc, replica, case, &mut crew, &mut meter, last)
}

// Return whether a crew has counted the steps of its runs, and has failed if it should.
fn has_counted<C>(crew: &Running<C>, before: u64, ticks: u64, has_failed: bool) -> bool {
    ticks == crew.steps.saturating_sub(before) && crew.fault.is_none() == has_failed
}

// Return whether a replica survives a crew that fails after this many runs, and counts the steps of its runs.
fn survives_failing_run<C: Crew>(
    alloc: Global,
    replica: &mut Replica,
    case: &Case,
    crew: &mut Running<C>,
    (runs, fault): (u64, CrewFault),
    last: &Portrait,
) -> Result<bool, Fail> {
    crew.fail_after(runs, fault);
    let (steps, mut meter) = (crew.steps, Meter::new());
    let fails = runs < case.4;
    if fails && !is_lost(alloc, replica, case, crew, &mut meter, fault)? {
        return Ok(false);
    }
    let is_done = is_done(alloc, replica, case, crew, &mut meter, last)?;
    Ok(is_done && has_counted(crew, steps, meter.ticks(), fails))
}

// Return whether a new replica survives a crew that fails after `calls` steps.
fn new_survives_failing_step(
    alloc: Global,
    case: &Case,
    calls: u64,
    last: &Portrait,
) -> Result<bool, Fail> {
    let mut replica = replica_after(alloc, 0, case.0)?;
    survives_failing_step(alloc, &mut replica, case, calls, last)
}

// Return whether a new replica survives a crew that fails after this many runs.
fn new_survives_failing_run<C: Crew>(
    alloc: Global,
    case: &Case,
    crew: &mut Running<C>,
    failing: (u64, CrewFault),
    last: &Portrait,
) -> Result<bool, Fail> {
    let mut replica = replica_after(alloc, 0, case.0)?;
    survives_failing_run(alloc, &mut replica, case, crew, failing, last)
}

// Return whether a write survives a crew that fails at any of its steps.
fn survives_any_step(alloc: Global, case: &Case, last: &Portrait) -> Result<bool, Fail> {
    for calls in 0..case.3 {
        if !new_survives_failing_step(alloc, case, calls, last)? {
            return Ok(false);
        }
    }
    Ok(true)
}

// Return whether a write survives a crew that fails with this fault at any of its runs, and makes no further run.
fn survives_any_run<C: Crew>(
    alloc: Global,
    case: &Case,
    crew: &mut Running<C>,
    fault: CrewFault,
    last: &Portrait,
) -> Result<bool, Fail> {
    for runs in 0..=case.4 {
        if !new_survives_failing_run(alloc, case, crew, (runs, fault), last)? {
            return Ok(false);
        }
    }
    Ok(true)
}

// Make the last write of a case, and draw the replica.
fn draw_after(alloc: Global, replica: &mut Replica, case: &Case) -> Result<Portrait, Fail> {
    apply_write(alloc, replica, case.1, &mut Alone, &mut Meter::new())?;
    draw(alloc, replica.sheet())
}

// Draw what a replica must show after a case.
fn last_of(alloc: Global, case: &Case) -> Result<Portrait, Fail> {
    let mut replica = replica_after(alloc, 0, case.0)?;
    draw_after(alloc, &mut replica, case)
}

// Return whether a write survives a crew that fails at any of its steps, and at any of its runs with either fault.
fn survives<C: Crew>(
    alloc: Global,
    case: &Case,
    crew: &mut Running<C>,
    last: &Portrait,
) -> Result<bool, Fail> {
    Ok(
        survives_any_step(alloc, case, last)?
            && survives_any_run(alloc, case, crew, CrewFault::WorkersGone, last)?
            && survives_any_run(alloc, case, crew, CrewFault::OutOfMemory, last)?,
    )
}

// Return whether the write of a case survives crews that fail, and the replica then shows what a single caller
// computes.
fn case_survives<C: Crew>(alloc: Global, case: &Case, crew: &mut Running<C>) -> Result<bool, Fail> {
    let last = last_of(alloc, case)?;
    survives(alloc, case, crew, &last)
}

// Check the writes of all cases, and a sheet that is extended.
fn check_all<C: Crew>(rt: &impl Abort, alloc: Global, crew: &mut Running<C>) -> Result<(), Fail> {
    for (number, case) in CASES.iter().enumerate() {
        assert!(rt; case_survives(alloc, case, crew)?, "write {number}");
    }
    assert!(rt; extension_survives(alloc, crew)?);
    Ok(())
}

#[test]
fn a_replica_survives_a_crew_that_fails_at_any_call(rt: HostRuntime) -> Result<(), Fail> {
    let mut running = Running::of(Pool::start(rt.clone()?, rt.alloc(), 1)?);
    let done = check_all(&rt, rt.alloc(), &mut running);
    let Running { crew, .. } = running;
    crew.finish();
    done
}
