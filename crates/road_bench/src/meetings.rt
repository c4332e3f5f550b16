//! Runs of a long road, in which all lasting workers must meet. The crew divides the road among its workers if that is
//! faster by the crew's own measure.

ghost use Rattle.std.specs.Prelude.{◌<◌, ◌≤◌};

use anyhow::Result;
use road_ends::Meter;
use road_plan::Plan;
use road_replica::Replica;
use road_workers::{Alone, Pool};
use std::alloc::Global;
use std::sync::{Arc, Wait};
use std::thread::Threads;
use std::time::Clock;
use tests_plans::{LONG, Meeting, plan_of};

// The maximum number of times that a worker looks for the others.
const TURNS: u32 = 1_000_000;

// The steps that the caller runs alone. After them there are enough cars for 2 to 16 workers. The crew assumes that
// each worker has a processor.
const ALONE: u32 = 1_024;

// The last step, two intervals later. The workers get work in each interval.
const END: u32 = 1_152;

// Return whether all workers of a new lasting crew meet in each of two intervals of a new replica of the road.
fn meet<R: Threads + Wait + Clock + Clone + Drop + Send + Sync + 'static>(
    rt: &R,
    alloc: Global,
    plan: &Arc<Plan>,
    workers: u32,
) -> Result<bool>
    requires some { 0 < workers }
    requires few { workers ≤ 16 }
{
    let mut replica = Replica::open(alloc, Arc::try_clone(plan)?, 0)?;
    replica.advance(alloc, ALONE, &mut Alone, &mut Meter::new())?;
    let meeting = Arc::new(alloc, Meeting::new(rt.clone()?, workers, TURNS))?;
    let their_gate = Arc::try_clone(&meeting)?;
    let mut crew = Pool::start_on(rt.clone()?, alloc, workers, their_gate, workers)?;
    let advanced = replica.advance(alloc, END, &mut crew, &mut Meter::new());
    crew.finish();
    advanced?;
    Ok(meeting.was_held(2))
}

// Let 1 to 16 workers run this plan's road this many times, and write how often they all met.
fn run_on<R: Threads + Wait + Clock + Print + Clone + Drop + Send + Sync + 'static>(
    rt: &R,
    alloc: Global,
    plan: &Arc<Plan>,
    workers: u32,
    runs: u32,
) -> Result<()> {
    let workers = workers.clamp(1, 16);
    let mut met = 0u32;
    for _ in 0..runs {
        if meet(rt, alloc, plan, workers)? {
            met = met.saturating_add(1);
        }
    }
    println!(rt; "in {met} of {runs} runs of a long road all {workers} lasting workers met")?;
    Ok(())
}

/// Let 1 to 16 lasting workers run the long road this many times, and write in how many runs they all met.
pub(crate) fn run<R: Threads + Wait + Clock + Print + Clone + Drop + Send + Sync + 'static>(
    rt: &R,
    alloc: Global,
    workers: u32,
    runs: u32,
) -> Result<()> {
    let plan = Arc::new(alloc, plan_of(alloc, &LONG)?)?;
    run_on(rt, alloc, &plan, workers, runs)
}
