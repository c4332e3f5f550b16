//! Timed runs, by one crew after another.

ghost use Rattle.std.specs.Prelude.{◌<◌, ◌≤◌};

use anyhow::Result;
use road_ends::Meter;
use road_plan::Plan;
use road_replica::Replica;
use road_workers::{Alone, Crew, NoGate, Pool, Scoped};
use std::alloc::Global;
use std::sync::{Arc, Wait};
use std::thread::Threads;
use std::time::{Clock, Instant};
use tests_plans::StepByStep;

// Advance a replica to a step with a crew. Return the cars on the road after it, and the nanoseconds that it took.
fn advance<R: Clock, C: Crew>(
    rt: &R,
    alloc: Global,
    replica: &mut Replica,
    steps: u32,
    crew: &mut C,
) -> Result<(usize, u128)> {
    let start = Instant::now(rt)?;
    replica.advance(alloc, steps, crew, &mut Meter::new())?;
    let nanoseconds = start.elapsed(rt)?.as_nanos();
    let cars = replica.state(alloc, steps)?.cars().len();
    Ok((cars, nanoseconds))
}

// Advance a new replica of a plan from step zero. Return the same as `advance`.
fn advance_new<R: Clock, C: Crew>(
    rt: &R,
    alloc: Global,
    plan: &Arc<Plan>,
    steps: u32,
    crew: &mut C,
) -> Result<(usize, u128)> {
    let mut replica = Replica::open(alloc, Arc::try_clone(plan)?, 0)?;
    advance(rt, alloc, &mut replica, steps, crew)
}

// Time a run of a plan from step zero to a step with a crew, and write its line.
fn time<R: Clock + Print, C: Crew>(
    rt: &R,
    alloc: Global,
    plan: &Arc<Plan>,
    steps: u32,
    name: &str,
    workers: u32,
    crew: &mut C,
) -> Result<()> {
    let (cars, nanoseconds) = advance_new(rt, alloc, plan, steps, crew)?;
    println!(rt; "{name} {workers} {steps} {cars} {nanoseconds}")?;
    Ok(())
}

// Time a run by threads that are made for each step, and write its line.
fn time_threads<R: Threads + Wait + Clock + Print>(
    rt: &R,
    alloc: Global,
    plan: &Arc<Plan>,
    steps: u32,
    workers: u32,
) -> Result<()>
    requires some { 0 < workers }
    requires few { workers ≤ 16 }
{
    let mut crew = Scoped::new(rt, workers, Box::new(alloc, NoGate)?);
    time(rt, alloc, plan, steps, "scoped", workers, &mut crew)
}

// Time a run by lasting workers, which get work at each step, and write its line. Their start and end are not timed.
fn time_pool<R: Threads + Wait + Clock + Print + Clone + Drop + Send + 'static>(
    rt: &R,
    alloc: Global,
    plan: &Arc<Plan>,
    steps: u32,
    workers: u32,
) -> Result<()>
    requires some { 0 < workers }
    requires few { workers ≤ 16 }
{
    let mut stepwise = StepByStep {
        crew: Pool::start(rt.clone()?, alloc, workers)?,
    };
    let timed = time(rt, alloc, plan, steps, "pool", workers, &mut stepwise);
    let StepByStep { crew } = stepwise;
    crew.finish();
    timed
}

/// Time runs with each crew in turn, step by step, `turns` times. For each number of workers the crew of one thread
/// comes first, and then the two crews with that number of workers.
pub(crate) fn time_all<R: Threads + Wait + Clock + Print + Clone + Drop + Send + 'static>(
    rt: &R,
    alloc: Global,
    plan: &Arc<Plan>,
    steps: u32,
    turns: u32,
) -> Result<()> {
    for _ in 0..turns {
        for workers in [1, 2, 4] {
            let mut alone = StepByStep { crew: Alone };
            time(rt, alloc, plan, steps, "alone", 1, &mut alone)?;
            time_pool(rt, alloc, plan, steps, workers)?;
            time_threads(rt, alloc, plan, steps, workers)?;
        }
    }
    Ok(())
}
