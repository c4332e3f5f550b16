//! Runs of the dense road, each by its own crew.

ghost use Rattle.std.specs.Prelude.{◌<◌, ◌≤◌};

use anyhow::Result;
use road_ends::Meter;
use road_plan::Plan;
use road_replica::Replica;
use road_workers::{Crew, NoGate, Pool, Scoped};
use std::alloc::Global;
use std::sync::{Arc, Wait};
use std::thread::Threads;
use tests_plans::{DENSE, DENSE_ROWS, StepByStep, plan_of};

// Return whether a crew takes a replica of the road through its worked rows.
fn takes_rows<C: Crew>(alloc: Global, replica: &mut Replica, crew: &mut C) -> Result<bool> {
    let last = DENSE_ROWS.len() as u32;
    replica.advance(alloc, last, crew, &mut Meter::new())?;
    let rows = replica.rows(alloc, 1, last)?;
    Ok(
        rows.iter()
            .map(String::as_str)
            .eq(DENSE_ROWS.iter().copied()),
    )
}

// Return whether a crew takes a new replica of the road through its worked rows.
fn gives<C: Crew>(alloc: Global, plan: &Arc<Plan>, crew: &mut C) -> Result<bool> {
    let mut replica = Replica::open(alloc, Arc::try_clone(plan)?, 0)?;
    takes_rows(alloc, &mut replica, crew)
}

// Return whether a new crew of threads made for each step takes a new replica of the road through its worked rows.
fn gives_by_threads<R: Threads + Wait>(
    rt: &R,
    alloc: Global,
    plan: &Arc<Plan>,
    workers: u32,
) -> Result<bool>
    requires some { 0 < workers }
    requires few { workers ≤ 16 }
{
    let mut crew = Scoped::new(rt, workers, Box::new(alloc, NoGate)?);
    gives(alloc, plan, &mut crew)
}

// Return the number of runs that give the worked rows, each by a new crew of threads made for each step.
fn count_runs_by_threads<R: Threads + Wait>(
    rt: &R,
    alloc: Global,
    plan: &Arc<Plan>,
    workers: u32,
    runs: u32,
) -> Result<u32>
    requires some { 0 < workers }
    requires few { workers ≤ 16 }
{
    let mut good = 0u32;
    for _ in 0..runs {
        if gives_by_threads(rt, alloc, plan, workers)? {
            good = good.saturating_add(1);
        }
    }
    Ok(good)
}

// Return whether a new crew of lasting workers, which get work at each step, takes a new replica of the road through
// its worked rows.
fn gives_by_pool<R: Threads + Wait + Clone + Drop + Send + 'static>(
    rt: &R,
    alloc: Global,
    plan: &Arc<Plan>,
    workers: u32,
) -> Result<bool>
    requires some { 0 < workers }
    requires few { workers ≤ 16 }
{
    let mut stepwise = StepByStep {
        crew: Pool::start(rt.clone()?, alloc, workers)?,
    };
    let is_good = gives(alloc, plan, &mut stepwise);
    let StepByStep { crew } = stepwise;
    crew.finish();
    is_good
}

// Return the number of runs that give the worked rows, each by a new crew of lasting workers.
fn count_runs_by_pools<R: Threads + Wait + Clone + Drop + Send + 'static>(
    rt: &R,
    alloc: Global,
    plan: &Arc<Plan>,
    workers: u32,
    runs: u32,
) -> Result<u32>
    requires some { 0 < workers }
    requires few { workers ≤ 16 }
{
    let mut good = 0u32;
    for _ in 0..runs {
        if gives_by_pool(rt, alloc, plan, workers)? {
            good = good.saturating_add(1);
        }
    }
    Ok(good)
}

// Let 1 to 16 workers take the road of this plan through its worked rows, and write how often the rows were right.
fn run_on<R: Threads + Wait + Print + Clone + Drop + Send + 'static>(
    rt: &R,
    alloc: Global,
    plan: &Arc<Plan>,
    workers: u32,
    runs: u32,
) -> Result<()> {
    let workers = workers.clamp(1, 16);
    let by_threads = count_runs_by_threads(rt, alloc, plan, workers, runs)?;
    println!(rt; "{by_threads} of {runs} runs by threads made for each step gave the worked rows")?;
    let by_pools = count_runs_by_pools(rt, alloc, plan, workers, runs)?;
    println!(rt; "{by_pools} of {runs} runs by lasting workers gave the worked rows")?;
    Ok(())
}

/// Let 1 to 16 workers take the road through its worked rows, `runs` times by each kind of crew, and write how often
/// the rows were right.
pub(crate) fn run<R: Threads + Wait + Print + Clone + Drop + Send + 'static>(
    rt: &R,
    alloc: Global,
    workers: u32,
    runs: u32,
) -> Result<()> {
    let plan = Arc::new(alloc, plan_of(alloc, &DENSE)?)?;
    run_on(rt, alloc, &plan, workers, runs)
}
