//! The results of every crew, with few workers and with more workers than cars: the worked rows, and the speeds of the
//! crew of one on roads with few cars and with many.

ghost use Rattle.std.specs.Prelude.{◌<◌, ◌≤◌};

use crate::rows::{compare_all_rows, input_of, shared_plan};
use road_ends::StepInput;
use road_workers::{Alone, Crew, NoGate, Pool, Scoped};
use std::alloc::Global;
use std::process::Abort;
use std::sync::{Arc, Wait};
use std::test::Fail;
use std::thread::Threads;
use tests_plans::{FREE, Parts, queue};

// Compare the worked rows for workers whose threads are made for each call.
fn compare_scoped<R: Threads + Wait + Abort>(
    rt: &R,
    alloc: Global,
    workers: u32,
) -> Result<(), Fail>
    requires some { 0 < workers }
    requires few { workers ≤ 16 }
{
    let mut crew = Scoped::new(rt, workers, Box::new(alloc, NoGate)?);
    compare_all_rows(rt, alloc, &mut crew)
}

#[test]
fn threads_made_for_each_call_give_the_worked_rows(rt: HostRuntime) -> Result<(), Fail> {
    for workers in [1, 2, 7, 16] {
        compare_scoped(&rt, rt.alloc(), workers)?;
    }
    Ok(())
}

/// The longest road, where no car enters and no car is slowed.
const LONG: Parts = Parts {
    road: (8_192, 1, 8_192),
    inlets: &[(0, 0)],
    detectors: &[],
    ..FREE
};

/// How many cells are taken by a queue, with 5, 63 and 8,064 cars. 5 is less than the number of workers, and 63 is not
/// even.
const CELLS: &[u32] = &[5, 64, 8_192];

// Make the input of a step of this queue.
fn input_of_queue(alloc: Global, cells: u32) -> Result<Arc<StepInput>, Fail> {
    let plan = shared_plan(alloc, &LONG)?;
    input_of(alloc, &plan, None, 0, &queue(alloc, cells)?)
}

// Return whether a crew returns the same speeds as the crew of one.
fn gives_as_one<C: Crew>(alloc: Global, crew: &mut C, cells: u32) -> Result<bool, Fail> {
    let input = input_of_queue(alloc, cells)?;
    let wanted = Alone.speeds(alloc, &input)?;
    let speeds = crew.speeds(alloc, &input)?;
    Ok(speeds.as_slice() == wanted.as_slice())
}

// Compare the worked rows, and then the speeds on all these roads, forwards and in reverse.
fn compare_rows_and_queues<C: Crew>(
    rt: &impl Abort,
    alloc: Global,
    crew: &mut C,
) -> Result<(), Fail> {
    compare_all_rows(rt, alloc, crew)?;
    for cells in CELLS.iter().chain(CELLS.iter().rev()) {
        assert!(rt; gives_as_one(alloc, crew, *cells)?, "{cells} cells");
    }
    Ok(())
}

// Compare the worked rows and the speeds on these roads for lasting workers.
fn compare_pool<R: Threads + Wait + Abort + Clone + Drop + Send + 'static>(
    rt: &R,
    alloc: Global,
    workers: u32,
) -> Result<(), Fail>
    requires some { 0 < workers }
    requires few { workers ≤ 16 }
{
    let mut crew = Pool::start(rt.clone()?, alloc, workers)?;
    let given = compare_rows_and_queues(rt, alloc, &mut crew);
    crew.finish();
    given
}

#[test]
fn lasting_workers_give_the_worked_rows_and_the_speeds_of_one_worker(
    rt: HostRuntime,
) -> Result<(), Fail> {
    for workers in [1, 2, 7, 16] {
        compare_pool(&rt, rt.alloc(), workers)?;
    }
    Ok(())
}
