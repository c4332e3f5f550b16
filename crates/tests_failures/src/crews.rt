//! Crews: the speeds of a step of the dense road, 64 steps of the long road, and the start of lasting workers.

use crate::roads::shared_plan;
use crate::verdict::{Call, Refusal, Until, Verdict, Wrong, try_call, verdict_of};
use road_cells::Road;
use road_columns::RoadOrRun;
use road_ends::{Span, StepInput, enter};
use road_plan::{Plan, Settings};
use road_workers::{Alone, Crew, CrewFault, NoGate, Pool, Scoped};
use std::alloc::Global;
use std::sync::{Arc, Wait};
use std::thread::Threads;
use tests_plans::{Counter, DENSE, LONG, queue};

/// The speeds that the cars get in the dense road's first step.
const SPEEDS: &[u8] = &[0, 1, 0, 1, 0, 0, 1, 0, 1];

/// The number of cells of the long road that are taken: enough cars for two workers.
const TAKEN: u32 = 8_000;

/// The number of lasting workers.
const WORKERS: u32 = 2;

/// The task of a crew.
#[derive(Drop)]
enum Task {
    /// The speeds of the dense road's first step.
    Speeds(Arc<StepInput>),
    /// Steps of the long road, and the gate that the workers pass.
    Steps(Span, Road, Arc<Counter>),
}

/// The kind of crew to try.
#[derive(Clone, Copy, PartialEq, Eq)]
pub(crate) enum CrewCase {
    /// A single caller computes.
    Alone,
    /// Two threads that are made for the call compute.
    Scoped,
    /// Two lasting workers compute the speeds of a step, a piece each.
    Pool,
    /// Two lasting workers run steps of a long road, a stretch each.
    Run,
    /// Two lasting workers are started.
    Start,
    /// Two lasting workers are started with a gate.
    StartGated,
}

// Make the task of computing the speeds of the dense road's first step.
fn first_speeds(alloc: Global) -> Option<Task> {
    let plan = shared_plan(alloc, &DENSE)?;
    let settings = Settings::of_plan(alloc, &plan).ok()?;
    if !settings.fits(&plan) {
        return None;
    }
    let input = enter(alloc, &plan, settings, 0, &Road::empty(alloc)).ok()?;
    Some(Task::Speeds(input))
}

// Make the span of the first steps of a plan.
fn first_steps(alloc: Global, plan: Arc<Plan>) -> Option<Span> {
    let Ok(settings) = Settings::of_plan(alloc, &plan) else {
        return None;
    };
    let Ok(settings) = Arc::new(alloc, settings) else {
        return None;
    };
    Some(Span::new(plan, settings, 0, 64))
}

// Make the task of running the first steps of the long road. It has enough cars for the workers to share the run.
fn long_run(alloc: Global) -> Option<Task> {
    let gate = Arc::new(alloc, Counter::new()).ok()?;
    let road = queue(alloc, TAKEN).ok()?;
    let span = first_steps(alloc, shared_plan(alloc, &LONG)?)?;
    Some(Task::Steps(span, road, gate))
}

// Return whether a crew runs a span, and each of its workers passes the gate. The road and the totals need no check:
// the contract of the run states them.
fn runs<C: Crew>(
    alloc: Global,
    crew: &mut C,
    span: &Span,
    road: &Road,
    gate: &Counter,
) -> Result<bool, CrewFault> {
    let before = gate.passed();
    let ran = crew.run(alloc, span, RoadOrRun::Road(road.copied()?))?;
    Ok(ran.is_some() && gate.passed() == before.saturating_add(WORKERS))
}

// Return whether a crew does its task.
fn gives<C: Crew>(alloc: Global, crew: &mut C, task: &Task) -> Result<bool, CrewFault> {
    match task {
        Task::Speeds(input) => Ok(crew.speeds(alloc, input)?.as_slice() == SPEEDS),
        Task::Steps(span, road, gate) => runs(alloc, crew, span, road, gate),
    }
}

// A crew and its task.
#[derive(Drop)]
struct Asking<C> {
    crew: C,
    task: Task,
}

impl<C: Crew> Call for Asking<C> {
    type Answer = bool;

    type Fault = CrewFault;

    fn make(&mut self, alloc: Global) -> Result<bool, CrewFault> {
        gives(alloc, &mut self.crew, &self.task)
    }

    fn is_right(&mut self, _alloc: Global, is_given: bool) -> Option<bool> {
        Some(is_given)
    }
}

// Try a single caller.
fn try_alone(alloc: Global, until: Until) -> Option<Verdict> {
    let task = first_speeds(alloc)?;
    try_call(alloc, until, &mut Asking { crew: Alone, task })
}

// Try the speeds of two threads that are made for the call.
fn try_scoped<R: Threads + Wait>(rt: &R, alloc: Global, until: Until) -> Option<Verdict> {
    let task = first_speeds(alloc)?;
    let gate = Box::new(alloc, NoGate).ok()?;
    let crew = Scoped::new(rt, WORKERS, gate);
    try_call(alloc, until, &mut Asking { crew, task })
}

// Start two lasting workers, with a gate or without.
fn start_two<R: Threads + Wait + Clone + Drop + Send + 'static>(
    rt: &R,
    alloc: Global,
    is_gated: bool,
) -> Option<Result<Pool<R>, CrewFault>> {
    let own = rt.clone().ok()?;
    if is_gated {
        let gate = Arc::new(alloc, NoGate).ok()?;
        Some(Pool::start_gated(own, alloc, WORKERS, gate))
    } else {
        Some(Pool::start(own, alloc, WORKERS))
    }
}

// Start two lasting workers for a task, with its gate if it has one.
fn start_for<R: Threads + Wait + Clone + Drop + Send + 'static>(
    rt: &R,
    alloc: Global,
    task: &Task,
) -> Option<Pool<R>> {
    match task {
        Task::Speeds(_) => start_two(rt, alloc, false)?.ok(),
        Task::Steps(_, _, gate) => {
            let gate = Arc::try_clone(gate).ok()?;
            Pool::start_on(rt.clone().ok()?, alloc, WORKERS, gate, WORKERS).ok()
        }
    }
}

// Try two lasting workers.
fn try_pool<R: Threads + Wait + Clone + Drop + Send + 'static>(
    rt: &R,
    alloc: Global,
    until: Until,
    task: Task,
) -> Option<Verdict> {
    let crew = start_for(rt, alloc, &task)?;
    let mut asking = Asking { crew, task };
    let verdict = try_call(alloc, until, &mut asking);
    let Asking { crew, .. } = asking;
    crew.finish();
    verdict
}

// Judge workers that were started: they must return the right speeds. Return `None` if an allocation failed meanwhile.
fn judge_start<R: Threads + Wait + Clone + Drop + Send + 'static>(
    alloc: Global,
    mut pool: Pool<R>,
    task: &Task,
    verdict: Verdict,
) -> Option<Verdict> {
    let given = gives(alloc, &mut pool, task);
    pool.finish();
    match given {
        Ok(is_right) => Some(verdict_of(verdict, is_right)),
        Err(CrewFault::OutOfMemory) => None,
        Err(CrewFault::WorkersGone) => Some(Verdict::Wrong(Wrong::Workers)),
    }
}

// Start two lasting workers again.
fn start_again<R: Threads + Wait + Clone + Drop + Send + 'static>(
    rt: &R,
    alloc: Global,
    is_gated: bool,
    task: &Task,
    verdict: Verdict,
) -> Option<Verdict> {
    match start_two(rt, alloc, is_gated)? {
        Ok(pool) => judge_start(alloc, pool, task, verdict),
        Err(_) => Some(Verdict::Wrong(Wrong::Again)),
    }
}

// Try the start of two lasting workers.
fn try_start<R: Threads + Wait + Clone + Drop + Send + 'static>(
    rt: &R,
    alloc: Global,
    until: Until,
    is_gated: bool,
) -> Option<Verdict> {
    let task = first_speeds(alloc)?;
    if until == Until::Prepared {
        return Some(Verdict::Stopped);
    }
    match start_two(rt, alloc, is_gated)? {
        Ok(pool) if until == Until::Called => {
            pool.finish();
            Some(Verdict::Stopped)
        }
        Ok(pool) => judge_start(alloc, pool, &task, Verdict::Right),
        Err(fault) => start_again(rt, alloc, is_gated, &task, fault.verdict_after_retry()?),
    }
}

/// Try a crew.
pub(crate) fn try_crew<R: Threads + Wait + Clone + Drop + Send + 'static>(
    rt: &R,
    alloc: Global,
    until: Until,
    case: CrewCase,
) -> Option<Verdict> {
    match case {
        CrewCase::Alone => try_alone(alloc, until),
        CrewCase::Scoped => try_scoped(rt, alloc, until),
        CrewCase::Pool => try_pool(rt, alloc, until, first_speeds(alloc)?),
        CrewCase::Run => try_pool(rt, alloc, until, long_run(alloc)?),
        CrewCase::Start => try_start(rt, alloc, until, false),
        CrewCase::StartGated => try_start(rt, alloc, until, true),
    }
}
