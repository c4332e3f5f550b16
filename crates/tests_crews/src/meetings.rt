//! All workers of a crew are inside a call at once.

ghost use Rattle.std.specs.Prelude.{◌≡◌, ◌<◌, ◌≤◌, IfOk};
ghost use Rattle.road_ends.specs.Input.{input_speeds};

use crate::rows::{compare_plan_rows, shared_plan};
use crate::spans::{is_run_of_one, span_of};
use road_columns::RoadOrRun;
use road_ends::{OutOfMemory, StepInput};
use road_workers::{Crew, CrewFault, Gate, Pool, Scoped};
use std::alloc::Global;
use std::process::Abort;
use std::sync::{Arc, Wait};
use std::test::Fail;
use std::thread;
use std::thread::Threads;
use std::time::Clock;
use tests_plans::{DENSE, DENSE_ROWS, LONG, Meeting, queue};

/// The maximum number of times that a worker looks for the others.
const TURNS: u32 = 1_000_000;

/// A gate that a test shares with a crew.
#[derive(Drop)]
struct Shared<R>(Arc<Meeting<R>>);

impl<R> Shared<R> {
    // Share the gate.
    fn of(meeting: &Arc<Meeting<R>>) -> Result<Shared<R>, OutOfMemory> {
        Ok(Shared(Arc::try_clone(meeting)?))
    }
}

impl<R: Clock> Gate for Shared<R> {
    fn arrive(&self, worker: u32) {
        self.0.arrive(worker);
    }
}

/// The dense road has two worked rows. Two workers meet at each of the two steps.
#[test]
fn threads_made_for_a_call_meet(rt: HostRuntime) -> Result<(), Fail> {
    let alloc = rt.alloc();
    let meeting = Arc::new(alloc, Meeting::new(rt.clone()?, 2, TURNS))?;
    let mut crew = Scoped::new(&rt, 2, Box::new(alloc, Shared::of(&meeting)?)?);
    let given = compare_plan_rows(&rt, alloc, &mut crew, (&DENSE, None), DENSE_ROWS);
    let was_held = meeting.was_held(2);
    assert!(rt; was_held);
    given
}

#[test]
fn lasting_workers_meet(rt: HostRuntime) -> Result<(), Fail> {
    let alloc = rt.alloc();
    let meeting = Arc::new(alloc, Meeting::new(rt.clone()?, 2, TURNS))?;
    let mut crew = Pool::start_gated(rt.clone()?, alloc, 2, Arc::try_clone(&meeting)?)?;
    let given = compare_plan_rows(&rt, alloc, &mut crew, (&DENSE, None), DENSE_ROWS);
    crew.finish();
    let was_held = meeting.was_held(2);
    assert!(rt; was_held);
    given
}

// Let a crew run 64 steps of the long road twice, and compare with the run of a single caller.
fn run_twice<C: Crew>(rt: &impl Abort, alloc: Global, crew: &mut C) -> Result<(), Fail> {
    let road = queue(alloc, 4_096)?;
    let span = span_of(alloc, &shared_plan(alloc, &LONG)?, 0, 0, 64)?;
    for _ in 0..2 {
        let ran = crew.run(alloc, &span, RoadOrRun::Road(road.copied()?))?;
        assert!(rt; is_run_of_one(alloc, &span, &road, &ran)?);
    }
    Ok(())
}

// Let this number of lasting workers run the long road, which is divided among them. All of them must meet each time.
fn meet_in_runs<R: Threads + Wait + Clock + Abort + Clone + Drop + Send + Sync + 'static>(
    rt: &R,
    alloc: Global,
    workers: u32,
) -> Result<(), Fail>
    requires some { 0 < workers }
    requires few { workers ≤ 16 }
{
    let meeting = Arc::new(alloc, Meeting::new(rt.clone()?, workers, TURNS))?;
    let their_gate = Arc::try_clone(&meeting)?;
    let mut crew = Pool::start_on(rt.clone()?, alloc, workers, their_gate, workers)?;
    let given = run_twice(rt, alloc, &mut crew);
    crew.finish();
    let was_held = meeting.was_held(2);
    assert!(*rt; was_held, "{workers} workers");
    given
}

#[test]
fn lasting_workers_meet_in_a_run(rt: HostRuntime) -> Result<(), Fail> {
    for workers in [2, 4] {
        meet_in_runs(&rt, rt.alloc(), workers)?;
    }
    Ok(())
}

/// As many lasting workers as the machine has processors, up to 16, meet. The crew asks the machine for that number, as
/// [`Pool::start`] does. On one processor a run is not shared.
#[test]
fn as_many_workers_meet_as_there_are_processors(rt: HostRuntime) -> Result<(), Fail> {
    let alloc = rt.alloc();
    let processors = thread::available_parallelism(&rt)?.get().min(16) as u32;
    let meeting = Arc::new(alloc, Meeting::new(rt.clone()?, processors, TURNS))?;
    let mut crew = Pool::start_gated(rt.clone()?, alloc, processors, Arc::try_clone(&meeting)?)?;
    let given = run_twice(&rt, alloc, &mut crew);
    crew.finish();
    given?;
    if processors == 1 {
        println!(rt; "the machine has one processor: no run is shared")?;
        assert!(rt; meeting.has_none());
    } else {
        assert!(rt; meeting.was_held(2), "{processors} workers");
    }
    Ok(())
}

// Compute the speeds of two pieces of a step, one after the other, and put them together. Pass the gate before each
// piece.
#[tactic(auto, using(crate::proofs::TwoPieces::two_pieces))]
fn in_turn<G: Gate>(alloc: Global, gate: &G, input: &StepInput) -> Result<Vec<u8>, OutOfMemory>
    ensures { IfOk result (λ new. new.items ≡ input_speeds input.now) }
{
    let cars = input.road().cars().len();
    gate.arrive(0);
    let mut speeds = input.speeds_between(alloc, 0, cars / 2)?;
    gate.arrive(1);
    let back = input.speeds_between(alloc, cars / 2, cars)?;
    speeds.extend_from_slice(&back)?;
    Ok(speeds)
}

/// A crew that computes the pieces of two workers one after the other, as one thread does.
#[derive(Drop)]
struct InTurn<G> {
    /// The gate that both pieces pass.
    gate: G,
}

impl<G: Gate> Crew for InTurn<G> {
    ghost times_gone = { λ _. 0 };

    fn speeds(&mut self, alloc: Global, input: &Arc<StepInput>) -> Result<Vec<u8>, CrewFault> {
        Ok(in_turn(alloc, &self.gate, input)?)
    }
}

/// A crew that computes two pieces one after the other gives the same rows, but each piece waits for the other in vain.
/// So the gate distinguishes this crew from two workers at once.
#[test]
fn pieces_in_turn_do_not_meet(rt: HostRuntime) -> Result<(), Fail> {
    let alloc = rt.alloc();
    let meeting = Arc::new(alloc, Meeting::new(rt.clone()?, 2, 100))?;
    let gate = Shared::of(&meeting)?;
    let given = compare_plan_rows(&rt, alloc, &mut InTurn { gate }, (&DENSE, None), DENSE_ROWS);
    let was_held = meeting.was_held(2);
    assert!(rt; !was_held);
    given
}
