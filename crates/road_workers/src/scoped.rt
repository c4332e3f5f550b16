//! The crew whose threads are started for each call.

ghost use Rattle.std.specs.Prelude.{◌≡◌, ◌+◌, ◌<◌, ◌≤◌, length, take, slice_range, vec_len, [], IfOk, IfSome};
ghost use Rattle.std.specs.Arc.{arc_value};
ghost use Rattle.road_plan.specs.declared.limits.TheConstants.{MOST_WORKERS};
ghost use Rattle.road_cells.specs.Cars.{cars_of};
ghost use Rattle.road_ends.specs.Input.{input_speeds, input_speeds_between};
ghost use Rattle.road_workers.specs.Crews.{gone_after};
ghost use Rattle.road_workers.specs.Private.Pieces.{piece_start};
ghost use Rattle.road_workers.specs.Private.Started.{AreStartedFrom};

use crate::crew::{Crew, gone_after};
use crate::faults::CrewFault;
use crate::gate::Gate;
use crate::piece::{Piece, PieceAnswer, append, cars_in, list_for};
use road_ends::{OutOfMemory, StepInput};
use std::alloc::Global;
use std::marker::Model;
use std::sync::{Arc, Wait};
use std::thread;
use std::thread::{Promise, PromisedHandle, Scope, Threads};

/// A gate that all workers of a crew share.
pub type SharedGate = Box<dyn Gate + Send + Sync + Drop>;

/// The crew whose workers are threads that are started for each call, and joined before the call returns. Contracts see
/// it as its number of workers and its count of answers `WorkersGone`.
#[derive(Drop)]
pub struct Scoped<R> {
    rt: R,
    workers: u32,
    gate: SharedGate,
    gone: u64,
}

impl<R> Model for Scoped<R> {
    ghost use Rattle.std.specs.Prelude.{◌<◌, ◌≤◌};
    ghost use Rattle.road_plan.specs.declared.limits.TheConstants.{MOST_WORKERS};
    ghost use Rattle.road_workers.specs.Crews.{CrewOfThreads};

    ghost Value = { CrewOfThreads };

    ghost view = { λ crew. record { workers = crew.workers; gone = crew.gone } };

    ghost invariant = { λ crew. (0 < crew.workers) × (crew.workers ≤ MOST_WORKERS) };
}

impl<R: Threads + Wait> Scoped<R> {
    /// Make a crew of 1 to 16 workers. Each passes the gate before it computes its piece.
    pub fn new(rt: R, workers: u32, gate: SharedGate) -> Scoped<R>
        requires some { 0 < workers }
        requires few { workers ≤ MOST_WORKERS }
        ensures workers { result.workers ≡ workers }
        ensures gone { ⟦<Scoped<R> as Crew>⟧.times_gone result ≡ 0 }
    {
        Scoped {
            rt,
            workers,
            gate,
            gone: 0,
        }
    }
}

impl<R: Threads + Wait> Crew for Scoped<R> {
    ghost times_gone = { λ crew. crew.gone };

    fn speeds(&mut self, alloc: Global, input: &Arc<StepInput>) -> Result<Vec<u8>, CrewFault>
        ensures speeds { IfOk result (λ new. new.items ≡ input_speeds (arc_value input.now)) }
        ensures gone { ⟦<Scoped<R> as Crew>⟧.times_gone self.new
            ≡ gone_after result (⟦<Scoped<R> as Crew>⟧.times_gone self.old) }
        ensures workers { self.new.workers ≡ self.old.workers }
    {
        let answer = speeds_by(&self.rt, alloc, input, self.workers, &self.gate);
        self.gone = gone_after(&answer, self.gone);
        answer
    }
}

// The promise that a thread returns the speeds of a piece, or out of memory.
#[derive(Clone, Copy)]
struct SpeedsOf<'a> {
    input: &'a StepInput,
    piece: Piece,
}

impl<'a> Promise<PieceAnswer> for SpeedsOf<'a> {
    ghost kept_by = { λ promise answer. IfOk answer
        (λ new. new.items ≡ input_speeds_between promise.input.now promise.piece.first promise.piece.end) };
}

// A worker's thread.
type Worker<'a> = PromisedHandle<PieceAnswer, SpeedsOf<'a>>;

// Compute the speeds of a step, by workers whose threads are started and joined here. If one cannot be started, the
// others are joined before the answer.
fn speeds_by<R: Threads + Wait>(
    rt: &R,
    alloc: Global,
    input: &StepInput,
    workers: u32,
    gate: &SharedGate,
) -> Result<Vec<u8>, CrewFault>
    requires some { 0 < workers }
    requires few { workers ≤ MOST_WORKERS }
    ensures { IfOk result (λ new. new.items ≡ input_speeds input.now) }
{
    thread::scope(
        thread::scope_env(),
        rt,
        |scope| -> Result<Vec<u8>, CrewFault>
            requires { (0 < workers) × (workers ≤ MOST_WORKERS) }
            ensures { IfOk result (λ new. new.items ≡ input_speeds input.entry.now) }
        {
            let whole = list_for(alloc, workers, cars_in(input))?;
            let started = start_workers(scope, alloc, input, workers, gate)?;
            let count = started.len();
            let whole = join_workers(rt, whole, started, input, workers);
            if count < workers as usize {
                return Err(CrewFault::WorkersGone);
            }
            Ok(whole?)
        },
    )
}

// Start the workers in their order, up to the first that cannot be started.
fn start_workers<'s, E>(
    scope: &Scope<'s, E>,
    alloc: Global,
    input: &'s StepInput,
    workers: u32,
    gate: &'s SharedGate,
) -> Result<Vec<Worker<'s>>, OutOfMemory>
    requires few { workers ≤ MOST_WORKERS }
    ensures count { IfOk result (λ started. vec_len started ≤ workers) }
    ensures started { IfOk result (λ started. AreStartedFrom input.now workers 0 started.items) }
{
    let mut started = Vec::with_capacity(alloc, workers as usize)?;
    let cars = cars_in(input);
    for worker in 0..workers {
        let piece = Piece::of(worker, workers, cars);
        let Some(thread) = start_worker(scope, alloc, input, piece, worker, gate) else {
            break;
        };
        started.push(thread)?;
    }
    Ok(started)
}

// Start a worker. Return `None` if its thread cannot be started.
fn start_worker<'s, E>(
    scope: &Scope<'s, E>,
    alloc: Global,
    input: &'s StepInput,
    piece: Piece,
    worker: u32,
    gate: &'s SharedGate,
) -> Option<Worker<'s>>
    requires order { piece.first ≤ piece.end }
    requires within { piece.end ≤ length (cars_of input.now.road) }
    ensures { IfSome result (λ thread. (thread.promise.input.now ≡ input.now) × (thread.promise.piece ≡ piece)) }
{
    let promise = SpeedsOf { input, piece };
    let started = scope.spawn_with(
        promise,
        move || -> PieceAnswer
            requires { (piece.first ≤ piece.end) × (piece.end ≤ length (cars_of input.now.road)) }
            ensures { IfOk result (λ new. new.items ≡ input_speeds_between input.entry.now piece.first piece.end) }
        { piece_speeds(alloc, input, piece, worker, gate) },
    );
    started.ok()
}

// Do a worker's job: pass the gate, and compute the piece.
fn piece_speeds(
    alloc: Global,
    input: &StepInput,
    piece: Piece,
    worker: u32,
    gate: &SharedGate,
) -> PieceAnswer
    requires order { piece.first ≤ piece.end }
    requires within { piece.end ≤ length (cars_of input.now.road) }
    ensures { IfOk result (λ new. new.items ≡ input_speeds_between input.now piece.first piece.end) }
{
    gate.arrive(worker);
    input.speeds_between(alloc, piece.first, piece.end)
}

// Join the workers, and append their speeds in the order of the workers.
fn join_workers<'s, R: Threads>(
    rt: &R,
    whole: Vec<u8>,
    started: Vec<Worker<'s>>,
    input: &StepInput,
    workers: u32,
) -> PieceAnswer
    requires nothing { whole.items ≡ [] }
    requires started { AreStartedFrom input.now workers 0 started.items }
    ensures { IfOk result (λ new. new.items
        ≡ take (piece_start workers (length (cars_of input.now.road)) (vec_len started.entry))
        (input_speeds input.now)) }
{
    let mut whole = Ok(whole);
    for worker in started {
        whole = append(whole, worker.join(rt));
    }
    whole
}
