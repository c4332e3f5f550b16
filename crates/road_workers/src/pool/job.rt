//! What is sent to a worker of a pool, and what the worker sends back.

ghost use Rattle.std.specs.Prelude.{◌≡◌, ◌≤◌, length, IfOk};
ghost use Rattle.std.specs.Arc.{arc_value};
ghost use Rattle.std.proofs.Props.{props};
ghost use Rattle.road_plan.specs.declared.limits.TheConstants.{GREATEST_LENGTH};
ghost use Rattle.road_cells.specs.Cars.{cars_of};
ghost use Rattle.road_ends.specs.Input.{input_speeds_between};
ghost use Rattle.road_workers.specs.Private.Stretches.{IsRunnableNear, IsRunOf};

use crate::kept_run::KeptRun;
use crate::piece::{Piece, PieceAnswer};
use crate::stretch::run_near;
use crossbeam_channel::{Receiver, SendError, Sender, bounded};
use road_cells::Road;
use road_detector::SpanResult;
use road_ends::{OutOfMemory, Span, StepInput, Stretch};
use std::alloc::Global;
use std::sync::{Arc, Wait};

// The caller's end of a worker's channel of jobs, which has room for one. Contracts see the worker's number.
#[derive(Drop)]
pub(crate) struct JobSender {
    worker: u32,
    jobs: Sender<Job>,
}

impl JobSender {
    // Make the channel of a worker. The worker's number tells it from all others of its pool.
    pub fn channel(alloc: Global, worker: u32) -> Result<(JobSender, Receiver<Job>), OutOfMemory>
        ensures { IfOk result (λ ends. ends.0.worker ≡ worker) }
    {
        let (jobs, their_jobs) = bounded(alloc, 1)?;
        Ok((JobSender { worker, jobs }, their_jobs))
    }

    // Send a job to the worker.
    pub fn send<R: Wait>(&self, rt: &R, job: Job) -> Result<(), SendError<Job>> {
        self.jobs.send(rt, job)
    }
}

// What a worker is to compute.
#[derive(Drop)]
pub(crate) enum Job {
    Piece(PieceJob),
    Stretch(StretchJob),
}

// The piece of a step that a worker is to compute.
#[derive(Drop)]
pub(crate) struct PieceJob {
    input: Arc<StepInput>,
    piece: Piece,
    ghost order: { piece.first ≤ piece.end },
    ghost within: { piece.end ≤ length (cars_of (arc_value input).road) },
}

// What a worker sends back.
#[derive(Drop)]
pub(crate) enum Reply {
    // The result of its job.
    Done(Done),
    // Its last message: it does no more jobs, and a job that it still had is not done.
    Gone,
}

// The result of a job, with the job that it answers.
#[derive(Drop)]
pub(crate) enum Done {
    Piece(PieceDone),
    Stretch(StretchDone),
}

// A piece of a step, with a worker's answer: the speeds of the piece, which are those of the definition, or out of
// memory.
#[derive(Drop)]
pub(crate) struct PieceDone {
    pub input: Arc<StepInput>,
    pub piece: Piece,
    pub answer: PieceAnswer,
    ghost right: { IfOk answer
        (λ new. new.items ≡ input_speeds_between (arc_value input) piece.first piece.end) } by { Prim.hlevel props },
}

// The stretch that a worker is to run for the steps of a span, from the road of the cars near it.
#[derive(Drop)]
pub(crate) struct StretchJob {
    span: Span,
    near: Road,
    stretch: Stretch,
    ghost order: { stretch.first ≤ stretch.end },
    ghost short: { stretch.end ≤ GREATEST_LENGTH },
    ghost runnable: { IsRunnableNear stretch.first stretch.end span near } by { Prim.hlevel props },
}

// The result of running a stretch, with the cars of its margins, or out of memory.
pub(crate) type StretchAnswer = Result<SpanResult, OutOfMemory>;

// A stretch, from the road of the cars near it, with a worker's answer: the result of the definition, or out of memory.
#[derive(Drop)]
pub(crate) struct StretchDone {
    pub span: Span,
    pub near: Road,
    pub stretch: Stretch,
    pub answer: StretchAnswer,
    ghost right: { IfOk answer (λ ran. IsRunOf stretch.first stretch.end span near ran) } by { Prim.hlevel props },
}

impl PieceJob {
    // Make the job of a piece.
    pub fn new(input: Arc<StepInput>, piece: Piece) -> PieceJob
        requires order { piece.first ≤ piece.end }
        requires within { piece.end ≤ length (cars_of (arc_value input).road) }
        ensures input { result.input ≡ input }
        ensures piece { result.piece ≡ piece }
    {
        PieceJob { input, piece }
    }

    // Compute the piece.
    pub fn compute(self, alloc: Global) -> PieceDone
        ensures input { result.input ≡ self.input }
        ensures piece { result.piece ≡ self.piece }
    {
        let PieceJob { input, piece } = self;
        let answer = input.speeds_between(alloc, piece.first, piece.end);
        PieceDone {
            input,
            piece,
            answer,
        }
    }
}

impl StretchJob {
    // Make the job of a stretch.
    pub fn new(span: Span, near: Road, stretch: Stretch) -> StretchJob
        requires order { stretch.first ≤ stretch.end }
        requires short { stretch.end ≤ GREATEST_LENGTH }
        requires runnable { IsRunnableNear stretch.first stretch.end span near }
        ensures span { result.span ≡ span }
        ensures near { result.near ≡ near }
        ensures stretch { result.stretch ≡ stretch }
    {
        StretchJob {
            span,
            near,
            stretch,
        }
    }

    // Run the stretch, in the run that the worker keeps.
    pub fn run(self, alloc: Global, kept: &mut KeptRun) -> StretchDone
        ensures span { result.span ≡ self.span }
        ensures near { result.near ≡ self.near }
        ensures stretch { result.stretch ≡ self.stretch }
    {
        let StretchJob {
            span,
            near,
            stretch,
        } = self;
        let answer = run_near(alloc, &span, &near, stretch, kept);
        StretchDone {
            span,
            near,
            stretch,
            answer,
        }
    }
}
