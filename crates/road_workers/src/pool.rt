//! The crew whose threads live as long as the crew.

ghost use Rattle.std.specs.Prelude.{◌≡◌, ◌<◌, ◌≤◌, vec_len, IfOk, IfSome, IsSome, Err};
ghost use Rattle.std.specs.Arc.{arc_value};
ghost use Rattle.road_plan.specs.declared.limits.TheConstants.{MOST_WORKERS};
ghost use Rattle.road_ends.specs.Input.{input_speeds};
ghost use Rattle.road_ends.specs.Span.{span_road};
ghost use Rattle.road_detector.specs.Passes.{span_totals};
ghost use Rattle.road_columns.specs.RoadOrRun.{road_now};
ghost use Rattle.road_workers.specs.Crews.{CanBeRun, gone_after};
ghost use Rattle.road_workers.specs.declared.faults.CrewFault.TheVariants.{WorkersGone};

mod gathering;
mod job;
mod messages;
mod places;
mod replying;
mod running;
mod sharing;
mod side_by_side;
mod spawning;
mod spin;
mod starting;
mod stepping;
mod working;

use crate::crew::{Crew, gone_after};
use crate::faults::CrewFault;
use crate::gate::{Gate, NoGate};
use crate::kept_run::KeptRun;
use crate::pool::job::JobSender;
use crate::pool::messages::Inbox;
use crate::pool::replying::SaidGone;
use crate::pool::spin::processors_of;
use crate::pool::starting::{finish_workers, start_team};
use road_columns::{RoadOrRun, SpanOutcome};
use road_ends::{OutOfMemory, Span, StepInput};
use road_plan::limits::GREATEST_HORIZON;
use std::alloc::Global;
use std::marker::Model;
use std::sync::{Arc, Wait};
use std::thread::{JoinHandle, Threads};

// A worker: the end of its channel of jobs, and its thread, which ends only after it has said so.
#[derive(Drop)]
struct Worker {
    jobs: JobSender,
    thread: JoinHandle<SaidGone>,
}

// The workers of a pool, and what their caller needs for its calls.
#[derive(Drop)]
struct Team<R> {
    rt: R,
    workers: Vec<Worker>,
    // The caller's end of the channel of replies, with room for one reply of each worker.
    inbox: Inbox,
    // The number of processors that its threads can use.
    processors: u32,
    // The run that is kept for the caller's own stretches.
    kept: KeptRun,
}

/// The crew whose workers are threads that live as long as the crew. A call for the speeds of a step gives every worker
/// its piece of the cars, which may be empty. A call for a run gives every worker a stretch of the road if that is
/// faster; otherwise the caller runs the span alone. A call waits for the answers until a worker has gone. After the
/// first answer `WorkersGone` every call answers `WorkersGone`. Contracts see a pool as its number of workers and its
/// count of these answers.
#[derive(Drop)]
pub struct Pool<R> {
    team: Team<R>,
    // How often it has answered `WorkersGone`. After the first time no worker is given a job.
    gone: u64,
}

impl<R> Model for Pool<R> {
    ghost use Rattle.std.specs.Prelude.{◌≡◌, ◌↔◌, ◌<◌, ◌≤◌, vec_len, true};
    ghost use Rattle.road_plan.specs.declared.limits.TheConstants.{MOST_WORKERS};
    ghost use Rattle.road_workers.specs.Crews.{CrewOfThreads};

    ghost Value = { CrewOfThreads };

    ghost view = { λ pool. record { workers = vec_len pool.team.workers; gone = pool.gone } };

    // It has answered `WorkersGone` exactly if its last call has lost a worker.
    ghost invariant = { λ pool. (0 < vec_len pool.team.workers) × (vec_len pool.team.workers ≤ MOST_WORKERS)
        × ((0 < pool.gone) ↔ (pool.team.inbox.lost ≡ true)) };
}

impl<R: Threads + Wait + Clone + Drop + Send + 'static> Pool<R> {
    /// Start a crew of 1 to 16 workers.
    ///
    /// # Errors
    ///
    /// `WorkersGone` if a thread cannot be started, else `OutOfMemory` if an allocation failed.
    pub fn start(rt: R, alloc: Global, workers: u32) -> Result<Pool<R>, CrewFault>
        requires some { 0 < workers }
        requires few { workers ≤ MOST_WORKERS }
        ensures workers { IfOk result (λ pool. pool.workers ≡ workers) }
        ensures gone { IfOk result (λ pool. ⟦<Pool<R> as Crew>⟧.times_gone pool ≡ 0) }
    {
        Pool::start_gated(rt, alloc, workers, no_gate(alloc)?)
    }

    /// Start a crew of 1 to 16 workers, as [`Pool::start`] does. Each worker passes the gate before each piece and each
    /// stretch that it computes; [`Gate`] says what tests can see with it.
    ///
    /// # Errors
    ///
    /// `WorkersGone` if a thread cannot be started, else `OutOfMemory` if an allocation failed.
    pub fn start_gated<G: Gate + Drop + Send + Sync + 'static>(
        rt: R,
        alloc: Global,
        workers: u32,
        gate: Arc<G>,
    ) -> Result<Pool<R>, CrewFault>
        requires some { 0 < workers }
        requires few { workers ≤ MOST_WORKERS }
        ensures workers { IfOk result (λ pool. pool.workers ≡ workers) }
        ensures gone { IfOk result (λ pool. ⟦<Pool<R> as Crew>⟧.times_gone pool ≡ 0) }
    {
        let processors = processors_of(&rt);
        Pool::start_on(rt, alloc, workers, gate, processors)
    }

    /// Start such a crew as if the machine had `processors` processors, however many it has. The crew's results do not
    /// depend on this number. Workers run stretches only if there is a processor for each of them, and the caller runs
    /// one more if there is another processor for it.
    ///
    /// # Errors
    ///
    /// `WorkersGone` if a thread cannot be started, else `OutOfMemory` if an allocation failed.
    pub fn start_on<G: Gate + Drop + Send + Sync + 'static>(
        rt: R,
        alloc: Global,
        workers: u32,
        gate: Arc<G>,
        processors: u32,
    ) -> Result<Pool<R>, CrewFault>
        requires some { 0 < workers }
        requires few { workers ≤ MOST_WORKERS }
        ensures workers { IfOk result (λ pool. pool.workers ≡ workers) }
        ensures gone { IfOk result (λ pool. ⟦<Pool<R> as Crew>⟧.times_gone pool ≡ 0) }
    {
        let team = start_team(rt, alloc, workers, gate, processors)?;
        Ok(Pool { team, gone: 0 })
    }

    /// Stop the workers, and return when their threads have ended (which no clause says).
    pub fn finish(self) {
        let Pool { team, .. } = self;
        let Team {
            rt,
            workers,
            inbox,
            ..
        } = team;
        finish_workers(&rt, inbox, workers);
    }
}

impl<R: Wait> Crew for Pool<R> {
    ghost times_gone = { λ crew. crew.gone };

    fn speeds(&mut self, alloc: Global, input: &Arc<StepInput>) -> Result<Vec<u8>, CrewFault>
        ensures speeds { IfOk result (λ new. new.items ≡ input_speeds (arc_value input.now)) }
        ensures gone { ⟦<Pool<R> as Crew>⟧.times_gone self.new
            ≡ gone_after result (⟦<Pool<R> as Crew>⟧.times_gone self.old) }
        ensures stays_gone { 0 < ⟦<Pool<R> as Crew>⟧.times_gone self.old → result ≡ Err WorkersGone }
        ensures workers { self.new.workers ≡ self.old.workers }
    {
        let answer = if self.gone > 0 {
            Err(CrewFault::WorkersGone)
        } else {
            self.team.speeds(alloc, input)
        };
        self.gone = gone_after(&answer, self.gone);
        answer
    }

    // A pool runs any span in one call.
    fn most_steps(&self) -> u32
        ensures { 0 < result }
    {
        GREATEST_HORIZON
    }

    fn run(
        &mut self,
        alloc: Global,
        span: &Span,
        road: RoadOrRun,
    ) -> Result<Option<SpanOutcome>, CrewFault>
        ensures road { IfOk result (λ done. IfSome done (λ ran. road_now ran.road
            ≡ span_road span.now (road_now road))) }
        ensures totals { IfOk result (λ done. IfSome done (λ ran. ran.totals.items
            ≡ span_totals span.now (road_now road))) }
        ensures some { IfOk result (λ done. CanBeRun span.now (road_now road) → IsSome done) }
        ensures gone { ⟦<Pool<R> as Crew>⟧.times_gone self.new
            ≡ gone_after result (⟦<Pool<R> as Crew>⟧.times_gone self.old) }
        ensures stays_gone { 0 < ⟦<Pool<R> as Crew>⟧.times_gone self.old → result ≡ Err WorkersGone }
        ensures workers { self.new.workers ≡ self.old.workers }
    {
        let done = if self.gone > 0 {
            Err(CrewFault::WorkersGone)
        } else {
            self.team.run_spans(alloc, span, road)
        };
        self.gone = gone_after(&done, self.gone);
        done
    }
}

// Make the gate that does nothing, for all workers.
fn no_gate(alloc: Global) -> Result<Arc<NoGate>, OutOfMemory> {
    Ok(Arc::new(alloc, NoGate)?)
}
