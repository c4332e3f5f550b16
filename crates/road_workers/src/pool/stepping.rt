//! A step, computed by the workers of a pool: each computes a piece of the cars.

ghost use Rattle.std.specs.Prelude.{◌≡◌, ℕ, ◌<◌, ◌≤◌, length, vec_len, false, true, Err, IfErr, IfOk, OnErr, OnOk};
ghost use Rattle.std.specs.Arc.{arc_value};
ghost use Rattle.road_plan.specs.declared.limits.TheConstants.{MOST_WORKERS, GREATEST_LENGTH};
ghost use Rattle.road_cells.specs.Cars.{cars_of};
ghost use Rattle.road_ends.specs.Input.{input_speeds};
ghost use Rattle.road_workers.specs.Private.Gathered.{AreGathered, AreThere};
ghost use Rattle.road_workers.specs.Private.Jobs.{IsPieceJob, TookPiece};
ghost use Rattle.road_workers.specs.Private.Lost.{IsLost, TellsLost};
ghost use Rattle.road_workers.specs.declared.faults.CrewFault.TheVariants as Fault;

use crate::faults::CrewFault;
use crate::piece::{Piece, PieceAnswer, cars_in, list_for};
use crate::pool::gathering::{accept, put_together};
use crate::pool::job::{Done, Job, JobSender, PieceJob};
use crate::pool::messages::Inbox;
use crate::pool::places::{are_there, places_for};
use crate::pool::{Team, Worker};
use crossbeam_channel::SendError;
use road_ends::{OutOfMemory, StepInput};
use std::alloc::Global;
use std::sync::{Arc, Wait};

impl<R: Wait> Team<R> {
    // Compute the speeds of a step.
    pub(super) fn speeds(
        &mut self,
        alloc: Global,
        input: &Arc<StepInput>,
    ) -> Result<Vec<u8>, CrewFault>
        requires some { 0 < vec_len self.old.workers }
        requires few { vec_len self.old.workers ≤ MOST_WORKERS }
        ensures speeds { IfOk result (λ new. new.items ≡ input_speeds (arc_value input.now)) }
        ensures lost { TellsLost result self.new.inbox.lost }
        ensures workers { vec_len self.new.workers ≡ vec_len self.old.workers }
    {
        self.inbox.begin();
        let rt = &self.rt;
        speeds_by(
            rt,
            alloc,
            input,
            self.workers.as_slice(),
            &|jobs: &JobSender, job: Job| jobs.send(rt, job),
            &mut self.inbox,
        )
    }
}

// Compute the speeds of a step: a job for each worker, and a result for each job. Jobs are sent by `send`.
#[tactic(auto, using(crate::proofs::OneMore::missing_right))]
pub(super) fn speeds_by<R: Wait, F: Fn(&JobSender, Job) -> Result<(), SendError<Job>>>(
    rt: &R,
    alloc: Global,
    input: &Arc<StepInput>,
    workers: &[Worker],
    send: &F,
    inbox: &mut Inbox,
) -> Result<Vec<u8>, CrewFault>
    requires may_send { F.IsAlwaysCallable send.now }
    requires begun { inbox.old.lost ≡ false }
    requires silent { inbox.old.heard ≡ false }
    requires some { 0 < length workers.now }
    requires few { length workers.now ≤ MOST_WORKERS }
    ensures speeds { IfOk result (λ new. new.items ≡ input_speeds (arc_value input.now)) }
    ensures sent { OnOk result ((w : ℕ) → w < length workers.now
        → TookPiece (F.post send.now) workers.now (arc_value input.now) w) }
    ensures lost { TellsLost result inbox.new.lost }
    ensures gone { result ≡ Err Fault.WorkersGone → IsLost (F.post send.now) workers.now inbox.new.heard }
{
    let count = workers.len() as u32;
    let cars = cars_in(input);
    let whole = list_for(alloc, count, cars)?;
    let mut places = places_for(alloc, count)?;
    let (jobs, sent) = inbox.send_each(
        workers,
        &|worker: u32| piece_job(input, count, cars, worker),
        send,
    );
    take_pieces(rt, inbox, &mut places, jobs, input, cars)?;
    sent?;
    Ok(put_together(whole, places, input)?)
}

// Make the job of a worker's piece, for `workers` workers.
fn piece_job(
    input: &Arc<StepInput>,
    workers: u32,
    cars: usize,
    worker: u32,
) -> Result<Job, OutOfMemory>
    requires few { workers ≤ MOST_WORKERS }
    requires cars { cars ≡ length (cars_of (arc_value input.now).road) }
    requires short { cars ≤ GREATEST_LENGTH }
    requires there { worker < workers }
    ensures { IfOk result (IsPieceJob (arc_value input.now) workers worker) }
{
    let piece = Piece::of(worker, workers, cars);
    let input = Arc::try_clone(input)?;
    Ok(Job::Piece(PieceJob::new(input, piece)))
}

// Take what the first `workers` workers answer for this step. Duplicates and other answers are dropped.
fn take_pieces<R: Wait>(
    rt: &R,
    inbox: &mut Inbox,
    places: &mut Vec<Option<PieceAnswer>>,
    workers: u32,
    input: &StepInput,
    cars: usize,
) -> Result<(), CrewFault>
    requires few { vec_len places.old ≤ MOST_WORKERS }
    requires workers { workers ≤ vec_len places.old }
    requires cars { cars ≡ length (cars_of input.now.road) }
    requires short { cars ≤ GREATEST_LENGTH }
    requires gathered { AreGathered input.now places.old.items }
    ensures there { OnOk result (AreThere workers places.new.items) }
    ensures heard { OnOk result (inbox.new.lost ≡ inbox.old.lost) }
    ensures gone { IfErr result (λ fault. fault ≡ Fault.WorkersGone) }
    ensures lost { OnErr result ((inbox.new.lost ≡ true) × (inbox.new.heard ≡ true)) }
    ensures count { vec_len places.new ≡ vec_len places.old }
    ensures gathered { AreGathered input.now places.new.items }
{
    for _ in rt.forever() {
        if are_there(places.as_slice(), workers) {
            return Ok(());
        }
        if let Done::Piece(done) = inbox.next_done(rt)? {
            accept(places, done, input, cars);
        }
    }
    unreachable!()
}
