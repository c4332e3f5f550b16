//! A worker of a pool.

ghost use Rattle.std.specs.Prelude.{◌≡◌, Ok, Err, IsFalse, IsTrue};
ghost use Rattle.crossbeam_channel.specs.Err.{send_message};
ghost use Rattle.crossbeam_channel.specs.declared.err.SendError.{SendError};
ghost use Rattle.crossbeam_channel.specs.declared.err.SendError.TheVariants.{Disconnected};
ghost use Rattle.road_workers.specs.Private.Jobs.{IsAnswerTo};
ghost use Rattle.road_workers.specs.declared.pool.job.Done.{Done};
ghost use Rattle.road_workers.specs.declared.pool.job.Reply.{Reply};
ghost use Rattle.road_workers.specs.declared.pool.job.Reply.TheVariants as Said;

use crate::gate::Gate;
use crate::kept_run::KeptRun;
use crate::pool::job::{Done, Job, Reply};
use crate::pool::replying::{SaidGone, deliver, say_gone};
use crate::pool::spin::Lookout;
use crossbeam_channel::{Receiver, SendError, Sender};
use std::alloc::Global;
use std::sync::Wait;

// A worker's ends of the channels of a pool, and how it looks for a job before it sleeps.
#[derive(Drop)]
pub(crate) struct Ends {
    pub jobs: Receiver<Job>,
    pub replies: Sender<Reply>,
    pub lookout: Lookout,
}

// Do a worker's jobs. Its last message is that it has gone, for whatever reason, so that nobody waits for it in vain.
pub(crate) fn work<R: Wait, G: Gate>(
    rt: &R,
    alloc: Global,
    worker: u32,
    gate: &G,
    ends: &Ends,
) -> SaidGone {
    do_jobs(rt, alloc, worker, gate, ends);
    say_gone(rt, &ends.replies)
}

// Do a worker's jobs until its channel of jobs is closed, or nobody takes replies. The worker looks for a job before it
// sleeps, and passes the gate before each job. A job may be an empty piece or stretch.
fn do_jobs<R: Wait, G: Gate>(rt: &R, alloc: Global, worker: u32, gate: &G, ends: &Ends) {
    let mut lookout = ends.lookout;
    let mut kept = KeptRun::none();
    for _ in rt.forever() {
        lookout.spin_for_message(&ends.jobs);
        let Ok(job) = ends.jobs.recv(rt) else {
            return;
        };
        gate.arrive(worker);
        let replies = &ends.replies;
        if !answer_job(
            rt,
            alloc,
            job,
            &mut kept,
            |reply: Reply| replies.send(rt, reply),
        ) {
            return;
        }
    }
}

// Do a job, and send its result. If an allocation failed, send that, since somebody waits for an answer. Return whether
// the reply was taken; if not, nobody takes replies.
fn answer_job<R: Wait, F: Fn(Reply) -> Result<(), SendError<Reply>>>(
    rt: &R,
    alloc: Global,
    job: Job,
    kept: &mut KeptRun,
    send: F,
) -> bool
    requires may_send { F.IsAlwaysCallable send }
    requires handed_back { (given : Reply) → (fault : SendError Reply) → F.post send given (Err fault)
        → send_message fault ≡ given }
    ensures taken { IsTrue result → (done : Done) × IsAnswerTo job done × F.post send (Said.Done done) (Ok tt) }
    ensures nobody { IsFalse result → (done : Done) × IsAnswerTo job done
        × F.post send (Said.Done done) (Err (Disconnected (Said.Done done))) }
{
    let done = do_job(job, alloc, kept);
    deliver(rt, Reply::Done(done), send)
}

// Do a job. A stretch is run in the run that the worker keeps.
fn do_job(job: Job, alloc: Global, kept: &mut KeptRun) -> Done
    ensures { IsAnswerTo job result }
{
    match job {
        Job::Piece(job) => Done::Piece(job.compute(alloc)),
        Job::Stretch(job) => Done::Stretch(job.run(alloc, kept)),
    }
}
