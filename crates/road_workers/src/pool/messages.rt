//! Sending jobs to the workers of a pool, and waiting for their answers.

ghost use Rattle.std.specs.Prelude.{◌≡◌, ◌<◌, ◌≤◌, ℕ, length, slice_index_or, Ok, Err, IfErr, IsOk, OnErr, OnOk, true, false};
ghost use Rattle.road_plan.specs.declared.limits.TheConstants.{MOST_WORKERS};
ghost use Rattle.crossbeam_channel.specs.declared.err.SendError.TheVariants as Send;
ghost use Rattle.crossbeam_channel.specs.declared.err.RecvError.{RecvError};
ghost use Rattle.road_workers.specs.Private.Jobs.{HasGone, Took};
ghost use Rattle.road_workers.specs.Private.Lost.{TellsLost};
ghost use Rattle.road_workers.specs.declared.faults.CrewFault.TheVariants as Fault;
ghost use Rattle.road_workers.specs.declared.pool.Worker.{Worker as AWorker};
ghost use Rattle.road_workers.specs.declared.pool.job.Done.{Done};
ghost use Rattle.road_workers.specs.declared.pool.job.Job.{Job};
ghost use Rattle.road_workers.specs.declared.pool.job.Reply.TheVariants as Said;

use crate::faults::CrewFault;
use crate::pool::Worker;
use crate::pool::job::{Done, Job, JobSender, Reply};
use crate::pool::spin::Lookout;
use crossbeam_channel::{Receiver, RecvError, SendError};
use road_ends::OutOfMemory;
use std::sync::Wait;

// What the caller of a pool waits with: its end of the channel of replies, and how it looks for a reply before it
// sleeps. It notes whether a worker is lost. Only sending jobs and waiting for answers set these notes.
#[derive(Drop)]
pub(super) struct Inbox {
    replies: Receiver<Reply>,
    lookout: Lookout,
    // Whether this call has lost a worker: one that took no job, or said that it has gone, or all of them.
    lost: bool,
    // Whether a worker has said in this call that it has gone, or all have gone.
    heard: bool,
}

impl Inbox {
    // Make the inbox of a pool that has lost no worker.
    pub(super) fn new(replies: Receiver<Reply>, lookout: Lookout) -> Inbox
        ensures { result.lost ≡ false }
    {
        Inbox {
            replies,
            lookout,
            lost: false,
            heard: false,
        }
    }

    // Begin a call, which has lost no worker yet.
    pub(super) fn begin(&mut self)
        ensures lost { self.new.lost ≡ false }
        ensures heard { self.new.heard ≡ false }
    {
        self.lost = false;
        self.heard = false;
    }

    // Make a job for each worker and send it, in their order, up to the first that is not made or not taken. Return how
    // many were sent, and why the next one was not. So the caller waits only for answers to jobs that were sent. Note
    // that a worker is lost if it took no job.
    pub(super) fn send_each<
        M: Fn(u32) -> Result<Job, OutOfMemory>,
        F: Fn(&JobSender, Job) -> Result<(), SendError<Job>>,
    >(&mut self, workers: &[Worker], make: &M, send: &F) -> (u32, Result<(), CrewFault>)
        requires may_make { (w : ℕ) → w < length workers.now → M.pre make.now w }
        requires may_send { F.IsAlwaysCallable send.now }
        requires few { length workers.now ≤ MOST_WORKERS }
        ensures count { result.0 ≤ length workers.now }
        ensures took { (w : ℕ) → w < result.0 → Took (M.post make.now) (F.post send.now) workers.now w }
        ensures all { IsOk result.1 → result.0 ≡ length workers.now }
        ensures gone { result.1 ≡ Err Fault.WorkersGone → HasGone (F.post send.now) workers.now result.0 }
        ensures lost { TellsLost result.1 self.new.lost }
    {
        let (jobs, sent) = send_in_turn(workers, make, send);
        self.lost = is_lost(sent);
        (jobs, sent)
    }

    // Wait for the result of a job, from any worker. If a worker says instead that it has gone, or all have gone, return
    // `WorkersGone`, and note that a worker is lost.
    pub(super) fn next_done<R: Wait>(&mut self, rt: &R) -> Result<Done, CrewFault>
        ensures done { OnOk result (self.new.lost ≡ self.old.lost) }
        ensures gone { IfErr result (λ fault. fault ≡ Fault.WorkersGone) }
        ensures lost { OnErr result (self.new.lost ≡ true) }
        ensures heard { OnErr result (self.new.heard ≡ true) }
    {
        self.lookout.spin_for_message(&self.replies);
        let done = result_of_receive(self.replies.recv(rt));
        if done.is_err() {
            self.lost = true;
            self.heard = true;
        }
        done
    }
}

// Send the workers' jobs, as `Inbox::send_each` does, without a note.
fn send_in_turn<
    M: Fn(u32) -> Result<Job, OutOfMemory>,
    F: Fn(&JobSender, Job) -> Result<(), SendError<Job>>,
>(workers: &[Worker], make: &M, send: &F) -> (u32, Result<(), CrewFault>)
    requires may_make { (w : ℕ) → w < length workers.now → M.pre make.now w }
    requires may_send { F.IsAlwaysCallable send.now }
    requires few { length workers.now ≤ MOST_WORKERS }
    ensures count { result.0 ≤ length workers.now }
    ensures took { (w : ℕ) → w < result.0 → Took (M.post make.now) (F.post send.now) workers.now w }
    ensures all { IsOk result.1 → result.0 ≡ length workers.now }
    ensures gone { result.1 ≡ Err Fault.WorkersGone → HasGone (F.post send.now) workers.now result.0 }
{
    let count = workers.len() as u32;
    for worker in 0..count {
        if let Err(fault) = send_one(workers, worker, make, send) {
            return (worker, Err(fault));
        }
    }
    (count, Ok(()))
}

// Make a worker's job and send it. The result is `Ok` only if the worker took it, and `WorkersGone` only if the worker
// has gone.
fn send_one<
    M: Fn(u32) -> Result<Job, OutOfMemory>,
    F: Fn(&JobSender, Job) -> Result<(), SendError<Job>>,
>(workers: &[Worker], worker: u32, make: &M, send: &F) -> Result<(), CrewFault>
    requires may_make { M.pre make.now worker }
    requires may_send { F.IsAlwaysCallable send.now }
    requires there { worker < length workers.now }
    ensures took { OnOk result (Took (M.post make.now) (F.post send.now) workers.now worker) }
    ensures gone { result ≡ Err Fault.WorkersGone → HasGone (F.post send.now) workers.now worker }
{
    let job = make(worker)?;
    result_of_send(send(sender_of(workers, worker), job))
}

// Return the caller's end of a worker's channel of jobs.
fn sender_of(workers: &[Worker], worker: u32) -> &JobSender
    requires { worker < length workers.now }
    ensures { (d : AWorker) → result.now ≡ (slice_index_or workers.now worker d).jobs }
{
    &workers[worker as usize].jobs
}

// Return why a job was not sent, if it was not: its worker has gone, or there was no memory for the message.
fn result_of_send(given: Result<(), SendError<Job>>) -> Result<(), CrewFault>
    ensures sent { given ≡ Ok tt → result ≡ Ok tt }
    ensures gone { (job : Job) → given ≡ Err (Send.Disconnected job) → result ≡ Err Fault.WorkersGone }
    ensures no_memory { (job : Job) → given ≡ Err (Send.OutOfMemory job) → result ≡ Err Fault.OutOfMemory }
{
    match given {
        Ok(()) => Ok(()),
        Err(SendError::Disconnected(_)) => Err(CrewFault::WorkersGone),
        Err(SendError::OutOfMemory(_)) => Err(CrewFault::OutOfMemory),
    }
}

// Return whether a worker is lost, by the result of sending the jobs.
fn is_lost(sent: Result<(), CrewFault>) -> bool
    ensures { TellsLost sent result }
{
    match sent {
        Err(CrewFault::WorkersGone) => true,
        _ => false,
    }
}

// Return the result that was received, or `WorkersGone` if a worker or all workers have gone.
fn result_of_receive(heard: Result<Reply, RecvError>) -> Result<Done, CrewFault>
    ensures done { (done : Done) → heard ≡ Ok (Said.Done done) → result ≡ Ok done }
    ensures one_gone { heard ≡ Ok Said.Gone → result ≡ Err Fault.WorkersGone }
    ensures all_gone { (silence : RecvError) → heard ≡ Err silence → result ≡ Err Fault.WorkersGone }
{
    match heard {
        Ok(Reply::Done(done)) => Ok(done),
        Ok(Reply::Gone) | Err(RecvError) => Err(CrewFault::WorkersGone),
    }
}
