//! Starting the workers of a pool, and stopping them.

ghost use Rattle.std.specs.Prelude.{◌≡◌, ◌<◌, ◌≤◌, ℕ, false, slice_index_or, vec_len, IfOk, IsOk};
ghost use Rattle.road_plan.specs.declared.limits.TheConstants.{MOST_WORKERS};
ghost use Rattle.road_workers.specs.declared.pool.Worker.{Worker as AWorker};

use crate::gate::Gate;
use crate::kept_run::KeptRun;
use crate::pool::job::{JobSender, Reply};
use crate::pool::messages::Inbox;
use crate::pool::spawning::{StartFault, spawn};
use crate::pool::spin::Lookout;
use crate::pool::working::{Ends, work};
use crate::pool::{Team, Worker};
use crossbeam_channel::{Sender, bounded};
use std::alloc::Global;
use std::sync::{Arc, Wait};
use std::thread::Threads;

// Start a team of workers as if the machine had `processors` processors.
pub(super) fn start_team<
    R: Threads + Wait + Clone + Drop + Send + 'static,
    G: Gate + Drop + Send + Sync + 'static,
>(rt: R, alloc: Global, workers: u32, gate: Arc<G>, processors: u32) -> Result<Team<R>, StartFault>
    requires { workers ≤ MOST_WORKERS }
    ensures workers { IfOk result (λ team. vec_len team.workers ≡ workers) }
    ensures lost { IfOk result (λ team. team.inbox.lost ≡ false) }
{
    let mut started = Vec::with_capacity(alloc, workers as usize)?;
    let (reply, replies) = bounded(alloc, workers as usize)?;
    let inbox = Inbox::new(replies, Lookout::of(workers + 1, processors));
    let outfit = Outfit {
        gate,
        replies: reply,
        lookout: Lookout::of(workers, processors),
    };
    let all = start_workers(&rt, alloc, workers, &outfit, &mut started);
    drop(outfit);
    if let Err(fault) = all {
        finish_workers(&rt, inbox, started);
        return Err(fault);
    }
    Ok(Team {
        rt,
        workers: started,
        inbox,
        processors,
        kept: KeptRun::none(),
    })
}

// What each worker is given when it starts: the gate that it passes, its end of the channel of replies, and how it
// looks for a job before it sleeps.
#[derive(Drop)]
pub(super) struct Outfit<G> {
    pub gate: Arc<G>,
    pub replies: Sender<Reply>,
    pub lookout: Lookout,
}

// Start the workers in their order, up to the first that cannot be started.
fn start_workers<
    R: Threads + Wait + Clone + Drop + Send + 'static,
    G: Gate + Drop + Send + Sync + 'static,
>(
    rt: &R,
    alloc: Global,
    workers: u32,
    outfit: &Outfit<G>,
    started: &mut Vec<Worker>,
) -> Result<(), StartFault>
    requires { vec_len started.old ≡ 0 }
    ensures count { IsOk result → vec_len started.new ≡ workers }
    ensures numbered { (w : ℕ) → (d : AWorker) → w < vec_len started.new
        → (slice_index_or started.new.items w d).jobs.worker ≡ w }
{
    for worker in 0..workers {
        let new = start_worker(rt, alloc, worker, outfit)?;
        if started.push(new).is_err() {
            return Err(StartFault::OutOfMemory);
        }
    }
    Ok(())
}

// Start a worker.
pub(super) fn start_worker<
    R: Threads + Wait + Clone + Drop + Send + 'static,
    G: Gate + Drop + Send + Sync + 'static,
>(rt: &R, alloc: Global, worker: u32, outfit: &Outfit<G>) -> Result<Worker, StartFault>
    ensures { IfOk result (λ new. new.jobs.worker ≡ worker) }
{
    let (jobs, their_jobs) = JobSender::channel(alloc, worker)?;
    let ends = Ends {
        jobs: their_jobs,
        replies: outfit.replies.clone()?,
        lookout: outfit.lookout,
    };
    let gate = Arc::try_clone(&outfit.gate)?;
    let their_rt = rt.clone()?;
    let thread = spawn(rt, move || work(&their_rt, alloc, worker, &*gate, &ends))?;
    Ok(Worker { jobs, thread })
}

// Close the workers' channels, and join their threads. The channel of replies is closed first, so that no worker waits
// for room for its last message.
pub(super) fn finish_workers<R: Threads>(rt: &R, inbox: Inbox, workers: Vec<Worker>) {
    drop(inbox);
    for worker in workers {
        let Worker { jobs, thread } = worker;
        drop(jobs);
        thread.join(rt);
    }
}
