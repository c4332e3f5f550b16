//! Spawning the threads of a pool's workers, and why that fails.

ghost use Rattle.std.specs.Prelude.{◌≡◌};
ghost use Rattle.road_workers.specs.Private.Lost.{fault_of_start};

use crate::faults::CrewFault;
use crate::pool::replying::SaidGone;
use road_ends::OutOfMemory;
use std::thread;
use std::thread::{JoinHandle, Threads};

// No thread could be made for a worker. Only `spawn` makes this value.
#[derive(Drop)]
pub(super) struct NoThread {
    refused: (),
}

// Start a worker's thread.
pub(super) fn spawn<R: Threads, F: FnOnce() -> SaidGone + Send + Drop + 'static>(
    rt: &R,
    work: F,
) -> Result<JoinHandle<SaidGone>, NoThread>
    requires { F.pre work }
{
    match thread::spawn(rt, work) {
        Ok(thread) => Ok(thread),
        Err(_refused) => Err(NoThread { refused: () }),
    }
}

// Why a worker cannot be started.
#[derive(Drop)]
pub(super) enum StartFault {
    NoThread(NoThread),
    OutOfMemory,
}

impl From<NoThread> for StartFault {
    fn from(none: NoThread) -> StartFault {
        StartFault::NoThread(none)
    }
}

impl From<OutOfMemory> for StartFault {
    fn from(_failed: OutOfMemory) -> StartFault {
        StartFault::OutOfMemory
    }
}

impl From<StartFault> for CrewFault {
    ghost from_gives = { λ start fault. fault ≡ fault_of_start start };

    fn from(start: StartFault) -> CrewFault {
        match start {
            StartFault::NoThread(_) => CrewFault::WorkersGone,
            StartFault::OutOfMemory => CrewFault::OutOfMemory,
        }
    }
}
