//! Gates for tests: one at which workers wait for each other, and one that counts them.

use road_workers::Gate;
use std::sync::atomic::{AtomicU32, Ordering};
use std::thread;
use std::time::{Clock, Duration};

/// A gate that holds each of at most 31 workers, numbered from 0, until all have arrived, or until the worker has used
/// up its turns. All may then meet there again. Each hundredth turn is a millisecond of sleep, so that the others also
/// arrive on a busy machine.
#[derive(Drop)]
pub struct Meeting<R> {
    rt: R,
    workers: u32,
    turns: u32,
    arrived: AtomicU32,
    missed: AtomicU32,
    // A bit for each worker that has arrived.
    came: AtomicU32,
}

impl<R: Clock> Meeting<R> {
    /// Make a gate for `workers` workers at which no worker has arrived. A worker looks for the others in `turns`
    /// turns.
    pub fn new(rt: R, workers: u32, turns: u32) -> Meeting<R> {
        Meeting {
            rt,
            workers,
            turns,
            arrived: AtomicU32::new(0),
            missed: AtomicU32::new(0),
            came: AtomicU32::new(0),
        }
    }

    // Let other threads run: sleep in each hundredth turn, and yield in all others.
    fn wait_a_turn(&self, turn: u32) {
        if turn % 100 == 99 {
            thread::sleep(&self.rt, Duration::from_millis(1));
        } else {
            thread::yield_now();
        }
    }

    // Return the number of arrivals at which this meeting is full, if `before` workers arrived before this one.
    fn full_after(&self, before: u32) -> u32 {
        let meeting = before.checked_div(self.workers).unwrap_or(0);
        meeting.saturating_add(1).saturating_mul(self.workers)
    }

    // Return a number with a bit for each of `workers` workers, or 0 from 32 workers on.
    fn bits(workers: u32) -> u32 {
        let behind = 1_u32.checked_shl(workers).unwrap_or(0);
        behind.saturating_sub(1)
    }

    /// Return whether all workers have met this many times, and no worker has waited in vain.
    pub fn was_held(&self, meetings: u32) -> bool {
        self.came.load(Ordering::SeqCst) == Self::bits(self.workers)
            && self.arrived.load(Ordering::SeqCst) == self.workers.saturating_mul(meetings)
            && self.missed.load(Ordering::SeqCst) == 0
    }

    /// Return whether no worker has arrived.
    pub fn has_none(&self) -> bool {
        self.arrived.load(Ordering::SeqCst) == 0
    }
}

impl<R: Clock> Gate for Meeting<R> {
    fn arrive(&self, worker: u32) {
        let bit = 1_u32.checked_shl(worker).unwrap_or(0);
        self.came.fetch_or(bit, Ordering::SeqCst);
        let full = self.full_after(self.arrived.fetch_add(1, Ordering::SeqCst));
        for turn in 0..self.turns {
            if self.arrived.load(Ordering::SeqCst) >= full {
                return;
            }
            self.wait_a_turn(turn);
        }
        self.missed.fetch_add(1, Ordering::SeqCst);
    }
}

/// A counter of the workers that pass.
#[derive(Drop)]
pub struct Counter {
    passed: AtomicU32,
}

impl Counter {
    /// Make a gate that no worker has passed.
    pub fn new() -> Counter {
        Counter {
            passed: AtomicU32::new(0),
        }
    }

    /// Return how often a worker has passed.
    pub fn passed(&self) -> u32 {
        self.passed.load(Ordering::SeqCst)
    }
}

impl Gate for Counter {
    fn arrive(&self, _worker: u32) {
        self.passed.fetch_add(1, Ordering::SeqCst);
    }
}
