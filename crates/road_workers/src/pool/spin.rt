//! Spinning: looking for a message again and again before sleeping.

use crossbeam_channel::Receiver;
use std::hint::spin_loop;
use std::thread::{Threads, available_parallelism};

// How often a thread looks for a message before it sleeps. This is long enough for spans of 64 steps that come right
// after one another: for the time that other threads take longer for their stretches, and for what the caller does
// between two spans. A look takes 10 to 60 nanoseconds, depending on the machine.
const LOOKS: u32 = 100_000;

// The maximum number of waits in which a thread sleeps immediately after it has looked in vain.
const MOST_PAUSE: u32 = 63;

// How a thread of a crew looks for messages before it sleeps. If it has looked in vain, it sleeps immediately in the
// next wait; if it has looked in vain again, in the next 3; and so on, until a message comes while it looks. So it
// sleeps if other processes are busy and messages come late.
#[derive(Clone, Copy)]
pub(crate) struct Lookout {
    // How often it looks in a wait.
    looks: u32,
    // The number of waits without a look that followed when it last looked in vain; 0 if a message came since.
    pause: u32,
    // How many of these waits are left.
    left: u32,
}

// Return the number of processors, or 1 if it is not known.
pub(super) fn processors_of<R: Threads>(rt: &R) -> u32 {
    match available_parallelism(rt) {
        Ok(processors) => u32::try_from(processors.get()).unwrap_or(u32::MAX),
        Err(_) => 1,
    }
}

impl Lookout {
    // Return how each thread looks if `threads` threads share the processors: not at all if there is no processor for
    // each of them, since a spinning thread would keep another one from its work.
    pub fn of(threads: u32, processors: u32) -> Lookout {
        let has_own = threads <= processors;
        Lookout {
            looks: if has_own { LOOKS } else { 0 },
            pause: 0,
            left: 0,
        }
    }

    // Spin until a message is there, or until it has looked in vain. A thread that spins need not be woken, but it does
    // not yield its processor.
    pub fn spin_for_message<T: Drop>(&mut self, messages: &Receiver<T>) {
        if self.left > 0 {
            self.left -= 1;
            return;
        }
        for _ in 0..self.looks {
            if !messages.is_empty() {
                self.pause = 0;
                return;
            }
            spin_loop();
        }
        self.pause = self
            .pause
            .saturating_mul(2)
            .saturating_add(1)
            .min(MOST_PAUSE);
        self.left = self.pause;
    }
}
