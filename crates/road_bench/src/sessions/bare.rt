//! The baseline: reads of a number that is published through `left_right` alone, without this repository's code.

ghost use Rattle.std.specs.Prelude.{max};

use crate::sessions::looking::Done;
use anyhow::Result;
use left_right::{Absorb, ReadHandle, WriteHandle, new};
use std::alloc::{AllocError, Global};
use std::sync::Wait;
use std::sync::atomic::{AtomicBool, Ordering};
use std::thread::{Threads, join};
use std::time::{Clock, Instant};

/// The largest number that was written.
#[derive(Clone, Copy, Default, Drop)]
struct Largest(u64);

impl Absorb<u64> for Largest {
    type State = u64;

    ghost state = { λ largest. largest.0 };

    ghost applied = { max };

    ghost never_fails = { Unit {0} };

    fn absorb_first(&mut self, operation: &u64, _other: &Largest) -> Result<(), AllocError> {
        self.0 = self.0.max(*operation);
        Ok(())
    }
}

// Enter the store this many times, and then set the flag. Return how many entries succeeded.
fn enter_repeatedly<C: Clock>(
    rt: &C,
    reader: &mut ReadHandle<Largest>,
    count: u32,
    has_ended: &AtomicBool,
) -> Option<Done> {
    let start = Instant::now(rt).ok()?;
    let mut times = 0u64;
    for _ in 0..count {
        if let Some(largest) = reader.enter() {
            // The number is used, so that the compiler does not remove the read. It is always 0.
            times = times.saturating_add(1).max(largest.0);
        }
    }
    has_ended.store(true, Ordering::SeqCst);
    let nanoseconds = start.elapsed(rt).ok()?.as_nanos();
    Some(Done { times, nanoseconds })
}

// Publish at most this many times, until the reader has ended. Return how often this succeeded.
fn publish<C: Clock, R: Wait + Drop>(
    rt: &C,
    writer: &mut WriteHandle<Largest, u64, R>,
    count: u32,
    has_ended: &AtomicBool,
) -> Option<Done> {
    let start = Instant::now(rt).ok()?;
    let mut times = 0u64;
    for _ in 0..count {
        if has_ended.load(Ordering::SeqCst)
            || writer.append(0).is_err()
            || writer.publish().is_err()
        {
            break;
        }
        times = times.saturating_add(1);
    }
    let nanoseconds = start.elapsed(rt).ok()?.as_nanos();
    Some(Done { times, nanoseconds })
}

/// Time one writer of a number and one reader, each on its own thread. Return the result of the writer, and then of the
/// reader. A result is None if the clock could not be read.
pub(crate) fn time<W: Threads + Wait + Clock + Clone + Drop + Sync>(
    rt: &W,
    alloc: Global,
    looks: u32,
    most_writes: u32,
) -> Result<[Option<Done>; 2]> {
    let (mut writer, mut reader) = new::<Largest, u64, _, _>(alloc, rt.clone()?, 1)?;
    let has_ended = AtomicBool::new(false);
    let (looked, published) = join(
        rt,
        || enter_repeatedly(rt, &mut reader, looks, &has_ended),
        || publish(rt, &mut writer, most_writes, &has_ended),
    );
    Ok([published, looked])
}
