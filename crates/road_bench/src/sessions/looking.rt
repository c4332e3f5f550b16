//! Sessions that look or publish, each on its own thread.

ghost use Rattle.std.specs.Prelude.{◌≡◌};

use anyhow::Result;
use road_ends::Meter;
use road_plan::Plan;
use road_sessions::{Naming, Prepared, Session, Shared, open, prepare};
use road_workers::Alone;
use std::alloc::Global;
use std::marker::Brand;
use std::sync::atomic::{AtomicU64, Ordering};
use std::sync::{Arc, Wait};
use std::thread::{Threads, map_vec};
use std::time::{Clock, Instant};

/// How often a session did its work, and how long that took.
#[derive(Clone, Copy)]
pub(crate) struct Done {
    pub(crate) times: u64,
    pub(crate) nanoseconds: u128,
}

/// How often each reader looks, how often the writer publishes at most, and how many steps it advances each time.
#[derive(Clone, Copy)]
pub(crate) struct Work {
    pub(crate) looks: u32,
    pub(crate) writes: u32,
    pub(crate) steps: u32,
}

/// The work of the sessions, and the number of looking sessions that have not ended.
#[derive(Drop)]
struct Task {
    work: Work,
    looking: AtomicU64,
}

// Look as often as a reader's work says. Return how many looks succeeded.
fn look_repeatedly<J: Naming, R: Wait + Drop>(
    shared: &Shared<J, R>,
    session: &mut Session<J>,
    task: &Task,
) -> u64 {
    let mut times = 0u64;
    for _ in 0..task.work.looks {
        if session.look(shared).is_ok() {
            times = times.saturating_add(1);
        }
    }
    task.looking.fetch_sub(1, Ordering::SeqCst);
    times
}

// Publish for a session while others look. Return how often this succeeded.
fn publish<J: Naming, R: Wait + Drop, W: Wait>(
    rt: &W,
    shared: &Shared<J, R>,
    session: &mut Session<J>,
    task: &Task,
) -> u64 {
    let mut times = 0u64;
    let mut to = 0u32;
    for _ in 0..task.work.writes {
        if task.looking.load(Ordering::SeqCst) == 0 {
            break;
        }
        to = to.saturating_add(task.work.steps);
        if session
            .advance(rt, shared, to, &mut Alone, &mut Meter::new())
            .is_ok()
        {
            times = times.saturating_add(1);
        }
    }
    times
}

// Publish if this is the first session, otherwise look. Return how often, and how long that took.
fn do_task<J: Naming, R: Wait + Drop, W: Wait + Clock>(
    rt: &W,
    shared: &Shared<J, R>,
    session: &mut Session<J>,
    task: &Task,
) -> Option<Done> {
    let start = Instant::now(rt).ok()?;
    let times = if session.number() == 0 {
        publish(rt, shared, session, task)
    } else {
        look_repeatedly(shared, session, task)
    };
    let nanoseconds = start.elapsed(rt).ok()?.as_nanos();
    Some(Done { times, nanoseconds })
}

// Let each session do its task on its own thread, and return their results.
fn do_all<J: Naming + Send + Sync, R: Wait + Drop + Send, W: Threads + Wait + Clock + Sync>(
    rt: &W,
    shared: &Shared<J, R>,
    sessions: Vec<Session<J>>,
    task: &Task,
) -> Result<Vec<Option<Done>>> {
    Ok(map_vec(
        rt,
        sessions,
        &|mut session| do_task(rt, shared, &mut session, task),
    )?)
}

// Open the sessions of a prepared store, let them do their tasks, and return their results.
fn open_and_do_all<
    J: Naming + Send + Sync,
    R: Wait + Drop + Send,
    W: Threads + Wait + Clock + Sync,
>(rt: &W, prepared: Prepared<R>, task: &Task) -> Result<Vec<Option<Done>>>
    requires book { prepared.book ≡ J.book }
    requires replica { prepared.replica ≡ J.replica }
    requires ledger { (prepared.ledger.name ≡ J.name) × (prepared.ledger.parts ≡ J.parts) }
    requires limit { prepared.limit ≡ J.limit }
{
    let (shared, sessions) = open::<J, R>(prepared)?;
    do_all(rt, &shared, sessions, task)
}

/// Return the result of the writer, and then of each of `readers` readers, at most 7. A result is None if the clock
/// could not be read.
pub(crate) fn time<W: Threads + Wait + Clock + Sync>(
    rt: &W,
    alloc: Global,
    plan: &Arc<Plan>,
    readers: u32,
    work: Work,
) -> Result<Vec<Option<Done>>> {
    let readers = readers.min(7);
    let prepared = prepare(rt, alloc, Arc::try_clone(plan)?, 0, readers + 1, 1_000_000)?;
    let task = Task {
        work,
        looking: AtomicU64::new(u64::from(readers)),
    };
    open_and_do_all::<Brand, _, _>(rt, prepared, &task)
}
