//! A look while a write holds the lock.

ghost use Rattle.std.specs.Prelude.{◌≡◌};

use crate::worked::prepare_free_road;
use crate::writes::Answer;
use road_ends::{Meter, StepInput};
use road_replica::Reply;
use road_sessions::{Naming, Prepared, Session, Shared, open};
use road_workers::{Alone, Crew, CrewFault};
use std::alloc::Global;
use std::marker::Brand;
use std::sync::atomic::{AtomicBool, Ordering};
use std::sync::{Arc, Wait};
use std::test::Fail;
use std::thread::{Threads, join, yield_now};

/// How often a thread checks a flag of the other thread before it gives up.
const TURNS: u32 = 1_000_000;

// Return whether a flag is set within `TURNS` checks.
fn is_set_soon(flag: &AtomicBool) -> bool {
    for _ in 0..TURNS {
        if flag.load(Ordering::SeqCst) {
            return true;
        }
        yield_now();
    }
    false
}

/// A crew that computes all speeds itself. At its first call it reports the call and waits until a session has looked.
/// If no session has looked, it returns `WorkersGone`.
#[derive(Drop)]
struct Waiting<'a> {
    called: &'a AtomicBool,
    looked: &'a AtomicBool,
    has_waited: bool,
    gone: u64,
}

impl Crew for Waiting<'_> {
    ghost times_gone = { λ crew. crew.gone };

    fn speeds(&mut self, alloc: Global, input: &Arc<StepInput>) -> Result<Vec<u8>, CrewFault> {
        if self.gone == 0 && !self.has_waited {
            self.has_waited = true;
            self.called.store(true, Ordering::SeqCst);
            if !is_set_soon(self.looked) {
                self.gone = 1;
                return Err(CrewFault::WorkersGone);
            }
        }
        Ok(input.speeds(alloc)?)
    }
}

// Let a session advance to step 9, with a crew that waits for a look.
fn advance<J: Naming, R: Wait + Drop, W: Wait>(
    rt: &W,
    shared: &Shared<J, R>,
    session: &mut Session<J>,
    called: &AtomicBool,
    looked: &AtomicBool,
) -> Answer {
    let mut crew = Waiting {
        called,
        looked,
        has_waited: false,
        gone: 0,
    };
    let wrote = session.advance(rt, shared, 9, &mut crew, &mut Meter::new())?;
    Ok((wrote.place, wrote.reply))
}

// Return the horizon that a session sees after the crew was called.
fn horizon_seen<J: Naming, R: Wait + Drop>(
    shared: &Shared<J, R>,
    session: &mut Session<J>,
    called: &AtomicBool,
    looked: &AtomicBool,
) -> Option<u32> {
    if !is_set_soon(called) {
        return None;
    }
    let sheet = session.look(shared).ok()?;
    looked.store(true, Ordering::SeqCst);
    Some(sheet.horizon())
}

// Let one session write while another looks. Return the reply to the write, and the horizon that the other session
// sees.
fn write_and_look<J: Naming + Send + Sync, R: Wait + Drop + Send, W: Threads + Wait + Sync>(
    rt: &W,
    shared: &Shared<J, R>,
    writer: &mut Session<J>,
    reader: &mut Session<J>,
) -> (Answer, Option<u32>) {
    let called = AtomicBool::new(false);
    let looked = AtomicBool::new(false);
    join(
        rt,
        || advance(rt, shared, writer, &called, &looked),
        || horizon_seen(shared, reader, &called, &looked),
    )
}

// Let a session advance to step 6. This must be the first entry of the journal.
fn begin<J: Naming, R: Wait + Drop, W: Wait>(
    rt: &W,
    shared: &Shared<J, R>,
    session: &mut Session<J>,
) -> Result<(), Fail> {
    let wrote = session.advance(rt, shared, 6, &mut Alone, &mut Meter::new())?;
    if wrote.place != 0 {
        return Err(Fail::new("the first write must be at place 0"));
    }
    Ok(())
}

// Let the first session write twice, and let the second look during the second write. Return the reply to that write,
// and the horizon that the second session sees.
fn begin_then_look_during_a_write<
    J: Naming + Send + Sync,
    R: Wait + Drop + Send,
    W: Threads + Wait + Sync,
>(
    rt: &W,
    shared: &Shared<J, R>,
    sessions: &mut [Session<J>],
) -> Result<(Answer, Option<u32>), Fail> {
    let Some((writer, others)) = sessions.split_first_mut() else {
        return Err(Fail::new("there must be two sessions"));
    };
    let Some(reader) = others.first_mut() else {
        return Err(Fail::new("there must be two sessions"));
    };
    begin(rt, shared, writer)?;
    Ok(write_and_look(rt, shared, writer, reader))
}

// Open a store, and let another session look while the second write holds the lock. The other session has heard of no
// write. Return the reply to the second write, and the horizon that the other session sees.
fn look_during_a_write<J: Naming + Send + Sync, R: Wait + Drop + Send, W: Threads + Wait + Sync>(
    rt: &W,
    prepared: Prepared<R>,
) -> Result<(Answer, Option<u32>), Fail>
    requires book { prepared.book ≡ J.book }
    requires replica { prepared.replica ≡ J.replica }
    requires ledger { (prepared.ledger.name ≡ J.name) × (prepared.ledger.parts ≡ J.parts) }
    requires limit { prepared.limit ≡ J.limit }
{
    let (shared, mut sessions) = open::<J, R>(prepared)?;
    begin_then_look_during_a_write(rt, &shared, sessions.as_mut_slice())
}

#[test]
fn a_look_takes_no_lock(rt: HostRuntime) -> Result<(), Fail> {
    let prepared = prepare_free_road(&rt, rt.alloc(), 0, 2, 10)?;
    let (answer, found) = look_during_a_write::<Brand, _, _>(&rt, prepared)?;
    let wrote = answer?;
    assert!(rt; wrote == (1, Reply::Horizon(9)) && found == Some(6));
    Ok(())
}
