//! An example of a caller: an engineer writes, and two dashboards look, each on its own thread.

ghost use Rattle.std.specs.Prelude.{◌≡◌};

use crate::closings::close_all;
use crate::journals::{Line, is_journal};
use crate::questions::shows;
use crate::scripts::BLOCKED;
use crate::worked::prepare_free_road;
use road_ends::Meter;
use road_sessions::{
    Closed, LookFault, Naming, Prepared, Receipt, Session, Shared, WriteFault, open,
};
use road_workers::Alone;
use std::alloc::Global;
use std::marker::Brand;
use std::sync::{Mutex, Wait};
use std::test::Fail;
use std::thread::{Threads, join, yield_now};
use tests_plans::{BLOCK, BLOCKED_ROWS};

/// What the engineer reports: the last receipt, or why a write was refused.
type Report<J> = Result<Receipt<J>, WriteFault>;

/// Where the report lies until it is taken.
type Letter<J> = Mutex<Option<Report<J>>>;

// Let the engineer simulate up to step 6, and block cell 8 from step 4 on.
fn write<J: Naming, R: Wait + Drop, W: Wait>(
    rt: &W,
    shared: &Shared<J, R>,
    session: &mut Session<J>,
) -> Report<J> {
    let mut meter = Meter::new();
    session.advance(rt, shared, 6, &mut Alone, &mut meter)?;
    let wrote = session.edit(rt, shared, BLOCK, 4, 1, &mut Alone, &mut meter)?;
    Ok(wrote.receipt)
}

// Let the engineer do this, and leave the report for the dashboards.
fn write_and_leave_report<J: Naming, R: Wait + Drop, W: Wait>(
    rt: &W,
    shared: &Shared<J, R>,
    session: &mut Session<J>,
    letter: &Letter<J>,
) {
    let report = write(rt, shared, session);
    *letter.lock(rt) = Some(report);
}

/// How often a dashboard checks whether the report is there. The number is limited: if no thread could be made for the
/// engineer, the engineer works after the dashboards, and they would wait forever.
const TURNS: u32 = 1_000_000;

// Return the report once it is there, or None if it does not come.
fn wait_for_report<J: Naming, W: Wait>(rt: &W, letter: &Letter<J>) -> Option<Report<J>> {
    for _ in 0..TURNS {
        let taken = letter.lock(rt).take();
        if taken.is_some() {
            return taken;
        }
        yield_now();
    }
    None
}

// Let the first dashboard wait for the report. After that, a look must show what is reported. The dashboard leaves the
// row of step 6.
fn watch_after_report<J: Naming, R: Wait + Drop, W: Wait>(
    rt: &W,
    alloc: Global,
    shared: &Shared<J, R>,
    session: &mut Session<J>,
    letter: &Letter<J>,
) -> Result<bool, Fail> {
    let Some(report) = wait_for_report(rt, letter) else {
        return Err(Fail::new("the report must come"));
    };
    session.hear(report?);
    let sheet = session.look(shared)?;
    Ok(shows(alloc, &sheet, BLOCKED_ROWS))
}

// Let the second dashboard look. It hears of no write, so a look may show less than the engineer wrote, but never
// less than an earlier look.
fn watch<J: Naming, R: Wait + Drop>(
    shared: &Shared<J, R>,
    session: &mut Session<J>,
) -> Result<bool, LookFault> {
    let mut horizon = 0;
    let mut rises = true;
    for _ in 0..1_000 {
        let sheet = session.look(shared)?;
        rises = rises && sheet.horizon() >= horizon;
        horizon = sheet.horizon();
    }
    Ok(rises)
}

// Start the engineer and the dashboards, each on its own thread. Return whether the dashboards saw what they should.
fn all_work<J: Naming + Send + Sync, R: Wait + Drop + Send, W: Threads + Wait + Sync>(
    rt: &W,
    alloc: Global,
    shared: &Shared<J, R>,
    engineer: &mut Session<J>,
    first: &mut Session<J>,
    second: &mut Session<J>,
) -> Result<bool, Fail> {
    let letter = Mutex::new(None);
    let (_, (is_shown, rises)) = join(
        rt,
        || write_and_leave_report(rt, shared, engineer, &letter),
        || {
            join(
                rt,
                || watch_after_report(rt, alloc, shared, first, &letter),
                || watch(shared, second),
            )
        },
    );
    Ok(is_shown? && rises?)
}

// Do this for the three sessions of a store.
fn three_work<J: Naming + Send + Sync, R: Wait + Drop + Send, W: Threads + Wait + Sync>(
    rt: &W,
    alloc: Global,
    shared: &Shared<J, R>,
    sessions: &mut [Session<J>],
) -> Result<bool, Fail> {
    let Some((engineer, dashboards)) = sessions.split_first_mut() else {
        return Err(Fail::new("there must be three sessions"));
    };
    let Some((first, others)) = dashboards.split_first_mut() else {
        return Err(Fail::new("there must be three sessions"));
    };
    match others.first_mut() {
        Some(second) => all_work(rt, alloc, shared, engineer, first, second),
        None => Err(Fail::new("there must be three sessions")),
    }
}

// Open a store, use it and close it. Return the result if the dashboards saw what they should.
fn day<J: Naming + Send + Sync, R: Wait + Drop + Send, W: Threads + Wait + Sync>(
    rt: &W,
    alloc: Global,
    prepared: Prepared<R>,
) -> Result<Option<Closed>, Fail>
    requires book { prepared.book ≡ J.book }
    requires replica { prepared.replica ≡ J.replica }
    requires ledger { (prepared.ledger.name ≡ J.name) × (prepared.ledger.parts ≡ J.parts) }
    requires limit { prepared.limit ≡ J.limit }
{
    let (shared, mut sessions) = open::<J, R>(prepared)?;
    let well = three_work(rt, alloc, &shared, sessions.as_mut_slice());
    let closed = close_all(shared, sessions);
    if well? { Ok(closed) } else { Ok(None) }
}

#[test]
fn dashboards_look_while_an_engineer_writes(rt: HostRuntime) -> Result<(), Fail> {
    let prepared = prepare_free_road(&rt, rt.alloc(), 0, 3, 10)?;
    let closed = day::<Brand, _, _>(&rt, rt.alloc(), prepared)?.ok_or(
        "the dashboards must see what they should",
    )?;
    let journal = [Line::Advanced(0, 6), Line::Took(0, &[BLOCKED])];
    assert!(rt; is_journal(rt.alloc(), &closed.journal, &journal));
    assert!(rt; shows(rt.alloc(), &closed.sheet, BLOCKED_ROWS));
    Ok(())
}
