//! Sessions that act one after another, as a table says.

ghost use Rattle.std.specs.Prelude.{◌≡◌};

use crate::closings::{Closing, close_as_scripted};
use crate::journals::{Line, is_journal};
use crate::questions::{
    Cars, Count, Run, looks, looks_run, shows, shows_all_cars, shows_counts, shows_run,
};
use crate::writes::{Answer, Write, parts, write_alone};
use road_sessions::{Closed, Naming, Prepared, Receipt, Session, Shared, open};
use road_sheet::Sheet;
use std::alloc::Global;
use std::sync::{Arc, Wait};
use tests_plans::Row;

/// What a session does, and the expected result.
#[derive(Clone, Copy)]
pub(crate) enum Act {
    /// It writes.
    Write(Write, Answer),
    /// It hears of the last write, by its receipt.
    Hear,
    /// It looks, and is shown a horizon and some rows.
    Look(u32, &'static [Row]),
    /// It looks, and keeps the sheet.
    Keep,
    /// The kept sheet shows a run.
    KeptRun(Run),
    /// It looks, and is shown a run.
    LookRun(Run),
    /// It queries the cars of some steps.
    Cars(&'static [Cars]),
    /// It queries some counts.
    Counts(&'static [Count]),
}

/// A store of a replica on the free road, and what happens to it: the acts of its sessions; how it is closed; if a
/// session is missing at first, the acts of the sessions that are handed back, and then the acts of all sessions; the
/// journal; and the rows of the last sheet.
#[derive(Clone, Copy)]
pub(crate) struct Script {
    pub(crate) number: u32,
    pub(crate) sessions: u32,
    pub(crate) limit: u64,
    pub(crate) acts: &'static [(usize, Act)],
    pub(crate) closing: Closing,
    pub(crate) handed_back: &'static [(usize, Act)],
    pub(crate) together: &'static [(usize, Act)],
    pub(crate) journal: &'static [Line],
    pub(crate) rows: &'static [Row],
}

/// The last receipt, and the last sheet that was kept.
#[derive(Drop)]
struct Memory<J: Naming> {
    receipt: Option<Receipt<J>>,
    kept: Option<Arc<Sheet>>,
}

// Return whether a session is shown what a table says.
fn is_shown<J: Naming, R: Wait + Drop>(
    alloc: Global,
    shared: &Shared<J, R>,
    session: &mut Session<J>,
    act: &Act,
) -> bool {
    match act {
        Act::Look(horizon, rows) => looks(alloc, shared, session, *horizon, rows),
        Act::LookRun(run) => looks_run(alloc, shared, session, *run),
        Act::Cars(asked) => shows_all_cars(alloc, shared, session, asked),
        Act::Counts(asked) => shows_counts(alloc, shared, session, asked),
        // No other act checks what is shown.
        _ => false,
    }
}

// Return whether the kept sheet shows a run.
fn kept_shows(alloc: Global, kept: &Option<Arc<Sheet>>, run: Run) -> bool {
    match kept {
        Some(sheet) => shows_run(alloc, sheet, run),
        None => false,
    }
}

// Let a session hear of the last write. Return whether there was one.
fn hear<J: Naming>(session: &mut Session<J>, receipt: Option<Receipt<J>>) -> bool {
    match receipt {
        Some(receipt) => {
            session.hear(receipt);
            true
        }
        None => false,
    }
}

// Return whether the act of a session has the expected result.
fn try_act<J: Naming, R: Wait + Drop, W: Wait>(
    rt: &W,
    alloc: Global,
    shared: &Shared<J, R>,
    session: &mut Session<J>,
    memory: &mut Memory<J>,
    act: &Act,
) -> bool {
    match act {
        Act::Write(write, wanted) => {
            let (answer, receipt) = parts(write_alone(rt, alloc, shared, session, write));
            memory.receipt = receipt;
            answer == *wanted
        }
        Act::Hear => hear(session, memory.receipt.take()),
        Act::Keep => {
            memory.kept = session.look(shared).ok();
            memory.kept.is_some()
        }
        Act::KeptRun(run) => kept_shows(alloc, &memory.kept, *run),
        shown => is_shown(alloc, shared, session, shown),
    }
}

// Return whether the act of the session with this number has the expected result.
fn try_act_of_one<J: Naming, R: Wait + Drop, W: Wait>(
    rt: &W,
    alloc: Global,
    shared: &Shared<J, R>,
    sessions: &mut [Session<J>],
    memory: &mut Memory<J>,
    act: &(usize, Act),
) -> bool {
    match sessions.get_mut(act.0) {
        Some(session) => try_act(rt, alloc, shared, session, memory, &act.1),
        None => false,
    }
}

/// Return whether the acts of all sessions have the expected results.
pub(crate) fn try_acts<J: Naming, R: Wait + Drop, W: Wait>(
    rt: &W,
    alloc: Global,
    shared: &Shared<J, R>,
    sessions: &mut [Session<J>],
    all: &[(usize, Act)],
) -> bool {
    let mut memory = Memory {
        receipt: None,
        kept: None,
    };
    let mut well = true;
    for act in all {
        well = well && try_act_of_one(rt, alloc, shared, sessions, &mut memory, act);
    }
    well
}

// Return whether the result of closing has this journal and these rows.
fn is_closed_as_scripted(alloc: Global, closed: &Option<Closed>, script: &Script) -> bool {
    match closed {
        Some(closed) => {
            is_journal(alloc, &closed.journal, script.journal)
                && shows(alloc, &closed.sheet, script.rows)
        }
        None => false,
    }
}

/// Return whether a store that was just prepared does what its script says.
pub(crate) fn run_script<J: Naming, R: Wait + Drop, W: Wait>(
    rt: &W,
    alloc: Global,
    prepared: Prepared<R>,
    script: &Script,
) -> bool
    requires book { prepared.book ≡ J.book }
    requires replica { prepared.replica ≡ J.replica }
    requires ledger { (prepared.ledger.name ≡ J.name) × (prepared.ledger.parts ≡ J.parts) }
    requires limit { prepared.limit ≡ J.limit }
{
    let Ok((shared, mut sessions)) = open::<J, R>(prepared) else {
        return false;
    };
    let well = try_acts(rt, alloc, &shared, sessions.as_mut_slice(), script.acts);
    let closed = close_as_scripted(rt, alloc, shared, sessions, script);
    well && is_closed_as_scripted(alloc, &closed, script)
}
