//! Sessions of a store on the free road: opening the store, writes, looks, closing the store.

ghost use Rattle.std.specs.Prelude.{◌≡◌};

use crate::replicas::Write;
use crate::roads::{OPENING, Shown, free_plan, holds, shows};
use crate::verdict::{Call, Refusal, Until, Verdict, Wrong, try_call, verdict_of};
use road_cells::Car;
use road_detector::Totals;
use road_ends::Meter;
use road_replica::Reply;
use road_scenario::{Edit, Scenario};
use road_sessions::{
    Closed, Entry, LookFault, Naming, Of, OpenFault, Prepared, Session, Shared, SheetCommand,
    WriteFault, Wrote, close, open, prepare,
};
use road_sheet::Sheet;
use road_workers::Alone;
use std::alloc::Global;
use std::marker::Brand;
use std::sync::{Arc, Wait};
use tests_portraits::Portrait;

/// What a session does, and the expected answer.
#[derive(Clone, Copy)]
pub(crate) enum Act {
    /// It writes. The expected answer is its place in the journal, and the reply.
    Write(Write, u64, Reply),
    Look,
    State(u32, &'static [Car]),
    Totals(u32, u32, Totals),
}

/// A command of the journal, in the form that tables use.
#[derive(Clone, Copy)]
pub(crate) enum Command {
    Take(&'static [Edit]),
    Advance(u32),
}

/// A call of the second of two sessions: the writes of the first session before it, the call, what is shown before and
/// after it, and the journal afterwards. Each entry of the journal has its session and its command.
#[derive(Clone, Copy)]
pub(crate) struct SessionCase(
    pub(crate) &'static [Write],
    pub(crate) Act,
    pub(crate) Shown,
    pub(crate) Shown,
    pub(crate) &'static [(u32, Command)],
);

/// When the store of a call is closed.
#[derive(Clone, Copy, PartialEq, Eq)]
pub(crate) enum Closing {
    /// Once the call is judged.
    Judged,
    /// Once the call is judged; the closing itself is the call to try.
    Tried,
    /// As soon as the call is refused.
    Refused,
}

// ---- what sessions are shown

// A store and its two sessions.
#[derive(Drop)]
struct Store<J: Naming, S, W> {
    rt: W,
    shared: S,
    sessions: Vec<Session<J>>,
}

// Return whether a session that looks is shown this.
fn is_shown<J: Naming, S: Of<J>>(
    alloc: Global,
    shared: &S,
    session: &mut Session<J>,
    shown: &Shown,
) -> Option<bool> {
    match session.look(shared) {
        Ok(sheet) => shows(alloc, &sheet, shown),
        Err(_fault) => Some(false),
    }
}

// Return whether all sessions that look are shown this.
fn are_shown<J: Naming, S: Of<J>>(
    alloc: Global,
    shared: &S,
    sessions: &mut [Session<J>],
    shown: &Shown,
) -> Option<bool> {
    for session in sessions {
        if !is_shown(alloc, shared, session, shown)? {
            return Some(false);
        }
    }
    Some(true)
}

// Draw what a session is shown.
fn draw_look<J: Naming, S: Of<J>>(
    alloc: Global,
    portrait: &mut Portrait,
    shared: &S,
    session: &mut Session<J>,
) -> Option<()> {
    let sheet = session.look(shared).ok()?;
    portrait.draw_sheet(alloc, &sheet)
}

// Draw what each session is shown.
fn draw_looks<J: Naming, S: Of<J>>(
    alloc: Global,
    portrait: &mut Portrait,
    shared: &S,
    sessions: &mut [Session<J>],
) -> Option<()> {
    for session in sessions {
        draw_look(alloc, portrait, shared, session)?;
    }
    Some(())
}

// ---- writes

/// What sessions write to.
trait Writes<J: Naming>: Of<J> {
    /// Let a session write.
    fn write_for<W: Wait>(
        &self,
        rt: &W,
        session: &mut Session<J>,
        write: &Write,
        given: &Scenario,
    ) -> Result<Wrote<J>, WriteFault>;
}

impl<J: Naming, R: Wait + Drop> Writes<J> for Shared<J, R> {
    fn write_for<W: Wait>(
        &self,
        rt: &W,
        session: &mut Session<J>,
        write: &Write,
        given: &Scenario,
    ) -> Result<Wrote<J>, WriteFault> {
        let (crew, meter) = (&mut Alone, &mut Meter::new());
        match write {
            Write::Edit(object, step, value) => {
                session.edit(rt, self, *object, *step, *value, crew, meter)
            }
            Write::Withdraw(object, step) => {
                session.withdraw(rt, self, *object, *step, crew, meter)
            }
            Write::Advance(to) => session.advance(rt, self, *to, crew, meter),
            Write::Take(_) => session.take(rt, self, given, crew, meter),
            Write::Import(_) => Err(WriteFault::JournalFull),
        }
    }
}

// Let the session with this number write.
fn write_by<J: Naming, S: Writes<J>, W: Wait>(
    store: &mut Store<J, S, W>,
    number: usize,
    write: &Write,
    given: &Scenario,
) -> Result<Wrote<J>, WriteFault> {
    let Store {
        rt,
        shared,
        sessions,
    } = store;
    match sessions.get_mut(number) {
        Some(session) => shared.write_for(rt, session, write, given),
        None => Err(WriteFault::JournalFull),
    }
}

// Let the first session write, and tell the second session.
fn accept<J: Naming, S: Writes<J>, W: Wait>(
    alloc: Global,
    store: &mut Store<J, S, W>,
    write: &Write,
) -> Option<()> {
    let given = write.scenario(alloc)?;
    let Ok(wrote) = write_by(store, 0, write, &given) else {
        return None;
    };
    store.sessions.get_mut(1)?.hear(wrote.receipt);
    Some(())
}

// Let the first session make all these writes, and tell the second session of each.
fn accept_all<J: Naming, S: Writes<J>, W: Wait>(
    alloc: Global,
    store: &mut Store<J, S, W>,
    writes: &[Write],
) -> Option<()> {
    for write in writes {
        accept(alloc, store, write)?;
    }
    Some(())
}

// A write of the second session, as a call.
#[derive(Drop)]
struct Writing<J: Naming, S, W> {
    store: Store<J, S, W>,
    given: Scenario,
    case: SessionCase,
}

impl<J: Naming, S: Writes<J>, W: Wait> Call for Writing<J, S, W> {
    type Answer = (u64, Reply);

    type Fault = WriteFault;

    fn draw(&mut self, alloc: Global, portrait: &mut Portrait) -> Option<()> {
        let Store {
            shared,
            sessions,
            ..
        } = &mut self.store;
        draw_looks(alloc, portrait, shared, sessions.as_mut_slice())
    }

    fn writes(&self) -> bool {
        true
    }

    fn make(&mut self, _alloc: Global) -> Result<(u64, Reply), WriteFault> {
        let Act::Write(write, _, _) = self.case.1 else {
            return Err(WriteFault::JournalFull);
        };
        let wrote = write_by(&mut self.store, 1, &write, &self.given)?;
        Ok((wrote.place, wrote.reply))
    }

    fn is_right(&mut self, alloc: Global, answer: (u64, Reply)) -> Option<bool> {
        let Act::Write(_, place, reply) = self.case.1 else {
            return Some(false);
        };
        let Store {
            shared,
            sessions,
            ..
        } = &mut self.store;
        let are_shown = are_shown(alloc, shared, sessions.as_mut_slice(), &self.case.3)?;
        Some(are_shown && answer == (place, reply))
    }
}

// Judge a write that is not made again if it is refused.
fn judge_once<J: Naming, S: Writes<J>, W: Wait>(
    alloc: Global,
    writing: &mut Writing<J, S, W>,
    answer: Result<(u64, Reply), WriteFault>,
) -> Option<Verdict> {
    match answer {
        Ok(answer) => Some(verdict_of(Verdict::Right, writing.is_right(alloc, answer)?)),
        Err(fault) => match fault.verdict_after_retry() {
            Some(_) => Some(Verdict::Refused),
            None => Some(Verdict::Wrong(Wrong::Cause)),
        },
    }
}

// Try a write that is not made again if it is refused.
fn try_once<J: Naming, S: Writes<J>, W: Wait>(
    alloc: Global,
    until: Until,
    writing: &mut Writing<J, S, W>,
) -> Option<Verdict> {
    if until == Until::Prepared {
        return Some(Verdict::Stopped);
    }
    let answer = writing.make(alloc);
    if until == Until::Called {
        return Some(Verdict::Stopped);
    }
    judge_once(alloc, writing, answer)
}

// Try a write. It is not made again if the store is to be closed as soon as it is refused.
fn try_write<J: Naming, S: Writes<J>, W: Wait>(
    alloc: Global,
    until: Until,
    closing: Closing,
    writing: &mut Writing<J, S, W>,
) -> Option<Verdict> {
    accept_all(alloc, &mut writing.store, writing.case.0)?;
    if closing == Closing::Refused {
        try_once(alloc, until, writing)
    } else {
        try_call(alloc, until, writing)
    }
}

// ---- questions

// The answer to a query of a session: a sheet, or whether the answer was the expected one.
#[derive(Drop)]
enum QueryAnswer {
    Sheet(Arc<Sheet>),
    Expected(bool),
}

// A query of the second session, as a call.
#[derive(Drop)]
struct Asking<J: Naming, S, W> {
    store: Store<J, S, W>,
    case: SessionCase,
}

// Let a session make its query.
fn query<J: Naming, S: Of<J>>(
    alloc: Global,
    shared: &S,
    session: &mut Session<J>,
    act: &Act,
) -> Result<QueryAnswer, LookFault> {
    match *act {
        Act::Look => Ok(QueryAnswer::Sheet(session.look(shared)?)),
        Act::State(step, cars) => Ok(QueryAnswer::Expected(
            session.state(alloc, shared, step)?.cars() == cars,
        )),
        Act::Totals(from, to, totals) => Ok(QueryAnswer::Expected(
            session.totals(alloc, shared, 0, from, to)? == totals,
        )),
        Act::Write(_, _, _) => Ok(QueryAnswer::Expected(false)),
    }
}

impl<J: Naming, S: Writes<J>, W: Wait> Call for Asking<J, S, W> {
    type Answer = QueryAnswer;

    type Fault = LookFault;

    fn draw(&mut self, alloc: Global, portrait: &mut Portrait) -> Option<()> {
        let Store {
            shared,
            sessions,
            ..
        } = &mut self.store;
        draw_looks(alloc, portrait, shared, sessions.as_mut_slice())
    }

    fn make(&mut self, alloc: Global) -> Result<QueryAnswer, LookFault> {
        let Store {
            shared,
            sessions,
            ..
        } = &mut self.store;
        match sessions.get_mut(1) {
            Some(session) => query(alloc, shared, session, &self.case.1),
            None => Ok(QueryAnswer::Expected(false)),
        }
    }

    fn is_right(&mut self, alloc: Global, answer: QueryAnswer) -> Option<bool> {
        match answer {
            QueryAnswer::Sheet(sheet) => shows(alloc, &sheet, &self.case.3),
            QueryAnswer::Expected(is_expected) => Some(is_expected),
        }
    }
}

// Try a query.
fn try_question<J: Naming, S: Writes<J>, W: Wait>(
    alloc: Global,
    until: Until,
    asking: &mut Asking<J, S, W>,
) -> Option<Verdict> {
    accept_all(alloc, &mut asking.store, asking.case.0)?;
    try_call(alloc, until, asking)
}

// ---- the closed store

// Return whether this is the expected entry of the journal.
fn is_entry(alloc: Global, entry: &Entry, (session, command): &(u32, Command)) -> Option<bool> {
    let is_command = match (&entry.command, command) {
        (SheetCommand::Take(scenario), Command::Take(edits)) => holds(alloc, scenario, edits)?,
        (SheetCommand::Advance(to), Command::Advance(wanted)) => to == wanted,
        _ => false,
    };
    Some(is_command && entry.session == *session)
}

// Return whether a closed store has the expected journal, and its sheet shows what it should.
fn is_closed_with(
    alloc: Global,
    closed: &Closed,
    journal: &[(u32, Command)],
    shown: &Shown,
) -> Option<bool> {
    let mut is_journal = closed.journal.len() == journal.len();
    for (entry, wanted) in closed.journal.iter().zip(journal) {
        is_journal = is_journal && is_entry(alloc, entry, wanted)?;
    }
    Some(is_journal && shows(alloc, &closed.sheet, shown)?)
}

// Judge the result of a store that was closed after a call with this verdict. If the call was refused and not made
// again, the journal must have no entry of it.
fn judge_closed(
    alloc: Global,
    closed: &Closed,
    verdict: Verdict,
    case: &SessionCase,
) -> Option<Verdict> {
    let SessionCase(_, _, before, after, journal) = *case;
    let is_right = match verdict {
        Verdict::Wrong(_) | Verdict::Stopped => return Some(verdict),
        Verdict::Refused => is_closed_with(alloc, closed, journal.split_last()?.1, &before)?,
        _ => is_closed_with(alloc, closed, journal, &after)?,
    };
    Some(verdict_of(verdict, is_right))
}

// Close a store after a call with this verdict. Judge the result if the case requires it.
fn close_after<J: Naming, R: Wait + Drop, W: Drop>(
    alloc: Global,
    until: Until,
    store: Store<J, Shared<J, R>, W>,
    verdict: Option<Verdict>,
    case: &SessionCase,
) -> Option<Verdict> {
    let Store {
        shared,
        sessions,
        ..
    } = store;
    let Ok(closed) = close(shared, sessions) else {
        return Some(Verdict::Wrong(Wrong::Open));
    };
    if until == Until::Judged {
        judge_closed(alloc, &closed, verdict?, case)
    } else {
        Some(Verdict::Stopped)
    }
}

// Return the stage up to which a call is tried before its store is closed. If the closing is the call to try, it is the
// last stage.
fn until_closing(until: Until, closing: Closing) -> Until {
    match closing {
        Closing::Tried => Until::Judged,
        _ => until,
    }
}

// Try the call of a store, and then close the store.
fn act_and_close<J: Naming, R: Wait + Drop, W: Wait + Drop>(
    alloc: Global,
    store: Store<J, Shared<J, R>, W>,
    given: Scenario,
    until: Until,
    closing: Closing,
    case: &SessionCase,
) -> Option<Verdict> {
    let (so_far, case) = (until_closing(until, closing), *case);
    if let Act::Write(_, _, _) = case.1 {
        let mut writing = Writing { store, given, case };
        let verdict = try_write(alloc, so_far, closing, &mut writing);
        close_after(alloc, until, writing.store, verdict, &case)
    } else {
        let mut asking = Asking { store, case };
        let verdict = try_question(alloc, so_far, &mut asking);
        close_after(alloc, until, asking.store, verdict, &case)
    }
}

// Open a prepared store, try the call or the closing after the call, and judge the closed store.
fn open_and_try<J: Naming, R: Wait + Drop, W: Wait + Drop>(
    rt: W,
    alloc: Global,
    prepared: Prepared<R>,
    given: Scenario,
    until: Until,
    closing: Closing,
    case: &SessionCase,
) -> Option<Verdict>
    requires book { prepared.book ≡ J.book }
    requires replica { prepared.replica ≡ J.replica }
    requires ledger { (prepared.ledger.name ≡ J.name) × (prepared.ledger.parts ≡ J.parts) }
    requires limit { prepared.limit ≡ J.limit }
{
    let Ok((shared, sessions)) = open::<J, R>(prepared) else {
        return None;
    };
    let store = Store {
        rt,
        shared,
        sessions,
    };
    act_and_close(alloc, store, given, until, closing, case)
}

// Return the scenario that a call passes.
fn scenario_of(alloc: Global, case: &SessionCase) -> Option<Scenario> {
    match case.1 {
        Act::Write(write, _, _) => write.scenario(alloc),
        _ => Some(Scenario::empty(alloc)),
    }
}

// Prepare a replica of the free road for two sessions and three writes.
fn prepare_for_two<R: Wait + Drop>(rt: R, alloc: Global) -> Option<Prepared<R>> {
    prepare(rt, alloc, free_plan(alloc)?, 0, 2, 3).ok()
}

// Try a call of a session in a new store.
fn try_in_store<R: Wait + Drop + Copy>(
    rt: R,
    alloc: Global,
    until: Until,
    closing: Closing,
    case: &SessionCase,
) -> Option<Verdict> {
    let given = scenario_of(alloc, case)?;
    let prepared = prepare_for_two(rt, alloc)?;
    open_and_try::<Brand, R, R>(rt, alloc, prepared, given, until, closing, case)
}

/// Try a call of a session, or the closing of the store after it, which does not allocate. If the store is closed as
/// soon as the call is refused, make the call again in another store.
pub(crate) fn try_session_call<R: Wait + Drop + Copy>(
    rt: R,
    alloc: Global,
    until: Until,
    closing: Closing,
    case: &SessionCase,
) -> Option<Verdict> {
    match try_in_store(rt, alloc, until, closing, case)? {
        Verdict::Refused => {
            let again = try_in_store(rt, alloc, Until::Judged, Closing::Judged, case)?;
            Some(if again == Verdict::Right {
                Verdict::Again
            } else {
                again
            })
        }
        verdict => Some(verdict),
    }
}

// ---- opening

// Open a prepared store, and judge whether it is as a new store must be.
fn opens<J: Naming, R: Wait + Drop>(
    alloc: Global,
    prepared: Prepared<R>,
    until: Until,
    verdict: Verdict,
) -> Result<Option<Verdict>, OpenFault>
    requires book { prepared.book ≡ J.book }
    requires replica { prepared.replica ≡ J.replica }
    requires ledger { (prepared.ledger.name ≡ J.name) × (prepared.ledger.parts ≡ J.parts) }
    requires limit { prepared.limit ≡ J.limit }
{
    let (shared, mut sessions) = open::<J, R>(prepared)?;
    if until == Until::Called {
        return Ok(Some(Verdict::Stopped));
    }
    Ok(judge_opening(alloc, &shared, sessions.as_mut_slice(), verdict))
}

// Judge a store that was opened.
fn judge_opening<J: Naming, R: Wait + Drop>(
    alloc: Global,
    shared: &Shared<J, R>,
    sessions: &mut [Session<J>],
    verdict: Verdict,
) -> Option<Verdict> {
    let are_two = sessions.len() == 2;
    let is_new = are_shown(alloc, shared, sessions, &OPENING)?;
    Some(verdict_of(verdict, are_two && is_new))
}

// Prepare and open a store again, after opening it was refused with this fault.
fn open_again<R: Wait + Drop + Copy>(rt: R, alloc: Global, fault: OpenFault) -> Option<Verdict> {
    let Some(verdict) = fault.verdict_after_retry() else {
        return Some(Verdict::Wrong(Wrong::Cause));
    };
    let prepared = prepare_for_two(rt, alloc)?;
    match opens::<Brand, R>(alloc, prepared, Until::Judged, verdict) {
        Ok(verdict) => verdict,
        Err(_) => Some(Verdict::Wrong(Wrong::Again)),
    }
}

// Open a prepared store. If that is refused, prepare and open it again.
fn open_or_retry<R: Wait + Drop + Copy>(
    rt: R,
    alloc: Global,
    prepared: Prepared<R>,
    until: Until,
) -> Option<Verdict> {
    match opens::<Brand, R>(alloc, prepared, until, Verdict::Right) {
        Ok(verdict) => verdict,
        Err(_) if until == Until::Called => Some(Verdict::Stopped),
        Err(fault) => open_again(rt, alloc, fault),
    }
}

/// Try to open a prepared store.
pub(crate) fn try_open<R: Wait + Drop + Copy>(
    rt: R,
    alloc: Global,
    until: Until,
) -> Option<Verdict> {
    let prepared = prepare_for_two(rt, alloc)?;
    if until == Until::Prepared {
        return Some(Verdict::Stopped);
    }
    open_or_retry(rt, alloc, prepared, until)
}

// Judge a prepared store. If an allocation failed, prepare it again: nothing else can fail.
fn judge_prepared<R: Wait + Drop + Copy>(
    rt: R,
    alloc: Global,
    prepared: Result<Prepared<R>, OpenFault>,
) -> Option<Verdict> {
    match prepared {
        Ok(prepared) => open_or_retry(rt, alloc, prepared, Until::Judged),
        Err(OpenFault::OutOfMemory) => open_again(rt, alloc, OpenFault::OutOfMemory),
        Err(OpenFault::NoPlace) => Some(Verdict::Wrong(Wrong::Cause)),
    }
}

/// Try to prepare a store.
pub(crate) fn try_prepare<R: Wait + Drop + Copy>(
    rt: R,
    alloc: Global,
    until: Until,
) -> Option<Verdict> {
    let plan = free_plan(alloc)?;
    if until == Until::Prepared {
        return Some(Verdict::Stopped);
    }
    let prepared = prepare(rt, alloc, plan, 0, 2, 3);
    if until == Until::Called {
        return Some(Verdict::Stopped);
    }
    judge_prepared(rt, alloc, prepared)
}
