//! The threads of a crowd, one for each session.

ghost use Rattle.std.specs.Prelude.{◌≡◌, [], IfOk, IfSome, length, map};
ghost use Rattle.road_replica.specs.Crowds.{shares_of};
ghost use Rattle.road_sessions.specs.Sessions.{AreNewSessions};
ghost use Rattle.road_crowd.specs.Private.Works.{AreAccepted, IsAccepted, share_entries, work_of, works_from};

use crate::arriving::arrive;
use crate::permit::Permit;
use crate::work::work;
use crossbeam_utils::sync::WaitGroup;
use road_plan::OutOfMemory;
use road_scenario::Edit;
use road_sessions::{Naming, Session, Shared};
use road_workers::{CrewFault, Gate};
use std::alloc::Global;
use std::snapshot::Snapshot;
use std::sync::Wait;
use std::thread;
use std::thread::{Promise, PromisedHandle, Scope, Threads};

// What a thread returns: its session, once that has made all its writes.
type SessionResult<J> = Result<Session<J>, OutOfMemory>;

// The promise about a thread: if it returns a session, that session has this number and wrote the edits of this share,
// one after another, and then an advance to this step.
#[derive(Drop)]
struct WritesShare {
    number: u32,
    share: Snapshot<Vec<Edit>>,
    to: u32,
}

impl<J: Naming> Promise<SessionResult<J>> for WritesShare {
    ghost kept_by = { λ promise worked. IfOk worked (λ session. work_of session
        ≡ (promise.number, share_entries promise.number promise.share.value.items promise.to)) };
}

// What all sessions of a crowd have in common: the gate at which they arrive first, and the step to which they advance
// last.
#[derive(Drop)]
pub(crate) struct Task<'g, G> {
    pub alloc: Global,
    pub gate: &'g G,
    pub to: u32,
}

// A session's thread.
type Worker<J> = PromisedHandle<SessionResult<J>, WritesShare>;

// Run a thread: its session arrives at the gate, and then makes its writes. The session stays in the group `taking`
// until it has taken its edits or has failed.
fn run_session<J: Naming, R: Wait + Drop, W: Wait, G: Gate>(
    rt: &W,
    shared: &Shared<J, R>,
    session: Session<J>,
    share: &[Edit],
    task: &Task<'_, G>,
    taking: WaitGroup,
) -> SessionResult<J>
    requires new { session.view.own ≡ [] }
    requires accepted { IsAccepted J.replica.sheet.plan task.now.to share.now }
    ensures { IfOk result
        (λ after. work_of after ≡ (session.number, share_entries session.number share.now task.now.to)) }
{
    let mut session = session;
    let arrived = arrive(task.gate, &session, taking);
    work(
        rt,
        task.alloc,
        shared,
        &mut session,
        share,
        task.to,
        arrived,
    )?;
    Ok(session)
}

// Start the thread of a session. Return `None` if the thread cannot be started. The session has then left the group
// `taking`, so no other thread waits for it.
fn start<
    's,
    J: Naming + Send + Sync + 's,
    R: Wait + Drop + Send + 's,
    W: Wait + 's,
    G: Gate + Sync + 's,
    E,
>(
    scope: &Scope<'s, E>,
    permit: Permit<W>,
    shared: &'s Shared<J, R>,
    session: Session<J>,
    share: &'s Vec<Edit>,
    task: &'s Task<'s, G>,
    taking: WaitGroup,
) -> Option<Worker<J>>
    requires new { session.view.own ≡ [] }
    requires accepted { IsAccepted J.replica.sheet.plan task.now.to share.now.items }
    ensures number { IfSome result (λ worker. worker.promise.number ≡ session.number) }
    ensures share { IfSome result (λ worker. worker.promise.share.value.items ≡ share.now.items) }
    ensures to { IfSome result (λ worker. worker.promise.to ≡ task.now.to) }
{
    let promise = WritesShare {
        number: session.number(),
        share: Snapshot::of(share),
        to: task.to,
    };
    let started = scope.spawn_with(
        promise,
        move || -> SessionResult<J>
            requires { (session.view.own ≡ []) × IsAccepted J.replica.sheet.plan task.now.to share.now.items }
            ensures { IfOk result (λ after. work_of after
                ≡ (session.number, share_entries session.number share.entry.now.items task.entry.now.to)) }
        { run_session(&permit, shared, session, share.as_slice(), task, taking) },
    );
    started.ok()
}

// Let the sessions write, one for each share, each on a thread of its own. The thread of the last session is started
// first and joined last. So all threads run before one is joined, and the sessions come back in their order. The
// caller's handle of the group `taking` is dropped once all threads have started or one cannot be started. No session
// advances before that.
fn run_sessions<
    's,
    J: Naming + Send + Sync + 's,
    R: Wait + Drop + Send + 's,
    W: Threads + Wait + 's,
    G: Gate + Sync + 's,
    E,
>(
    scope: &Scope<'s, E>,
    rt: &W,
    shared: &'s Shared<J, R>,
    mut sessions: Vec<Session<J>>,
    shares: &'s [Vec<Edit>],
    task: &'s Task<'s, G>,
    taking: WaitGroup,
) -> Result<Vec<Session<J>>, CrewFault>
    requires new { AreNewSessions 0 sessions.items }
    requires one_each { length sessions.items ≡ length shares.now }
    requires accepted { AreAccepted J.replica.sheet.plan task.now.to (shares_of shares.now) }
    ensures { IfOk result (λ after. map work_of after.items ≡ works_from 0 (shares_of shares.now) task.now.to) }
{
    let Some((share, others)) = shares.split_last() else {
        return Ok(sessions);
    };
    let Some(session) = sessions.pop() else {
        unreachable!()
    };
    let permit = Permit::of(rt);
    let its_taking = taking.clone()?;
    let Some(worker) = start(scope, permit, shared, session, share, task, its_taking) else {
        return Err(CrewFault::WorkersGone);
    };
    let mut after = run_sessions(scope, rt, shared, sessions, others, task, taking)?;
    let last = worker.join(rt)?;
    let Ok(()) = after.push(last) else {
        return Err(CrewFault::OutOfMemory);
    };
    Ok(after)
}

// Let the sessions of a new store write, one for each share, each on a thread of its own. If a thread cannot be started
// or runs out of memory, return only once all other threads have ended.
pub(crate) fn run_on_threads<
    J: Naming + Send + Sync,
    R: Wait + Drop + Send,
    W: Threads + Wait,
    G: Gate + Sync,
>(
    rt: &W,
    shared: &Shared<J, R>,
    sessions: Vec<Session<J>>,
    shares: &[Vec<Edit>],
    task: &Task<'_, G>,
) -> Result<Vec<Session<J>>, CrewFault>
    requires new { AreNewSessions 0 sessions.items }
    requires one_each { length sessions.items ≡ length shares.now }
    requires accepted { AreAccepted J.replica.sheet.plan task.now.to (shares_of shares.now) }
    ensures { IfOk result (λ after. map work_of after.items ≡ works_from 0 (shares_of shares.now) task.now.to) }
{
    thread::scope(
        thread::scope_env(),
        rt,
        |scope| -> Result<Vec<Session<J>>, CrewFault>
            requires { AreNewSessions 0 sessions.items × (length sessions.items ≡ length shares.now)
                × AreAccepted J.replica.sheet.plan task.now.to (shares_of shares.now) }
            ensures { IfOk result (λ after. map work_of after.items
                ≡ works_from 0 (shares_of shares.entry.now) task.entry.now.to) }
        {
            let taking = WaitGroup::new(task.alloc)?;
            run_sessions(scope, rt, shared, sessions, shares, task, taking)
        },
    )
}
