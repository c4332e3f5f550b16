//! A span, run by the workers of a pool: each runs a stretch of the road. The caller runs one more if there is a
//! processor for it.

ghost use Rattle.std.specs.Prelude.{◌≡◌, ℕ, ◌+◌, ◌<◌, ◌≤◌, length, vec_len, false, true, Err, IfErr, IfOk, IfSome, IsSome};
ghost use Rattle.std.specs.Prelude.{OnErr, OnOk};
ghost use Rattle.road_plan.specs.declared.limits.TheConstants.{GREATEST_LENGTH, MOST_WORKERS};
ghost use Rattle.road_cells.specs.Cars.{cars_of};
ghost use Rattle.road_ends.specs.Span.{span_road};
ghost use Rattle.road_detector.specs.Passes.{span_totals};
ghost use Rattle.road_columns.specs.RoadOrRun.{road_now};
ghost use Rattle.road_columns.specs.UnderWay.{IsRunnable};
ghost use Rattle.road_workers.specs.Crews.{CanBeRun};
ghost use Rattle.road_workers.specs.Private.Gathered.{AreRun, AreThere};
ghost use Rattle.road_workers.specs.Private.Jobs.{IsStretchJob, TookStretch};
ghost use Rattle.road_workers.specs.Private.Lost.{IsLost, TellsLost};
ghost use Rattle.road_workers.specs.Private.Stretches.{IsJoined, cut};
ghost use Rattle.road_workers.specs.declared.faults.CrewFault.TheVariants as Fault;

use crate::faults::CrewFault;
use crate::kept_run::KeptRun;
use crate::pool::job::{Done, Job, JobSender, StretchAnswer, StretchJob};
use crate::pool::messages::Inbox;
use crate::pool::places::{are_there, places_for};
use crate::pool::sharing::{Shares, is_shared};
use crate::pool::side_by_side::{accept_run, put_side_by_side};
use crate::pool::{Team, Worker};
use crate::stretch::joining::{Joined, join_first, join_none, whole_run};
use crate::stretch::{road_near, run_stretch, stretch_at};
use crate::whole::run_alone;
use crossbeam_channel::SendError;
use road_columns::{RoadOrRun, SpanOutcome, is_runnable};
use road_ends::{OutOfMemory, Span, Stretch};
use std::alloc::Global;
use std::sync::Wait;

impl<R: Wait> Team<R> {
    // Run a span, if it has steps: by the caller alone if workers would gain nothing.
    pub(super) fn run_spans(
        &mut self,
        alloc: Global,
        span: &Span,
        road: RoadOrRun,
    ) -> Result<Option<SpanOutcome>, CrewFault>
        requires some { 0 < vec_len self.old.workers }
        requires few { vec_len self.old.workers ≤ MOST_WORKERS }
        ensures road { IfOk result (λ done. IfSome done (λ ran. road_now ran.road
            ≡ span_road span.now (road_now road))) }
        ensures totals { IfOk result (λ done. IfSome done (λ ran. ran.totals.items
            ≡ span_totals span.now (road_now road))) }
        ensures some { IfOk result (λ done. CanBeRun span.now (road_now road) → IsSome done) }
        ensures lost { TellsLost result self.new.inbox.lost }
        ensures workers { vec_len self.new.workers ≡ vec_len self.old.workers }
    {
        self.inbox.begin();
        if span.steps() == 0 {
            return Ok(None);
        }
        let (cars, cells) = (road.car_count(), span.plan().length());
        let workers = self.workers.len() as u32;
        let own = u32::from(workers < self.processors);
        if workers > self.processors || !is_shared(cars, cells, span.steps(), own + workers) {
            return Ok(run_alone(alloc, span, road)?);
        }
        let whole = Stretch {
            first: 0,
            end: cells,
        };
        let road = road.into_road(alloc)?;
        if !is_runnable(span.plan(), whole, &road) {
            return Ok(None);
        }
        let shares = Shares {
            span,
            road: &road,
            own,
        };
        let rt = &self.rt;
        let joined = run_side_by_side(
            rt,
            alloc,
            shares,
            self.workers.as_slice(),
            &|jobs: &JobSender, job: Job| jobs.send(rt, job),
            &mut self.inbox,
            &mut self.kept,
        )?;
        Ok(Some(whole_run(span, &road, cells, joined)))
    }
}

// Run a span by the stretches of all workers, and the caller's own. If there are several faults, return the first of
// these: a lost worker, why a job was not sent, the caller's own lack of memory. Jobs are sent by `send`.
#[tactic(auto, using(crate::proofs::OneMore::missing_right))]
fn run_side_by_side<R: Wait, F: Fn(&JobSender, Job) -> Result<(), SendError<Job>>>(
    rt: &R,
    alloc: Global,
    shares: Shares,
    workers: &[Worker],
    send: &F,
    inbox: &mut Inbox,
    kept: &mut KeptRun,
) -> Result<Joined, CrewFault>
    requires may_send { F.IsAlwaysCallable send.now }
    requires begun { inbox.old.lost ≡ false }
    requires silent { inbox.old.heard ≡ false }
    requires some { 0 < length workers.now }
    requires few { length workers.now ≤ MOST_WORKERS }
    requires own { shares.own ≤ 1 }
    requires runnable { IsRunnable 0 shares.span.now.plan.cells shares.span.now.plan shares.road.now }
    ensures joined { IfOk result
        (IsJoined shares.entry.span.now.plan.cells shares.entry.span.now shares.entry.road.now) }
    ensures sent { OnOk result ((w : ℕ) → w < length workers.now → TookStretch (F.post send.now) workers.now
        shares.entry.span.now shares.entry.road.now shares.entry.own w) }
    ensures lost { TellsLost result inbox.new.lost }
    ensures gone { result ≡ Err Fault.WorkersGone → IsLost (F.post send.now) workers.now inbox.new.heard }
{
    let count = workers.len() as u32;
    let mut places = places_for(alloc, count)?;
    let (jobs, sent) = inbox.send_each(
        workers,
        &|worker: u32| stretch_job(alloc, shares, count, worker),
        send,
    );
    let front = run_own_stretch(alloc, shares, count, kept);
    take_stretches(rt, inbox, &mut places, jobs, shares)?;
    sent?;
    let front = front?;
    Ok(put_side_by_side(shares, front, places)?)
}

// Make the job of a worker's stretch, for `workers` workers.
fn stretch_job(alloc: Global, shares: Shares, workers: u32, worker: u32) -> Result<Job, OutOfMemory>
    requires own { shares.own ≤ 1 }
    requires few { workers ≤ MOST_WORKERS }
    requires runnable { IsRunnable 0 shares.span.now.plan.cells shares.span.now.plan shares.road.now }
    requires there { worker < workers }
    ensures { IfOk result (IsStretchJob shares.entry.span.now shares.entry.road.now shares.entry.own workers worker) }
{
    let Shares { span, road, .. } = shares;
    let stretch = shares.stretch_of(workers, worker);
    let near = road_near(alloc, span, road, stretch)?;
    let span = span.copied()?;
    Ok(Job::Stretch(StretchJob::new(span, near, stretch)))
}

// Run the caller's stretch, which comes before those of the workers, in a run that is kept. If the caller has no
// stretch, return no cars and no counts.
fn run_own_stretch(
    alloc: Global,
    shares: Shares,
    workers: u32,
    kept: &mut KeptRun,
) -> Result<Joined, OutOfMemory>
    requires own { shares.own ≤ 1 }
    requires some { 0 < workers }
    requires few { workers ≤ MOST_WORKERS }
    requires runnable { IsRunnable 0 shares.span.now.plan.cells shares.span.now.plan shares.road.now }
    ensures { IfOk result (IsJoined (cut shares.entry.span.now.plan.cells (cars_of shares.entry.road.now)
        (shares.entry.own + workers) shares.entry.own) shares.entry.span.now shares.entry.road.now) }
{
    let Shares { span, road, own } = shares;
    if own == 0 {
        return join_none(alloc, span);
    }
    let first = stretch_at(road, span.plan().length(), own + workers, 0);
    let ran = run_stretch(alloc, span, road, first, kept)?;
    Ok(join_first(ran, first.end))
}

// Take what the first `workers` workers answer for this span. Duplicates and other answers are dropped.
fn take_stretches<R: Wait>(
    rt: &R,
    inbox: &mut Inbox,
    places: &mut Vec<Option<StretchAnswer>>,
    workers: u32,
    shares: Shares,
) -> Result<(), CrewFault>
    requires few { vec_len places.old ≤ MOST_WORKERS }
    requires workers { workers ≤ vec_len places.old }
    requires own { shares.own ≤ 1 }
    requires gathered { AreRun shares.span.now shares.road.now shares.own places.old.items }
    ensures there { OnOk result (AreThere workers places.new.items) }
    ensures heard { OnOk result (inbox.new.lost ≡ inbox.old.lost) }
    ensures gone { IfErr result (λ fault. fault ≡ Fault.WorkersGone) }
    ensures lost { OnErr result ((inbox.new.lost ≡ true) × (inbox.new.heard ≡ true)) }
    ensures count { vec_len places.new ≡ vec_len places.old }
    ensures gathered { AreRun shares.entry.span.now shares.entry.road.now shares.entry.own places.new.items }
{
    for _ in rt.forever() {
        if are_there(places.as_slice(), workers) {
            return Ok(());
        }
        if let Done::Stretch(done) = inbox.next_done(rt)? {
            accept_run(places, done, shares);
        }
    }
    unreachable!()
}
