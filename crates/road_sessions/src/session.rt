//! Sessions: their writes under the lock, and their looks without it.
ghost use Rattle.std.specs.Prelude.{◌≡◌, ◌<◌, ◌⊎◌, [], IfOk, IsTrue, MatchResult, None, length};
ghost use Rattle.std.specs.Arc.{arc_value};
ghost use mathlib.Core.List.{IsPrefix};
ghost use Rattle.left_right.specs.Sides.{view as view_at};
ghost use Rattle.road_sheet.specs.Sheets.{state_fault, state_of, total_of, totals_fault};
ghost use Rattle.road_sessions.specs.Private.ClosingSessions.{IsSessionOf};
ghost use Rattle.road_sessions.specs.Private.Queries.{query_fault};
ghost use Rattle.road_sessions.specs.Looks.{HasLooked, IsLookRefusal, IsQueryRefusal, sheet_seen};
ghost use Rattle.road_sessions.specs.Sessions.{IsAcceptedWrite, IsRefusedWrite, IsSession, new_view, session_of};
ghost use Rattle.road_sessions.specs.Writes.{CountsGone};
ghost use Rattle.road_sessions.specs.declared.wish.Wish.TheVariants as wishes;

use crate::faults::{LookFault, WriteFault};
use crate::history::{Head, Prefix, Whole};
use crate::naming::Naming;
use crate::query::Query;
use crate::reading;
use crate::shared::{Of, Shared};
use crate::store::StoreReader;
use crate::wish::Wish;
use road_cells::Road;
use road_detector::Totals;
use road_ends::Meter;
use road_plan::Object;
use road_replica::Reply;
use road_scenario::Scenario;
use road_sheet::Sheet;
use road_workers::Crew;
use std::alloc::Global;
use std::marker::Model;
use std::sync::ledger::Share;
use std::sync::{Arc, Wait};

/// A receipt, which one session passes to another: the history of all that the first had seen and written. Contracts
/// see it as that history.
#[derive(Drop)]
pub struct Receipt<J: Naming> {
    history: Prefix<J>,
}

impl<J: Naming> Model for Receipt<J> {
    ghost use Rattle.std.specs.Prelude.{List};
    ghost use Rattle.std.specs.Coded.{codes};
    ghost use Rattle.road_scenario.specs.Instances.EditOrder.{edits_code};
    ghost use Rattle.road_sessions.specs.declared.entry.Entry.{Entry};

    ghost Value = { List Entry };

    ghost coded = { Prim.hlevel (codes, edits_code) };

    ghost view = { λ r. r.history };
}

/// The result of an accepted write.
#[derive(Drop)]
pub struct Wrote<J: Naming> {
    /// Its place in the journal, from 0.
    pub place: u64,
    /// The horizon, the touched step, or the stamp of the edit that was made.
    pub reply: Reply,
    /// The history that ends with it, for other sessions to hear ([`Session::hear`]).
    pub receipt: Receipt<J>,
}

/// A session of a store. It may be moved to a thread of its own. Contracts see its number, the history of all that it
/// has seen, heard of or written, and what the store knows of its reader.
#[derive(Drop)]
pub struct Session<J: Naming> {
    number: u32,
    membership: Membership<J>,
}

// A session's part of its store.
#[derive(Drop)]
pub(crate) struct Membership<J: Naming> {
    // The history of all that it has seen, heard of or written.
    pub(crate) seen: Prefix<J>,
    // Its reader.
    pub(crate) reader: StoreReader<J>,
    // Its share of the ledger, which counts its writes.
    pub(crate) share: Share<J>,
}

impl<J: Naming> Model for Session<J> {
    ghost use Rattle.std.specs.Prelude.{◌≡◌, ◌<◌, length};
    ghost use Rattle.left_right.specs.Sides.{view as view_at};
    ghost use Rattle.std.specs.Coded.{codes};
    ghost use Rattle.road_scenario.specs.Instances.EditOrder.{edits_code};
    ghost use Rattle.road_sessions.specs.Sessions.{IsSession, Session, session_of};

    ghost Value = { Session };

    ghost coded = { Prim.hlevel (codes, edits_code) };

    ghost view = { λ s. session_of s.number s.membership.seen (view_at s.membership.reader.place) };

    ghost invariant = { λ s.
        IsSession J.replica (session_of s.number s.membership.seen (view_at s.membership.reader.place))
        × (s.membership.share.parts ≡ 1)
        × (s.membership.share.amount ≡ length (view_at s.membership.reader.place).own)
        × (s.number < J.parts) };
}

impl<J: Naming> Session<J> {
    // Make a session that has seen and written nothing.
    pub(crate) fn new(number: u32, membership: Membership<J>) -> Session<J>
        requires fresh { (membership.seen ≡ []) × (view_at membership.reader.place ≡ new_view) }
        requires share { (membership.share.parts ≡ 1) × (membership.share.amount ≡ 0) }
        requires below { number < J.parts }
        ensures { result ≡ session_of number [] new_view }
    {
        Session { number, membership }
    }

    /// Return its number, from 0: it is below the number of sessions that were opened.
    pub fn number(&self) -> u32
        ensures number { result ≡ self.now.number }
        ensures below { self.now.number < J.parts }
    {
        self.number
    }

    // ---- writes, under the lock

    /// Take edits. The reply is the touched step. If the write is accepted, the meter counts exactly the steps from the
    /// last checkpoint at or before the touched step up to the horizon, or none if no simulated step is touched.
    ///
    /// # Errors
    ///
    /// `JournalFull` if the journal has as many writes as the store was prepared for, else the errors of
    /// `Replica::take`. The session is then unchanged. With a named cause the meter counts nothing. If workers have
    /// gone or an allocation failed, it counts at most the steps that the edits touch, and 63 more.
    pub fn take<R: Wait + Drop, W: Wait, C: Crew>(
        &mut self,
        rt: &W,
        shared: &Shared<J, R>,
        scenario: &Scenario,
        crew: &mut C,
        meter: &mut Meter,
    ) -> Result<Wrote<J>, WriteFault>
        ensures write { MatchResult result
            (λ wrote. IsAcceptedWrite J.limit J.replica (wishes.Take scenario.entry) self.old wrote.place
            wrote.reply self.new meter.old meter.new × (wrote.receipt ≡ self.new.seen))
            (λ fault. IsRefusedWrite J.limit J.replica (wishes.Take scenario.entry) self.old fault self.new
            meter.old meter.new) }
        ensures gone { CountsGone result (C.times_gone crew.old) (C.times_gone crew.new) }
    {
        self.write(rt, shared, &Wish::Take(scenario), crew, meter)
    }

    /// Simulate the replica up to a step. The reply is its horizon. The meter counts exactly the added steps.
    ///
    /// # Errors
    ///
    /// `JournalFull` as for [`Session::take`], else the errors of `Replica::advance`. The session is then unchanged.
    pub fn advance<R: Wait + Drop, W: Wait, C: Crew>(
        &mut self,
        rt: &W,
        shared: &Shared<J, R>,
        to: u32,
        crew: &mut C,
        meter: &mut Meter,
    ) -> Result<Wrote<J>, WriteFault>
        ensures write { MatchResult result
            (λ wrote. IsAcceptedWrite J.limit J.replica (wishes.Advance to) self.old wrote.place
            wrote.reply self.new meter.old meter.new × (wrote.receipt ≡ self.new.seen))
            (λ fault. IsRefusedWrite J.limit J.replica (wishes.Advance to) self.old fault self.new
            meter.old meter.new) }
        ensures gone { CountsGone result (C.times_gone crew.old) (C.times_gone crew.new) }
    {
        self.write(rt, shared, &Wish::Advance(to), crew, meter)
    }

    /// Set a number for an object from a step on, in the object's units. The reply is the edit's stamp. The meter
    /// counts as for [`Session::take`].
    ///
    /// # Errors
    ///
    /// `JournalFull` as for [`Session::take`], else the errors of `Replica::edit`. The session is then unchanged.
    pub fn edit<R: Wait + Drop, W: Wait, C: Crew>(
        &mut self,
        rt: &W,
        shared: &Shared<J, R>,
        object: Object,
        step: u32,
        value: u32,
        crew: &mut C,
        meter: &mut Meter,
    ) -> Result<Wrote<J>, WriteFault>
        ensures write { MatchResult result
            (λ wrote. IsAcceptedWrite J.limit J.replica (wishes.Edit object step value) self.old wrote.place
            wrote.reply self.new meter.old meter.new × (wrote.receipt ≡ self.new.seen))
            (λ fault. IsRefusedWrite J.limit J.replica (wishes.Edit object step value) self.old fault self.new
            meter.old meter.new) }
        ensures gone { CountsGone result (C.times_gone crew.old) (C.times_gone crew.new) }
    {
        let wish = Wish::Edit {
            object,
            step,
            value,
        };
        self.write(rt, shared, &wish, crew, meter)
    }

    /// Withdraw what is set for an object at a step. The reply is the withdrawal's stamp. The meter counts as for
    /// [`Session::take`].
    ///
    /// # Errors
    ///
    /// `JournalFull` as for [`Session::take`], else the errors of `Replica::withdraw`. The session is then unchanged.
    pub fn withdraw<R: Wait + Drop, W: Wait, C: Crew>(
        &mut self,
        rt: &W,
        shared: &Shared<J, R>,
        object: Object,
        step: u32,
        crew: &mut C,
        meter: &mut Meter,
    ) -> Result<Wrote<J>, WriteFault>
        ensures write { MatchResult result
            (λ wrote. IsAcceptedWrite J.limit J.replica (wishes.Withdraw object step) self.old wrote.place
            wrote.reply self.new meter.old meter.new × (wrote.receipt ≡ self.new.seen))
            (λ fault. IsRefusedWrite J.limit J.replica (wishes.Withdraw object step) self.old fault self.new
            meter.old meter.new) }
        ensures gone { CountsGone result (C.times_gone crew.old) (C.times_gone crew.new) }
    {
        self.write(rt, shared, &Wish::Withdraw { object, step }, crew, meter)
    }

    // Make the write that a wish asks for.
    fn write<R: Wait + Drop, W: Wait, C: Crew>(
        &mut self,
        rt: &W,
        shared: &Shared<J, R>,
        wish: &Wish<'_>,
        crew: &mut C,
        meter: &mut Meter,
    ) -> Result<Wrote<J>, WriteFault>
        ensures write { MatchResult result
            (λ wrote. IsAcceptedWrite J.limit J.replica wish.now self.old wrote.place
            wrote.reply self.new meter.old meter.new × (wrote.receipt ≡ self.new.seen))
            (λ fault. IsRefusedWrite J.limit J.replica wish.now self.old fault self.new meter.old meter.new) }
        ensures gone { CountsGone result (C.times_gone crew.old) (C.times_gone crew.new) }
    {
        let number = self.number;
        let (place, reply) = shared
            .held
            .lock(rt)
            .serve(number, wish, crew, meter, &mut self.membership)?;
        let receipt = Receipt {
            history: self.membership.seen.again(),
        };
        Ok(Wrote {
            place,
            reply,
            receipt,
        })
    }

    // ---- looks, without a lock

    /// Return the published sheet. Its history extends all that the session has seen or heard of, and contains the
    /// session's own writes. A look never waits.
    ///
    /// # Errors
    ///
    /// `NotEntered` if the store did not let the session enter, which is then unchanged; else `Sheet(OutOfMemory)` if
    /// the sheet already has as many owners as it can have.
    pub fn look<S: Of<J>>(&mut self, _shared: &S) -> Result<Arc<Sheet>, LookFault>
        ensures looked { MatchResult result (λ _. HasLooked J.replica self.old self.new)
            (λ fault. IsLookRefusal J.replica fault self.old self.new) }
        ensures sheet { IfOk result (λ sheet. arc_value sheet ≡ sheet_seen J.replica self.new) }
    {
        self.find(&Query::Look)
    }

    /// Look, and return the road at a step.
    ///
    /// # Errors
    ///
    /// `NotEntered` as for [`Session::look`], else `Sheet` with the error of `Sheet::state`, its named causes first.
    pub fn state<S: Of<J>>(
        &mut self,
        alloc: Global,
        _shared: &S,
        step: u32,
    ) -> Result<Road, LookFault>
        ensures looked { MatchResult result (λ _. HasLooked J.replica self.old self.new)
            (λ fault. IsQueryRefusal (λ sheet. state_fault sheet step) J.replica fault self.old self.new) }
        ensures road { IfOk result (λ road. road ≡ state_of (sheet_seen J.replica self.new) step) }
        ensures accepted { IfOk result (λ _. state_fault (sheet_seen J.replica self.new) step ≡ None) }
    {
        let sheet = self.find(&Query::State(step))?;
        match sheet.state(alloc, step) {
            Ok(road) => Ok(road),
            Err(fault) => Err(LookFault::Sheet(fault)),
        }
    }

    /// Look, and return the counts of a detector in the steps from `from` to before `to`.
    ///
    /// # Errors
    ///
    /// `NotEntered` as for [`Session::look`], else `Sheet` with the error of `Sheet::totals`, its named causes first.
    pub fn totals<S: Of<J>>(
        &mut self,
        alloc: Global,
        _shared: &S,
        detector: u32,
        from: u32,
        to: u32,
    ) -> Result<Totals, LookFault>
        ensures looked { MatchResult result (λ _. HasLooked J.replica self.old self.new)
            (λ fault. IsQueryRefusal (λ sheet. totals_fault sheet detector from to) J.replica fault
            self.old self.new) }
        ensures totals { IfOk result (λ totals. totals ≡ total_of (sheet_seen J.replica self.new) detector from to) }
        ensures accepted { IfOk result (λ _. totals_fault (sheet_seen J.replica self.new) detector from to ≡ None) }
    {
        let sheet = self.find(&Query::Totals(detector, from, to))?;
        match sheet.totals(alloc, detector, from, to) {
            Ok(totals) => Ok(totals),
            Err(fault) => Err(LookFault::Sheet(fault)),
        }
    }

    // Find the published sheet, for a query.
    fn find(&mut self, query: &Query) -> Result<Arc<Sheet>, LookFault>
        ensures looked { MatchResult result (λ _. HasLooked J.replica self.old self.new)
            (λ fault. IsQueryRefusal (query_fault query.now) J.replica fault self.old self.new) }
        ensures sheet { IfOk result (λ sheet. arc_value sheet ≡ sheet_seen J.replica self.new) }
    {
        let Membership { seen, reader, .. } = &mut self.membership;
        reading::find(self.number, seen, reader, query)
    }

    /// Tell the session of another session's write, by its receipt. From now on it has seen the history of the receipt,
    /// or what it had seen if that is longer.
    pub fn hear(&mut self, receipt: Receipt<J>)
        ensures longer { (self.new.seen ≡ self.old.seen) ⊎ (self.new.seen ≡ receipt) }
        ensures before { IsPrefix self.old.seen self.new.seen }
        ensures told { IsPrefix receipt self.new.seen }
        ensures same { (self.new.number ≡ self.old.number) × (self.new.view ≡ self.old.view) }
    {
        if self.membership.seen.is_prefix_of(&receipt.history) {
            self.membership.seen = receipt.history.again();
        }
    }

    // ---- closing

    // Show that all that it has seen is a prefix of the history, so that the history contains its writes.
    pub(crate) fn know_in(&self, head: &Head<J>, history: &mut Whole<J>)
        ensures of { IsSessionOf history.old self.now }
        ensures below { self.now.number < J.parts }
        ensures same { history.new ≡ history.old }
    {
        history.know(head, &self.membership.seen);
    }

    // Return its share of the ledger, which counts its writes.
    pub(crate) fn into_share(self) -> Share<J>
        ensures { (result.parts ≡ 1) × (result.amount ≡ length self.view.own) }
    {
        let Session {
            number: _,
            membership,
        } = self;
        let Membership {
            seen: _seen,
            reader: _reader,
            share,
        } = membership;
        share
    }
}
