//! The state behind the lock.
ghost use Rattle.std.specs.Prelude.{◌≡◌, ◌+◌, ◌<◌, ◌≤◌, ◌++◌, ◌∷◌, [], IfErr, IfOk, MatchResult, None, OnErr, OnOk, drop};
ghost use Rattle.std.specs.Prelude.{length};
ghost use Rattle.std.specs.Arc.{arc_value};
ghost use Rattle.left_right.specs.Sides.{view};
ghost use Rattle.road_rewind.specs.Growth.{TicksAtMost};
ghost use Rattle.road_sheet.specs.Commands.{IsAllowed};
ghost use Rattle.road_replica.specs.Refusals as refusals;
ghost use Rattle.road_replica.specs.Replicas.{replica_after};
ghost use Rattle.road_replica.specs.Writes.{IsAccepted as IsDone, most_steps_of_command};
ghost use Rattle.road_replica.specs.declared.faults.ReplicaFault.TheVariants as replica_faults;
ghost use Rattle.road_sessions.specs.declared.entry.TheConstants.{MOST_WRITES};
ghost use Rattle.road_sessions.specs.Journals.{entry_command, entry, replay, replica_of_plan};
ghost use Rattle.road_sessions.specs.Merges.{merged_sheet};
ghost use Rattle.road_sessions.specs.Private.Errands.{IsNext, reply_to_command};
ghost use Rattle.road_sessions.specs.Sessions.{AreNewSessions, IsAcceptedWrite, IsRefusedWrite, new_view, session_of};
ghost use Rattle.road_sessions.specs.Writes.{CountsGone, IsAccepted, IsRefused, reply_to, wish_command};
ghost use Rattle.road_sessions.specs.declared.faults.OpenFault.TheVariants as openings;

use crate::entry::{Entry, SheetCommand};
use crate::faults::{OpenFault, WriteFault};
use crate::history::{Head, Whole};
use crate::naming::Naming;
use crate::perform::{Errand, errand_of, perform, reply_of};
use crate::reading::enter_after_write_here;
use crate::session::{Membership, Session};
use crate::store::{Published, StoreReader, StoreWriter, publish_here};
use crate::wish::Wish;
use left_right::Absorb;
use road_ends::Meter;
use road_plan::OutOfMemory;
use road_replica::{Replica, ReplicaFault, Reply};
use road_sheet::Sheet;
use road_workers::Crew;
use std::alloc::Global;
use std::sync::ledger::{Book, Share};
use std::sync::{Arc, Wait};

/// The locked value: the replica after the journal, the journal, and the store's writer. Whenever the lock is
/// free, replaying the journal gives the replica, its sheet is the published one, and the published history is the
/// journal.
pub struct Held<J: Naming, R: Wait + Drop>
where
    Published<J>: Absorb<Published<J>>,
{
    pub(crate) rt: R,
    pub(crate) alloc: Global,
    /// The store's writer.
    pub writer: StoreWriter<J>,
    pub(crate) head: Head<J>,
    /// The published history, which is the whole history.
    pub history: Whole<J>,
    /// The replica after that history.
    pub replica: Replica,
    /// Who wrote what, in order.
    pub journal: Vec<Entry>,
    /// The number of writes that the journal has room for.
    pub limit: u64,
    /// The ledger's book, which counts the accepted writes.
    pub accepted: Book<J>,
    /// A share of the ledger that belongs to no session.
    pub spare: Share<J>,
    pub ghost replayed: { replica ≡ replay J.replica journal.items },
    pub ghost journalled: { history ≡ journal.items },
    pub ghost published: { writer.desk.shown.value ≡ journal.items },
    pub ghost counted: { accepted.total ≡ length journal.items },
    pub ghost few: { limit ≤ MOST_WRITES },
    pub ghost room: { limit ≡ J.limit },
    pub ghost spared: { (spare.parts ≡ 0) × (spare.amount ≡ 0) },
    pub ghost opening: { J.replica ≡ replica_of_plan J.replica.sheet.plan J.replica.number },
}

impl<J: Naming, R: Wait + Drop> Drop for Held<J, R> {
    fn drop(self) {
        let Held {
            rt,
            alloc: _,
            writer,
            head: _head,
            history: _history,
            replica: _replica,
            journal: _journal,
            limit: _,
            accepted: _accepted,
            spare: _spare,
        } = self;
        drop(writer.take(&rt));
    }
}

// Append an entry to the journal and to the history. Return what is to be published: the sheet of the replica after the
// entry. If that is refused, both are unchanged.
fn append_entry<J: Naming>(
    replica: &Replica,
    head: &Head<J>,
    history: &mut Whole<J>,
    journal: &mut Vec<Entry>,
    entry: Entry,
) -> Result<Published<J>, ReplicaFault>
    requires same { history.old ≡ journal.old.items }
    requires room { length journal.old.items < MOST_WRITES }
    requires allowed { IsAllowed J.replica.sheet.plan (entry_command entry.command) }
    requires after { replica.now ≡ replica_after (entry_command entry.command) (replay J.replica journal.old.items) }
    ensures history { IfOk result (λ next. next ≡ journal.old.items ++ entry ∷ []) }
    ensures journal { OnOk result ((journal.new.items ≡ journal.old.items ++ entry ∷ [])
        × (history.new ≡ journal.new.items)) }
    ensures unchanged { OnErr result ((journal.new.items ≡ journal.old.items) × (history.new ≡ history.old)) }
    ensures refused { IfErr result (λ fault. fault ≡ replica_faults.OutOfMemory) }
{
    let sheet = Arc::try_clone(replica.sheet())?;
    let place = journal.len();
    let Ok(()) = journal.push(entry) else {
        return Err(ReplicaFault::OutOfMemory);
    };
    history.append(head, &journal[place]);
    Ok(Published::new(sheet, history.prefix()))
}

impl<J: Naming, R: Wait + Drop> Held<J, R> {
    // Reserve the memory of the writer's queue, so that no write has to wait for it. The given value is already
    // published. It takes up the room in the queue.
    pub(crate) fn reserve_queue(&mut self, published: Published<J>) -> Result<(), OutOfMemory>
        ensures queued { OnOk result (drop self.new.writer.behind self.new.writer.log.items
            ≡ drop self.old.writer.behind self.old.writer.log.items ++ published ∷ []) }
        ensures journal { self.new.journal ≡ self.old.journal }
        ensures limit { self.new.limit ≡ self.old.limit }
    {
        match self.writer.append(published) {
            Ok(()) => Ok(()),
            Err(_refused) => Err(OutOfMemory),
        }
    }

    /// Make the write of a session, given the session's share of the ledger. If the write is accepted, its command is
    /// the last entry of the journal, readers see its sheet, and the share counts one more write. Return its place in
    /// the journal and the reply. The meter counts the steps of the write.
    ///
    /// # Errors
    ///
    /// `JournalFull` if the journal has no room, else the replica's error: the first named cause that applies, else
    /// `WorkersGone` if the crew returned it, or `OutOfMemory` if an allocation failed. Nothing changes then, and with
    /// a named cause the meter counts nothing.
    pub fn write<C: Crew>(
        &mut self,
        session: u32,
        wish: &Wish<'_>,
        crew: &mut C,
        meter: &mut Meter,
        share: &mut Share<J>,
    ) -> Result<(u64, Reply), WriteFault>
        requires { 0 < share.old.parts }
        ensures journal { OnOk result (self.new.journal.items ≡ self.old.journal.items
            ++ entry session (wish_command wish.now (replay J.replica self.old.journal.items)) ∷ []) }
        ensures reply { IfOk result (λ wrote. (wrote.0 ≡ length self.old.journal.items)
            × (wrote.1 ≡ reply_to wish.now (replay J.replica self.old.journal.items))) }
        ensures write { MatchResult result
            (λ _. IsAccepted self.old.limit wish.now J.replica self.old.journal.items meter.old meter.new)
            (λ fault. IsRefused self.old.limit wish.now J.replica self.old.journal.items fault meter.old meter.new) }
        ensures unchanged { OnErr result ((self.new.journal.items ≡ self.old.journal.items)
            × (self.new.replica ≡ self.old.replica)
            × (self.new.writer.desk.shown.value ≡ self.old.writer.desk.shown.value)) }
        ensures limit { self.new.limit ≡ self.old.limit }
        ensures share { (share.new.parts ≡ share.old.parts) × MatchResult result
            (λ _. share.new.amount ≡ share.old.amount + 1) (λ _. share.new.amount ≡ share.old.amount) }
        ensures gone { CountsGone result (C.times_gone crew.old) (C.times_gone crew.new) }
    {
        if self.journal.len() as u64 >= self.limit {
            return Err(WriteFault::JournalFull);
        }
        let Errand { command, stamp } = errand_of(self.alloc, &self.replica, wish)?;
        let (replica, answer) = self.next(&command, crew, meter)?;
        let place = self.journal.len() as u64;
        self.put_in_place(replica, Entry { session, command }, share)?;
        Ok((place, reply_of(stamp, answer)))
    }

    // Perform a command on a copy of the replica. Return the copy and the reply.
    fn next<C: Crew>(
        &self,
        command: &SheetCommand,
        crew: &mut C,
        meter: &mut Meter,
    ) -> Result<(Replica, Reply), ReplicaFault>
        requires { IsAllowed self.now.replica.sheet.plan (entry_command command.now) }
        ensures reply { IfOk result (λ next. next.1 ≡ reply_to_command command.now self.now.replica) }
        ensures done { IfOk result (λ next.
            IsDone (entry_command command.now) None self.now.replica next.0 meter.old meter.new) }
        ensures refused { IfErr result (refusals.IsWriteRefusal None) }
        ensures few_steps { TicksAtMost (most_steps_of_command (entry_command command.now) self.now.replica.sheet)
            meter.old meter.new }
        ensures gone { refusals.CountsGone result (C.times_gone crew.old) (C.times_gone crew.new) }
    {
        let mut replica = self.replica.copied()?;
        let answer = perform(self.alloc, &mut replica, command, crew, meter)?;
        Ok((replica, answer))
    }

    // Put the next replica in place, append its entry to the journal, and publish its sheet. Everything that can fail
    // is done before anything changes.
    fn put_in_place(
        &mut self,
        replica: Replica,
        entry: Entry,
        share: &mut Share<J>,
    ) -> Result<(), ReplicaFault>
        requires part { 0 < share.old.parts }
        requires room { length self.old.journal.items < self.old.limit }
        requires next { IsNext self.old.replica entry replica }
        ensures journal { OnOk result (self.new.journal.items ≡ self.old.journal.items ++ entry ∷ []) }
        ensures unchanged { OnErr result ((self.new.journal.items ≡ self.old.journal.items)
            × (self.new.replica ≡ self.old.replica)
            × (self.new.writer.desk.shown.value ≡ self.old.writer.desk.shown.value)) }
        ensures limit { self.new.limit ≡ self.old.limit }
        ensures refused { IfErr result (λ fault. fault ≡ replica_faults.OutOfMemory) }
        ensures share { (share.new.parts ≡ share.old.parts) × MatchResult result
            (λ _. share.new.amount ≡ share.old.amount + 1) (λ _. share.new.amount ≡ share.old.amount) }
    {
        let Held {
            head,
            history,
            journal,
            ..
        } = self;
        let next = append_entry(&replica, head, history, journal, entry)?;
        let Held { rt, writer, .. } = self;
        publish_here(rt, writer, next);
        self.replica = replica;
        self.accepted.add(share, 1);
        Ok(())
    }

    // Make the write of the session with this number and membership. If it is accepted, the session has seen the
    // history that ends with it, and has found that history in the store.
    pub(crate) fn serve<C: Crew>(
        &mut self,
        session: u32,
        wish: &Wish<'_>,
        crew: &mut C,
        meter: &mut Meter,
        membership: &mut Membership<J>,
    ) -> Result<(u64, Reply), WriteFault>
        requires { 0 < membership.old.share.parts }
        ensures write { MatchResult result
            (λ wrote. IsAcceptedWrite J.limit J.replica wish.now
            (session_of session membership.old.seen (view membership.old.reader.place)) wrote.0 wrote.1
            (session_of session membership.new.seen (view membership.new.reader.place)) meter.old meter.new)
            (λ fault. IsRefusedWrite J.limit J.replica wish.now
            (session_of session membership.old.seen (view membership.old.reader.place)) fault
            (session_of session membership.new.seen (view membership.new.reader.place)) meter.old meter.new) }
        ensures share { (membership.new.share.parts ≡ membership.old.share.parts) × MatchResult result
            (λ _. membership.new.share.amount ≡ membership.old.share.amount + 1)
            (λ _. membership.new.share.amount ≡ membership.old.share.amount) }
        ensures gone { CountsGone result (C.times_gone crew.old) (C.times_gone crew.new) }
    {
        self.history.know(&self.head, &membership.seen);
        let (place, reply) = self.write(session, wish, crew, meter, &mut membership.share)?;
        membership.seen = self.history.prefix();
        enter_after_write_here(&self.rt, &mut membership.reader, &membership.seen);
        Ok((place, reply))
    }

    // Admit one more reader to the store. It has never entered yet.
    fn reader(&self) -> Result<StoreReader<J>, OpenFault>
        ensures new { IfOk result (λ reader. view reader.place ≡ new_view) }
        ensures refused { IfErr result (λ fault. fault ≡ openings.NoPlace) }
    {
        match self.writer.factory().reader() {
            Ok(reader) => Ok(reader),
            Err(_refused) => Err(OpenFault::NoPlace),
        }
    }

    // Make this many sessions of a store that was just opened, numbered from 0.
    pub(crate) fn new_sessions(
        &self,
        count: u32,
        mut whole: Share<J>,
    ) -> Result<Vec<Session<J>>, OpenFault>
        requires empty { self.now.journal.items ≡ [] }
        requires whole { (whole.parts ≡ count) × (whole.amount ≡ 0) }
        requires all { count ≡ J.parts }
        ensures { IfOk result (λ sessions. (length sessions.items ≡ count) × AreNewSessions 0 sessions.items) }
    {
        let mut sessions = Vec::new(self.alloc);
        for number in 0..count {
            let reader = self.reader()?;
            let seen = self.history.prefix();
            let share = whole.split_off(1, 0);
            let membership = Membership {
                seen,
                reader,
                share,
            };
            let Ok(()) = sessions.push(Session::new(number, membership)) else {
                return Err(OpenFault::OutOfMemory);
            };
        }
        Ok(sessions)
    }

    // Make this many sessions of a store that was just opened, once the writer's queue has its memory.
    pub(crate) fn opening_sessions(
        &mut self,
        published: Published<J>,
        count: u32,
        whole: Share<J>,
    ) -> Result<Vec<Session<J>>, OpenFault>
        requires empty { self.old.journal.items ≡ [] }
        requires whole { (whole.parts ≡ count) × (whole.amount ≡ 0) }
        requires all { count ≡ J.parts }
        ensures sessions { IfOk result (λ sessions. (length sessions.items ≡ count) × AreNewSessions 0 sessions.items) }
        ensures queued { OnOk result (drop self.new.writer.behind self.new.writer.log.items
            ≡ drop self.old.writer.behind self.old.writer.log.items ++ published ∷ []) }
        ensures journal { self.new.journal ≡ self.old.journal }
        ensures limit { self.new.limit ≡ self.old.limit }
    {
        self.reserve_queue(published)?;
        self.new_sessions(count, whole)
    }

    // Return the sheet and the journal, and end the store.
    pub(crate) fn into_sheet_and_journal(self) -> (Arc<Sheet>, Vec<Entry>)
        ensures journal { result.1 ≡ self.journal }
        ensures sheet { arc_value result.0 ≡ (replay J.replica result.1.items).sheet }
        ensures merged { arc_value result.0 ≡ merged_sheet J.replica result.1.items }
    {
        let Held {
            rt,
            alloc: _,
            writer,
            head: _head,
            history: _history,
            replica,
            journal,
            limit: _,
            accepted: _accepted,
            spare: _spare,
        } = self;
        drop(writer.take(&rt));
        (replica.into_sheet(), journal)
    }
}
