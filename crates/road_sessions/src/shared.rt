//! How a store is prepared and opened, and what its sessions share.
ghost use Rattle.std.specs.Prelude.{◌≡◌, ◌<◌, ◌≤◌, [], IfErr, IfOk, length};
ghost use Rattle.std.specs.Arc.{arc_value};
ghost use Rattle.road_plan.specs.declared.limits.TheConstants.{MOST_REPLICAS, MOST_SESSIONS};
ghost use Rattle.road_sheet.specs.Sheets.{opening_sheet};
ghost use Rattle.road_sessions.specs.declared.entry.TheConstants.{MOST_WRITES};
ghost use Rattle.road_sessions.specs.declared.faults.OpenFault.TheVariants as openings;
ghost use Rattle.road_sessions.specs.Journals.{replica_of_plan, replay};
ghost use Rattle.road_sessions.specs.Sessions.{AreNewSessions};

use crate::faults::OpenFault;
use crate::held::Held;
use crate::history::{EmptyHistory, Prefix};
use crate::naming::Naming;
use crate::session::Session;
use crate::store::{Published, StoreWriter};
use left_right::Absorb;
use left_right::writer::Writer;
use road_plan::Plan;
use road_replica::Replica;
use road_sheet::Sheet;
use std::alloc::Global;
use std::sync::ledger::Blank;
use std::sync::{Arc, Mutex, Wait};

/// What the sessions of a store share. Their writes lock it, their looks do not. Dropping it takes the writer back,
/// which waits until no look is inside the store.
#[derive(Drop)]
pub struct Shared<J: Naming, R: Wait + Drop>
where
    Published<J>: Absorb<Published<J>>,
{
    pub(crate) held: Mutex<Held<J, R>>,
    /// The number of sessions that were opened.
    pub(crate) sessions: u32,
    pub ghost opened: { sessions ≡ J.parts },
}

/// Marks what the sessions named by `J` share. The trait has no permit to wait, so a look cannot wait.
pub trait Of<J: Naming> {}

impl<J: Naming, R: Wait + Drop> Of<J> for Shared<J, R> {}

/// A replica that was prepared for sessions, as yet without a name.
#[derive(Drop)]
pub struct Prepared<R: Wait + Drop> {
    rt: R,
    alloc: Global,
    /// Its history, which is empty.
    pub book: EmptyHistory,
    /// The replica.
    pub replica: Replica,
    /// The number of sessions that it is for.
    pub sessions: u32,
    /// The most writes of its journal.
    pub limit: u64,
    /// The ledger of accepted writes, with a part for each session.
    pub ledger: Blank,
    pub ghost parts: { ledger.parts ≡ sessions },
    pub ghost opening: { replica ≡ replica_of_plan replica.sheet.plan replica.number },
    pub ghost within_limits: { (0 < sessions) × (sessions ≤ MOST_SESSIONS) × (limit ≤ MOST_WRITES) },
}

/// Prepare a replica with this number, which must be below 64, for 1 to 8 sessions and 1 to 1,000,000 writes. Nothing
/// is simulated.
///
/// # Errors
///
/// `OutOfMemory` if an allocation failed.
pub fn prepare<R: Wait + Drop>(
    rt: R,
    alloc: Global,
    plan: Arc<Plan>,
    number: u32,
    sessions: u32,
    limit: u64,
) -> Result<Prepared<R>, OpenFault>
    requires number { number < MOST_REPLICAS }
    requires sessions { (0 < sessions) × (sessions ≤ MOST_SESSIONS) }
    requires limit { (0 < limit) × (limit ≤ MOST_WRITES) }
    ensures sessions { IfOk result (λ prepared. prepared.sessions ≡ sessions) }
    ensures limit { IfOk result (λ prepared. prepared.limit ≡ limit) }
    ensures replica { IfOk result (λ prepared. prepared.replica ≡ replica_of_plan (arc_value plan) number) }
    ensures refused { IfErr result (λ fault. fault ≡ openings.OutOfMemory) }
{
    let replica = Replica::open(alloc, plan, number)?;
    Ok(Prepared {
        rt,
        alloc,
        book: EmptyHistory::new(),
        replica,
        sessions,
        limit,
        ledger: Blank::new(u64::from(sessions)),
    })
}

/// Open a prepared store under the name `J`. Its sessions have seen and written nothing, and are numbered from 0. No
/// contract here can see the state behind the lock. [`open_held`] makes that state and describes it: the opening sheet
/// is published, and the journal is empty, with room for the writes that were prepared for. `J` must be picked with
/// what was prepared: its book, its replica, its ledger's name and parts, and its limit.
///
/// # Errors
///
/// `NoPlace` if the store gave a session no reader, else `OutOfMemory` if an allocation failed. The prepared store is
/// then dropped. That takes the writer back, which may wait, although no other thread has a reader yet.
pub fn open<J: Naming, R: Wait + Drop>(
    prepared: Prepared<R>,
) -> Result<(Shared<J, R>, Vec<Session<J>>), OpenFault>
    requires book { prepared.book ≡ J.book }
    requires replica { prepared.replica ≡ J.replica }
    requires ledger { (prepared.ledger.name ≡ J.name) × (prepared.ledger.parts ≡ J.parts) }
    requires limit { prepared.limit ≡ J.limit }
    ensures { IfOk result (λ opened. (length opened.1.items ≡ prepared.sessions) × AreNewSessions 0 opened.1.items) }
{
    let count = prepared.sessions;
    let (held, sessions) = open_held::<J, R>(prepared)?;
    let shared = Shared {
        held: Mutex::new(held),
        sessions: count,
    };
    Ok((shared, sessions))
}

/// Make the state that [`open`] puts behind the lock, and the sessions. `J` must be picked as for [`open`].
///
/// # Errors
///
/// As for [`open`].
pub fn open_held<J: Naming, R: Wait + Drop>(
    prepared: Prepared<R>,
) -> Result<(Held<J, R>, Vec<Session<J>>), OpenFault>
    requires book { prepared.book ≡ J.book }
    requires replica { prepared.replica ≡ J.replica }
    requires ledger { (prepared.ledger.name ≡ J.name) × (prepared.ledger.parts ≡ J.parts) }
    requires limit { prepared.limit ≡ J.limit }
    ensures journal { IfOk result (λ opened. opened.0.journal.items ≡ []) }
    ensures limit { IfOk result (λ opened. opened.0.limit ≡ prepared.limit) }
    ensures sheet { IfOk result (λ opened. opened.0.replica.sheet ≡ opening_sheet prepared.replica.sheet.plan) }
    ensures published { IfOk result (λ opened. opened.0.writer.desk.shown.value ≡ []) }
    ensures sessions { IfOk result (λ opened. (length opened.1.items ≡ prepared.sessions)
        × AreNewSessions 0 opened.1.items) }
{
    let Prepared {
        rt,
        alloc,
        book,
        replica,
        sessions,
        limit,
        ledger,
    } = prepared;
    let (head, history) = book.of_store::<J>();
    let (writer, published) = store_of(alloc, replica.sheet(), &history.prefix(), sessions)?;
    let (accepted, mut whole) = ledger.open::<J>();
    let spare = whole.empty();
    let mut held = Held {
        rt,
        alloc,
        writer,
        head,
        history,
        replica,
        journal: Vec::new(alloc),
        limit,
        accepted,
        spare,
    };
    let sessions = held.opening_sessions(published, sessions, whole)?;
    Ok((held, sessions))
}

// Open a store with room for this many readers, which shows a sheet and its history. Return its writer, and one more
// copy of both.
fn store_of<J: Naming>(
    alloc: Global,
    sheet: &Arc<Sheet>,
    history: &Prefix<J>,
    readers: u32,
) -> Result<(StoreWriter<J>, Published<J>), OpenFault>
    requires left { arc_value sheet.now ≡ (replay J.replica history.now).sheet }
    requires readers { (0 < readers) × (readers ≤ MOST_SESSIONS) }
    ensures shown { IfOk result (λ made. made.0.desk.shown.value ≡ history.now) }
    ensures refused { IfErr result (λ fault. fault ≡ openings.OutOfMemory) }
{
    let sheet = Arc::try_clone(sheet)?;
    let published = Published::new(sheet, history.again());
    let first = published.try_clone()?;
    let second = published.try_clone()?;
    let writer = new_store(alloc, first, second, readers)?;
    Ok((writer, published))
}

// Open a store with room for this many readers, which shows one of these two values. Both are the same.
fn new_store<J: Naming>(
    alloc: Global,
    first: Published<J>,
    second: Published<J>,
    readers: u32,
) -> Result<StoreWriter<J>, OpenFault>
    requires same { first ≡ second }
    requires readers { (0 < readers) × (readers ≤ MOST_SESSIONS) }
    ensures shown { IfOk result (λ writer. writer.desk.shown.value ≡ first) }
    ensures refused { IfErr result (λ fault. fault ≡ openings.OutOfMemory) }
{
    Ok(Writer::new(alloc, first, second, readers as usize)?)
}
