//! Running a crowd: open a store, let its sessions write, close it.

ghost use Rattle.std.specs.Prelude.{◌≡◌, ◌<◌, ◌≤◌, IfOk, None, length, string_bytes};
ghost use Rattle.std.specs.Arc.{arc_value};
ghost use Rattle.lattice_core.specs.Sets.{items};
ghost use Rattle.road_plan.specs.declared.limits.TheConstants.{MOST_SESSIONS};
ghost use Rattle.road_sheet.specs.Shown.{row_at};
ghost use Rattle.road_replica.specs.Crowds.{crowd_winners, crowd_writes, shares_fault, shares_of};
ghost use Rattle.road_replica.specs.declared.crowds.TheConstants.{MOST_CROWD_WRITES};
ghost use Rattle.road_sessions.specs.Journals.{replica_of_plan};

use crate::faults::opening_fault;
use crate::permit::Permit;
use crate::threads::{Task, run_on_threads};
use road_plan::Plan;
use road_replica::{Crowd, write_count};
use road_scenario::Edit;
use road_sessions::{Closed, Naming, Prepared, close, open, prepare};
use road_sheet::SheetFault;
use road_sheet::simulation::{State, row_of};
use road_workers::{CrewFault, Gate};
use std::alloc::Global;
use std::marker::Brand;
use std::sync::{Arc, Wait};
use std::thread::Threads;

/// Run a crowd: open a store of replica 0 with one session for each share of edits, and let each session write on a
/// thread of its own. A session arrives at the gate with its number, takes its edits one after another, each as a
/// scenario of one edit, and then advances to the step. Once all threads have ended, close the store. The result is the
/// same in whatever order the writes came: the winners of all edits, the number of writes, and the row of the step.
///
/// There must be 1 to 8 shares, with at most 1,000,000 writes in total (`road_replica::write_count`), and no named
/// cause to refuse an edit or the step (`road_replica::shares_fault`).
///
/// # Errors
///
/// `WorkersGone` if a thread could not be started, else `OutOfMemory` if an allocation failed or the store gave a
/// session no reader. All threads have ended then. (No clause says which error comes, nor that threads have ended.)
pub fn crowd<W: Threads + Wait, G: Gate + Sync>(
    rt: &W,
    alloc: Global,
    plan: &Arc<Plan>,
    shares: &[Vec<Edit>],
    to: u32,
    gate: &G,
) -> Result<Crowd, CrewFault>
    requires some { 0 < length shares.now }
    requires few { length shares.now ≤ MOST_SESSIONS }
    requires within { crowd_writes (shares_of shares.now) ≤ MOST_CROWD_WRITES }
    requires accepted { shares_fault (arc_value plan.now) (shares_of shares.now) to ≡ None }
    ensures edits { IfOk result (λ crowd. crowd.edits.items ≡ items (crowd_winners (shares_of shares.now))) }
    ensures journal { IfOk result (λ crowd. crowd.journal ≡ crowd_writes (shares_of shares.now)) }
    ensures row { IfOk result (λ crowd. string_bytes crowd.row
        ≡ row_at (arc_value plan.now) (crowd_winners (shares_of shares.now)) to) }
{
    let count = shares.len() as u32;
    let writes = write_count(shares);
    let plan_of_store = Arc::try_clone(plan)?;
    let prepared = prepare(Permit::of(rt), alloc, plan_of_store, 0, count, writes).map_err(
        opening_fault,
    )?;
    let task = Task { alloc, gate, to };
    run_prepared::<Brand, _, W, G>(rt, prepared, plan, shares, &task)
}

// Open a prepared store, let its sessions write, and return the result.
fn run_prepared<J: Naming + Send + Sync, R: Wait + Drop + Send, W: Threads + Wait, G: Gate + Sync>(
    rt: &W,
    prepared: Prepared<R>,
    plan: &Arc<Plan>,
    shares: &[Vec<Edit>],
    task: &Task<'_, G>,
) -> Result<Crowd, CrewFault>
    // The name was picked with this prepared store.
    requires named { (prepared.book ≡ J.book) × (prepared.replica ≡ J.replica)
        × (prepared.ledger.name ≡ J.name) × (prepared.ledger.parts ≡ J.parts) × (prepared.limit ≡ J.limit) }
    requires opening { prepared.replica ≡ replica_of_plan (arc_value plan.now) 0 }
    requires one_each { prepared.sessions ≡ length shares.now }
    // The journal has room for each edit and each advance.
    requires room { crowd_writes (shares_of shares.now) ≤ prepared.limit }
    requires some { 0 < length shares.now }
    requires within { crowd_writes (shares_of shares.now) ≤ MOST_CROWD_WRITES }
    requires accepted { shares_fault (arc_value plan.now) (shares_of shares.now) task.now.to ≡ None }
    ensures edits { IfOk result (λ crowd. crowd.edits.items ≡ items (crowd_winners (shares_of shares.now))) }
    ensures journal { IfOk result (λ crowd. crowd.journal ≡ crowd_writes (shares_of shares.now)) }
    ensures row { IfOk result (λ crowd. string_bytes crowd.row
        ≡ row_at (arc_value plan.now) (crowd_winners (shares_of shares.now)) task.now.to) }
{
    let (shared, sessions) = open::<J, R>(prepared).map_err(opening_fault)?;
    let sessions = run_on_threads(rt, &shared, sessions, shares, task)?;
    match close(shared, sessions) {
        Ok(closed) => result_of(task.alloc, &closed, task.to),
        // All its sessions have come back.
        Err(_fault) => unreachable!(),
    }
}

// Return what a closed store shows at its horizon.
fn result_of(alloc: Global, closed: &Closed, to: u32) -> Result<Crowd, CrewFault>
    requires simulated { (arc_value closed.now.sheet).horizon ≡ to }
    requires few { length closed.now.journal.items ≤ MOST_CROWD_WRITES }
    ensures edits { IfOk result (λ crowd. crowd.edits.items ≡ items (arc_value closed.now.sheet).edits) }
    ensures journal { IfOk result (λ crowd. crowd.journal ≡ length closed.now.journal.items) }
    ensures row { IfOk result (λ crowd. string_bytes crowd.row
        ≡ row_at (arc_value closed.now.sheet).plan (arc_value closed.now.sheet).edits to) }
{
    let sheet = &closed.sheet;
    let road = match sheet.state(alloc, to) {
        Ok(road) => road,
        Err(SheetFault::OutOfMemory) => return Err(CrewFault::OutOfMemory),
        // The sheet is simulated up to this step.
        Err(SheetFault::NoDetector | SheetFault::Range | SheetFault::NotSimulated) =>
            unreachable!(),
    };
    let state = State { step: to, road };
    let row = row_of(alloc, sheet.plan(), sheet.scenario(), &state)?;
    let edits = sheet.scenario().edits(alloc)?;
    Ok(Crowd {
        edits,
        journal: closed.journal.len() as u32,
        row,
    })
}
