//! The writes of one session of a crowd.

ghost use Rattle.std.specs.Prelude.{◌≡◌, ◌++◌, ◌∷◌, [], IfOk, None, OnOk};
ghost use Rattle.road_replica.specs.Refusals.{advance_fault, imported_edit_fault};
ghost use Rattle.road_replica.specs.Replicas.{single_edit};
ghost use Rattle.road_sessions.specs.Journals.{entry};
ghost use Rattle.road_sessions.specs.Merges.{entries_written};
ghost use Rattle.road_sessions.specs.declared.entry.SheetCommand.TheVariants.{Advance, Take};
ghost use Rattle.road_crowd.specs.Private.Works.{IsAccepted, share_entries};

use crate::arriving::Arrived;
use crate::faults::write_fault;
use road_ends::Meter;
use road_plan::OutOfMemory;
use road_scenario::{Edit, Scenario};
use road_sessions::{Naming, Session, Shared};
use road_workers::Alone;
use std::alloc::Global;
use std::sync::Wait;

// Make the writes of a session that has arrived at the gate and written nothing yet. It takes the edits of its share one after another, each as
// a scenario of one edit, and waits until all other sessions have taken theirs. Then it simulates up to the step.
// Without the wait, each edit after the first advance would simulate the road again.
pub(crate) fn work<J: Naming, R: Wait + Drop, W: Wait>(
    rt: &W,
    alloc: Global,
    shared: &Shared<J, R>,
    session: &mut Session<J>,
    share: &[Edit],
    to: u32,
    arrived: Arrived,
) -> Result<(), OutOfMemory>
    requires new { session.old.view.own ≡ [] }
    requires accepted { IsAccepted J.replica.sheet.plan to share.now }
    ensures number { OnOk result (session.new.number ≡ session.old.number) }
    ensures written { OnOk result (entries_written session.new
        ≡ share_entries session.old.number share.now to) }
{
    let mut meter = Meter::new();
    for edit in share {
        take(rt, alloc, shared, session, edit, &mut meter)?;
    }
    arrived.wait_for_others(rt);
    advance(rt, shared, session, to, &mut meter)
}

// Take one edit.
fn take<J: Naming, R: Wait + Drop, W: Wait>(
    rt: &W,
    alloc: Global,
    shared: &Shared<J, R>,
    session: &mut Session<J>,
    edit: &Edit,
    meter: &mut Meter,
) -> Result<(), OutOfMemory>
    requires { imported_edit_fault J.replica.sheet.plan edit.now ≡ None }
    ensures number { OnOk result (session.new.number ≡ session.old.number) }
    ensures written { OnOk result (entries_written session.new
        ≡ entries_written session.old ++ entry session.old.number (Take (single_edit edit.now)) ∷ []) }
{
    let scenario = single(alloc, edit)?;
    match session.take(rt, shared, &scenario, &mut Alone, meter) {
        Ok(_wrote) => Ok(()),
        Err(fault) => Err(write_fault(fault)),
    }
}

// Make the scenario of one edit.
fn single(alloc: Global, edit: &Edit) -> Result<Scenario, OutOfMemory>
    ensures { IfOk result (λ scenario. scenario ≡ single_edit edit.now) }
{
    Ok(Scenario::empty(alloc).with_edit(edit)?)
}

// Simulate up to a step.
fn advance<J: Naming, R: Wait + Drop, W: Wait>(
    rt: &W,
    shared: &Shared<J, R>,
    session: &mut Session<J>,
    to: u32,
    meter: &mut Meter,
) -> Result<(), OutOfMemory>
    requires { advance_fault to ≡ None }
    ensures number { OnOk result (session.new.number ≡ session.old.number) }
    ensures written { OnOk result (entries_written session.new
        ≡ entries_written session.old ++ entry session.old.number (Advance to) ∷ []) }
{
    match session.advance(rt, shared, to, &mut Alone, meter) {
        Ok(_wrote) => Ok(()),
        Err(fault) => Err(write_fault(fault)),
    }
}
