//! Writes of sessions in the form that tables use.

use road_ends::Meter;
use road_plan::Object;
use road_replica::{ReplicaFault, Reply};
use road_scenario::{Edit, Scenario};
use road_sessions::{Naming, Receipt, Session, Shared, WriteFault, Wrote};
use road_workers::{Alone, Crew};
use std::alloc::Global;
use std::sync::Wait;

/// A write of a session.
#[derive(Clone, Copy)]
pub(crate) enum Write {
    Edit(Object, u32, u32),
    Withdraw(Object, u32),
    Take(&'static [Edit]),
    Advance(u32),
}

/// The answer to a write: its place in the journal and the reply.
pub(crate) type Answer = Result<(u64, Reply), WriteFault>;

// Let a session take edits.
fn take<J: Naming, R: Wait + Drop, W: Wait, C: Crew>(
    rt: &W,
    alloc: Global,
    shared: &Shared<J, R>,
    session: &mut Session<J>,
    edits: &[Edit],
    crew: &mut C,
    meter: &mut Meter,
) -> Result<Wrote<J>, WriteFault> {
    match Scenario::of_edits(alloc, edits) {
        Ok(edits) => session.take(rt, shared, &edits, crew, meter),
        Err(fault) => Err(WriteFault::Replica(ReplicaFault::from(fault))),
    }
}

/// Let a session write, with a crew and a meter.
pub(crate) fn write_by<J: Naming, R: Wait + Drop, W: Wait, C: Crew>(
    rt: &W,
    alloc: Global,
    shared: &Shared<J, R>,
    session: &mut Session<J>,
    write: &Write,
    crew: &mut C,
    meter: &mut Meter,
) -> Result<Wrote<J>, WriteFault> {
    match write {
        Write::Edit(object, step, value) => {
            session.edit(rt, shared, *object, *step, *value, crew, meter)
        }
        Write::Withdraw(object, step) => {
            session.withdraw(rt, shared, *object, *step, crew, meter)
        }
        Write::Advance(to) => session.advance(rt, shared, *to, crew, meter),
        Write::Take(edits) => take(rt, alloc, shared, session, edits, crew, meter),
    }
}

/// Let a session write, with a single caller.
pub(crate) fn write_alone<J: Naming, R: Wait + Drop, W: Wait>(
    rt: &W,
    alloc: Global,
    shared: &Shared<J, R>,
    session: &mut Session<J>,
    write: &Write,
) -> Result<Wrote<J>, WriteFault> {
    write_by(
        rt,
        alloc,
        shared,
        session,
        write,
        &mut Alone,
        &mut Meter::new(),
    )
}

/// Return the answer to a write, and its receipt.
pub(crate) fn parts<J: Naming>(
    wrote: Result<Wrote<J>, WriteFault>,
) -> (Answer, Option<Receipt<J>>) {
    match wrote {
        Ok(wrote) => (Ok((wrote.place, wrote.reply)), Some(wrote.receipt)),
        Err(fault) => (Err(fault), None),
    }
}
