//! Writes of a session with a crew that counts its calls: each write is simulated only once, as the meter also counts.

ghost use Rattle.std.specs.Prelude.{◌≡◌};

use crate::worked::prepare_free_road;
use crate::writes::{Write, write_by};
use road_ends::Meter;
use road_plan::Object;
use road_replica::ReplicaFault;
use road_scenario::{Edit, Stamp, Value};
use road_sessions::{Naming, Prepared, Session, Shared, WriteFault, open};
use std::alloc::Global;
use std::marker::Brand;
use std::sync::Wait;
use tests_plans::{BLOCK, Counting, LIMIT, edit};

/// The limit is 1 from step 99 on. Another replica made this edit.
const SLOW: Edit = edit!(LIMIT, 99, (9, 1), 1);

/// A write of a session, why it is refused, if it is, and the number of steps that all writes up to it compute.
type Counted = (Write, Option<WriteFault>, u64);

const NO_OBJECT: Option<WriteFault> = Some(WriteFault::Replica(ReplicaFault::NoObject));

const OUT_OF_RANGE: Option<WriteFault> = Some(WriteFault::Replica(ReplicaFault::ValueOutOfRange));

const HORIZON: Option<WriteFault> = Some(WriteFault::Replica(ReplicaFault::Horizon));

/// An edit computes the steps from the multiple of 64 before it on. The journal has room for six writes.
const COUNTED: &[Counted] = &[
    (Write::Advance(100), None, 100),
    (Write::Edit(BLOCK, 70, 1), None, 136),
    (Write::Withdraw(BLOCK, 70), None, 172),
    (Write::Take(&[SLOW]), None, 208),
    // Edits that the replica already holds, and a horizon that it has already reached.
    (Write::Take(&[SLOW]), None, 208),
    (Write::Advance(90), None, 208),
    (
        Write::Edit(LIMIT, 10, 1),
        Some(WriteFault::JournalFull),
        208,
    ),
];

const REFUSED: &[Counted] = &[
    (Write::Advance(100), None, 100),
    (Write::Edit(Object::Block(4_000), 0, 1), NO_OBJECT, 100),
    (Write::Withdraw(Object::Block(4_000), 0), NO_OBJECT, 100),
    (Write::Edit(LIMIT, 0, 4_000_000_000), OUT_OF_RANGE, 100),
    (Write::Advance(4_000_000_000), HORIZON, 100),
    (Write::Advance(101), None, 101),
];

// Return whether the writes of a session are simulated as the table says.
fn are_counted<J: Naming, R: Wait + Drop, W: Wait>(
    rt: &W,
    alloc: Global,
    shared: &Shared<J, R>,
    session: &mut Session<J>,
    writes: &[Counted],
) -> bool {
    let mut crew = Counting { calls: 0 };
    let mut meter = Meter::new();
    for (write, refused, steps) in writes {
        let fault = write_by(rt, alloc, shared, session, write, &mut crew, &mut meter).err();
        if fault != *refused || crew.calls != *steps || meter.ticks() != *steps {
            return false;
        }
    }
    true
}

// Return whether the writes of the first session of a store are simulated as the table says.
fn counts<J: Naming, R: Wait + Drop, W: Wait>(
    rt: &W,
    alloc: Global,
    prepared: Prepared<R>,
    writes: &[Counted],
) -> bool
    requires book { prepared.book ≡ J.book }
    requires replica { prepared.replica ≡ J.replica }
    requires ledger { (prepared.ledger.name ≡ J.name) × (prepared.ledger.parts ≡ J.parts) }
    requires limit { prepared.limit ≡ J.limit }
{
    let Ok((shared, mut sessions)) = open::<J, R>(prepared) else {
        return false;
    };
    match sessions.get_mut(0) {
        Some(session) => are_counted(rt, alloc, &shared, session, writes),
        None => false,
    }
}

// Open a store, and return whether its writes are simulated as the table says.
fn runs<R: Wait + Drop + Copy>(rt: R, alloc: Global, writes: &[Counted]) -> bool {
    match prepare_free_road(rt, alloc, 0, 1, 6) {
        Ok(prepared) => counts::<Brand, R, R>(&rt, alloc, prepared, writes),
        Err(_) => false,
    }
}

#[test]
fn each_write_is_simulated_once(rt: HostRuntime) {
    assert!(rt; runs(&rt, rt.alloc(), COUNTED));
}

#[test]
fn refused_writes_simulate_nothing(rt: HostRuntime) {
    assert!(rt; runs(&rt, rt.alloc(), REFUSED));
}
