//! Scripts of worked runs.

use crate::acts::{Act, Script};
use crate::closings::Closing;
use crate::journals::Line;
use crate::questions::{Cars, Count, Run};
use crate::writes::Write;
use road_replica::{ReplicaFault, Reply};
use road_scenario::{Edit, Stamp, Value};
use road_sessions::{LookFault, WriteFault};
use road_sheet::SheetFault;
use tests_plans::{BLOCK, BLOCKED_ROWS, CARS_AT_SIX, FREE_ROWS, LIMIT, edit, pairs, stamp};

/// Cell 8 is blocked from step 4 on; this is withdrawn; the limit is 1 from step 64 on.
pub(crate) const BLOCKED: Edit = edit!(BLOCK, 4, (1, 0), 1);

const OPENED: Edit = edit!(BLOCK, 4, (2, 0), withdrawn);

const SLOW: Edit = edit!(LIMIT, 64, (1, 0), 1);

const TO_SIX: Act = Act::Write(Write::Advance(6), Ok((0, Reply::Horizon(6))));

const BLOCKS: Act = Act::Write(
    Write::Edit(BLOCK, 4, 1),
    Ok((1, Reply::Stamped(stamp!(1, 0)))),
);

const FULL: Act = Act::Write(Write::Advance(7), Err(WriteFault::JournalFull));

/// One session advances and blocks a cell, and tells the other session. The journal is then full.
pub(crate) const RECEIPT: Script = Script {
    number: 0,
    sessions: 2,
    limit: 2,
    acts: pairs![
        0 => TO_SIX,
        0 => BLOCKS,
        1 => Act::Hear,
        1 => Act::Look(6, BLOCKED_ROWS),
        0 => Act::Look(6, BLOCKED_ROWS),
        1 => FULL,
        0 => FULL,
        1 => Act::Look(6, BLOCKED_ROWS),
    ],
    closing: Closing::InOrder,
    handed_back: &[],
    together: &[],
    journal: &[Line::Advanced(0, 6), Line::Took(0, &[BLOCKED])],
    rows: BLOCKED_ROWS,
};

/// The same script with each way of closing the store.
pub(crate) const CLOSINGS: [Closing; 4] = [
    Closing::InOrder,
    Closing::LastFirst,
    Closing::WithoutLast,
    Closing::WithoutFirst,
];

/// The last session is missing at first. The others look and write again, and so does the last session once it is
/// there.
pub(crate) const LAST_MISSING: Script = Script {
    sessions: 3,
    limit: 3,
    acts: pairs![0 => TO_SIX],
    closing: Closing::WithoutLast,
    handed_back: pairs![
        0 => Act::Look(6, FREE_ROWS),
        1 => Act::Look(6, FREE_ROWS),
        1 => BLOCKS,
        0 => Act::Hear,
        0 => Act::Look(6, BLOCKED_ROWS),
    ],
    together: pairs![
        2 => Act::Look(6, BLOCKED_ROWS),
        2 => Act::Write(Write::Advance(7), Ok((2, Reply::Horizon(7)))),
        1 => Act::Hear,
        1 => Act::Look(7, BLOCKED_ROWS),
        0 => FULL,
    ],
    journal: &[
        Line::Advanced(0, 6),
        Line::Took(1, &[BLOCKED]),
        Line::Advanced(2, 7),
    ],
    ..RECEIPT
};

/// The first session is missing at first, and the last one takes its place.
pub(crate) const FIRST_MISSING: Script = Script {
    closing: Closing::WithoutFirst,
    journal: &[
        Line::Advanced(0, 6),
        Line::Took(1, &[BLOCKED]),
        Line::Advanced(0, 7),
    ],
    ..LAST_MISSING
};

/// A store with only one session.
pub(crate) const ALONE: Script = Script {
    sessions: 1,
    limit: 1,
    acts: pairs![
        0 => Act::Look(0, &[(0, "............")]),
        0 => TO_SIX,
        0 => FULL,
    ],
    closing: Closing::WithoutLast,
    journal: &[Line::Advanced(0, 6)],
    rows: FREE_ROWS,
    ..RECEIPT
};

const NOT_SIMULATED: LookFault = LookFault::Sheet(SheetFault::NotSimulated);

const RANGE: LookFault = LookFault::Sheet(SheetFault::Range);

const NO_DETECTOR: LookFault = LookFault::Sheet(SheetFault::NoDetector);

const ASKED: &[Cars] = &[(6, Ok(CARS_AT_SIX)), (0, Ok(&[])), (7, Err(NOT_SIMULATED))];

/// The first car drives from cell 3 to 5 in step 2, the second one in step 4.
const COUNTS: &[Count] = &[
    ((0, 0, 3), Ok((1, 2))),
    ((0, 0, 6), Ok((2, 4))),
    ((0, 3, 6), Ok((1, 2))),
    ((0, 2, 2), Ok((0, 0))),
    ((0, 0, 7), Err(NOT_SIMULATED)),
    ((0, 3, 2), Err(RANGE)),
    ((1, 0, 6), Err(NO_DETECTOR)),
];

/// An edit that is blocked and withdrawn does not come back with an older message. A refused write leaves no entry.
pub(crate) const WITHDRAWN: Script = Script {
    sessions: 1,
    limit: 10,
    acts: pairs![
        0 => TO_SIX,
        0 => Act::Look(6, FREE_ROWS),
        0 => Act::Cars(ASKED),
        0 => Act::Counts(COUNTS),
        0 => BLOCKS,
        0 => Act::Look(6, BLOCKED_ROWS),
        0 => Act::Write(Write::Edit(LIMIT, 1_048_576, 1), Err(WriteFault::Replica(ReplicaFault::Step))),
        0 => Act::Write(Write::Withdraw(BLOCK, 4), Ok((2, Reply::Stamped(stamp!(2, 0))))),
        0 => Act::Look(6, FREE_ROWS),
        0 => Act::Write(Write::Take(&[BLOCKED]), Ok((3, Reply::Touched(None)))),
        0 => Act::Look(6, FREE_ROWS),
        0 => Act::Write(Write::Advance(1_048_577), Err(WriteFault::Replica(ReplicaFault::Horizon))),
    ],
    journal: &[
        Line::Advanced(0, 6),
        Line::Took(0, &[BLOCKED]),
        Line::Took(0, &[OPENED]),
        Line::Took(0, &[BLOCKED]),
    ],
    rows: FREE_ROWS,
    ..RECEIPT
};

/// Three sessions of replica 3 write. Each entry names its session, and the stamps have the number of the replica.
pub(crate) const THREE: Script = Script {
    number: 3,
    sessions: 3,
    limit: 3,
    acts: pairs![
        2 => Act::Write(Write::Edit(BLOCK, 4, 1), Ok((0, Reply::Stamped(stamp!(1, 3))))),
        0 => Act::Write(Write::Advance(6), Ok((1, Reply::Horizon(6)))),
        1 => Act::Write(Write::Withdraw(BLOCK, 4), Ok((2, Reply::Stamped(stamp!(2, 3))))),
        2 => FULL,
        2 => Act::Look(6, FREE_ROWS),
    ],
    closing: Closing::LastFirst,
    handed_back: &[],
    together: &[],
    journal: &[
        Line::Took(2, &[edit!(BLOCK, 4, (1, 3), 1)]),
        Line::Advanced(0, 6),
        Line::Took(1, &[edit!(BLOCK, 4, (2, 3), withdrawn)]),
    ],
    rows: FREE_ROWS,
};

const FREE_RUN: Run = Run {
    slow_from: 130,
    to: 130,
};

const SLOW_RUN: Run = Run {
    slow_from: 64,
    to: 130,
};

/// A session keeps a sheet, which stays unchanged while the other session changes its past.
pub(crate) const KEPT: Script = Script {
    limit: 10,
    acts: pairs![
        0 => Act::Write(Write::Advance(130), Ok((0, Reply::Horizon(130)))),
        1 => Act::Hear,
        1 => Act::Keep,
        1 => Act::KeptRun(FREE_RUN),
        0 => Act::Write(Write::Edit(LIMIT, 64, 1), Ok((1, Reply::Stamped(stamp!(1, 0))))),
        1 => Act::KeptRun(FREE_RUN),
        1 => Act::Hear,
        1 => Act::LookRun(SLOW_RUN),
        1 => Act::KeptRun(FREE_RUN),
    ],
    closing: Closing::LastFirst,
    journal: &[Line::Advanced(0, 130), Line::Took(0, &[SLOW])],
    rows: &[(129, ".1.1.1.1.1.."), (130, "0.1.1.1.1.1.")],
    ..RECEIPT
};

const OPENS: Act = Act::Look(0, &[(0, "............")]);

const SEES_SIX: Act = Act::Look(6, FREE_ROWS);

/// As many sessions as a store can have. Each looks before the last session writes, and again after that.
pub(crate) const EIGHT: Script = Script {
    sessions: 8,
    limit: 1,
    acts: pairs![
        0 => OPENS,
        1 => OPENS,
        2 => OPENS,
        3 => OPENS,
        4 => OPENS,
        5 => OPENS,
        6 => OPENS,
        7 => OPENS,
        7 => TO_SIX,
        0 => SEES_SIX,
        1 => SEES_SIX,
        2 => SEES_SIX,
        3 => SEES_SIX,
        4 => SEES_SIX,
        5 => SEES_SIX,
        6 => SEES_SIX,
        7 => SEES_SIX,
    ],
    closing: Closing::LastFirst,
    journal: &[Line::Advanced(7, 6)],
    rows: FREE_ROWS,
    ..RECEIPT
};
