//! Writes with their replies, and what the replica then holds and shows.

use crate::replicas::{Write, apply_write, holds, open_on, shows};
use road_ends::Meter;
use road_plan::Object;
use road_replica::{Replica, ReplicaFault, Reply};
use road_scenario::{Edit, Stamp, Value};
use road_workers::Alone;
use std::alloc::Global;
use std::test::Fail;
use tests_plans::{
    BLOCK, BLOCKED_ROWS, FREE, FREE_ROWS, LIMIT, Parts, QUICK_TO_START_ROWS, Row,
    SLOW_TO_START_ROWS, SLOWED_ROWS, START, edit, pairs, parts, stamp,
};

/// A write to a replica, and its reply.
type Answered = (Write, Result<Reply, ReplicaFault>);

/// All writes to a new replica, the edits that it then holds, and rows that it shows.
#[derive(Clone, Copy)]
struct Example {
    parts: Parts,
    number: u8,
    writes: &'static [Answered],
    held: &'static [Edit],
    rows: &'static [Row],
}

/// The maximum count of a stamp.
const MOST: u64 = 281_474_976_710_656;

const FREE_ROAD: Example = Example {
    parts: FREE,
    number: 0,
    writes: pairs![
        Write::Advance(6) => Ok(Reply::Horizon(6)),
        Write::Advance(3) => Ok(Reply::Horizon(6)),
    ],
    held: &[],
    rows: FREE_ROWS,
};

const LATE_EDIT: Example = Example {
    writes: pairs![
        Write::Advance(6) => Ok(Reply::Horizon(6)),
        Write::Edit(BLOCK, 4, 1) => Ok(Reply::Stamped(stamp!(1, 0))),
    ],
    held: &[edit!(BLOCK, 4, (1, 0), 1)],
    rows: BLOCKED_ROWS,
    ..FREE_ROAD
};

/// A withdrawn edit does not come back with an older message.
const WITHDRAWAL: Example = Example {
    writes: pairs![
        Write::Advance(6) => Ok(Reply::Horizon(6)),
        Write::Edit(BLOCK, 4, 1) => Ok(Reply::Stamped(stamp!(1, 0))),
        Write::Withdraw(BLOCK, 4) => Ok(Reply::Stamped(stamp!(2, 0))),
        Write::Take(&[edit!(BLOCK, 4, (1, 0), 1)]) => Ok(Reply::Touched(None)),
    ],
    held: &[edit!(BLOCK, 4, (2, 0), withdrawn)],
    ..FREE_ROAD
};

/// Standing cars never start, because of a late edit that takes effect from step 3 on.
const SLOW_TO_START: Example = Example {
    writes: pairs![
        Write::Edit(START, 0, 65_536) => Ok(Reply::Stamped(stamp!(1, 0))),
        Write::Advance(6) => Ok(Reply::Horizon(6)),
    ],
    held: &[edit!(START, 0, (1, 0), 65_536)],
    rows: SLOWED_ROWS,
    ..FREE_ROAD
};

const STARTS_LATER: Example = Example {
    writes: pairs![
        Write::Edit(START, 0, 65_536) => Ok(Reply::Stamped(stamp!(1, 0))),
        Write::Advance(6) => Ok(Reply::Horizon(6)),
        Write::Edit(START, 3, 0) => Ok(Reply::Stamped(stamp!(2, 0))),
    ],
    held: &[edit!(START, 0, (1, 0), 65_536), edit!(START, 3, (2, 0), 0)],
    rows: SLOW_TO_START_ROWS,
    ..FREE_ROAD
};

/// Moving cars are always slowed, and standing cars never; then all are slowed again.
const QUICK_TO_START: Example = Example {
    parts: ALWAYS_SLOWED,
    writes: pairs![
        Write::Edit(START, 0, 0) => Ok(Reply::Stamped(stamp!(1, 0))),
        Write::Advance(5) => Ok(Reply::Horizon(5)),
    ],
    held: &[edit!(START, 0, (1, 0), 0)],
    rows: QUICK_TO_START_ROWS,
    ..FREE_ROAD
};

const ALWAYS_SLOWED: Parts = parts!(zones: &[(2, 65_536)]);

const QUICK_START_WITHDRAWN: Example = Example {
    writes: pairs![
        Write::Edit(START, 0, 0) => Ok(Reply::Stamped(stamp!(1, 0))),
        Write::Advance(5) => Ok(Reply::Horizon(5)),
        Write::Withdraw(START, 0) => Ok(Reply::Stamped(stamp!(2, 0))),
    ],
    held: &[edit!(START, 0, (2, 0), withdrawn)],
    rows: &[
        (1, "0..........."),
        (2, "0..........."),
        (3, "0..........."),
        (4, "0..........."),
        (5, "0..........."),
    ],
    ..QUICK_TO_START
};

/// A slowing chance of all cars also applies to standing cars, from its step on and however late it comes, unless
/// standing cars have their own chance.
const SLOWED_LATE: Example = Example {
    writes: pairs![
        Write::Advance(6) => Ok(Reply::Horizon(6)),
        Write::Edit(Object::Slow(0), 0, 65_536) => Ok(Reply::Stamped(stamp!(1, 0))),
        Write::Edit(Object::Slow(0), 3, 0) => Ok(Reply::Stamped(stamp!(2, 0))),
    ],
    held: &[
        edit!(Object::Slow(0), 0, (1, 0), 65_536),
        edit!(Object::Slow(0), 3, (2, 0), 0),
    ],
    rows: SLOW_TO_START_ROWS,
    ..FREE_ROAD
};

const SLOWED_BELOW_A_START: Example = Example {
    writes: pairs![
        Write::Advance(6) => Ok(Reply::Horizon(6)),
        Write::Import(&[edit!(START, 0, (1, 64), 0)]) => Ok(Reply::Touched(Some(0))),
        Write::Import(&[edit!(Object::Slow(0), 0, (1, 64), 65_536)]) => Ok(Reply::Touched(Some(0))),
        Write::Edit(Object::Slow(0), 3, 0) => Ok(Reply::Stamped(stamp!(2, 0))),
    ],
    held: &[
        edit!(Object::Slow(0), 0, (1, 64), 65_536),
        edit!(Object::Slow(0), 3, (2, 0), 0),
        edit!(START, 0, (1, 64), 0),
    ],
    rows: &[
        (1, ".1.........."),
        (2, "0.1........."),
        (3, ".1.1........"),
        (4, "0.1..2......"),
        (5, ".1..2..2...."),
        (6, "0..2..2..2.."),
    ],
    ..FREE_ROAD
};

/// The last step of the longest run is edited, and then a step far away from it.
const GREATEST_HORIZON: Example = Example {
    writes: pairs![
        Write::Edit(Object::Block(0), 0, 1) => Ok(Reply::Stamped(stamp!(1, 0))),
        Write::Advance(1_048_576) => Ok(Reply::Horizon(1_048_576)),
        Write::Advance(1_048_577) => Err(ReplicaFault::Horizon),
        Write::Edit(Object::Block(0), 1_048_575, 0) => Ok(Reply::Stamped(stamp!(2, 0))),
        Write::Edit(LIMIT, 1_048_576, 1) => Err(ReplicaFault::Step),
        Write::Edit(LIMIT, 65_536, 1) => Ok(Reply::Stamped(stamp!(3, 0))),
    ],
    held: &[
        edit!(LIMIT, 65_536, (3, 0), 1),
        edit!(Object::Block(0), 0, (1, 0), 1),
        edit!(Object::Block(0), 1_048_575, (2, 0), 0),
    ],
    rows: &[(1_048_575, "............"), (1_048_576, ".1..........")],
    ..FREE_ROAD
};

/// No count is left above the maximum count.
const COUNTS_SPENT: Example = Example {
    writes: pairs![
        Write::Import(&[edit!(LIMIT, 0, (MOST, 64), 1)]) => Ok(Reply::Touched(Some(0))),
        Write::Edit(LIMIT, 1, 1) => Err(ReplicaFault::CountsSpent),
        Write::Withdraw(LIMIT, 0) => Err(ReplicaFault::CountsSpent),
        Write::Edit(LIMIT, 1_048_576, 1) => Err(ReplicaFault::Step),
    ],
    held: &[edit!(LIMIT, 0, (MOST, 64), 1)],
    rows: &[],
    ..FREE_ROAD
};

/// Each write is refused for the first cause that applies.
const REFUSALS: Example = Example {
    writes: pairs![
        Write::Edit(Object::Limit(1), 1_048_576, 10) => Err(ReplicaFault::NoObject),
        Write::Edit(LIMIT, 1_048_576, 10) => Err(ReplicaFault::Step),
        Write::Edit(LIMIT, 1_048_575, 10) => Err(ReplicaFault::ValueOutOfRange),
        Write::Withdraw(Object::Limit(1), 1_048_576) => Err(ReplicaFault::NoObject),
        Write::Withdraw(LIMIT, 1_048_576) => Err(ReplicaFault::Step),
        Write::Edit(Object::Start(1), 1_048_576, 65_537) => Err(ReplicaFault::NoObject),
        Write::Edit(START, 1_048_576, 65_537) => Err(ReplicaFault::Step),
        Write::Edit(START, 1_048_575, 65_537) => Err(ReplicaFault::ValueOutOfRange),
        Write::Withdraw(Object::Start(1), 0) => Err(ReplicaFault::NoObject),
        Write::Take(&[edit!(LIMIT, 0, (0, 3), 10)]) => Err(ReplicaFault::ValueOutOfRange),
        Write::Take(&[edit!(LIMIT, 0, (0, 3), 1)]) => Err(ReplicaFault::Count),
    ],
    held: &[],
    rows: &[],
    ..FREE_ROAD
};

/// The first faulty edit decides, and no edit of a refused import is taken.
const REFUSED_IMPORTS: Example = Example {
    writes: pairs![
        Write::Import(&[edit!(LIMIT, 3, (9, 70), 1), edit!(LIMIT, 0, (1, 63), 1), edit!(Object::Limit(1), 0, (0, 63), 99)]) =>
            Err(ReplicaFault::Insider),
        Write::Import(&[edit!(LIMIT, 0, (0, 63), 1)]) => Err(ReplicaFault::Count),
        Write::Import(&[edit!(LIMIT, 0, (MOST + 1, 64), 1)]) => Err(ReplicaFault::Count),
        Write::Import(&[edit!(LIMIT, 0, (0, 64), 10)]) => Err(ReplicaFault::ValueOutOfRange),
    ],
    ..REFUSALS
};

/// If two edits have equal stamps, the greater number wins, whichever comes first.
const RISING_NUMBERS: Example = Example {
    writes: pairs![
        Write::Import(&[edit!(LIMIT, 0, (7, 64), 2)]) => Ok(Reply::Touched(Some(0))),
        Write::Import(&[edit!(LIMIT, 0, (7, 64), 3)]) => Ok(Reply::Touched(Some(0))),
    ],
    held: &[edit!(LIMIT, 0, (7, 64), 3)],
    rows: &[],
    ..FREE_ROAD
};

const FALLING_NUMBERS: Example = Example {
    writes: pairs![
        Write::Import(&[edit!(LIMIT, 0, (7, 64), 3)]) => Ok(Reply::Touched(Some(0))),
        Write::Import(&[edit!(LIMIT, 0, (7, 64), 2)]) => Ok(Reply::Touched(None)),
    ],
    ..RISING_NUMBERS
};

/// The counts of a replica continue from those of the edits that it took.
const NEXT_COUNT: Example = Example {
    parts: FREE,
    number: 1,
    writes: pairs![
        Write::Take(&[edit!(LIMIT, 3, (1, 0), 1)]) => Ok(Reply::Touched(Some(3))),
        Write::Edit(LIMIT, 3, 2) => Ok(Reply::Stamped(stamp!(2, 1))),
    ],
    held: &[edit!(LIMIT, 3, (2, 1), 2)],
    rows: &[],
};

const EXAMPLES: &[Example] = &[
    FREE_ROAD,
    LATE_EDIT,
    WITHDRAWAL,
    SLOW_TO_START,
    STARTS_LATER,
    QUICK_TO_START,
    QUICK_START_WITHDRAWN,
    SLOWED_LATE,
    SLOWED_BELOW_A_START,
    COUNTS_SPENT,
    REFUSALS,
    REFUSED_IMPORTS,
    RISING_NUMBERS,
    FALLING_NUMBERS,
    NEXT_COUNT,
];

// Return whether a replica answers the writes of an example as expected.
fn answers(alloc: Global, replica: &mut Replica, example: &Example) -> bool {
    for (write, answer) in example.writes {
        let is = apply_write(alloc, replica, *write, &mut Alone, &mut Meter::new());
        if is != *answer {
            return false;
        }
    }
    true
}

// Return whether a replica shows the rows of an example.
fn shows_rows(alloc: Global, replica: &Replica, example: &Example) -> Result<bool, ReplicaFault> {
    for (step, row) in example.rows {
        if !shows(alloc, replica, *step, row)? {
            return Ok(false);
        }
    }
    Ok(true)
}

// Return whether a replica answers, holds and shows what an example says.
fn follow_example(alloc: Global, replica: &mut Replica, example: &Example) -> Result<bool, Fail> {
    Ok(
        answers(alloc, replica, example)
            && holds(alloc, replica, example.held)?
            && shows_rows(alloc, replica, example)?,
    )
}

// Return whether a new replica answers, holds and shows what an example says.
fn open_and_follow_example(alloc: Global, example: &Example) -> Result<bool, Fail> {
    let mut replica = open_on(alloc, &example.parts, example.number)?;
    follow_example(alloc, &mut replica, example)
}

#[test]
fn writes_are_answered(rt: HostRuntime) -> Result<(), Fail> {
    for (place, example) in EXAMPLES.iter().enumerate() {
        assert!(&rt;
            open_and_follow_example(rt.alloc(), example)?,
            "example {place}"
        );
    }
    Ok(())
}

#[test]
fn writes_near_the_maximum_horizon_are_answered(rt: HostRuntime) -> Result<(), Fail> {
    assert!(&rt; open_and_follow_example(rt.alloc(), &GREATEST_HORIZON)?);
    Ok(())
}
