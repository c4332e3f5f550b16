//! Plans, their worked rows, random roads, cars, objects, edits, events, crews and gates that all test crates share.
#![tactic(auto)]

ghost use Rattle.std.specs.Prelude.{◌≡◌};

mod crews;
mod gates;
mod roads;
mod rows;

pub use crews::{Counting, FailingCrew, Running, StepByStep};
pub use gates::{Counter, Meeting};
use road_cells::Car;
use road_plan::{Object, OutOfMemory, Plan, PlanFault, PlanParts, WordKind};
pub use roads::{Dice, queue, random_plan, random_road, random_settings, road_of};
pub use rows::row_of;
use std::alloc::Global;

/// Lists pairs of an input and the expected result.
#[macro_export]
macro_rules! pairs {
    ($($given:expr => $wanted:expr),* $(,)?) => {
        &[$(($given, $wanted)),*]
    };
}

/// Writes the parts of a plan that differs from the free road in some parts. `Parts` and `FREE` must be in scope.
#[macro_export]
macro_rules! parts {
    ($($field:ident: $value:expr),* $(,)?) => {
        Parts { $($field: $value,)* ..FREE }
    };
}

/// Lists parts, each written as in [`parts`] and with the expected result.
#[macro_export]
macro_rules! parts_pairs {
    ($({ $($field:ident: $value:expr),* } => $wanted:expr),* $(,)?) => {
        &[$(($crate::parts!($($field: $value),*), $wanted)),*]
    };
}

/// Lists cars, each by its number, cell and speed. `Car` of `road_cells` must be in scope.
#[macro_export]
macro_rules! cars {
    ($(($number:expr, $cell:expr, $speed:expr)),* $(,)?) => {
        &[$(Car { number: $number, cell: $cell, speed: $speed }),*]
    };
}

/// Writes a stamp: its count and its writer's number. `Stamp` of `road_scenario` must be in scope.
#[macro_export]
macro_rules! stamp {
    ($count:expr, $number:expr) => {
        Stamp { count: $count, number: $number }
    };
}

/// Writes an edit that sets a number from a step on, or withdraws: its object, its step, the count and the writer's
/// number of its stamp, and its effect. `Edit`, `Stamp` and `Value` of `road_scenario` must be in scope.
#[macro_export]
macro_rules! edit {
    ($object:expr, $step:expr, ($count:expr, $number:expr), withdrawn) => {
        Edit {
            object: $object,
            step: $step,
            stamp: Stamp { count: $count, number: $number },
            value: Value::Withdrawn,
        }
    };
    ($object:expr, $step:expr, ($count:expr, $number:expr), $value:expr) => {
        Edit {
            object: $object,
            step: $step,
            stamp: Stamp { count: $count, number: $number },
            value: Value::Put($value),
        }
    };
}

/// Writes an event of a world: its kind, its replica and its content. `Event` of `road_world` must be in scope.
#[macro_export]
macro_rules! event {
    (edit($at:expr, $object:expr, $step:expr, $value:expr)) => {
        Event::Edit { at: $at, object: $object, step: $step, value: $value }
    };
    (withdraw($at:expr, $object:expr, $step:expr)) => {
        Event::Withdraw { at: $at, object: $object, step: $step }
    };
    (send($at:expr)) => { Event::Send { at: $at } };
    (heads($at:expr)) => { Event::Heads { at: $at } };
    (beyond($at:expr, $message:expr)) => { Event::Beyond { at: $at, message: $message } };
    (take($at:expr, $message:expr)) => { Event::Take { at: $at, message: $message } };
    (advance($at:expr, $to:expr)) => { Event::Advance { at: $at, to: $to } };
}

/// Makes two lists from events and their answers, each event written as in [`event`]: all events, and all answers.
/// `Event` of `road_world` must be in scope.
#[macro_export]
macro_rules! answered_events {
    ($($kind:ident($($part:expr),*) => $answer:expr),* $(,)?) => {
        ([$($crate::event!($kind($($part),*))),*], [$($answer),*])
    };
}

/// Writes a head: its object, its step, and the count and the writer's number of its stamp. `Head` of `road_delta` and
/// `Stamp` of `road_scenario` must be in scope.
#[macro_export]
macro_rules! head {
    ($object:expr, $step:expr, ($count:expr, $number:expr)) => {
        Head { object: $object, step: $step, stamp: Stamp { count: $count, number: $number } }
    };
}

/// The speed limit, the inflow and a closure of the free road.
pub const LIMIT: Object = Object::Limit(0);

pub const INFLOW: Object = Object::Inflow(0);

pub const BLOCK: Object = Object::Block(8);

/// The slowing chance of standing cars of the free road.
pub const START: Object = Object::Start(0);

/// The parts of a plan. Most tests change one or two of them.
#[derive(Clone, Copy, Debug)]
pub struct Parts {
    /// The numbers of cells of the road, of its deleted zone and of a zone.
    pub road: (u32, u32, u32),
    /// For each zone its speed limit and slowing chance.
    pub zones: &'static [(u32, u32)],
    /// For each inlet its cell and inflow chance.
    pub inlets: &'static [(u32, u32)],
    /// The site of each detector, which is a cell.
    pub detectors: &'static [u32],
    /// The words.
    pub words: WordKind,
}

/// 12 cells, limit 2, no slowing, an inlet at the first cell that is always open, a detector at cell 5.
pub const FREE: Parts = Parts {
    road: (12, 1, 12),
    zones: &[(2, 0)],
    inlets: &[(0, 65_536)],
    detectors: &[5],
    words: WordKind::Seeded(7),
};

/// A step, and the row after it.
pub type Row = (u32, &'static str);

/// The rows of the free road up to step 6.
pub const FREE_ROWS: &[Row] = &[
    (0, "............"),
    (1, ".1.........."),
    (2, "0..2........"),
    (3, ".1...2......"),
    (4, "0..2...2...."),
    (5, ".1...2...2.."),
    (6, "0..2...2...."),
];

/// The cars of the free road at step 6.
pub const CARS_AT_SIX: &[Car] = cars![(80, 0, 0), (48, 3, 2), (16, 7, 2)];

/// The rows of the free road if cell 8 is blocked from step 4 on.
pub const BLOCKED_ROWS: &[Row] = &[
    (4, "0..2...2#..."),
    (5, ".1...2.0#..."),
    (6, "0..2..10#..."),
];

/// The rows of the free road if cell 7, where a car is standing, is blocked from step 4 on.
pub const BLOCKED_UNDER_ROWS: &[Row] = &[
    (4, "0..2...2...."),
    (5, ".1...2.#.2.."),
    (6, "0..2..1#...."),
];

/// The rows of the free road if the limit falls to 1 at step 3 and to 0 at step 5.
pub const LOWERED_ROWS: &[Row] = &[
    (3, ".1...2......"),
    (4, "0.1...1....."),
    (5, ".1.1...1...."),
    (6, "00.0...0...."),
    (7, "00.0...0...."),
];

/// The rows of the free road if all cars are slowed at every step.
pub const SLOWED_ROWS: &[Row] = &[
    (1, "0..........."),
    (2, "0..........."),
    (3, "0..........."),
    (4, "0..........."),
    (5, "0..........."),
    (6, "0..........."),
];

/// The rows of the free road if all standing cars are slowed up to step 3, and no car is slowed later.
pub const SLOW_TO_START_ROWS: &[Row] = &[
    (1, "0..........."),
    (2, "0..........."),
    (3, "0..........."),
    (4, ".1.........."),
    (5, "0..2........"),
    (6, ".1...2......"),
];

/// The rows of the free road if all moving cars are slowed at every step, and no standing car.
pub const QUICK_TO_START_ROWS: &[Row] = &[
    (1, ".1.........."),
    (2, "0.1........."),
    (3, ".1.1........"),
    (4, "00..1......."),
    (5, "0.1..1......"),
];

/// The free road with slowing chance one half and steady words.
pub const HALF_SLOWED: Parts = Parts {
    zones: &[(2, 32_768)],
    words: WordKind::Steady,
    ..FREE
};

/// The rows of the half slowed road after each step from the first on.
pub const HALF_SLOWED_ROWS: &[&str] = &[
    "0...........",
    "0...........",
    ".1..........",
    "0.1.........",
    "0...2.......",
    ".1...1......",
];

/// A road whose run shows random words: it has four zones, and draws words beyond the first blocks of the generator.
pub const RANDOM: Parts = Parts {
    road: (40, 2, 10),
    zones: &[(5, 20_000), (3, 30_000), (9, 10_000), (5, 20_000)],
    inlets: &[(3, 40_000)],
    detectors: &[],
    words: WordKind::Seeded(1992),
};

/// Rows of the random road.
pub const RANDOM_ROWS: &[Row] = &[
    (10, "............2.....3......4.............."),
    (20, "...0.....3............2................."),
    (40, "...0.1......3.1..2.....3...........5...."),
    (64, "....1.0...2...3.1......3.......5........"),
    (65, "...00..1.....3.1.1.........4........5..."),
    (70, "..........300....2.........4.......5...."),
];

/// Nine inlets on 32 cells that are always open, limit 2, slowing chance one half and steady words.
pub const DENSE: Parts = Parts {
    road: (32, 1, 32),
    zones: &[(2, 32_768)],
    inlets: &[
        (0, 65_536),
        (3, 65_536),
        (6, 65_536),
        (9, 65_536),
        (12, 65_536),
        (15, 65_536),
        (18, 65_536),
        (21, 65_536),
        (24, 65_536),
    ],
    detectors: &[],
    words: WordKind::Steady,
};

/// The rows of the dense road after each step from the first on.
pub const DENSE_ROWS: &[&str] = &[
    "0...1.0...1.0..0...1.0...1......",
    "0..00..1.00..1..1.00..1.0.1.....",
];

/// A slowing chance of standing cars, and the rows of the dense road with it, after each step from the first on.
pub const DENSE_START: u32 = 45_000;

pub const DENSE_START_ROWS: &[&str] = &[
    "0..0..0...1.0..0...1.0...1......",
    "0..0...1.00..1.0..00..1.0.1.....",
    ".1.0..00.0.100.0..00.00..1..2...",
    "00..1.00.0.00.10..00.0.10.1..1..",
];

/// The longest road: zones of all kinds, inlets all along it, and detectors on both sides of the places where it may be
/// divided.
pub const LONG: Parts = Parts {
    road: (8_192, 3, 1_024),
    zones: &[
        (9, 0),
        (5, 16_384),
        (9, 1_000),
        (3, 0),
        (9, 32_768),
        (7, 8_192),
        (9, 0),
        (5, 20_000),
    ],
    inlets: &[
        (0, 40_000),
        (511, 65_536),
        (1_023, 30_000),
        (1_024, 65_536),
        (2_047, 50_000),
        (2_048, 65_536),
        (2_730, 20_000),
        (2_731, 65_536),
        (4_095, 65_536),
        (4_096, 65_536),
        (5_460, 10_000),
        (5_461, 65_536),
        (6_143, 65_536),
        (6_144, 65_536),
        (7_000, 1_000),
        (8_188, 65_536),
    ],
    detectors: &[
        1, 9, 511, 512, 1_023, 1_024, 1_025, 2_047, 2_048, 2_049, 2_730, 2_731, 4_095, 4_096,
        4_097, 5_460, 5_461, 5_462, 6_143, 6_144, 6_145, 7_168, 8_180, 8_188,
    ],
    words: WordKind::Seeded(7),
};

/// Copy these parts.
///
/// # Errors
///
/// `OutOfMemory` if an allocation failed.
pub fn parts_of(alloc: Global, parts: &Parts) -> Result<PlanParts, OutOfMemory> {
    let (length, exit, width) = parts.road;
    Ok(PlanParts {
        length,
        exit,
        width,
        zones: parts.zones.to_vec(alloc)?,
        inlets: parts.inlets.to_vec(alloc)?,
        detectors: parts.detectors.to_vec(alloc)?,
        words: parts.words,
    })
}

/// Make a plan from these parts.
///
/// # Errors
///
/// `OutOfMemory` if an allocation failed, otherwise the fault of the plan.
pub fn plan_of(alloc: Global, parts: &Parts) -> Result<Plan, PlanFault> {
    match parts_of(alloc, parts) {
        Ok(parts) => Plan::new(parts),
        Err(_) => Err(PlanFault::OutOfMemory),
    }
}

/// Return whether a plan has these parts.
pub fn has_parts(plan: &Plan, parts: &Parts) -> bool {
    (plan.length(), plan.exit(), plan.width()) == parts.road
        && plan.zones() == parts.zones
        && plan.inlets() == parts.inlets
        && plan.detectors() == parts.detectors
        && plan.words() == parts.words
}

/// Make a car.
pub fn car(number: u64, cell: u32, speed: u8) -> Car
    ensures { result ≡ record { number = number; cell = cell; speed = speed } }
{
    Car {
        number,
        cell,
        speed,
    }
}
