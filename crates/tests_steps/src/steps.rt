//! Runs worked out by hand, or computed by a program of another author, compared with a single caller and with the
//! plain program.

ghost use Rattle.std.specs.Prelude.{IfOk};
ghost use Rattle.road_plan.specs.Settings.{Fits};

use crate::{assert_row, plain};
use road_cells::{Car, Road};
use road_ends::{Meter, OutOfMemory, StepInput, enter, finish, step_alone};
use road_plan::{Plan, Settings, WordKind};
use road_words::Words;
use std::alloc::Global;
use std::process::Abort;
use std::sync::Arc;
use std::test::Fail;
use tests_plans::{
    BLOCKED_ROWS, BLOCKED_UNDER_ROWS, CARS_AT_SIX, DENSE, DENSE_START, FREE, FREE_ROWS,
    HALF_SLOWED, LOWERED_ROWS, Parts, QUICK_TO_START_ROWS, RANDOM, RANDOM_ROWS, SLOW_TO_START_ROWS,
    SLOWED_ROWS, cars, pairs, parts, parts_of, plan_of, road_of, row_of,
};

/// A road and its rows at rising steps. From given steps on, the only zone has another limit, a cell is blocked, or
/// standing cars have other slowing chances, one for each zone.
#[derive(Clone, Copy)]
struct Example {
    parts: Parts,
    lowered: &'static [(u32, u32)],
    blocked: &'static [(u32, u32)],
    starts: &'static [(u32, &'static [u32])],
    rows: &'static [(u32, &'static str)],
}

/// A limit of 2, no slowing, and an inlet at the first of 12 cells that is always open.
const FREE_ROAD: Example = Example {
    parts: FREE,
    lowered: &[],
    blocked: &[],
    starts: &[],
    rows: FREE_ROWS,
};

/// Every car is slowed by chance at every step.
const ALWAYS_SLOWED: Example = Example {
    parts: parts!(zones: &[(2, 65_536)]),
    rows: SLOWED_ROWS,
    ..FREE_ROAD
};

/// Slowing chance one half, and steady words.
const SLOWED: Example = Example {
    parts: HALF_SLOWED,
    rows: &[
        (1, "0..........."),
        (2, "0..........."),
        (3, ".1.........."),
        (4, "0.1........."),
        (5, "0...2......."),
        (6, ".1...1......"),
    ],
    ..FREE_ROAD
};

/// The inlet's steady word at step 1 is 30,011 in its upper bits: not below an inflow of 30,011, but below 30,012.
const NOT_LET_IN: Example = Example {
    parts: parts!(inlets: &[(0, 30_011)], words: WordKind::Steady),
    rows: &[(2, "...2........")],
    ..FREE_ROAD
};

const LET_IN: Example = Example {
    parts: parts!(inlets: &[(0, 30_012)], words: WordKind::Steady),
    rows: &[(2, "0..2........")],
    ..FREE_ROAD
};

/// A deleted zone of 3 cells, and a limit of 1 in the second zone.
const TWO_ZONES: Example = Example {
    parts: parts!(road: (12, 3, 6), zones: &[(2, 0), (1, 0)]),
    rows: &[(5, ".1...2..1..."), (6, "0..2...2....")],
    ..FREE_ROAD
};

/// A road whose run shows random words.
const RANDOM_ROAD: Example = Example {
    parts: RANDOM,
    rows: RANDOM_ROWS,
    ..FREE_ROAD
};

/// Nine inlets that are always open, and slowing chance one half.
const DENSE_ROAD: Example = Example {
    parts: DENSE,
    rows: &[
        (1, "0...1.0...1.0..0...1.0...1......"),
        (2, "0..00..1.00..1..1.00..1.0.1....."),
    ],
    ..FREE_ROAD
};

/// The limit falls to 1 at step 3 and to 0 at step 5.
const LOWERED: Example = Example {
    lowered: &[(3, 1), (5, 0)],
    rows: LOWERED_ROWS,
    ..FREE_ROAD
};

/// Cell 8 is blocked from step 4 on.
const BLOCKED_AHEAD: Example = Example {
    blocked: &[(4, 8)],
    rows: BLOCKED_ROWS,
    ..FREE_ROAD
};

/// Cell 7, where a car is standing, is blocked from step 4 on.
const BLOCKED_UNDER_CAR: Example = Example {
    blocked: &[(4, 7)],
    rows: BLOCKED_UNDER_ROWS,
    ..FREE_ROAD
};

/// The cell of the inlet is blocked, up to the maximum horizon.
const BLOCKED_INLET: Example = Example {
    blocked: &[(0, 0)],
    rows: &[
        (0, "#..........."),
        (6, "#..........."),
        (1_048_576, "#..........."),
    ],
    ..FREE_ROAD
};

/// Up to step 3 no standing car starts. Moving cars are not slowed.
const SLOW_TO_START: Example = Example {
    starts: &[(0, &[65_536]), (3, &[0])],
    rows: SLOW_TO_START_ROWS,
    ..FREE_ROAD
};

/// Every moving car is slowed at every step, and no standing car.
const QUICK_TO_START: Example = Example {
    starts: &[(0, &[0])],
    rows: QUICK_TO_START_ROWS,
    ..ALWAYS_SLOWED
};

/// Chances that are neither 0 nor certain, with steady words: at step 1 the sixth car (35,918) stays where a moving car
/// would drive.
const DENSE_AND_SLOW: Example = Example {
    starts: &[(0, &[DENSE_START])],
    rows: &[
        (1, "0..0..0...1.0..0...1.0...1......"),
        (2, "0..0...1.00..1.0..00..1.0.1....."),
        (3, ".1.0..00.0.100.0..00.00..1..2..."),
        (4, "00..1.00.0.00.10..00.0.10.1..1.."),
    ],
    ..DENSE_ROAD
};

/// Random words, four zones with their own chances, and changed chances from step 40 on.
const RANDOM_STARTS: Example = Example {
    starts: &[
        (0, &[10_000, 62_000, 40_000, 0]),
        (40, &[0, 45_000, 0, 60_000]),
    ],
    rows: &[
        (10, ".........3....2.......3............6...."),
        (20, "...0.....3............2................."),
        (30, "...0..2....3......3....3.......5........"),
        (40, "...0.1......3...3...2..........5........"),
        (50, "...0..2...2.1..1......3.....4..........."),
        (64, "....1.1....3.0.00..........4.........5.."),
        (65, "...0.1.1....10.00...............5......."),
        (70, "......20.1.0.000.1......................"),
        (80, "...00.10000.1...2...3...........5......."),
    ],
    ..RANDOM_ROAD
};

// Find the number set at a step: the last one that is set up to this step.
fn latest(set: &[(u32, u32)], step: u32) -> Option<u32> {
    let mut last = None;
    for (from, number) in set {
        if *from <= step {
            last = Some(*number);
        }
    }
    last
}

// Find the chances of standing cars set at a step: the last ones that are set up to this step.
fn latest_starts(set: &[(u32, &'static [u32])], step: u32) -> Option<&'static [u32]> {
    let mut last = None;
    for (from, chances) in set {
        if *from <= step {
            last = Some(*chances);
        }
    }
    last
}

// Make the settings of an example at a step.
fn settings_of(
    alloc: Global,
    plan: &Plan,
    example: &Example,
    step: u32,
) -> Result<Settings, OutOfMemory> {
    let mut settings = Settings::of_plan(alloc, plan)?;
    if let Some(limit) = latest(example.lowered, step) {
        settings.limits = vec![in alloc; limit]?;
    }
    if let Some(cell) = latest(example.blocked, step) {
        settings.blocks = vec![in alloc; cell]?;
    }
    if let Some(chances) = latest_starts(example.starts, step) {
        settings.starts = chances.to_vec(alloc)?;
    }
    Ok(settings)
}

// Make the settings of an example at a step, if they fit the plan.
fn fitting(alloc: Global, plan: &Plan, example: &Example, step: u32) -> Result<Settings, Fail>
    ensures { IfOk result (λ settings. Fits plan.now settings) }
{
    let settings = settings_of(alloc, plan, example, step)?;
    if settings.fits(plan) {
        Ok(settings)
    } else {
        Err(Fail::new("the settings must fit the plan"))
    }
}

// Run an example's road from one step to another, with a single caller.
fn step_on(
    alloc: Global,
    plan: &Arc<Plan>,
    example: &Example,
    (from, until): (u32, u32),
    road: &mut Road,
    meter: &mut Meter,
) -> Result<(), Fail> {
    for step in from..until {
        let settings = fitting(alloc, plan, example, step)?;
        *road = step_alone(alloc, plan, settings, step, road, meter)?.road;
    }
    Ok(())
}

// Run an example's road from one step to another, with the plain program.
fn step_on_plainly(
    alloc: Global,
    plan: &Plan,
    example: &Example,
    (from, until): (u32, u32),
    road: &mut Road,
) -> Result<(), Fail> {
    for step in from..until {
        let settings = fitting(alloc, plan, example, step)?;
        *road = plain::road_after_step(alloc, plan, &settings, step, road)?;
    }
    Ok(())
}

// Return whether an example's road is drawn as its row of a step.
fn is_drawn(
    alloc: Global,
    plan: &Plan,
    example: &Example,
    (step, text): (u32, &str),
    road: &Road,
) -> Result<bool, OutOfMemory> {
    let settings = settings_of(alloc, plan, example, step)?;
    let row = row_of(alloc, road, settings.blocks(), plan.length())?;
    Ok(row.as_str() == text)
}

// Compare an example's rows on its plan, with a single caller, and count the steps.
fn steps_rows(
    rt: &impl Abort,
    alloc: Global,
    plan: &Arc<Plan>,
    example: &Example,
) -> Result<(), Fail> {
    let mut meter = Meter::new();
    let mut road = Road::empty(alloc);
    let mut step = 0;
    for (until, text) in example.rows {
        step_on(alloc, plan, example, (step, *until), &mut road, &mut meter)?;
        step = *until;
        let is_drawn = is_drawn(alloc, plan, example, (step, text), &road)?;
        assert_row(
            rt,
            step as usize,
            is_drawn && meter.ticks() == u64::from(step),
        );
    }
    Ok(())
}

// Compare an example's rows on its plan, with the plain program.
fn steps_rows_plainly(
    rt: &impl Abort,
    alloc: Global,
    plan: &Plan,
    example: &Example,
) -> Result<(), Fail> {
    let mut road = Road::empty(alloc);
    let mut step = 0;
    for (until, text) in example.rows {
        step_on_plainly(alloc, plan, example, (step, *until), &mut road)?;
        step = *until;
        assert_row(
            rt,
            step as usize,
            is_drawn(alloc, plan, example, (step, text), &road)?,
        );
    }
    Ok(())
}

// Return whether the plain program draws this row of a plan without edits, from step zero.
fn is_drawn_plainly(
    alloc: Global,
    plan: &Plan,
    (step, text): (u32, &str),
) -> Result<bool, OutOfMemory> {
    let row = plain::row(alloc, plan, step)?;
    Ok(row.as_str() == text)
}

// Compare the rows of an example without edits.
fn runs_plainly(
    rt: &impl Abort,
    alloc: Global,
    plan: &Plan,
    example: &Example,
) -> Result<(), Fail> {
    for (step, text) in example.rows {
        assert_row(
            rt,
            *step as usize,
            is_drawn_plainly(alloc, plan, (*step, text))?,
        );
    }
    Ok(())
}

impl Example {
    // Return whether the settings of an example are the plan's own at each step.
    fn is_unedited(&self) -> bool {
        self.lowered.is_empty() && self.blocked.is_empty() && self.starts.is_empty()
    }
}

// Compare an example's rows, with a single caller and with the plain program.
fn steps(rt: &impl Abort, alloc: Global, example: &Example) -> Result<(), Fail> {
    let plan = Arc::new(alloc, plan_of(alloc, &example.parts)?)?;
    steps_rows(rt, alloc, &plan, example)?;
    steps_rows_plainly(rt, alloc, &plan, example)?;
    if example.is_unedited() {
        runs_plainly(rt, alloc, &plan, example)?;
    }
    Ok(())
}

const EXAMPLES: &[Example] = &[
    FREE_ROAD,
    ALWAYS_SLOWED,
    SLOWED,
    NOT_LET_IN,
    LET_IN,
    TWO_ZONES,
    RANDOM_ROAD,
    DENSE_ROAD,
    LOWERED,
    BLOCKED_AHEAD,
    BLOCKED_UNDER_CAR,
    SLOW_TO_START,
    QUICK_TO_START,
    DENSE_AND_SLOW,
    RANDOM_STARTS,
];

#[test]
fn the_examples_have_their_rows_alone_and_plainly(rt: HostRuntime) -> Result<(), Fail> {
    for example in EXAMPLES {
        steps(&rt, rt.alloc(), example)?;
    }
    Ok(())
}

// Compare an example's rows, with a single caller.
fn steps_alone(rt: &impl Abort, alloc: Global, example: &Example) -> Result<(), Fail> {
    let plan = Arc::new(alloc, plan_of(alloc, &example.parts)?)?;
    steps_rows(rt, alloc, &plan, example)
}

#[test]
fn a_road_can_be_run_to_the_maximum_horizon(rt: HostRuntime) -> Result<(), Fail> {
    steps_alone(&rt, rt.alloc(), &BLOCKED_INLET)
}

// Return whether the cars of the free road have these numbers.
fn are_numbered(alloc: Global, plan: &Arc<Plan>) -> Result<bool, Fail> {
    let mut road = Road::empty(alloc);
    step_on(
        alloc,
        plan,
        &FREE_ROAD,
        (0, 6),
        &mut road,
        &mut Meter::new(),
    )?;
    Ok(road.cars() == CARS_AT_SIX)
}

#[test]
fn cars_are_numbered_by_step_and_inlet(rt: HostRuntime) -> Result<(), Fail> {
    let plan = Arc::new(rt.alloc(), plan_of(rt.alloc(), &FREE)?)?;
    assert_row(&rt, 6, are_numbered(rt.alloc(), &plan)?);
    Ok(())
}

/// A steady road of 40 cells with limit 2 and no slowing.
const STEADY: Parts = Parts {
    road: (40, 1, 40),
    zones: &[(2, 0)],
    inlets: &[(0, 0)],
    detectors: &[],
    words: WordKind::Steady,
};

// Make the input of step 1 on a road.
fn input_of_step_one(
    alloc: Global,
    plan: &Arc<Plan>,
    road: &Road,
) -> Result<Arc<StepInput>, OutOfMemory> {
    let settings = Settings::of_plan(alloc, plan)?;
    enter(alloc, plan, settings, 1, road)
}

// Compute the cars after a step with this input.
fn cars_after(alloc: Global, input: &Arc<StepInput>) -> Result<Vec<Car>, OutOfMemory> {
    let speeds = input.speeds(alloc)?;
    Ok(finish(alloc, input, &speeds)?.into_cars())
}

// Make the plan of the steady road with these inlets and zones.
fn steady_plan(
    alloc: Global,
    inlets: &[(u32, u32)],
    zones: &[(u32, u32)],
) -> Result<Arc<Plan>, Fail> {
    let mut parts = parts_of(alloc, &STEADY)?;
    parts.inlets = inlets.to_vec(alloc)?;
    parts.zones = zones.to_vec(alloc)?;
    Ok(Arc::new(alloc, Plan::new(parts)?)?)
}

// Return whether these are the cars on the road after step 1.
fn come(alloc: Global, plan: &Arc<Plan>, before: &[Car], after: &[Car]) -> Result<bool, Fail> {
    let input = input_of_step_one(alloc, plan, &road_of(alloc, before)?)?;
    Ok(cars_after(alloc, &input)?.as_slice() == after)
}

// Return whether a car enters at inlet 3 with this chance exactly if it should.
fn enters(alloc: Global, (chance, after): &(u32, &[Car])) -> Result<bool, Fail> {
    let inlets = [(20, 0), (5, 0), (10, 0), (0, *chance)];
    let plan = steady_plan(alloc, &inlets, &[(2, 0)])?;
    come(alloc, &plan, &[], after)
}

// Return whether the driver is slowed with this chance exactly if it should be.
fn is_slowed(alloc: Global, (chance, after): &(u32, &[Car])) -> Result<bool, Fail> {
    let plan = steady_plan(alloc, &[(0, 0)], &[(5, *chance)])?;
    come(alloc, &plan, DRIVER, after)
}

/// The car that enters at inlet 3 in step 1.
const ENTERED: &[Car] = cars![(19, 1, 1)];

/// A car, and the car after step 1, if it is not slowed and if it is slowed.
const DRIVER: &[Car] = cars![(16, 7, 3)];

const NOT_SLOWED: &[Car] = cars![(16, 11, 4)];

const ONCE_SLOWED: &[Car] = cars![(16, 10, 3)];

/// An inlet's chance, and the cars after step 1 of the empty road. Inlet 3, at step 1: (3 * 40,503 + 30,011) mod 65,536
/// is 20,448, not below a chance of 20,448.
const ENTRIES: &[(u32, &[Car])] =
    pairs![0 => &[], 20_448 => &[], 20_449 => ENTERED, 65_536 => ENTERED];

/// A slowing chance, and the cars after step 1 of a road with that car. Car 16 at step 1: (16 * 40,503 + 30,011) mod
/// 65,536 is 22,699; the limit 5 and a free road let it come to 4.
const SLOWINGS: &[(u32, &[Car])] =
    pairs![0 => NOT_SLOWED, 22_699 => NOT_SLOWED, 22_700 => ONCE_SLOWED, 65_536 => ONCE_SLOWED];

#[test]
fn each_inlet_and_each_car_uses_its_own_word(rt: HostRuntime) -> Result<(), Fail> {
    for (row, entry) in ENTRIES.iter().enumerate() {
        assert_row(&rt, row, enters(rt.alloc(), entry)?);
    }
    for (row, slowing) in SLOWINGS.iter().enumerate() {
        assert_row(&rt, row, is_slowed(rt.alloc(), slowing)?);
    }
    Ok(())
}

#[test]
fn an_input_has_the_words_of_its_plan(rt: HostRuntime) -> Result<(), Fail> {
    let alloc = rt.alloc();
    let plan = Arc::new(alloc, plan_of(alloc, &STEADY)?)?;
    let input = input_of_step_one(alloc, &plan, &Road::empty(alloc))?;
    // (48 * 40,503 + 5 * 30,011) mod 65,536 is 62,583.
    assert!(rt; input.words().word(48, 5) == 62_583 * 65_536);
    Ok(())
}
