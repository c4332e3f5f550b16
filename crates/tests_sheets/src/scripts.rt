//! Scripts of edits and advances at steps around the ends of intervals, the first ones and the last ones. Each state
//! and each total, from a cache and from the sheet, is compared with a sheet that is run from step zero with all edits
//! at once. Every second script has steady words, and each of the others has its own seeded words. The same edits and
//! advances, and each step from a cache that is kept, are compared with a simulator by scripts of the program
//! (`tests/scripts/intervals_steady.jsonl` and similar scripts).

ghost use Rattle.road_sheet.specs.QueryCaches.{IsCacheOf};

use crate::sheets::{Way, extend, opening};
use road_cells::Car;
use road_plan::{Object, WordKind};
use road_scenario::{Edit, Stamp, Value};
use road_sheet::{QueryCache, Sheet, SheetFault};
use std::alloc::Global;
use std::test::Fail;
use tests_plans::{Parts, edit};

/// The number of scripts that are run.
const SCRIPTS: u64 = 20;

/// Two zones, two inlets and two detectors, with chances that are neither 0 nor certain. Each script has its own words.
const MIXED: Parts = Parts {
    road: (24, 2, 12),
    zones: &[(3, 9_000), (2, 20_000)],
    inlets: &[(0, 40_000), (7, 30_000)],
    detectors: &[5, 16],
    words: WordKind::Seeded(11),
};

/// The same road, but no car enters by the plan, so that a run from step zero to the last steps is short.
const CLOSED: Parts = Parts {
    inlets: &[(0, 0), (7, 0)],
    ..MIXED
};

/// The number of scripts about the last steps.
const LATE_SCRIPTS: u64 = 2;

/// Steps around the ends of the first intervals.
const STEPS: &[u32] = &[
    0, 1, 5, 62, 63, 64, 65, 66, 126, 127, 128, 129, 130, 191, 192, 193,
];

/// Steps around the ends of the last intervals, up to the maximum horizon.
const LATE_STEPS: &[u32] = &[
    1_048_384, 1_048_385, 1_048_389, 1_048_446, 1_048_447, 1_048_448, 1_048_449, 1_048_450,
    1_048_510, 1_048_511, 1_048_512, 1_048_513, 1_048_514, 1_048_574, 1_048_575, 1_048_576,
];

/// The inlets are opened at the first of these steps.
const OPENED: &[Edit] = &[
    edit!(Object::Inflow(0), 1_048_384, (1, 1), 40_000),
    edit!(Object::Inflow(1), 1_048_384, (1, 1), 30_000),
];

/// Numbers that look random, and the steps of a script.
#[derive(Clone, Copy)]
struct Dice {
    seed: u64,
    steps: &'static [u32],
}

impl Dice {
    fn below(&mut self, most: u32) -> u32 {
        self.seed = self
            .seed
            .wrapping_mul(6_364_136_223_846_793_005)
            .wrapping_add(1_442_695_040_888_963_407);
        (self.seed >> 40) as u32 % most.max(1)
    }

    // Return one of the steps of the script.
    fn step(&mut self) -> u32 {
        let place = self.below(16) as usize;
        self.steps.get(place).copied().unwrap_or(0)
    }

    // Make an edit of any object of the plan. One in seven is a withdrawal.
    fn edit(&mut self, count: u64) -> Edit {
        let (object, number) = match self.below(6) {
            0 => (Object::Limit(self.below(2)), self.below(10)),
            1 => (Object::Slow(self.below(2)), self.below(65_537)),
            2 => (Object::Block(self.below(24)), self.below(2)),
            3 => (Object::Inflow(self.below(2)), self.below(65_537)),
            4 => (Object::Start(self.below(2)), self.below(65_537)),
            _ => (Object::Watch(self.below(2)), self.below(2)),
        };
        Edit {
            object,
            step: self.step().min(1_048_575),
            stamp: Stamp { count, number: 0 },
            value: match self.below(7) {
                0 => Value::Withdrawn,
                _ => Value::Put(number),
            },
        }
    }
}

// Return whether a sheet has these cars at a step.
fn has_cars(alloc: Global, sheet: &Sheet, step: u32, cars: &[Car]) -> Result<bool, SheetFault> {
    Ok(sheet.state(alloc, step)?.cars() == cars)
}

// Return whether a cache of a sheet, the sheet, and the sheet that was run from step zero show the same road at a step.
fn states_agree(
    alloc: Global,
    sheet: &Sheet,
    straight: &Sheet,
    cache: &mut QueryCache,
    step: u32,
) -> Result<bool, SheetFault>
    requires { IsCacheOf sheet.now cache.old }
    ensures { IsCacheOf sheet.now cache.new }
{
    let road = cache.state(alloc, sheet, step)?;
    Ok(has_cars(alloc, sheet, step, road.cars())? && has_cars(alloc, straight, step, road.cars())?)
}

// Return whether the cache and both sheets show the same road at each step of a script, with one cache for all steps.
fn all_states_agree(
    alloc: Global,
    sheet: &Sheet,
    straight: &Sheet,
    cache: &mut QueryCache,
    steps: &[u32],
) -> Result<bool, SheetFault>
    requires { IsCacheOf sheet.now cache.old }
{
    for place in steps {
        let step = (*place).min(sheet.horizon());
        if !states_agree(alloc, sheet, straight, cache, step)? {
            return Ok(false);
        }
    }
    Ok(true)
}

// Return whether a cache that is queried twice and both sheets return the same count.
fn totals_agree(
    alloc: Global,
    sheet: &Sheet,
    straight: &Sheet,
    cache: &mut QueryCache,
    detector: u32,
    steps: (u32, u32),
) -> Result<bool, SheetFault>
    requires { IsCacheOf sheet.now cache.old }
{
    let (from, to) = steps;
    let cached = cache.totals(alloc, sheet, detector, from, to)?;
    let again = cache.totals(alloc, sheet, detector, from, to)?;
    let fresh = sheet.totals(alloc, detector, from, to)?;
    let wanted = straight.totals(alloc, detector, from, to)?;
    Ok(cached == wanted && again == wanted && fresh == wanted)
}

// Return whether the states agree with a new cache. This function owns the cache, and has only one way out.
fn states_agree_with_new_cache(
    alloc: Global,
    sheet: &Sheet,
    straight: &Sheet,
    steps: &[u32],
) -> Result<bool, SheetFault> {
    let mut cache = QueryCache::new();
    all_states_agree(alloc, sheet, straight, &mut cache, steps)
}

// Return whether the totals agree with a new cache.
fn totals_agree_with_new_cache(
    alloc: Global,
    sheet: &Sheet,
    straight: &Sheet,
    detector: u32,
    steps: (u32, u32),
) -> Result<bool, SheetFault> {
    let mut cache = QueryCache::new();
    totals_agree(alloc, sheet, straight, &mut cache, detector, steps)
}

// Return whether a sheet agrees with the run from step zero: its states, and the counts of a detector from a random
// step to another.
fn sheets_agree(
    alloc: Global,
    sheet: &Sheet,
    straight: &Sheet,
    dice: &mut Dice,
) -> Result<bool, Fail> {
    let to = dice.step().min(sheet.horizon());
    let from = dice.step().min(to);
    let detector = dice.below(2);
    Ok(
        states_agree_with_new_cache(alloc, sheet, straight, dice.steps)?
            && totals_agree_with_new_cache(alloc, sheet, straight, detector, (from, to))?,
    )
}

// Return whether a sheet agrees with the run of all these edits from step zero.
fn agrees(
    alloc: Global,
    opening: &Sheet,
    edits: &[Edit],
    sheet: &Sheet,
    dice: &mut Dice,
) -> Result<bool, Fail> {
    let straight = extend(alloc, opening, Way::ByRuns, edits, sheet.horizon())?;
    sheets_agree(alloc, sheet, &straight.sheet, dice)
}

// Extend a sheet by up to two more edits, and to a random step.
fn extend_at_random(
    alloc: Global,
    sheet: &mut Sheet,
    edits: &mut Vec<Edit>,
    dice: &mut Dice,
    count: u64,
) -> Result<(), Fail> {
    let two = [dice.edit(count), dice.edit(count)];
    let some = two.get(dice.below(3) as usize..).unwrap_or(&[]);
    edits.extend_from_slice(some)?;
    *sheet = extend(alloc, sheet, Way::StepByStep, some, dice.step())?.sheet;
    Ok(())
}

// Return whether a sheet agrees with the run from step zero after each extension.
fn all_agree(
    alloc: Global,
    opening: &Sheet,
    sheet: &mut Sheet,
    edits: &mut Vec<Edit>,
    dice: &mut Dice,
) -> Result<bool, Fail> {
    for count in 1..6 {
        extend_at_random(alloc, sheet, edits, dice, count)?;
        if !agrees(alloc, opening, edits, sheet, dice)? {
            return Ok(false);
        }
    }
    Ok(true)
}

// Return whether all sheets of a script agree. The script begins with these edits and a run up to a step.
fn agree_from(
    alloc: Global,
    opening: &Sheet,
    (first, to): (&[Edit], u32),
    dice: &mut Dice,
) -> Result<bool, Fail> {
    let mut edits = first.to_vec(alloc)?;
    let mut begun = extend(alloc, opening, Way::ByRuns, first, to)?;
    all_agree(alloc, opening, &mut begun.sheet, &mut edits, dice)
}

// Return the words of a script.
fn words_of(seed: u64) -> WordKind {
    match seed % 2 {
        0 => WordKind::Steady,
        _ => WordKind::Seeded(seed),
    }
}

// Return whether all sheets of a script agree, on a road with its words.
fn script_agrees(
    alloc: Global,
    road: &Parts,
    begin: (&[Edit], u32),
    mut dice: Dice,
) -> Result<bool, Fail> {
    let words = words_of(dice.seed);
    let opening = opening(alloc, &Parts { words, ..*road })?;
    agree_from(alloc, &opening, begin, &mut dice)
}

#[test]
fn short_scripts_agree_with_runs_from_zero(rt: HostRuntime) -> Result<(), Fail> {
    for seed in 0..SCRIPTS {
        let dice = Dice { seed, steps: STEPS };
        assert!(rt;
            script_agrees(rt.alloc(), &MIXED, (&[], 0), dice)?,
            "{seed}"
        );
    }
    Ok(())
}

#[test]
fn scripts_of_the_last_steps_agree_with_runs_from_zero(rt: HostRuntime) -> Result<(), Fail> {
    for seed in 0..LATE_SCRIPTS {
        let dice = Dice {
            seed,
            steps: LATE_STEPS,
        };
        let begin = (OPENED, 1_048_384);
        assert!(rt; script_agrees(rt.alloc(), &CLOSED, begin, dice)?, "{seed}");
    }
    Ok(())
}
