//! Edits of one object at steps far apart, worked out by hand, and at many steps.

use super::{Check, Way, make_and_check, setting_at};
use crate::assert_row;
use lattice_core::lattice::Lattice;
use road_plan::Plan;
use road_scenario::{Edit, OutOfMemory, Scenario, Stamp, Value};
use std::alloc::Global;
use std::process::Abort;
use std::test::Fail;
use tests_plans::{FREE, LIMIT, edit, plan_of};

/// Steps, and the limit that is set from each step on.
const PUTS: &[(u32, u32)] = &[
    (0, 5),
    (1_023, 1),
    (1_024, 2),
    (2_047, 3),
    (2_048, 4),
    (9_000, 0),
    (1_048_575, 1),
];

/// A step, the limit there, and the step from which it changes.
type Limit = (u32, u32, Option<u32>);

const LIMITS: &[Limit] = &[
    (0, 5, Some(1_023)),
    (1_022, 5, Some(1_023)),
    (1_023, 1, Some(1_024)),
    (1_024, 2, Some(2_047)),
    (2_046, 2, Some(2_047)),
    (2_047, 3, Some(2_048)),
    (2_048, 4, Some(9_000)),
    (3_100, 4, Some(9_000)),
    (8_999, 4, Some(9_000)),
    (9_000, 0, Some(1_048_575)),
    (1_048_574, 0, Some(1_048_575)),
    (1_048_575, 1, None),
];

/// If edits are withdrawn, a far earlier edit is in force. The steps of withdrawals are dates, too.
const WITHDRAWN: &[u32] = &[1_024, 2_047, 2_048, 9_000];

const WITHDRAWN_LIMITS: &[Limit] = &[
    (1_023, 1, Some(1_024)),
    (2_048, 1, Some(9_000)),
    (9_000, 1, Some(1_048_575)),
    (1_048_574, 1, Some(1_048_575)),
];

// Make the edits of the table, in the order of their steps.
fn put_edits(alloc: Global) -> Result<Vec<Edit>, OutOfMemory> {
    let mut edits = Vec::new(alloc);
    for (step, limit) in PUTS {
        edits.push(edit!(LIMIT, *step, (1, 0), *limit))?;
    }
    Ok(edits)
}

// Withdraw the limits of some steps.
fn withdraw(edits: &mut Vec<Edit>) -> Result<(), OutOfMemory> {
    for step in WITHDRAWN {
        edits.push(edit!(LIMIT, *step, (2, 0), withdrawn))?;
    }
    Ok(())
}

/// The check of the limits and dates of a scenario.
#[derive(Clone, Copy)]
struct Limits<'a> {
    plan: &'a Plan,
    limits: &'a [Limit],
}

impl Check for Limits<'_> {
    fn passes(&self, _alloc: Global, made: &Scenario) -> Result<bool, OutOfMemory> {
        for (step, limit, next) in self.limits {
            if setting_at(made, self.plan, LIMIT, *step) != Some(*limit)
                || made.next_date(*step) != *next
            {
                return Ok(false);
            }
        }
        Ok(true)
    }
}

// Return whether the edits of the table act as expected, made in either way, and also with some of them withdrawn.
fn act(alloc: Global, plan: &Plan, edits: &mut Vec<Edit>) -> Result<bool, OutOfMemory> {
    let puts = Limits {
        plan,
        limits: LIMITS,
    };
    let withdrawals = Limits {
        plan,
        limits: WITHDRAWN_LIMITS,
    };
    let by_one = make_and_check(alloc, Way::OneByOne, edits, &puts)?;
    let at_once = make_and_check(alloc, Way::AtOnce, edits, &puts)?;
    withdraw(edits)?;
    Ok(by_one && at_once && make_and_check(alloc, Way::OneByOne, edits, &withdrawals)?)
}

#[test]
fn each_edit_acts_from_its_own_step_on(rt: HostRuntime) -> Result<(), Fail> {
    let plan = plan_of(rt.alloc(), &FREE)?;
    let mut edits = put_edits(rt.alloc())?;
    assert_row(&rt, 0, act(rt.alloc(), &plan, &mut edits)?);
    Ok(())
}

/// The number of steps that have an edit. Each is two steps after the one before.
const MANY: u32 = 1_200;

// Return the limit that is set at an even step.
fn limit_put(step: u32) -> u32 {
    step / 2 % 6
}

// Make an edit of each even step, and then withdraw the edits of steps 1,000 to 1,400, both included.
fn many_edits(alloc: Global) -> Result<Vec<Edit>, OutOfMemory> {
    let mut edits = Vec::new(alloc);
    for place in 0..MANY {
        edits.push(edit!(LIMIT, place * 2, (1, 0), place % 6))?;
    }
    for place in 500..=700 {
        edits.push(edit!(LIMIT, place * 2, (2, 0), withdrawn))?;
    }
    Ok(edits)
}

// Return the limit at a step. Where edits are withdrawn, it is that of step 998.
fn limit_at(step: u32) -> u32 {
    match step {
        1_000..=1_401 => limit_put(998),
        _ => limit_put(step.min(MANY * 2 - 2)),
    }
}

// Return the step after this one from which the limit changes.
fn next_put(step: u32) -> Option<u32> {
    if step < 2_398 {
        Some((step / 2).saturating_add(1).saturating_mul(2))
    } else {
        None
    }
}

// Return whether a scenario of many edits acts as expected.
fn many_act(plan: &Plan, made: &Scenario) -> bool {
    for step in 0..2_405 {
        if setting_at(made, plan, LIMIT, step) != Some(limit_at(step))
            || made.next_date(step) != next_put(step)
        {
            return false;
        }
    }
    made.greatest_count() == 2
}

/// The check of a scenario of many edits, also compared with another one if there is one.
#[derive(Clone, Copy)]
struct Many<'a> {
    plan: &'a Plan,
    other: Option<&'a Scenario>,
}

impl Check for Many<'_> {
    fn passes(&self, alloc: Global, made: &Scenario) -> Result<bool, OutOfMemory> {
        let is_same = match self.other {
            Some(other) => other.touched(made).is_none() && other.at_most(made),
            None => true,
        };
        Ok(is_same && many_act(self.plan, made) && made.edits(alloc)?.len() == 1_200)
    }
}

/// The check that compares a scenario of many edits, made one by one, with one that is made at once.
#[derive(Clone, Copy)]
struct BothWays<'a> {
    plan: &'a Plan,
    edits: &'a [Edit],
}

impl Check for BothWays<'_> {
    fn passes(&self, alloc: Global, made: &Scenario) -> Result<bool, OutOfMemory> {
        let alone = Many {
            plan: self.plan,
            other: None,
        };
        let beside = Many {
            plan: self.plan,
            other: Some(made),
        };
        let by_one = alone.passes(alloc, made)?;
        Ok(by_one && make_and_check(alloc, Way::AtOnce, self.edits, &beside)?)
    }
}

#[test]
fn an_object_has_edits_at_many_steps(rt: HostRuntime) -> Result<(), Fail> {
    let plan = plan_of(rt.alloc(), &FREE)?;
    let edits = many_edits(rt.alloc())?;
    let look = BothWays {
        plan: &plan,
        edits: &edits,
    };
    assert_row(
        &rt,
        0,
        make_and_check(rt.alloc(), Way::OneByOne, &edits, &look)?,
    );
    Ok(())
}
