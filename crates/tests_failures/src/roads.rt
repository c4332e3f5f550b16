//! The free road, edits of it, and what its sheets show.

use road_plan::Plan;
use road_scenario::{Edit, Scenario, Stamp, Value};
use road_sheet::Sheet;
use road_sheet::simulation::{State, row_of};
use std::alloc::Global;
use std::sync::Arc;
use tests_plans::{BLOCK, BLOCKED_ROWS, FREE, FREE_ROWS, LIMIT, Parts, Row, edit, plan_of};

/// What a sheet shows: rows, the last one at its horizon, and its edits by object and step.
#[derive(Clone, Copy)]
pub(crate) struct Shown(pub(crate) &'static [Row], pub(crate) &'static [Edit]);

/// Cell 8 is blocked from step 4 on, by a first edit and by a second edit, and the first edit is withdrawn.
pub(crate) const BLOCKED: Edit = edit!(BLOCK, 4, (1, 0), 1);

pub(crate) const BLOCKED_SECOND: Edit = edit!(BLOCK, 4, (2, 0), 1);

pub(crate) const OPENED: Edit = edit!(BLOCK, 4, (2, 0), withdrawn);

/// No car drives faster than 1 from step 3 on. All cars stand from step 5 on, or, by an edit of the second replica,
/// from step 3 on.
pub(crate) const SLOW: Edit = edit!(LIMIT, 3, (1, 0), 1);

pub(crate) const CLOSED: Edit = edit!(LIMIT, 5, (3, 0), 0);

pub(crate) const CLOSED_ELSEWHERE: Edit = edit!(LIMIT, 3, (3, 1), 0);

/// Of two imports with equal stamps the greater number wins.
pub(crate) const LESS: Edit = edit!(LIMIT, 0, (7, 64), 2);

pub(crate) const GREATER: Edit = edit!(LIMIT, 0, (7, 64), 3);

/// The edits of one replica. Another replica has some of them.
pub(crate) const HELD: &[Edit] = &[SLOW, CLOSED, BLOCKED_SECOND];

pub(crate) const HELD_ELSEWHERE: &[Edit] = &[CLOSED_ELSEWHERE, BLOCKED_SECOND];

pub(crate) const OPENING: Shown = Shown(&[(0, "............")], &[]);

pub(crate) const TO_SIX: Shown = Shown(FREE_ROWS, &[]);

pub(crate) const WITH_BLOCK: Shown = Shown(BLOCKED_ROWS, &[BLOCKED]);

pub(crate) const WITHDRAWN: Shown = Shown(FREE_ROWS, &[OPENED]);

pub(crate) const SLOWED: Shown = Shown(&[(4, "0.1...1....."), (6, "0.1.1...1...")], &[SLOW]);

/// Make the plan of these parts, in an `Arc`.
pub(crate) fn shared_plan(alloc: Global, parts: &Parts) -> Option<Arc<Plan>> {
    let plan = plan_of(alloc, parts).ok()?;
    Arc::new(alloc, plan).ok()
}

/// Return the plan of the free road.
pub(crate) fn free_plan(alloc: Global) -> Option<Arc<Plan>> {
    shared_plan(alloc, &FREE)
}

/// Return whether a scenario has exactly these edits, by object and step. `None` if an allocation failed.
pub(crate) fn holds(alloc: Global, scenario: &Scenario, edits: &[Edit]) -> Option<bool> {
    let held = scenario.edits(alloc).ok()?;
    Some(held.as_slice() == edits)
}

/// Return the row that a sheet shows at a step. `None` if an allocation failed or the step is not simulated.
pub(crate) fn row_at(alloc: Global, sheet: &Sheet, step: u32) -> Option<String> {
    let Ok(road) = sheet.state(alloc, step) else {
        return None;
    };
    let state = State { step, road };
    row_of(alloc, sheet.plan(), sheet.scenario(), &state).ok()
}

/// Return whether a sheet shows this row. `None` as for [`row_at`].
pub(crate) fn shows_row(alloc: Global, sheet: &Sheet, step: u32, wanted: &str) -> Option<bool> {
    Some(row_at(alloc, sheet, step)?.as_str() == wanted)
}

/// Return whether a sheet shows exactly this. `None` if an allocation failed.
pub(crate) fn shows(alloc: Global, sheet: &Sheet, shown: &Shown) -> Option<bool> {
    let mut last = None;
    let mut shows = holds(alloc, sheet.scenario(), shown.1)?;
    for (step, row) in shown.0 {
        shows = shows && *step <= sheet.horizon() && shows_row(alloc, sheet, *step, row)?;
        last = Some(*step);
    }
    Some(shows && last == Some(sheet.horizon()))
}
