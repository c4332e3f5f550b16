//! What sessions are shown.

use road_cells::{Car, Road};
use road_ends::{Meter, step_alone};
use road_plan::{Plan, Settings};
use road_sessions::{LookFault, Naming, Session, Shared};
use road_sheet::simulation::{State, row_of};
use road_sheet::{Sheet, SheetFault};
use std::alloc::Global;
use std::sync::{Arc, Wait};
use tests_plans::{FREE_ROWS, Row};

/// A detector and two steps, and what it counts from the first step to before the second: cars and the sum of their
/// speeds.
pub(crate) type Count = ((u32, u32, u32), Result<(u32, u32), LookFault>);

/// A step, and the cars that are there.
pub(crate) type Cars = (u32, Result<&'static [Car], LookFault>);

// Return the row of a sheet at a step.
fn row(alloc: Global, sheet: &Sheet, step: u32) -> Result<String, SheetFault> {
    let road = sheet.state(alloc, step)?;
    let state = State { step, road };
    Ok(row_of(alloc, sheet.plan(), sheet.scenario(), &state)?)
}

/// A run of the free road from step 0 up to a step, with the limit 1 from another step on.
#[derive(Clone, Copy)]
pub(crate) struct Run {
    pub(crate) slow_from: u32,
    pub(crate) to: u32,
}

/// The rows after each number of steps, if the limit is 1 from an even step on. As on the free road, the last two rows
/// alternate from then on.
const SLOW_ROWS: &[Row] = &[
    (0, "0..2...2...."),
    (1, ".1..1...1..."),
    (2, "0.1..1...1.."),
    (3, ".1.1..1...1."),
    (4, "0.1.1..1...."),
    (5, ".1.1.1..1..."),
    (6, "0.1.1.1..1.."),
    (7, ".1.1.1.1..1."),
    (8, "0.1.1.1.1..."),
    (9, ".1.1.1.1.1.."),
    (10, "0.1.1.1.1.1."),
];

// Return the row with this number. The last two rows alternate.
fn by_turns(rows: &[Row], number: usize) -> &'static str {
    let behind = number.saturating_sub(rows.len());
    let last = rows.len().saturating_sub(2);
    let place = if number < rows.len() {
        number
    } else {
        last.saturating_add(behind % 2)
    };
    match rows.get(place) {
        Some((_, row)) => *row,
        None => "",
    }
}

// Return the row of a run at a step.
fn row_of_run(run: Run, step: u32) -> &'static str {
    if step <= run.slow_from {
        by_turns(FREE_ROWS, step as usize)
    } else {
        by_turns(SLOW_ROWS, step.saturating_sub(run.slow_from) as usize)
    }
}

// Return the road of a run after a step, which a single caller computes.
fn road_after(alloc: Global, plan: &Arc<Plan>, run: Run, step: u32, road: &Road) -> Option<Road> {
    let mut settings = Settings::of_plan(alloc, plan).ok()?;
    if step >= run.slow_from {
        settings.limits = vec![in alloc; 1].ok()?;
    }
    if !settings.fits(plan) {
        return None;
    }
    let done = step_alone(alloc, plan, settings, step, road, &mut Meter::new());
    Some(done.ok()?.road)
}

// Return whether a sheet has the same cars as a run from step zero, with the same numbers.
fn has_cars_of_run(alloc: Global, sheet: &Sheet, run: Run) -> Option<bool> {
    let mut road = Road::empty(alloc);
    for step in 0..=run.to {
        if sheet.state(alloc, step).ok()?.cars() != road.cars() {
            return Some(false);
        }
        road = road_after(alloc, sheet.plan(), run, step, &road)?;
    }
    Some(true)
}

/// Return whether a sheet shows all rows of a run, and its cars.
pub(crate) fn shows_run(alloc: Global, sheet: &Sheet, run: Run) -> bool {
    for step in 0..=run.to {
        if !shows(alloc, sheet, &[(step, row_of_run(run, step))]) {
            return false;
        }
    }
    sheet.horizon() == run.to && has_cars_of_run(alloc, sheet, run) == Some(true)
}

/// Return whether a sheet shows these rows.
pub(crate) fn shows(alloc: Global, sheet: &Sheet, rows: &[Row]) -> bool {
    for (step, wanted) in rows {
        let agrees = match row(alloc, sheet, *step) {
            Ok(row) => row.as_str() == *wanted,
            Err(_) => false,
        };
        if !agrees {
            return false;
        }
    }
    true
}

/// Let a session look. Return whether it is shown this horizon and these rows.
pub(crate) fn looks<J: Naming, R: Wait + Drop>(
    alloc: Global,
    shared: &Shared<J, R>,
    session: &mut Session<J>,
    horizon: u32,
    rows: &[Row],
) -> bool {
    match session.look(shared) {
        Ok(sheet) => sheet.horizon() == horizon && shows(alloc, &sheet, rows),
        Err(_) => false,
    }
}

/// Let a session look. Return whether it is shown a run.
pub(crate) fn looks_run<J: Naming, R: Wait + Drop>(
    alloc: Global,
    shared: &Shared<J, R>,
    session: &mut Session<J>,
    run: Run,
) -> bool {
    match session.look(shared) {
        Ok(sheet) => shows_run(alloc, &sheet, run),
        Err(_) => false,
    }
}

// Return whether a session that queries the cars of a step gets these cars.
fn has_cars<J: Naming, R: Wait + Drop>(
    alloc: Global,
    shared: &Shared<J, R>,
    session: &mut Session<J>,
    step: u32,
    wanted: &[Car],
) -> Result<bool, LookFault> {
    let road = session.state(alloc, shared, step)?;
    Ok(road.cars() == wanted)
}

// Return whether a session that queries cars gets the expected answer.
fn shows_cars<J: Naming, R: Wait + Drop>(
    alloc: Global,
    shared: &Shared<J, R>,
    session: &mut Session<J>,
    cars: &Cars,
) -> bool {
    let (wanted, expected): (&[Car], _) = match cars.1 {
        Ok(wanted) => (wanted, Ok(true)),
        Err(fault) => (&[], Err(fault)),
    };
    has_cars(alloc, shared, session, cars.0, wanted) == expected
}

// Return the answer to a session that queries a count.
fn count_passing<J: Naming, R: Wait + Drop>(
    alloc: Global,
    shared: &Shared<J, R>,
    session: &mut Session<J>,
    asked: (u32, u32, u32),
) -> Result<(u32, u32), LookFault> {
    let (detector, from, to) = asked;
    let totals = session.totals(alloc, shared, detector, from, to)?;
    Ok((totals.cars, totals.speeds))
}

// Return whether a session that queries a count gets the expected answer.
fn shows_count<J: Naming, R: Wait + Drop>(
    alloc: Global,
    shared: &Shared<J, R>,
    session: &mut Session<J>,
    count: Count,
) -> bool {
    let (asked, wanted) = count;
    count_passing(alloc, shared, session, asked) == wanted
}

/// Return whether a session that queries the cars of some steps gets the expected answers.
pub(crate) fn shows_all_cars<J: Naming, R: Wait + Drop>(
    alloc: Global,
    shared: &Shared<J, R>,
    session: &mut Session<J>,
    asked: &[Cars],
) -> bool {
    for cars in asked {
        if !shows_cars(alloc, shared, session, cars) {
            return false;
        }
    }
    true
}

/// Return whether a session that queries some counts gets the expected answers.
pub(crate) fn shows_counts<J: Naming, R: Wait + Drop>(
    alloc: Global,
    shared: &Shared<J, R>,
    session: &mut Session<J>,
    asked: &[Count],
) -> bool {
    for count in asked {
        if !shows_count(alloc, shared, session, *count) {
            return false;
        }
    }
    true
}
