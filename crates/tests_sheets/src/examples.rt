//! The number of steps that each extension of a sheet of the free road computes, and the first step that its edits
//! touch. Rows, cars and counts are tested with the program (`tests/scripts/sheets_by_hand.jsonl`).

use crate::sheets::{Trial, Way, extend, opening};
use road_plan::Object;
use road_scenario::{Edit, Stamp, Value};
use road_sheet::Sheet;
use std::alloc::Global;
use std::test::Fail;
use tests_plans::{BLOCK, FREE, LIMIT, edit, pairs};

/// Some edits and an advance; the first step that the edits touch, and the number of steps computed.
type Growth = ((&'static [Edit], u32), (Option<u32>, u64));

/// Extensions, one after another: a run, and then edits at steps of the run or at its horizon.
const GROWTHS: &[&[Growth]] = &[
    pairs![(&[], 6) => (None, 6), (&[], 3) => (None, 0)],
    pairs![(&[], 6) => (None, 6), (&[edit!(BLOCK, 4, (1, 0), 1)], 0) => (Some(4), 6)],
    pairs![(&[], 130) => (None, 130), (&[edit!(LIMIT, 0, (1, 0), 1)], 0) => (Some(0), 130)],
    pairs![(&[], 130) => (None, 130), (&[edit!(LIMIT, 63, (1, 0), 1)], 0) => (Some(63), 130)],
    pairs![(&[], 130) => (None, 130), (&[edit!(LIMIT, 64, (1, 0), 1)], 0) => (Some(64), 66)],
    pairs![(&[], 130) => (None, 130), (&[edit!(LIMIT, 129, (1, 0), 1)], 0) => (Some(129), 2)],
    pairs![
        (&[], 130) => (None, 130),
        (&[edit!(LIMIT, 130, (1, 0), 1)], 0) => (Some(130), 0),
        (&[], 200) => (None, 70),
    ],
];

/// The cell of the only inlet is blocked up to the last step of the longest run. Opening it there computes one
/// interval.
const CLOSED: &[Growth] = pairs![
    (&[edit!(Object::Block(0), 0, (1, 0), 1)], 1_048_576) => (Some(0), 1_048_576),
    (&[edit!(Object::Block(0), 1_048_575, (1, 0), 0)], 0) => (Some(1_048_575), 64),
];

// Return the sheet of a trial. The trial must touch this step, and compute this many steps by both counts.
fn checked_sheet(trial: Trial, (touched, steps): (Option<u32>, u64)) -> Result<Sheet, Fail> {
    if (trial.touched, trial.steps, trial.counted) == (touched, steps, steps) {
        Ok(trial.sheet)
    } else {
        Err(Fail::new("the touched step and the counts of steps must be as listed"))
    }
}

// Return the sheet after an extension.
fn extend_by(alloc: Global, sheet: &Sheet, way: Way, growth: &Growth) -> Result<Sheet, Fail> {
    let ((edits, to), wanted) = *growth;
    checked_sheet(extend(alloc, sheet, way, edits, to)?, wanted)
}

// Extend a sheet of the free road from step zero.
fn extend_all(alloc: Global, way: Way, growths: &[Growth]) -> Result<(), Fail> {
    let mut sheet = opening(alloc, &FREE)?;
    for growth in growths {
        sheet = extend_by(alloc, &sheet, way, growth)?;
    }
    Ok(())
}

// Extend a sheet by each list of extensions.
fn extend_each(alloc: Global, way: Way) -> Result<(), Fail> {
    for growths in GROWTHS {
        extend_all(alloc, way, growths)?;
    }
    Ok(())
}

#[test]
fn late_edits_compute_only_from_their_interval_on(rt: HostRuntime) -> Result<(), Fail> {
    extend_each(rt.alloc(), Way::StepByStep)?;
    extend_each(rt.alloc(), Way::ByRuns)
}

#[test]
fn an_edit_at_the_end_of_the_longest_run_computes_one_interval(
    rt: HostRuntime,
) -> Result<(), Fail> {
    extend_all(rt.alloc(), Way::StepByStep, CLOSED)
}
