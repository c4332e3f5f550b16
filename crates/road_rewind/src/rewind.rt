//! Rewinding: a sheet gets more edits and steps. It keeps the steps that no edit touches, and simulates the others.

ghost use Rattle.std.specs.Prelude.{◌≡◌, ◌≤◌, ◌-◌, max, IfOk, OnErr, OnOk};
ghost use Rattle.road_plan.specs.declared.limits.TheConstants.{GREATEST_HORIZON};
ghost use Rattle.road_columns.specs.RoadOrRun.{road_now};
ghost use Rattle.road_scenario.specs.Faults.{AreInRange};
ghost use Rattle.road_scenario.specs.Winners.{join};
ghost use Rattle.road_sheet.specs.Drafts.{draft_start};
ghost use Rattle.road_sheet.specs.Sheets.{IsAtMost, state_of};
ghost use Rattle.road_sheet.specs.Spans.{IsNextSpan, sheet_after_span};
ghost use Rattle.road_rewind.specs.Growth.{grown_sheet, touched_step, kept_step, most_steps, meter_after, CountsGone};
ghost use Rattle.road_rewind.specs.Growth.{TicksAtMost};

use crate::GrownFault;
use crate::outcome::Grown;
use road_columns::{RoadOrRun, SpanOutcome};
use road_ends::laws::cars_stay_on_road;
use road_ends::{Meter, OutOfMemory, Span};
use road_scenario::Scenario;
use road_scenario::laws::winners_agree;
use road_sheet::{Draft, Sheet, SpanDraft};
use road_workers::Crew;
use std::alloc::Global;

/// Join a scenario into a sheet, and simulate at least up to the step `to`. The new sheet is that of the joined
/// scenario, and its horizon is the greater of the old horizon and `to`. The old sheet is unchanged.
///
/// The scenario must fit the sheet's plan, and `to` must be at most 1,048,576. If the call succeeds, the meter counts
/// exactly the steps after the old horizon, if no simulated step is touched. Otherwise it counts exactly the steps from
/// the touched one on, and those before it back to the checkpoint, at most 63.
///
/// # Errors
///
/// `WorkersGone` if the crew returned it, else `OutOfMemory` if an allocation failed. The meter has then counted no
/// more steps than a call that succeeds may count.
pub fn grown<C: Crew>(
    alloc: Global,
    sheet: &Sheet,
    scenario: &Scenario,
    to: u32,
    crew: &mut C,
    meter: &mut Meter,
) -> Result<Grown, GrownFault>
    requires fits { AreInRange sheet.now.plan scenario.now }
    requires within_limit { to ≤ GREATEST_HORIZON }
    ensures sheet { IfOk result (λ done. done.sheet ≡ grown_sheet sheet.now scenario.now to) }
    ensures above { IfOk result (λ done. IsAtMost sheet.now done.sheet) }
    ensures touched { IfOk result (λ done. done.touched ≡ touched_step sheet.now scenario.now) }
    // If it succeeds, the steps from where the run resumes are counted.
    ensures steps { IfOk result (λ _. meter.new
        ≡ meter_after meter.old (max sheet.now.horizon to - draft_start sheet.now.horizon
        (kept_step sheet.now.horizon (touched_step sheet.now scenario.now)))) }
    // If no simulated step is touched, these are only the new steps.
    ensures new_steps { IfOk result (λ _.
        kept_step sheet.now.horizon (touched_step sheet.now scenario.now) ≡ sheet.now.horizon
        → meter.new ≡ meter_after meter.old (max sheet.now.horizon to - sheet.now.horizon)) }
    // In every case, also if it fails, at most `most_steps` are counted.
    ensures few_steps { TicksAtMost
        (most_steps sheet.now.horizon (max sheet.now.horizon to) (touched_step sheet.now scenario.now))
        meter.old meter.new }
    ensures gone { CountsGone result (C.times_gone crew.old) (C.times_gone crew.new) }
{
    winners_agree();
    let (draft, touched) = start_draft(alloc, sheet, scenario)?;
    let simulated = simulate(alloc, draft, sheet.horizon().max(to), crew, meter)?;
    Ok(Grown {
        sheet: simulated,
        touched,
    })
}

// Begin the draft of the joined scenario, and find the touched step.
fn start_draft(
    alloc: Global,
    sheet: &Sheet,
    scenario: &Scenario,
) -> Result<(Draft, Option<u32>), OutOfMemory>
    requires fits { AreInRange sheet.now.plan scenario.now }
    ensures draft { IfOk result (λ started. started.0 ≡ record {
      plan = sheet.now.plan;
      edits = join sheet.now.edits scenario.now;
      horizon = draft_start sheet.now.horizon (kept_step sheet.now.horizon (touched_step sheet.now scenario.now));
    }) }
    ensures touched { IfOk result (λ started. started.1 ≡ touched_step sheet.now scenario.now) }
{
    winners_agree();
    let joined = sheet.scenario().joined(scenario)?;
    let touched = sheet.scenario().touched_by(scenario, &joined);
    let keep = kept_step(sheet.horizon(), touched);
    let draft = sheet.draft_of(alloc, joined, keep)?;
    Ok((draft, touched))
}

// Find the step up to which a run is kept.
fn kept_step(horizon: u32, touched: Option<u32>) -> u32
    ensures { result ≡ kept_step horizon touched }
{
    match touched {
        None => horizon,
        Some(step) => horizon.min(step),
    }
}

// Simulate a draft up to a step, and return its sheet. No run has more steps than the crew allows. The meter counts the
// steps of each run once the draft has them, and none of a run that fails.
fn simulate<C: Crew>(
    alloc: Global,
    draft: Draft,
    to: u32,
    crew: &mut C,
    meter: &mut Meter,
) -> Result<Sheet, GrownFault>
    requires before { draft.horizon ≤ to }
    requires within_limit { to ≤ GREATEST_HORIZON }
    ensures simulated { IfOk result (λ sheet. sheet ≡ record draft { horizon = to }) }
    ensures steps { OnOk result (meter.new ≡ meter_after meter.old (to - draft.horizon)) }
    ensures few { TicksAtMost (to - draft.horizon) meter.old meter.new }
    ensures gone { CountsGone result (C.times_gone crew.old) (C.times_gone crew.new) }
{
    let (mut so_far, at_horizon) = draft.by_spans();
    let mut road = RoadOrRun::Road(at_horizon);
    let mut step = so_far.horizon();
    while step < to {
        let end = to.min(step.saturating_add(crew.most_steps()));
        let span = so_far.next_span(alloc, end)?;
        road = simulate_span(alloc, &mut so_far, road, &span, crew, meter)?;
        step += span.steps();
    }
    Ok(so_far.sheet(alloc, road)?)
}

// Let the crew run the next steps of a draft from the road at its horizon, and return the road after them. The meter
// counts all these steps once the draft has them, and none if the run fails or cannot be added.
fn simulate_span<C: Crew>(
    alloc: Global,
    draft: &mut SpanDraft,
    road: RoadOrRun,
    span: &Span,
    crew: &mut C,
    meter: &mut Meter,
) -> Result<RoadOrRun, GrownFault>
    requires next { IsNextSpan draft.old span.now }
    requires road { road_now road ≡ state_of draft.old draft.old.horizon }
    ensures simulated { OnOk result (draft.new ≡ sheet_after_span span.now draft.old) }
    ensures road { IfOk result (λ after. road_now after ≡ state_of draft.new draft.new.horizon) }
    ensures steps { OnOk result (meter.new ≡ meter_after meter.old span.now.steps) }
    ensures none { OnErr result (meter.new ≡ meter.old) }
    ensures gone { CountsGone result (C.times_gone crew.old) (C.times_gone crew.new) }
{
    let steps = span.steps();
    cars_stay_on_road(span.plan());
    let Some(ran) = crew.run(alloc, span, road)? else {
        // The span has steps, and every car of its road can be held in a run.
        unreachable!();
    };
    draft.push_span(alloc, span, &ran)?;
    meter.count(steps);
    let SpanOutcome { road, .. } = ran;
    Ok(road)
}
