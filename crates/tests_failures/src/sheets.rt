//! Sheets: queries of them, drafts of them, and their growth.

ghost use Rattle.std.specs.Prelude.{◌≡◌, ◌<◌, ◌≤◌};
ghost use Rattle.road_plan.specs.declared.limits.TheConstants.{GREATEST_HORIZON};
ghost use Rattle.road_ends.specs.Input.{input_speeds};
ghost use Rattle.road_scenario.specs.Faults.{AreInRange};
ghost use Rattle.road_sheet.specs.Sheets.{next_input};

use crate::roads::{OPENING, Shown, free_plan, shows, shows_row};
use crate::verdict::{Call, Until, Verdict, Wrong, try_call, verdict_of};
use road_cells::Car;
use road_detector::Totals;
use road_ends::{Meter, StepInput};
use road_plan::Plan;
use road_plan::limits::GREATEST_HORIZON;
use road_rewind::{Grown, GrownFault, grown};
use road_scenario::{Edit, Scenario};
use road_sheet::{Draft, OutOfMemory, Sheet, SheetFault};
use road_workers::Alone;
use std::alloc::Global;
use std::sync::Arc;
use tests_portraits::Portrait;

// ---- openings

// The opening of a sheet, as a call.
#[derive(Drop)]
struct Opening {
    plan: Arc<Plan>,
}

impl Call for Opening {
    type Answer = Sheet;

    type Fault = OutOfMemory;

    fn make(&mut self, alloc: Global) -> Result<Sheet, OutOfMemory> {
        Sheet::opening(alloc, Arc::try_clone(&self.plan)?)
    }

    fn is_right(&mut self, alloc: Global, sheet: Sheet) -> Option<bool> {
        shows(alloc, &sheet, &OPENING)
    }
}

/// Try the opening of a sheet.
pub(crate) fn try_opening(alloc: Global, until: Until) -> Option<Verdict> {
    let plan = free_plan(alloc)?;
    try_call(alloc, until, &mut Opening { plan })
}

// ---- growth

/// A growth: the horizon before it, the step to which it extends the sheet, the first step that it touches, the number
/// of steps that it computes, and what is shown after it.
#[derive(Clone, Copy)]
pub(crate) struct GrowthCase(
    pub(crate) u32,
    pub(crate) u32,
    pub(crate) Option<u32>,
    pub(crate) u64,
    pub(crate) Shown,
);

// Return how many steps a growth may compute: those past the horizon, or, if a simulated step is touched, those from 63
// steps before the first such step on.
fn most_steps(case: &GrowthCase) -> u64 {
    let GrowthCase(horizon, to, touched, _, _) = *case;
    let last = horizon.max(to);
    let steps = match touched {
        Some(touched) if touched < horizon => last.saturating_sub(touched).saturating_add(63),
        _ => last.saturating_sub(horizon),
    };
    u64::from(steps)
}

// A growth of a sheet by some edits up to a step, as a call, and how many steps the call computed.
#[derive(Drop)]
struct Growing {
    sheet: Sheet,
    scenario: Scenario,
    to: u32,
    steps: u64,
    case: GrowthCase,
    ghost fits: { AreInRange sheet.plan scenario },
    ghost within: { to ≤ GREATEST_HORIZON },
}

impl Call for Growing {
    type Answer = Grown;

    type Fault = GrownFault;

    // Draw the sheet that grows, and by how many steps the call computed too many.
    fn draw(&mut self, alloc: Global, portrait: &mut Portrait) -> Option<()> {
        portrait.draw_number(self.steps.saturating_sub(most_steps(&self.case)))?;
        portrait.draw_sheet(alloc, &self.sheet)
    }

    fn make(&mut self, alloc: Global) -> Result<Grown, GrownFault> {
        let mut meter = Meter::new();
        let done = grown(
            alloc,
            &self.sheet,
            &self.scenario,
            self.to,
            &mut Alone,
            &mut meter,
        );
        self.steps = meter.ticks();
        done
    }

    fn is_right(&mut self, alloc: Global, done: Grown) -> Option<bool> {
        let GrowthCase(_, _, touched, steps, shown) = self.case;
        let is_counted = done.touched == touched && self.steps == steps;
        Some(is_counted && shows(alloc, &done.sheet, &shown)?)
    }
}

// Return the growth of a sheet. The edits must fit its plan.
fn growth_of(sheet: Sheet, scenario: Scenario, to: u32, case: GrowthCase) -> Option<Growing> {
    if to > GREATEST_HORIZON || scenario.fits(sheet.plan()).is_some() {
        return None;
    }
    Some(Growing {
        sheet,
        scenario,
        to,
        steps: 0,
        case,
    })
}

// Return the sheet of the free road with some edits, simulated up to a step without a break.
fn run_of(alloc: Global, edits: &[Edit], to: u32) -> Option<Sheet> {
    let scenario = Scenario::of_edits(alloc, edits).ok()?;
    let opening = Sheet::opening(alloc, free_plan(alloc)?).ok()?;
    let case = GrowthCase(0, to, None, 0, OPENING);
    let mut growing = growth_of(opening, scenario, to, case)?;
    sheet_of(growing.make(alloc))
}

// Return a sheet after a growth.
fn sheet_of(grown: Result<Grown, GrownFault>) -> Option<Sheet> {
    match grown {
        Ok(grown) => Some(grown.sheet),
        Err(_) => None,
    }
}

/// Try a growth.
pub(crate) fn try_growth(alloc: Global, until: Until, case: &GrowthCase) -> Option<Verdict> {
    let scenario = Scenario::of_edits(alloc, case.4.1).ok()?;
    let sheet = run_of(alloc, &[], case.0)?;
    try_call(
        alloc,
        until,
        &mut growth_of(sheet, scenario, case.1, *case)?,
    )
}

// ---- questions

/// A query of a sheet, and the expected answer.
#[derive(Clone, Copy)]
pub(crate) enum Question {
    State(u32, &'static [Car]),
    Totals(u32, u32, Totals),
}

// A query of a sheet, as a call.
#[derive(Drop)]
struct Asking {
    sheet: Sheet,
    question: Question,
}

// Return whether a sheet has these cars at a step.
fn has_cars(alloc: Global, sheet: &Sheet, step: u32, cars: &[Car]) -> Result<bool, SheetFault> {
    let road = sheet.state(alloc, step)?;
    Ok(road.cars() == cars)
}

impl Call for Asking {
    type Answer = bool;

    type Fault = SheetFault;

    fn draw(&mut self, alloc: Global, portrait: &mut Portrait) -> Option<()> {
        portrait.draw_sheet(alloc, &self.sheet)
    }

    fn make(&mut self, alloc: Global) -> Result<bool, SheetFault> {
        match self.question {
            Question::State(step, cars) => has_cars(alloc, &self.sheet, step, cars),
            Question::Totals(from, to, totals) => {
                Ok(self.sheet.totals(alloc, 0, from, to)? == totals)
            }
        }
    }

    fn is_right(&mut self, _alloc: Global, is_expected: bool) -> Option<bool> {
        Some(is_expected)
    }
}

/// Try a query of a sheet with some edits at step 6.
pub(crate) fn try_question(
    alloc: Global,
    until: Until,
    edits: &[Edit],
    question: &Question,
) -> Option<Verdict> {
    let sheet = run_of(alloc, edits, 6)?;
    let question = *question;
    try_call(alloc, until, &mut Asking { sheet, question })
}

// ---- drafts

// Add one more step to a draft.
fn add_step(alloc: Global, draft: &mut Draft) -> Option<()>
    requires { draft.old.horizon < GREATEST_HORIZON }
{
    let Ok(input) = draft.input(alloc) else {
        return None;
    };
    let Ok(speeds) = input.speeds(alloc) else {
        return None;
    };
    draft.push(alloc, &input, &speeds).ok()
}

// Simulate a draft up to a step.
fn finish(alloc: Global, draft: &mut Draft, to: u32) -> Option<()> {
    for _ in draft.horizon()..to {
        if draft.horizon() >= GREATEST_HORIZON {
            return None;
        }
        add_step(alloc, draft)?;
    }
    Some(())
}

// Begin a draft, if that is possible.
fn begin_draft(
    alloc: Global,
    sheet: &Sheet,
    scenario: &Scenario,
    keep: u32,
) -> Result<Draft, SheetFault> {
    if scenario.fits(sheet.plan()).is_some() || keep > sheet.horizon() {
        return Err(SheetFault::NotSimulated);
    }
    let joined = sheet.scenario().joined(scenario)?;
    if let Some(step) = sheet.scenario().touched(&joined)
        && step < keep
    {
        return Err(SheetFault::NotSimulated);
    }
    Ok(sheet.draft(alloc, scenario, keep)?)
}

// The beginning of a draft of a sheet, as a call. The draft keeps the run up to a step, and its sheet must show this in
// the end.
#[derive(Drop)]
struct Drafting {
    sheet: Sheet,
    scenario: Scenario,
    keep: u32,
    shown: Shown,
}

impl Call for Drafting {
    type Answer = Draft;

    type Fault = SheetFault;

    fn draw(&mut self, alloc: Global, portrait: &mut Portrait) -> Option<()> {
        portrait.draw_sheet(alloc, &self.sheet)
    }

    fn make(&mut self, alloc: Global) -> Result<Draft, SheetFault> {
        begin_draft(alloc, &self.sheet, &self.scenario, self.keep)
    }

    fn is_right(&mut self, alloc: Global, mut draft: Draft) -> Option<bool> {
        let is_kept = draft.horizon() <= self.keep;
        finish(alloc, &mut draft, self.sheet.horizon())?;
        Some(is_kept && shows(alloc, &draft.sheet(), &self.shown)?)
    }
}

/// Try the beginning of a draft.
pub(crate) fn try_draft(alloc: Global, until: Until, keep: u32, shown: &Shown) -> Option<Verdict> {
    let (to, _) = *shown.0.last()?;
    let scenario = Scenario::of_edits(alloc, shown.1).ok()?;
    let sheet = run_of(alloc, &[], to)?;
    let mut drafting = Drafting {
        sheet,
        scenario,
        keep,
        shown: *shown,
    };
    try_call(alloc, until, &mut drafting)
}

// Begin a draft of the free road, which is already simulated to this step.
fn draft_at(alloc: Global, step: u32) -> Option<Draft> {
    let scenario = Scenario::empty(alloc);
    let sheet = run_of(alloc, &[], step)?;
    begin_draft(alloc, &sheet, &scenario, step).ok()
}

// Draw a draft.
fn draw_draft(portrait: &mut Portrait, draft: &Draft) -> Option<()> {
    portrait.draw_number(u64::from(draft.horizon()))?;
    portrait.draw_cars(draft.road())
}

// The input of a draft's next step, as a call.
#[derive(Drop)]
struct Entering {
    draft: Draft,
    speeds: &'static [u8],
}

// Return whether the cars of an input have these speeds.
fn have_speeds(alloc: Global, input: &StepInput, speeds: &[u8]) -> Option<bool> {
    Some(input.speeds(alloc).ok()?.as_slice() == speeds)
}

impl Call for Entering {
    type Answer = Arc<StepInput>;

    type Fault = OutOfMemory;

    fn draw(&mut self, _alloc: Global, portrait: &mut Portrait) -> Option<()> {
        draw_draft(portrait, &self.draft)
    }

    fn make(&mut self, alloc: Global) -> Result<Arc<StepInput>, OutOfMemory> {
        self.draft.input(alloc)
    }

    fn is_right(&mut self, alloc: Global, input: Arc<StepInput>) -> Option<bool> {
        have_speeds(alloc, &input, self.speeds)
    }
}

/// Try the input of the step after some steps. The cars must get these speeds.
pub(crate) fn try_input(
    alloc: Global,
    until: Until,
    steps: u32,
    speeds: &'static [u8],
) -> Option<Verdict> {
    let draft = draft_at(alloc, steps)?;
    try_call(alloc, until, &mut Entering { draft, speeds })
}

// Return whether a draft is as it was drawn before.
fn is_drawn(alloc: Global, draft: &Draft, before: &Portrait) -> Option<bool> {
    let mut after = Portrait::new(alloc);
    draw_draft(&mut after, draft)?;
    Some(after.is_same(before))
}

// Add one more step to a draft, and try again if that is refused.
fn push(
    alloc: Global,
    draft: &mut Draft,
    input: &StepInput,
    speeds: &[u8],
    before: &Portrait,
) -> Option<Verdict>
    requires input { input.now ≡ next_input draft.old }
    requires speeds { speeds.now ≡ input_speeds input.now }
    requires within { draft.old.horizon < GREATEST_HORIZON }
{
    match draft.push(alloc, input, speeds) {
        Ok(()) => Some(Verdict::Right),
        Err(_) => push_again(alloc, draft, input, speeds, before),
    }
}

// Add the step again to a draft that has refused it once. The draft must be unchanged.
fn push_again(
    alloc: Global,
    draft: &mut Draft,
    input: &StepInput,
    speeds: &[u8],
    before: &Portrait,
) -> Option<Verdict>
    requires input { input.now ≡ next_input draft.old }
    requires speeds { speeds.now ≡ input_speeds input.now }
    requires within { draft.old.horizon < GREATEST_HORIZON }
{
    if !is_drawn(alloc, draft, before)? {
        return Some(Verdict::Wrong(Wrong::Changed));
    }
    Some(match draft.push(alloc, input, speeds) {
        Ok(()) => Verdict::Again,
        Err(_) => Verdict::Wrong(Wrong::Again),
    })
}

// Draw a draft, and try to add one more step to it.
fn judge_push(alloc: Global, until: Until, draft: &mut Draft) -> Option<Verdict>
    requires { draft.old.horizon < GREATEST_HORIZON }
{
    let Ok(input) = draft.input(alloc) else {
        return None;
    };
    let Ok(speeds) = input.speeds(alloc) else {
        return None;
    };
    let mut before = Portrait::new(alloc);
    draw_draft(&mut before, draft)?;
    if until == Until::Prepared {
        return Some(Verdict::Stopped);
    }
    push(alloc, draft, &input, &speeds, &before)
}

// Return the verdict on a draft after one more step: its last row must be this one.
fn is_pushed(alloc: Global, draft: Draft, row: &str, verdict: Verdict) -> Option<Verdict> {
    let sheet = draft.sheet();
    let is_shown = shows_row(alloc, &sheet, sheet.horizon(), row)?;
    Some(verdict_of(verdict, is_shown))
}

/// Try to add one more step after some steps. The row after it must be this one.
pub(crate) fn try_push(alloc: Global, until: Until, steps: u32, row: &str) -> Option<Verdict> {
    let mut draft = draft_at(alloc, steps)?;
    if draft.horizon() >= GREATEST_HORIZON {
        return None;
    }
    let verdict = judge_push(alloc, until, &mut draft)?;
    if until == Until::Judged {
        is_pushed(alloc, draft, row, verdict)
    } else {
        Some(Verdict::Stopped)
    }
}
