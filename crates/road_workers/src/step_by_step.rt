//! One step of a span that is run one step after another.

ghost use Rattle.std.specs.Prelude.{◌≡◌, ◌<◌, ◌+◌, ◌^◌, ℕ, length, IfOk};
ghost use Rattle.std.specs.Arc.{arc_value};
ghost use Rattle.std.specs.List.{slice_index_or};
ghost use Rattle.road_cells.specs.Cars.{cars_of};
ghost use Rattle.road_ends.specs.Input.{input_of};
ghost use Rattle.road_detector.specs.Passes.{no_totals, passes_at, plus};

use road_cells::Road;
use road_detector::{Totals, passes};
use road_ends::{OutOfMemory, Span, StepInput, enter};
use road_plan::Settings;
use road_plan::limits::GREATEST_HORIZON;
use std::alloc::Global;
use std::sync::Arc;

// Make the input of a step of a span, after the first `made` steps, from the road before it.
pub(crate) fn enter_step(
    alloc: Global,
    span: &Span,
    made: u32,
    road: &Road,
) -> Result<Arc<StepInput>, OutOfMemory>
    requires { made < span.now.steps }
    ensures { IfOk result (λ input. arc_value input
        ≡ input_of span.now.plan span.now.settings (span.now.step + made) road.now) }
{
    prove!(span.steps() <= GREATEST_HORIZON);
    let settings = copy_of(span.settings())?;
    enter(alloc, span.plan(), settings, span.step() + made, road)
}

fn copy_of(settings: &Settings) -> Result<Settings, OutOfMemory>
    ensures { IfOk result (λ copy. copy ≡ settings.now) }
{
    Ok(Settings {
        limits: settings.limits.clone()?,
        chances: settings.chances.clone()?,
        inflows: settings.inflows.clone()?,
        blocks: settings.blocks.clone()?,
        watched: settings.watched.clone()?,
        starts: settings.starts.clone()?,
    })
}

// Add the counts of a step to the totals of each detector.
pub(crate) fn count_passes(totals: &mut Vec<Totals>, input: &StepInput, speeds: &[u8])
    requires one_each { length speeds.now ≡ length (cars_of input.now.road) }
    requires each { length totals.old.items ≡ length input.now.plan.detectors }
    requires cars { (d : ℕ) → d < length totals.old.items →
        (slice_index_or totals.old.items d no_totals).cars + (passes_at input.now speeds.now d).cars < 2 ^ 32 }
    requires speeds { (d : ℕ) → d < length totals.old.items →
        (slice_index_or totals.old.items d no_totals).speeds + (passes_at input.now speeds.now d).speeds < 2 ^ 32 }
    ensures each { length totals.new.items ≡ length totals.old.items }
    ensures totals { (d : ℕ) → d < length totals.old.items → slice_index_or totals.new.items d no_totals
        ≡ plus (slice_index_or totals.old.items d no_totals) (passes_at input.now speeds.now d) }
{
    for detector in 0..input.plan().detectors().len() {
        let passed = passes(input, speeds, detector as u32);
        totals[detector] = totals[detector].plus(passed);
    }
}
