//! What a crew does, and how it counts its answers `WorkersGone`.

ghost use Rattle.std.specs.Prelude.{◌≡◌, ◌<◌, ℕ, IfOk, IfSome, IsSome};
ghost use Rattle.std.specs.Arc.{arc_value};
ghost use Rattle.road_ends.specs.Input.{input_speeds};
ghost use Rattle.road_ends.specs.Span.{span_road};
ghost use Rattle.road_detector.specs.Passes.{span_totals};
ghost use Rattle.road_columns.specs.RoadOrRun.{road_now};
ghost use Rattle.road_workers.specs.Crews.{CanBeRun, gone_after};

use crate::faults::CrewFault;
use crate::step_by_step::{count_passes, enter_step};
use road_columns::{RoadOrRun, SpanOutcome};
use road_detector::Totals;
use road_ends::{Span, StepInput, finish};
use std::alloc::Global;
use std::sync::Arc;

/// Crews run roads: several steps of a span in one call, or one step after another.
pub trait Crew {
    /// How often the crew has answered `WorkersGone`, at most 2^64 - 1. Only contracts see this count.
    ghost times_gone: { Self → ℕ };

    /// Compute the new speeds of all cars of a step, in their order, by rules 1 to 3. They are the same for every crew
    /// and every number of workers.
    ///
    /// # Errors
    ///
    /// `WorkersGone` if a worker could not be started or has gone, otherwise `OutOfMemory` if an allocation failed.
    fn speeds(&mut self, alloc: Global, input: &Arc<StepInput>) -> Result<Vec<u8>, CrewFault>
        ensures speeds { IfOk result (λ new. new.items ≡ input_speeds (arc_value input.now)) }
        ensures gone { times_gone self.new ≡ gone_after result (times_gone self.old) };

    /// Return the maximum number of steps that this crew should run in one call, at least one. A caller that counts
    /// steps counts them after each call, so it should not ask for more.
    fn most_steps(&self) -> u32
        ensures { 0 < result }
    {
        1
    }

    /// Run all steps of a span from the road before them. By default the crew computes the speeds of one step after
    /// another. A crew that runs spans as a whole may continue a run that has reached this road, and return the run in
    /// the outcome. Return `None` only if the span has no steps, or some car on the road cannot be held in a run.
    ///
    /// # Errors
    ///
    /// The errors of [`Crew::speeds`].
    fn run(
        &mut self,
        alloc: Global,
        span: &Span,
        road: RoadOrRun,
    ) -> Result<Option<SpanOutcome>, CrewFault>
        ensures road { IfOk result (λ done. IfSome done (λ ran. road_now ran.road
            ≡ span_road span.now (road_now road))) }
        ensures totals { IfOk result (λ done. IfSome done (λ ran. ran.totals.items
            ≡ span_totals span.now (road_now road))) }
        ensures some { IfOk result (λ done. CanBeRun span.now (road_now road) → IsSome done) }
        ensures gone { times_gone self.new ≡ gone_after result (times_gone self.old) }
    {
        let detectors = span.plan().detectors().len();
        let mut totals = vec![in alloc; Totals { cars: 0, speeds: 0 }; detectors]?;
        let mut before = road.into_road(alloc)?;
        for made in 0..span.steps() {
            let input = enter_step(alloc, span, made, &before)?;
            let speeds = self.speeds(alloc, &input)?;
            count_passes(&mut totals, &input, &speeds);
            before = finish(alloc, &input, &speeds)?;
        }
        Ok(Some(SpanOutcome {
            road: RoadOrRun::Road(before),
            totals,
        }))
    }
}

// Return the count of answers `WorkersGone` after this answer.
pub(crate) fn gone_after<T>(answer: &Result<T, CrewFault>, gone: u64) -> u64
    ensures { result ≡ gone_after answer.now gone }
{
    match answer {
        Err(CrewFault::WorkersGone) => gone.saturating_add(1),
        _ => gone,
    }
}
