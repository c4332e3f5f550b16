//! The crew without threads.

ghost use Rattle.std.specs.Prelude.{◌≡◌, ◌≢◌, ◌<◌, IfOk, IfSome, IsSome, Err};
ghost use Rattle.std.specs.Arc.{arc_value};
ghost use Rattle.road_ends.specs.Input.{input_speeds};
ghost use Rattle.road_ends.specs.Span.{span_road};
ghost use Rattle.road_detector.specs.Passes.{span_totals};
ghost use Rattle.road_columns.specs.RoadOrRun.{road_now};
ghost use Rattle.road_workers.specs.Crews.{CanBeRun, gone_after};
ghost use Rattle.road_workers.specs.declared.faults.CrewFault.TheVariants.{WorkersGone};

use crate::crew::Crew;
use crate::faults::CrewFault;
use crate::whole::run_alone;
use road_columns::{RoadOrRun, SpanOutcome};
use road_ends::{Span, StepInput};
use road_plan::limits::GREATEST_HORIZON;
use std::alloc::Global;
use std::sync::Arc;

/// The crew without threads: the caller computes everything itself. It has no worker that can go, and never waits.
#[derive(Clone, Copy, Debug, PartialEq, Eq)]
pub struct Alone;

impl Crew for Alone {
    // Its count is 0 by definition: it has no worker that can go.
    ghost times_gone = { λ _. 0 };

    fn speeds(&mut self, alloc: Global, input: &Arc<StepInput>) -> Result<Vec<u8>, CrewFault>
        ensures speeds { IfOk result (λ new. new.items ≡ input_speeds (arc_value input.now)) }
        ensures gone { ⟦<Alone as Crew>⟧.times_gone self.new
            ≡ gone_after result (⟦<Alone as Crew>⟧.times_gone self.old) }
        ensures memory_at_most { result ≢ Err WorkersGone }
    {
        Ok(input.speeds(alloc)?)
    }

    fn most_steps(&self) -> u32
        ensures { 0 < result }
    {
        GREATEST_HORIZON
    }

    fn run(
        &mut self,
        alloc: Global,
        span: &Span,
        road: RoadOrRun,
    ) -> Result<Option<SpanOutcome>, CrewFault>
        ensures road { IfOk result (λ done. IfSome done (λ ran. road_now ran.road
            ≡ span_road span.now (road_now road))) }
        ensures totals { IfOk result (λ done. IfSome done (λ ran. ran.totals.items
            ≡ span_totals span.now (road_now road))) }
        ensures some { IfOk result (λ done. CanBeRun span.now (road_now road) → IsSome done) }
        ensures gone { ⟦<Alone as Crew>⟧.times_gone self.new
            ≡ gone_after result (⟦<Alone as Crew>⟧.times_gone self.old) }
        ensures memory_at_most { result ≢ Err WorkersGone }
    {
        Ok(run_alone(alloc, span, road)?)
    }
}
