//! Intervals: the steps from a checkpoint up to the next.

ghost use Rattle.std.specs.Prelude.{◌≡◌, ◌<◌, ◌+◌, ◌^◌, ℕ, length, replicate, IfOk};
ghost use Rattle.std.specs.List.{slice_index_or};
ghost use Rattle.road_cells.specs.Cars.{cars_of};
ghost use Rattle.road_detector.specs.Passes.{no_totals, passes_at, plus};

use crate::checkpoint::Checkpoint;
use road_detector::{OutOfMemory, Totals, passes};
use road_ends::StepInput;
use std::alloc::Global;

/// The number of steps of a whole interval.
pub const INTERVAL_STEPS: u32 = 64;

/// The road at an interval's first step, and what each detector counts in its simulated steps.
#[derive(Drop)]
pub struct Interval {
    pub(crate) start: Checkpoint,
    pub(crate) totals: Vec<Totals>,
}

impl Interval {
    // Make an interval without a simulated step.
    pub(crate) fn begin(
        alloc: Global,
        start: Checkpoint,
        detectors: usize,
    ) -> Result<Interval, OutOfMemory>
        ensures start { IfOk result (λ interval. interval.start ≡ start) }
        ensures totals { IfOk result (λ interval. interval.totals.items ≡ replicate detectors no_totals) }
    {
        let totals = vec![in alloc; Totals { cars: 0, speeds: 0 }; detectors]?;
        Ok(Interval { start, totals })
    }

    // Make a copy: the counts are copied, and the road is shared.
    pub(crate) fn copied(&self) -> Result<Interval, OutOfMemory>
        ensures start { IfOk result (λ interval. interval.start ≡ self.now.start) }
        ensures totals { IfOk result (λ interval. interval.totals.items ≡ self.now.totals.items) }
    {
        let start = self.start.share()?;
        let totals = self.totals.clone()?;
        Ok(Interval { start, totals })
    }

    // Count one more step. It does not allocate.
    pub(crate) fn count(&mut self, input: &StepInput, speeds: &[u8])
        requires one_each { length speeds.now ≡ length (cars_of input.now.road) }
        requires each { length self.old.totals.items ≡ length input.now.plan.detectors }
        requires cars { (d : ℕ) → d < length self.old.totals.items →
            (slice_index_or self.old.totals.items d no_totals).cars + (passes_at input.now speeds.now d).cars < 2 ^ 32 }
        requires speeds { (d : ℕ) → d < length self.old.totals.items →
            (slice_index_or self.old.totals.items d no_totals).speeds
            + (passes_at input.now speeds.now d).speeds < 2 ^ 32 }
        ensures start { self.new.start ≡ self.old.start }
        ensures each { length self.new.totals.items ≡ length self.old.totals.items }
        ensures totals { (d : ℕ) → d < length self.old.totals.items →
            slice_index_or self.new.totals.items d no_totals
            ≡ plus (slice_index_or self.old.totals.items d no_totals) (passes_at input.now speeds.now d) }
    {
        for detector in 0..input.plan().detectors().len() {
            let passed = passes(input, speeds, detector as u32);
            self.totals[detector] = self.totals[detector].plus(passed);
        }
    }

    // Count more steps, given what each detector counts in them. It does not allocate.
    pub(crate) fn add(&mut self, totals: &[Totals])
        requires each { length self.old.totals.items ≡ length totals.now }
        requires cars { (d : ℕ) → d < length self.old.totals.items →
            (slice_index_or self.old.totals.items d no_totals).cars
            + (slice_index_or totals.now d no_totals).cars < 2 ^ 32 }
        requires speeds { (d : ℕ) → d < length self.old.totals.items →
            (slice_index_or self.old.totals.items d no_totals).speeds
            + (slice_index_or totals.now d no_totals).speeds < 2 ^ 32 }
        ensures start { self.new.start ≡ self.old.start }
        ensures each { length self.new.totals.items ≡ length self.old.totals.items }
        ensures totals { (d : ℕ) → d < length self.old.totals.items →
            slice_index_or self.new.totals.items d no_totals
            ≡ plus (slice_index_or self.old.totals.items d no_totals) (slice_index_or totals.now d no_totals) }
    {
        for detector in 0..totals.len() {
            self.totals[detector] = self.totals[detector].plus(totals[detector]);
        }
    }
}
