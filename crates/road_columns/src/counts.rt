//! What the detectors have counted.

ghost use Rattle.std.specs.Prelude.{◌≡◌, ◌<◌, ◌≤◌, ◌+◌, ◌*◌, ◌/◌, ◌%◌, ◌^◌, ℕ, length, slice_index, IfOk, IsTrue};
ghost use Rattle.std.specs.List.{slice_index_or};
ghost use Rattle.road_detector.specs.Passes.{no_totals, plus};
ghost use Rattle.road_columns.specs.Private.Sites.{IsOfSteps, totals_of_count};
ghost use Rattle.road_columns.specs.Private.Counts.{AreCounts, total_in, totals_in};

use crate::words::INTERVAL;
use road_detector::Totals;
use road_ends::OutOfMemory;
use std::alloc::Global;

/// What each detector has counted.
#[derive(Drop)]
pub struct Counts {
    /// The counts of the current interval: 65,536 for each car, plus its speed.
    pub passes: Vec<u32>,
    /// The totals of the intervals before it.
    pub totals: Vec<Totals>,
}

impl Counts {
    /// Make the counts of this many detectors, all zero.
    ///
    /// # Errors
    ///
    /// `OutOfMemory` if an allocation fails.
    pub fn of(alloc: Global, detectors: usize) -> Result<Counts, OutOfMemory>
        ensures passes_each { IfOk result (λ counts. length counts.passes.items ≡ detectors) }
        ensures totals_each { IfOk result (λ counts. length counts.totals.items ≡ detectors) }
        ensures passes { IfOk result (λ counts. (d : ℕ) → d < detectors → slice_index counts.passes.items d ≡ 0) }
        ensures totals { IfOk result (λ counts. (d : ℕ) → d < detectors
            → slice_index_or counts.totals.items d no_totals ≡ no_totals) }
    {
        let passes = vec![in alloc; 0u32; detectors]?;
        let totals = vec![in alloc; Totals { cars: 0, speeds: 0 }; detectors]?;
        Ok(Counts { passes, totals })
    }

    /// End a step. After the last step of an interval, add the counts of the interval to the totals. Return true only if
    /// the interval continues.
    pub fn end_step(&mut self, step: u32) -> bool
        requires step { step < 2 ^ 27 }
        requires as_many { length self.old.totals.items ≡ length self.old.passes.items }
        requires counted { (d : ℕ) → d < length self.old.passes.items
            → IsOfSteps (step % 64 + 1) (slice_index self.old.passes.items d) }
        requires cars { (d : ℕ) → d < length self.old.passes.items
            → (slice_index_or self.old.totals.items d no_totals).cars ≤ 64 * (step / 64) }
        requires speeds { (d : ℕ) → d < length self.old.passes.items
            → (slice_index_or self.old.totals.items d no_totals).speeds ≤ 576 * (step / 64) }
        ensures counts { AreCounts (length self.old.passes.items) (step + 1) self.new.passes.items
            self.new.totals.items }
        ensures totals { totals_in self.new.passes.items self.new.totals.items
            ≡ totals_in self.old.passes.items self.old.totals.items }
        ensures goes_on { IsTrue result → step % 64 < 63 }
    {
        if step as usize % INTERVAL == INTERVAL - 1 {
            add_counts(&mut self.passes, &mut self.totals);
            return false;
        }
        true
    }
}

// Add the count of each detector to its totals, and set the count to zero.
#[inline(never)]
fn add_counts(passes: &mut [u32], totals: &mut [Totals])
    requires as_many { length totals.old ≡ length passes.old }
    requires cars { (d : ℕ) → d < length passes.old → (slice_index_or totals.old d no_totals).cars
        + (totals_of_count (slice_index passes.old d)).cars < 2 ^ 32 }
    requires speeds { (d : ℕ) → d < length passes.old → (slice_index_or totals.old d no_totals).speeds
        + (totals_of_count (slice_index passes.old d)).speeds < 2 ^ 32 }
    ensures passes_each { length passes.new ≡ length passes.old }
    ensures totals_each { length totals.new ≡ length totals.old }
    ensures totals { (d : ℕ) → d < length passes.old → slice_index_or totals.new d no_totals
        ≡ plus (slice_index_or totals.old d no_totals) (totals_of_count (slice_index passes.old d)) }
    ensures passes { (d : ℕ) → d < length passes.old → slice_index passes.new d ≡ 0 }
{
    for detector in 0..passes.len() {
        totals[detector] = totals[detector].plus(totals_of(passes[detector]));
        passes[detector] = 0;
    }
}

/// Return the totals of all detectors, with the counts of the current interval.
///
/// # Errors
///
/// `OutOfMemory` if an allocation fails.
pub(crate) fn totals_now(
    alloc: Global,
    passes: &[u32],
    totals: &[Totals],
) -> Result<Vec<Totals>, OutOfMemory>
    requires as_many { length totals.now ≡ length passes.now }
    requires cars { (d : ℕ) → d < length passes.now → (slice_index_or totals.now d no_totals).cars
        + (totals_of_count (slice_index passes.now d)).cars < 2 ^ 32 }
    requires speeds { (d : ℕ) → d < length passes.now → (slice_index_or totals.now d no_totals).speeds
        + (totals_of_count (slice_index passes.now d)).speeds < 2 ^ 32 }
    ensures { IfOk result (λ all. all.items ≡ totals_in passes.now totals.now) }
{
    let mut all = Vec::with_capacity(alloc, totals.len())?;
    for detector in 0..totals.len() {
        all.push(total_now(passes, totals, detector))?;
    }
    Ok(all)
}

// Return the totals of a detector, with its count in the current interval.
fn total_now(passes: &[u32], totals: &[Totals], detector: usize) -> Totals
    requires there { detector < length totals.now }
    requires as_many { length totals.now ≡ length passes.now }
    requires cars { (slice_index_or totals.now detector no_totals).cars
        + (totals_of_count (slice_index passes.now detector)).cars < 2 ^ 32 }
    requires speeds { (slice_index_or totals.now detector no_totals).speeds
        + (totals_of_count (slice_index passes.now detector)).speeds < 2 ^ 32 }
    ensures { result ≡ total_in passes.now totals.now detector }
{
    totals[detector].plus(totals_of(passes[detector]))
}

/// Set all counts and totals to zero.
pub(crate) fn clear_counts(passes: &mut [u32], totals: &mut [Totals])
    requires as_many { length totals.old ≡ length passes.old }
    ensures passes_each { length passes.new ≡ length passes.old }
    ensures totals_each { length totals.new ≡ length totals.old }
    ensures passes { (d : ℕ) → d < length passes.old → slice_index passes.new d ≡ 0 }
    ensures totals { (d : ℕ) → d < length totals.old → slice_index_or totals.new d no_totals ≡ no_totals }
{
    for detector in 0..passes.len() {
        passes[detector] = 0;
        totals[detector] = Totals { cars: 0, speeds: 0 };
    }
}

// Unpack the count of an interval into totals.
fn totals_of(count: u32) -> Totals
    ensures { result ≡ totals_of_count count }
{
    Totals {
        cars: count / 65_536,
        speeds: count % 65_536,
    }
}
