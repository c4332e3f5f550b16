//! The only reader of sheets. It keeps the run of its last query under way, and a query at a later step continues it
//! (`ShownRun::go_to`). No clause says so: a new run for each query gives the same answers.

ghost use Rattle.std.specs.Prelude.{◌≡◌, ◌<◌, ◌≤◌, ◌+◌, ◌-◌, ◌%◌, IfErr, IfOk, IsOk, None};
ghost use Rattle.std.specs.Prelude.{length, map, string_bytes};
ghost use Rattle.road_plan.specs.declared.limits.TheConstants.{GREATEST_HORIZON};
ghost use Rattle.road_sheet.specs.Sheets.{AreWholeIntervals, IsRefusalBy, Sheet, rows_fault, rows_of, sheet_row};
ghost use Rattle.road_sheet.specs.Sheets.{state_fault, state_of, total_of, totals_fault};

use crate::faults::SheetFault;
use crate::interval::INTERVAL_STEPS;
use crate::sheet::Sheet;
use crate::shown_run::ShownRun;
use road_cells::Road;
use road_columns::UnderWay;
use road_detector::Totals;
use road_detector::laws::totals_are_bounded;
use road_plan::OutOfMemory;
use road_plan::limits::MOST_ROWS;
use std::alloc::Global;
use std::mem;

// At most this many steps are counted one after another. More steps are counted interval by interval, which computes
// about as many steps on average.
const MOST_COUNTED_STEPS: u32 = INTERVAL_STEPS;

/// The run that the last query left under way, or the memory of a run under other edits.
#[derive(Drop)]
pub struct QueryCache {
    run: Option<ShownRun>,
    // A run of the same plan that is no longer shown. The next run reuses its memory.
    spare: Option<UnderWay>,
}

impl QueryCache {
    ghost use Rattle.road_sheet.specs.QueryCaches.{IsCacheOf};
    ghost use Rattle.road_sheet.specs.ShownRuns.{IsShownBy};

    /// Make a cache without a run. It does not allocate.
    pub fn new() -> QueryCache
        ensures { (sheet : Sheet) → IsCacheOf sheet result }
    {
        QueryCache {
            run: None,
            spare: None,
        }
    }

    /// Forget the run, since other edits are in force. The next run reuses its memory.
    pub fn restart(&mut self)
        ensures { (before after : Sheet) → before.plan ≡ after.plan →
            IsCacheOf before self.old → IsCacheOf after self.new }
    {
        if let Some(shown) = mem::replace(&mut self.run, None) {
            self.spare = Some(shown.into_run());
        }
    }

    /// Return the road at a step.
    ///
    /// # Errors
    ///
    /// `NotSimulated` if the step is above the horizon, else `OutOfMemory` if an allocation failed.
    pub fn state(&mut self, alloc: Global, sheet: &Sheet, step: u32) -> Result<Road, SheetFault>
        requires { IsCacheOf sheet.now self.old }
        ensures state { IfOk result (λ road. road ≡ state_of sheet.now step) }
        ensures accepted { IfOk result (λ _. state_fault sheet.now step ≡ None) }
        ensures refused { IfErr result (λ fault. IsRefusalBy (state_fault sheet.now step) fault) }
        ensures cached { IsCacheOf sheet.now self.new }
    {
        let shown = self.shown_at(alloc, sheet, step)?;
        let road = shown.road(alloc)?;
        self.run = Some(shown);
        Ok(road)
    }

    /// Return the row of a step, with the blocks of that step.
    ///
    /// # Errors
    ///
    /// `NotSimulated` if the step is above the horizon, else `OutOfMemory` if an allocation failed.
    pub fn row(&mut self, alloc: Global, sheet: &Sheet, step: u32) -> Result<String, SheetFault>
        requires { IsCacheOf sheet.now self.old }
        ensures row { IfOk result (λ row. string_bytes row ≡ sheet_row sheet.now step) }
        ensures accepted { IfOk result (λ _. state_fault sheet.now step ≡ None) }
        ensures refused { IfErr result (λ fault. IsRefusalBy (state_fault sheet.now step) fault) }
        ensures cached { IsCacheOf sheet.now self.new }
    {
        let mut shown = self.shown_at(alloc, sheet, step)?;
        let row = shown.row(alloc, sheet)?;
        self.run = Some(shown);
        Ok(row)
    }

    /// Return what a detector counts in the steps from `from` to before `to`. The counts of whole intervals are stored,
    /// so reading them does not fail.
    ///
    /// # Errors
    ///
    /// `NoDetector` if the plan has no such detector, else `Range` if `from` is above `to`, else `NotSimulated`
    /// if `to` is above the horizon, else `OutOfMemory` if an allocation failed.
    pub fn totals(
        &mut self,
        alloc: Global,
        sheet: &Sheet,
        detector: u32,
        from: u32,
        to: u32,
    ) -> Result<Totals, SheetFault>
        requires { IsCacheOf sheet.now self.old }
        ensures totals { IfOk result (λ totals. totals ≡ total_of sheet.now detector from to) }
        ensures accepted { IfOk result (λ _. totals_fault sheet.now detector from to ≡ None) }
        ensures refused { IfErr result (λ fault. IsRefusalBy (totals_fault sheet.now detector from to) fault) }
        ensures kept { totals_fault sheet.now detector from to ≡ None → AreWholeIntervals sheet.now from to
            → IsOk result }
        ensures cached { IsCacheOf sheet.now self.new }
    {
        if detector as usize >= sheet.plan().detectors().len() {
            return Err(SheetFault::NoDetector);
        }
        if from > to {
            return Err(SheetFault::Range);
        }
        if sheet.horizon() < to {
            return Err(SheetFault::NotSimulated);
        }
        Ok(self.totals_between(alloc, sheet, detector, from, to)?)
    }

    /// Return the rows of the steps from `from` to `to`, both included, each with the blocks of its step.
    ///
    /// # Errors
    ///
    /// `Range` if `from` is above `to` or there are more than 1,024 rows, else `NotSimulated` if `to` is above the
    /// horizon, else `OutOfMemory` if an allocation failed.
    pub fn rows(
        &mut self,
        alloc: Global,
        sheet: &Sheet,
        from: u32,
        to: u32,
    ) -> Result<Vec<String>, SheetFault>
        requires { IsCacheOf sheet.now self.old }
        ensures rows { IfOk result (λ rows. map string_bytes rows.items ≡ rows_of sheet.now from to) }
        ensures accepted { IfOk result (λ _. rows_fault sheet.now from to ≡ None) }
        ensures refused { IfErr result (λ fault. IsRefusalBy (rows_fault sheet.now from to) fault) }
        ensures cached { IsCacheOf sheet.now self.new }
    {
        if from > to || to - from >= MOST_ROWS {
            return Err(SheetFault::Range);
        }
        if sheet.horizon() < to {
            return Err(SheetFault::NotSimulated);
        }
        Ok(self.rows_between(alloc, sheet, from, to)?)
    }

    // ---- the run under way

    // Take the run out of the cache and bring it to a step, if that step is simulated.
    fn shown_at(&mut self, alloc: Global, sheet: &Sheet, step: u32) -> Result<ShownRun, SheetFault>
        requires { IsCacheOf sheet.now self.old }
        ensures step { IfOk result (λ shown. shown.run.step ≡ step) }
        ensures shown { IfOk result (IsShownBy sheet.now) }
        ensures accepted { IfOk result (λ _. state_fault sheet.now step ≡ None) }
        ensures refused { IfErr result (λ fault. IsRefusalBy (state_fault sheet.now step) fault) }
        ensures cached { IsCacheOf sheet.now self.new }
    {
        if sheet.horizon() < step {
            return Err(SheetFault::NotSimulated);
        }
        Ok(self.run_at(alloc, sheet, step)?)
    }

    // Take the run out of the cache and bring it to a step. It is lost if an allocation fails.
    fn run_at(&mut self, alloc: Global, sheet: &Sheet, step: u32) -> Result<ShownRun, OutOfMemory>
        requires simulated { step ≤ sheet.now.horizon }
        requires horizon { step ≤ GREATEST_HORIZON }
        requires cached { IsCacheOf sheet.now self.old }
        ensures step { IfOk result (λ shown. shown.run.step ≡ step) }
        ensures shown { IfOk result (IsShownBy sheet.now) }
        ensures cached { IsCacheOf sheet.now self.new }
    {
        let mut shown = match mem::replace(&mut self.run, None) {
            Some(shown) => shown,
            None => {
                let spare = mem::replace(&mut self.spare, None);
                ShownRun::resume(alloc, sheet, spare, step)?
            }
        };
        shown.go_to(alloc, sheet, step)?;
        Ok(shown)
    }

    // Write the rows of the steps from `from` to `to`, both included.
    fn rows_between(
        &mut self,
        alloc: Global,
        sheet: &Sheet,
        from: u32,
        to: u32,
    ) -> Result<Vec<String>, OutOfMemory>
        requires order { from ≤ to }
        requires simulated { to ≤ sheet.now.horizon }
        requires horizon { to ≤ GREATEST_HORIZON }
        requires cached { IsCacheOf sheet.now self.old }
        ensures rows { IfOk result (λ rows. map string_bytes rows.items ≡ rows_of sheet.now from to) }
        ensures cached { IsCacheOf sheet.now self.new }
    {
        let mut shown = self.run_at(alloc, sheet, from)?;
        let rows = shown.rows_to(alloc, sheet, to)?;
        self.run = Some(shown);
        Ok(rows)
    }

    // ---- counts

    // Count the steps from `from` to before `to`: a few steps one after another, more of them interval by interval.
    fn totals_between(
        &mut self,
        alloc: Global,
        sheet: &Sheet,
        detector: u32,
        from: u32,
        to: u32,
    ) -> Result<Totals, OutOfMemory>
        requires in_plan { detector < length sheet.now.plan.detectors }
        requires order { from ≤ to }
        requires simulated { to ≤ sheet.now.horizon }
        requires horizon { to ≤ GREATEST_HORIZON }
        requires cached { IsCacheOf sheet.now self.old }
        ensures totals { IfOk result (λ totals. totals ≡ total_of sheet.now detector from to) }
        ensures kept { AreWholeIntervals sheet.now from to → IsOk result }
        ensures cached { IsCacheOf sheet.now self.new }
    {
        if from % INTERVAL_STEPS != 0 && to - from <= MOST_COUNTED_STEPS {
            return self.count_steps(alloc, sheet, detector, from, to);
        }
        totals_are_bounded(sheet.plan());
        let mut totals = Totals { cars: 0, speeds: 0 };
        let mut begin = from;
        while begin < to {
            let end = (begin - begin % INTERVAL_STEPS + INTERVAL_STEPS).min(to);
            let counted = self.totals_in(alloc, sheet, detector, begin, end)?;
            totals = totals.plus(counted);
            begin = end;
        }
        Ok(totals)
    }

    // Count some steps of one interval. The counts of all its simulated steps are stored. For the last of these steps,
    // the counts of the steps before them are subtracted.
    fn totals_in(
        &mut self,
        alloc: Global,
        sheet: &Sheet,
        detector: u32,
        from: u32,
        to: u32,
    ) -> Result<Totals, OutOfMemory>
        requires in_plan { detector < length sheet.now.plan.detectors }
        requires order { from < to }
        requires ended { to ≤ from - from % INTERVAL_STEPS + INTERVAL_STEPS }
        requires simulated { to ≤ sheet.now.horizon }
        requires cached { IsCacheOf sheet.now self.old }
        ensures totals { IfOk result (λ totals. totals ≡ total_of sheet.now detector from to) }
        ensures kept { AreWholeIntervals sheet.now from to → IsOk result }
        ensures cached { IsCacheOf sheet.now self.new }
    {
        let horizon = sheet.horizon();
        let first = from - from % INTERVAL_STEPS;
        let end = (first + INTERVAL_STEPS).min(horizon);
        if to < end {
            return self.count_steps(alloc, sheet, detector, from, to);
        }
        let whole = sheet.interval_totals(first / INTERVAL_STEPS, detector);
        if from == first {
            return Ok(whole);
        }
        let before = self.count_steps(alloc, sheet, detector, first, from)?;
        Ok(Totals {
            cars: whole.cars - before.cars,
            speeds: whole.speeds - before.speeds,
        })
    }

    // Count some steps one after another.
    fn count_steps(
        &mut self,
        alloc: Global,
        sheet: &Sheet,
        detector: u32,
        from: u32,
        to: u32,
    ) -> Result<Totals, OutOfMemory>
        requires in_plan { detector < length sheet.now.plan.detectors }
        requires order { from ≤ to }
        requires simulated { to ≤ sheet.now.horizon }
        requires horizon { to ≤ GREATEST_HORIZON }
        requires cached { IsCacheOf sheet.now self.old }
        ensures totals { IfOk result (λ totals. totals ≡ total_of sheet.now detector from to) }
        ensures cached { IsCacheOf sheet.now self.new }
    {
        let mut shown = self.run_at(alloc, sheet, from)?;
        let totals = shown.count_to(alloc, sheet, detector, to)?;
        self.run = Some(shown);
        Ok(totals)
    }
}
