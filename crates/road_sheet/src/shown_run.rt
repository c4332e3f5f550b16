//! The run of a sheet that queries keep under way. It continues if the next query is for a later step, and otherwise
//! restarts at a road that the sheet has stored.

ghost use Rattle.std.specs.Prelude.{◌≡◌, ◌<◌, ◌≤◌, ◌+◌, ℕ, IfOk, IfSome, IsTrue, OnOk};
ghost use Rattle.std.specs.Prelude.{length, map, string_bytes};
ghost use Rattle.std.specs.List.{slice_index_or};
ghost use Rattle.road_plan.specs.declared.limits.TheConstants.{GREATEST_HORIZON};
ghost use Rattle.road_scenario.specs.Settings.{settings_of};
ghost use Rattle.road_detector.specs.Passes.{no_totals, passes, plus};
ghost use Rattle.road_sheet.specs.Sheets.{rows_of, sheet_row, state_of, total_of};

use crate::interval::INTERVAL_STEPS;
use crate::settings_cache::SettingsCache;
use crate::sheet::Sheet;
use crate::simulation::State;
use road_cells::Road;
use road_columns::UnderWay;
use road_detector::Totals;
use road_ends::Stretch;
use road_ends::laws::cars_stay_on_road;
use road_plan::OutOfMemory;
use std::alloc::Global;
use std::sync::Arc;

// A sheet's run under way, a step whose settings it has (`under`), and the last settings that were made.
#[derive(Drop)]
pub(crate) struct ShownRun {
    run: UnderWay,
    under: u32,
    settings: SettingsCache,
}

impl ShownRun {
    ghost use Rattle.road_sheet.specs.SettingsCaches.{AreCached};
    ghost use Rattle.road_sheet.specs.ShownRuns.{IsShownBy};

    // Begin a run at the last stored state of a sheet that is not after a step. If there is a spare run of the sheet's
    // plan, reuse its memory.
    pub(crate) fn resume(
        alloc: Global,
        sheet: &Sheet,
        spare: Option<UnderWay>,
        step: u32,
    ) -> Result<ShownRun, OutOfMemory>
        requires simulated { step ≤ sheet.now.horizon }
        requires horizon { step ≤ GREATEST_HORIZON }
        requires plan { IfSome spare (λ run. run.plan ≡ sheet.now.plan) }
        ensures { IfOk result (IsShownBy sheet.now) }
    {
        let Some(run) = spare else {
            return ShownRun::start(alloc, sheet, step);
        };
        let mut shown = ShownRun {
            run,
            under: 0,
            settings: SettingsCache::none(),
        };
        shown.take_up(alloc, sheet, step)?;
        Ok(shown)
    }

    // Begin a run at the last stored state of a sheet that is not after a step, in new memory.
    fn start(alloc: Global, sheet: &Sheet, step: u32) -> Result<ShownRun, OutOfMemory>
        requires simulated { step ≤ sheet.now.horizon }
        requires horizon { step ≤ GREATEST_HORIZON }
        ensures { IfOk result (IsShownBy sheet.now) }
    {
        let state = sheet.kept_state(alloc, step)?;
        let mut cache = SettingsCache::none();
        let settings = cache.at(alloc, sheet, state.step)?;
        let whole = Stretch {
            first: 0,
            end: sheet.plan().length(),
        };
        cars_stay_on_road(sheet.plan());
        let plan = Arc::try_clone(sheet.plan())?;
        let begun = UnderWay::start_on(alloc, plan, settings, state.step, whole, &state.road)?;
        let Some(run) = begun else {
            unreachable!();
        };
        Ok(ShownRun {
            run,
            under: state.step,
            settings: cache,
        })
    }

    // Return the run, so that its memory can be reused.
    pub(crate) fn into_run(self) -> UnderWay
        ensures { result ≡ self.run }
    {
        let ShownRun { run, .. } = self;
        run
    }

    // Go to a step. Continue from where the run is, unless it is past the step or a stored road is nearer: then restart
    // at that road. Stored roads are those at the first step of each interval and at the horizon.
    pub(crate) fn go_to(
        &mut self,
        alloc: Global,
        sheet: &Sheet,
        step: u32,
    ) -> Result<(), OutOfMemory>
        requires simulated { step ≤ sheet.now.horizon }
        requires horizon { step ≤ GREATEST_HORIZON }
        requires shown { IsShownBy sheet.now self.old }
        ensures step { OnOk result (self.new.run.step ≡ step) }
        ensures shown { OnOk result (IsShownBy sheet.now self.new) }
    {
        if !self.is_nearest(sheet, step) {
            self.take_up(alloc, sheet, step)?;
        }
        for now in self.run.next_step()..step {
            self.step_on(alloc, sheet)?;
        }
        Ok(())
    }

    // Return whether the run is before or at a step, and no stored road is nearer to the step.
    fn is_nearest(&self, sheet: &Sheet, step: u32) -> bool
        ensures { IsTrue result → self.now.run.step ≤ step }
    {
        let last = self.run.next_step();
        last == step
            || (last < step && step - last <= step % INTERVAL_STEPS && step < sheet.horizon())
    }

    // Restart the run at the last stored state of the sheet that is not after a step.
    fn take_up(&mut self, alloc: Global, sheet: &Sheet, step: u32) -> Result<(), OutOfMemory>
        requires simulated { step ≤ sheet.now.horizon }
        requires horizon { step ≤ GREATEST_HORIZON }
        requires plan { self.old.run.plan ≡ sheet.now.plan }
        requires cached { AreCached sheet.now.plan sheet.now.edits self.old.settings }
        ensures before { OnOk result (self.new.run.step ≤ step) }
        ensures shown { OnOk result (IsShownBy sheet.now self.new) }
    {
        let kept = sheet.kept_state(alloc, step)?;
        let settings = self.settings.at(alloc, sheet, kept.step)?;
        let whole = Stretch {
            first: 0,
            end: sheet.plan().length(),
        };
        cars_stay_on_road(sheet.plan());
        let _taken = self
            .run
            .restart_on(alloc, settings, kept.step, whole, &kept.road)?;
        self.under = kept.step;
        Ok(())
    }

    // Make the next step, under its own settings.
    pub(crate) fn step_on(&mut self, alloc: Global, sheet: &Sheet) -> Result<(), OutOfMemory>
        requires horizon { self.old.run.step < GREATEST_HORIZON }
        requires shown { IsShownBy sheet.now self.old }
        ensures step { OnOk result (self.new.run.step ≡ self.old.run.step + 1) }
        ensures each { OnOk result (length self.new.run.totals ≡ length self.old.run.totals) }
        ensures counted { OnOk result ((d : ℕ) → d < length self.old.run.totals →
            slice_index_or self.new.run.totals d no_totals
            ≡ plus (slice_index_or self.old.run.totals d no_totals)
            (passes sheet.now.plan (settings_of sheet.now.plan sheet.now.edits) d self.old.run.step)) }
        ensures shown { OnOk result (IsShownBy sheet.now self.new) }
    {
        self.settle(alloc, sheet)?;
        self.run.step(alloc, INTERVAL_STEPS)?;
        Ok(())
    }

    // Give the run the settings of its step.
    fn settle(&mut self, alloc: Global, sheet: &Sheet) -> Result<(), OutOfMemory>
        requires { IsShownBy sheet.now self.old }
        ensures settled { OnOk result (self.new.run ≡ record self.old.run
            { settings = settings_of sheet.now.plan sheet.now.edits self.old.run.step }) }
        ensures shown { OnOk result (IsShownBy sheet.now self.new) }
    {
        let step = self.run.next_step();
        if self.settings.are_at(self.under, step) {
            return Ok(());
        }
        let later = self.settings.at(alloc, sheet, step)?;
        self.run.change(alloc, later)?;
        self.under = step;
        Ok(())
    }

    // ---- what queries read

    // Return the road before its next step.
    pub(crate) fn road(&self, alloc: Global) -> Result<Road, OutOfMemory>
        ensures { IfOk result (λ road. road ≡ self.now.run.road) }
    {
        self.run.road(alloc)
    }

    // Write the row of its step.
    #[tactic(auto, unfolding(crate::specs::Shown::row_at))]
    pub(crate) fn row(&mut self, alloc: Global, sheet: &Sheet) -> Result<String, OutOfMemory>
        requires { IsShownBy sheet.now self.old }
        ensures row { IfOk result (λ row. string_bytes row ≡ sheet_row sheet.now self.old.run.step) }
        ensures step { OnOk result (self.new.run.step ≡ self.old.run.step) }
        ensures shown { OnOk result (IsShownBy sheet.now self.new) }
    {
        self.settle(alloc, sheet)?;
        self.run.row(alloc)
    }

    // Write the rows from that of the run's step to that of the step `to`, both included.
    pub(crate) fn rows_to(
        &mut self,
        alloc: Global,
        sheet: &Sheet,
        to: u32,
    ) -> Result<Vec<String>, OutOfMemory>
        requires before { self.old.run.step ≤ to }
        requires horizon { to ≤ GREATEST_HORIZON }
        requires shown { IsShownBy sheet.now self.old }
        ensures rows { IfOk result (λ rows. map string_bytes rows.items ≡ rows_of sheet.now self.old.run.step to) }
        ensures shown { OnOk result (IsShownBy sheet.now self.new) }
    {
        let mut rows = Vec::new(alloc);
        let first = self.row(alloc, sheet)?;
        rows.push(first)?;
        for step in self.run.next_step()..to {
            self.step_on(alloc, sheet)?;
            let row = self.row(alloc, sheet)?;
            rows.push(row)?;
        }
        Ok(rows)
    }

    // Make the steps up to the step `to`, and return what a detector counts in them.
    pub(crate) fn count_to(
        &mut self,
        alloc: Global,
        sheet: &Sheet,
        detector: u32,
        to: u32,
    ) -> Result<Totals, OutOfMemory>
        requires in_plan { detector < length sheet.now.plan.detectors }
        requires before { self.old.run.step ≤ to }
        requires horizon { to ≤ GREATEST_HORIZON }
        requires shown { IsShownBy sheet.now self.old }
        ensures totals { IfOk result (λ totals. totals ≡ total_of sheet.now detector self.old.run.step to) }
        ensures shown { OnOk result (IsShownBy sheet.now self.new) }
    {
        self.run.restart_counts();
        for counted in self.run.next_step()..to {
            self.step_on(alloc, sheet)?;
        }
        let totals = self.run.totals(alloc)?;
        Ok(totals[detector as usize])
    }
}
