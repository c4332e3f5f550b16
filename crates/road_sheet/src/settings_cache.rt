//! The cache of the settings that a run uses from one step to the next.

ghost use Rattle.std.specs.Prelude.{◌≡◌, ◌<◌, ◌≤◌, ◌⊎◌, ℕ, IfOk, IfSome, IsTrue};
ghost use Rattle.std.specs.Arc.{arc_value};
ghost use Rattle.road_plan.specs.Plan.{Plan};
ghost use Rattle.road_plan.specs.Settings.{Fits};
ghost use Rattle.road_scenario.specs.Edits.{Edits};
ghost use Rattle.road_scenario.specs.Faults.{AreInRange};
ghost use Rattle.road_scenario.specs.Settings.{settings_of};

use crate::sheet::Sheet;
use road_plan::{OutOfMemory, Plan, Settings};
use road_scenario::Scenario;
use std::alloc::Global;
use std::sync::Arc;

// Settings, and the steps at which they are in force: from `from` to before `until`.
#[derive(Drop)]
pub(crate) struct InForce {
    settings: Arc<Settings>,
    from: u32,
    until: u32,
}

impl InForce {
    // Return the settings, if they are in force at a step.
    fn at(&self, step: u32) -> Result<Option<Arc<Settings>>, OutOfMemory>
        ensures { IfOk result (λ found. IfSome found (λ settings. (arc_value settings ≡ arc_value self.now.settings)
            × (self.now.from ≤ step) × (step < self.now.until))) }
    {
        if !self.is_at(step) {
            return Ok(None);
        }
        Ok(Some(Arc::try_clone(&self.settings)?))
    }

    // Return whether the settings are in force at a step.
    fn is_at(&self, step: u32) -> bool
        ensures { IsTrue result → (self.now.from ≤ step) × (step < self.now.until) }
    {
        self.from <= step && step < self.until
    }

    // Return the end of the steps from `step` on at which the settings are in force, but at most `to`. If they are not
    // in force at `step`, this is the step after it.
    fn until_from(&self, step: u32, to: u32) -> u32
        requires { step < to }
        ensures some { step < result }
        ensures before { result ≤ to }
        ensures in_force { (t : ℕ) → step ≤ t → t < result → (t ≡ step) ⊎ ((self.now.from ≤ step)
            × (t < self.now.until)) }
    {
        if self.is_at(step) {
            self.until.min(to)
        } else {
            step + 1
        }
    }
}

// The last settings that a run made, if any.
#[derive(Drop)]
pub(crate) struct SettingsCache {
    last: Option<InForce>,
}

impl SettingsCache {
    ghost use Rattle.road_sheet.specs.SettingsCaches.{AreCached};

    pub(crate) fn none() -> SettingsCache
        ensures { (plan : Plan) (edits : Edits) → AreCached plan edits result }
    {
        SettingsCache { last: None }
    }

    // Return the settings of a sheet's step.
    pub(crate) fn at(
        &mut self,
        alloc: Global,
        sheet: &Sheet,
        step: u32,
    ) -> Result<Arc<Settings>, OutOfMemory>
        requires { AreCached sheet.now.plan sheet.now.edits self.old }
        ensures settings { IfOk result (λ settings.
            arc_value settings ≡ settings_of sheet.now.plan sheet.now.edits step) }
        ensures fits { IfOk result (λ settings. Fits sheet.now.plan (arc_value settings)) }
        ensures cached { AreCached sheet.now.plan sheet.now.edits self.new }
    {
        self.at_step(alloc, sheet.plan(), sheet.scenario(), step)
    }

    // Return the settings of a step under a scenario: the cached ones if they are in force there, and else new ones.
    pub(crate) fn at_step(
        &mut self,
        alloc: Global,
        plan: &Arc<Plan>,
        scenario: &Scenario,
        step: u32,
    ) -> Result<Arc<Settings>, OutOfMemory>
        requires fits { AreInRange (arc_value plan.now) scenario.now }
        requires cached { AreCached (arc_value plan.now) scenario.now self.old }
        ensures settings { IfOk result (λ settings.
            arc_value settings ≡ settings_of (arc_value plan.now) scenario.now step) }
        ensures fits { IfOk result (λ settings. Fits (arc_value plan.now) (arc_value settings)) }
        ensures cached { AreCached (arc_value plan.now) scenario.now self.new }
    {
        if let Some(settings) = self.cached(step)? {
            return Ok(settings);
        }
        self.renew(alloc, plan, scenario, step)
    }

    // Return whether the cached settings are in force at two steps.
    pub(crate) fn are_at(&self, step: u32, other: u32) -> bool
        ensures { (plan : Plan) (edits : Edits) → AreCached plan edits self.now → IsTrue result
            → settings_of plan edits step ≡ settings_of plan edits other }
    {
        match &self.last {
            Some(kept) => kept.is_at(step) && kept.is_at(other),
            None => false,
        }
    }

    // Return the end of the steps from `step` on at which the cached settings of `step` are in force, but at most `to`.
    // It is above `step`.
    pub(crate) fn until(&self, step: u32, to: u32) -> u32
        requires { step < to }
        ensures some { step < result }
        ensures before { result ≤ to }
        ensures same { (plan : Plan) (edits : Edits) → AreCached plan edits self.now → (t : ℕ) → step ≤ t → t < result
            → settings_of plan edits t ≡ settings_of plan edits step }
    {
        match &self.last {
            Some(kept) => kept.until_from(step, to),
            None => step + 1,
        }
    }

    fn cached(&self, step: u32) -> Result<Option<Arc<Settings>>, OutOfMemory>
        ensures { (plan : Plan) (edits : Edits) → AreCached plan edits self.now → IfOk result (λ found.
            IfSome found (λ settings. (arc_value settings ≡ settings_of plan edits step)
            × Fits plan (arc_value settings))) }
    {
        match &self.last {
            Some(kept) => kept.at(step),
            None => Ok(None),
        }
    }

    // Make the settings of a step, and cache them.
    fn renew(
        &mut self,
        alloc: Global,
        plan: &Arc<Plan>,
        scenario: &Scenario,
        step: u32,
    ) -> Result<Arc<Settings>, OutOfMemory>
        requires fits { AreInRange (arc_value plan.now) scenario.now }
        requires cached { AreCached (arc_value plan.now) scenario.now self.old }
        ensures settings { IfOk result (λ settings.
            arc_value settings ≡ settings_of (arc_value plan.now) scenario.now step) }
        ensures fits { IfOk result (λ settings. Fits (arc_value plan.now) (arc_value settings)) }
        ensures cached { AreCached (arc_value plan.now) scenario.now self.new }
    {
        let settings = Arc::new(alloc, scenario.settings_at(alloc, plan, step)?)?;
        let shared = Arc::try_clone(&settings)?;
        self.last = Some(InForce {
            settings,
            from: step,
            until: until(scenario, step),
        });
        Ok(shared)
    }
}

// Return the step before which the settings of a step stay in force: the next date of an edit, or the maximum of `u32`
// if no edit is dated later.
fn until(scenario: &Scenario, step: u32) -> u32
    ensures { (plan : Plan) (t : ℕ) → step ≤ t → t < result →
        settings_of plan scenario.now t ≡ settings_of plan scenario.now step }
{
    match scenario.next_date(step) {
        Some(date) => date,
        None => u32::MAX,
    }
}
