//! The winners of all edits received: their joins, and the settings that they give at each step.

ghost use Rattle.std.specs.Prelude.{◌≡◌, ◌↔◌, ◌≤◌, ℕ, [], ◌∷◌, IfOk, IsNone, IsOk, None, T, length, true};
ghost use Rattle.lattice_core.specs.Sets as sets;
ghost use Rattle.road_plan.specs.Objects.{is_in_plan};
ghost use Rattle.road_plan.specs.Plan.{Plan};
ghost use Rattle.road_plan.specs.Settings.{Fits};
ghost use Rattle.road_plan.specs.declared.limits.TheConstants.{GREATEST_COUNT};
ghost use Rattle.road_scenario.specs.Counts.{greatest_count};
ghost use Rattle.road_scenario.specs.Edits.{Edits, edit_cmp};
ghost use Rattle.road_scenario.specs.Faults.{AreInRange, FitsSomePlan, fault_in, fault_of_edit, first_fault};
ghost use Rattle.road_scenario.specs.Settings.{next_date, setting, settings_of};
ghost use Rattle.road_scenario.specs.Touched.{IsBefore, first_touched_step};
ghost use Rattle.road_scenario.specs.Winners.{AreWinners, join, winners};

use crate::dates::first_date_after;
use crate::edit::Edit;
use crate::faults::EditFault;
use crate::listing::{all_edits, count_edits, fault_of_first};
use crate::registers::{RegistersByObject, register_of};
use crate::settings::{number_of, put_last_numbers, setting_without};
use crate::touched::{first_change, first_change_by};
use lattice_core::lattice::Lattice;
use lattice_core::map::LatMap;
use road_plan::{Object, OutOfMemory, Plan, Settings};
use std::alloc::Global;
use std::marker::Model;

/// The winners of the edits received. Contracts see the set of them.
#[derive(Drop)]
pub struct Scenario {
    registers: RegistersByObject,
    // The greatest count of all edits, or 0 without edits.
    greatest: u64,
    alloc: Global,
}

impl Model for Scenario {
    ghost use Rattle.road_scenario.specs.Edits.{Edits};
    ghost use Rattle.road_scenario.specs.Instances.EditOrder.{edits_code};
    ghost use Rattle.road_scenario.specs.Registers.{edit_set};

    ghost Value = { Edits };

    ghost coded = { edits_code };

    ghost view = { λ s. edit_set s.registers };

    ghost use Rattle.std.specs.Prelude.{◌≡◌};
    ghost use Rattle.road_scenario.specs.Counts.{greatest_count};
    ghost use Rattle.road_scenario.specs.Instances.RegisterLattice.{AreRegisters};

    ghost invariant = { λ s. AreRegisters s.registers × (s.greatest ≡ greatest_count (edit_set s.registers)) };
}

impl Scenario {
    /// Make the scenario without edits, which fits every plan. Its copies, and its joins with others, allocate from
    /// `alloc` too.
    pub fn empty(alloc: Global) -> Self
        ensures none { result ≡ sets.empty }
        ensures fits { (plan : Plan) → AreInRange plan result }
    {
        Scenario {
            registers: LatMap::empty(alloc),
            greatest: 0,
            alloc,
        }
    }

    /// Make the winners of a list of edits, in any order. Halves of the list are joined, so each edit is copied about
    /// as often as the list can be halved. The scenario fits a plan if no edit of the list has a fault.
    ///
    /// # Errors
    ///
    /// `OutOfMemory` if an allocation failed. Without edits nothing is allocated.
    pub fn of_edits(alloc: Global, edits: &[Edit]) -> Result<Self, OutOfMemory>
        ensures winners { IfOk result (λ made. made ≡ winners (sets.from_list edits.now)) }
        ensures fits { (plan : Plan) → first_fault plan edits.now ≡ None → IfOk result (λ made. AreInRange plan made) }
        ensures grows_nothing { edits.now ≡ [] → IsOk result }
    {
        if edits.len() > 1 {
            let (first, second) = edits.split_at(edits.len() / 2);
            let first = Scenario::of_edits(alloc, first)?;
            let second = Scenario::of_edits(alloc, second)?;
            return first.joined(&second);
        }
        match edits.first() {
            Some(edit) => Scenario::empty(alloc).with_edit(edit),
            None => Ok(Scenario::empty(alloc)),
        }
    }

    /// Make the winners of this scenario's edits and one more edit. The result fits a plan if the scenario and the edit
    /// do.
    ///
    /// # Errors
    ///
    /// `OutOfMemory` if an allocation failed. The scenario is then unchanged.
    pub fn with_edit(&self, edit: &Edit) -> Result<Self, OutOfMemory>
        ensures winners { IfOk result (λ new. new ≡ join self.now (sets.from_list (edit.now ∷ []))) }
        ensures fits { (plan : Plan) → AreInRange plan self.now → fault_of_edit plan edit.now ≡ None →
            IfOk result (λ new. AreInRange plan new) }
    {
        let steps = register_of(self.alloc, edit)?;
        Ok(Scenario {
            registers: self.registers.with(edit.object, &steps)?,
            greatest: self.greatest.max(edit.stamp.count),
            alloc: self.alloc,
        })
    }

    /// Make the winners of both scenarios' edits. The result fits a plan if both scenarios do.
    ///
    /// # Errors
    ///
    /// `OutOfMemory` if an allocation failed. Both scenarios are then unchanged.
    pub fn joined(&self, other: &Self) -> Result<Self, OutOfMemory>
        ensures winners { IfOk result (λ joined. joined ≡ join self.now other.now) }
        ensures fits { (plan : Plan) → AreInRange plan self.now → AreInRange plan other.now →
            IfOk result (λ joined. AreInRange plan joined) }
    {
        Ok(Scenario {
            registers: self.registers.joined(&other.registers)?,
            greatest: self.greatest.max(other.greatest),
            alloc: self.alloc,
        })
    }

    /// Make an equal scenario. It does not allocate, since both share all registers.
    ///
    /// # Errors
    ///
    /// `OutOfMemory` if the registers already have as many owners as they can have. A scenario without edits has no
    /// registers, so copying it always succeeds.
    pub fn copied(&self) -> Result<Self, OutOfMemory>
        ensures copy { IfOk result (λ copy. copy ≡ self.now) }
        ensures grows_nothing { self.now ≡ sets.empty → IsOk result }
    {
        Ok(Scenario {
            registers: self.registers.copied()?,
            greatest: self.greatest,
            alloc: self.alloc,
        })
    }

    /// Return the number in force for an object at a step, in the object's units. It is the number of the latest-dated
    /// edit up to that step that is not a withdrawal, or the default without such an edit. The slowing chance of
    /// standing cars has no default: without an edit it is the zone's slowing chance at that step. The plan must have
    /// the object (`Object::in_plan`).
    pub fn setting(&self, plan: &Plan, object: Object, step: u32) -> u32
        requires { is_in_plan plan.now object ≡ true }
        ensures { result ≡ setting plan.now self.now object step }
    {
        match number_of(&self.registers, object, step) {
            Some(number) => number,
            None => setting_without(&self.registers, plan, object, step),
        }
    }

    /// Make all settings of the plan at a step, by one walk over the edits up to it. The scenario must fit the plan
    /// (`fits` returns `None`), and then the settings fit it too.
    ///
    /// # Errors
    ///
    /// `OutOfMemory` if an allocation failed.
    pub fn settings_at(
        &self,
        alloc: Global,
        plan: &Plan,
        step: u32,
    ) -> Result<Settings, OutOfMemory>
        requires { AreInRange plan.now self.now }
        ensures made { IfOk result (λ settings. settings ≡ settings_of plan.now self.now step) }
        ensures fits { IfOk result (λ settings. Fits plan.now settings) }
    {
        let mut settings = Settings::of_plan(alloc, plan)?;
        put_last_numbers(&mut settings, &self.registers, step)?;
        Ok(settings)
    }

    /// Return the first step after a given step at which an edit, perhaps a withdrawal, takes effect, or `None` if no
    /// edit is dated later. All steps from the given one up to it, or all later ones if there is none, have the
    /// settings of the given step. It takes a few look-ups for each object, and does not allocate.
    pub fn next_date(&self, step: u32) -> Option<u32>
        ensures date { result ≡ next_date self.now step }
        ensures settings { (plan : Plan) (t : ℕ) → step ≤ t → IsBefore t result →
            settings_of plan self.now t ≡ settings_of plan self.now step }
    {
        first_date_after(&self.registers, step)
    }

    /// Return the first step at which this scenario and `other` set different numbers for some object, or `None` if
    /// they set the same numbers. A withdrawal sets no number. Settings at earlier steps are the same
    /// (`laws::settings_stay_before_touched`). It does not allocate.
    pub fn touched(&self, other: &Scenario) -> Option<u32>
        ensures { result ≡ first_touched_step self.now other.now }
    {
        first_change(&self.registers, &other.registers)
    }

    /// Return the same as [`Scenario::touched`] of `joined`, which must be this scenario with `taken` joined in. Only
    /// the objects and steps of `taken` are visited. It does not allocate.
    pub fn touched_by(&self, taken: &Scenario, joined: &Scenario) -> Option<u32>
        requires { joined.now ≡ join self.now taken.now }
        ensures { result ≡ first_touched_step self.now joined.now }
    {
        first_change_by(&self.registers, &taken.registers, &joined.registers)
    }

    /// List the edits by object and step, each once.
    ///
    /// # Errors
    ///
    /// `OutOfMemory` if an allocation failed. Without edits nothing is allocated.
    pub fn edits(&self, alloc: Global) -> Result<Vec<Edit>, OutOfMemory>
        ensures all { IfOk result (λ edits. edits.items ≡ sets.items self.now) }
        ensures rising { IfOk result (λ edits. T (sets.is_rising edit_cmp edits.items)) }
        ensures grows_nothing { self.now ≡ sets.empty → IsOk result }
        ensures winners { AreWinners self.now }
    {
        all_edits(alloc, &self.registers)
    }

    /// Count the edits. The scenario must fit a plan. It does not allocate.
    pub fn len(&self) -> usize
        requires { FitsSomePlan self.now }
        ensures { result ≡ length (sets.items self.now) }
    {
        count_edits(&self.registers)
    }

    /// Return the greatest count of the edits' stamps, or 0 without edits. It is the greatest count of every set of
    /// edits with these winners, and at most 2^48 if the scenario fits a plan. It does not allocate.
    pub fn greatest_count(&self) -> u64
        ensures here { result ≡ greatest_count self.now }
        ensures every { (edits : Edits) → winners edits ≡ self.now → result ≡ greatest_count edits }
        ensures most { (plan : Plan) → AreInRange plan self.now → result ≤ GREATEST_COUNT }
    {
        self.greatest
    }

    /// Return the fault of the first faulty edit, in the order of `edits`, or `None` if all edits fit the plan. It does
    /// not allocate.
    pub fn fits(&self, plan: &Plan) -> Option<EditFault>
        ensures fault { result ≡ fault_in plan.now self.now }
        ensures none { IsNone result ↔ AreInRange plan.now self.now }
    {
        fault_of_first(&self.registers, plan)
    }
}

/// Show that a scenario holds only winners: none of its edits exceeds another.
pub fn scenarios_hold_winners(scenario: &Scenario)
    ensures { AreWinners scenario.now }
{
    // A proof sees the invariant of a scenario's fields only through this borrow.
    let _ = &scenario.registers;
}

/// Scenarios are a lattice by `joined`, with the scenario without edits as the bottom: merges agree in any order,
/// grouping and repetition.
impl Lattice for Scenario {
    ghost use Rattle.road_scenario.specs.Winners.{AreWinners, has_no_edit, join};
    ghost use Rattle.road_scenario.specs.Instances.JoinedWinners.{join_laws};

    ghost is_proper = { AreWinners };

    ghost join = { join };

    ghost is_least = { has_no_edit };

    ghost laws = { join_laws };

    fn joined(&self, other: &Self) -> Result<Self, OutOfMemory> {
        Scenario::joined(self, other)
    }

    fn copied(&self) -> Result<Self, OutOfMemory> {
        Scenario::copied(self)
    }

    fn is_bottom(&self) -> bool {
        self.registers.is_bottom()
    }

    fn at_most(&self, other: &Self) -> bool {
        self.registers.at_most(&other.registers)
    }
}
