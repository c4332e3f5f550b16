//! The registers of a scenario, in which the last writer wins.

ghost use Rattle.std.specs.Prelude.{◌≡◌, [], ◌∷◌, IfOk};
ghost use Rattle.lattice_core.specs.declared.greatest.Greatest.TheVariants.{Of};
ghost use Rattle.road_scenario.specs.Private.RegisterWalks as walks;

use crate::edit::{Edit, Stamp, Value};
use crate::settings::winning_number;
use lattice_core::greatest::Greatest;
use lattice_core::map::LatMap;
use road_plan::{Object, OutOfMemory};
use std::alloc::Global;

/// The winner at an object and step: the value with the greatest stamp, and of equal stamps the greatest value.
pub type Won = Greatest<(Stamp, Value)>;

// All registers: each object with its registers by step.
pub(crate) type RegistersByObject = LatMap<Object, RegistersByStep>;

// The registers of one object: each step with its register.
pub(crate) type RegistersByStep = LatMap<u32, Won>;

// Make the registers of an object that has only this edit.
pub(crate) fn register_of(alloc: Global, edit: &Edit) -> Result<RegistersByStep, OutOfMemory>
    ensures { IfOk result (λ made. made ≡ (edit.now.step, Of (edit.now.stamp, edit.now.value)) ∷ []) }
{
    let none: RegistersByStep = LatMap::empty(alloc);
    none.with(edit.step, &Greatest::Of((edit.stamp, edit.value)))
}

// Find the last number set up to a step. The search goes back from that step, past withdrawals.
pub(crate) fn last_put(registers: &RegistersByStep, step: u32) -> Option<u32>
    ensures { result ≡ walks.last_number step registers.now }
{
    let mut earlier = registers.up_to(step);
    while let Some((_, won)) = earlier.next_back() {
        match winning_number(won) {
            Some(number) => return Some(number),
            None => {}
        }
    }
    None
}

// Find the first step after a given step that has a register.
pub(crate) fn first_after(registers: &RegistersByStep, step: u32) -> Option<u32>
    ensures { result ≡ walks.first_step_after step registers.now }
{
    match registers.after(step).next() {
        Some((at, _)) => Some(*at),
        None => None,
    }
}
