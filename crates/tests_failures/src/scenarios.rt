//! Scenarios, the maps that they are made of, and deltas.

use crate::roads::{
    BLOCKED, BLOCKED_SECOND, CLOSED, CLOSED_ELSEWHERE, HELD, HELD_ELSEWHERE, free_plan, holds,
};
use crate::verdict::{Call, Until, Verdict, try_call};
use lattice_core::OutOfMemory;
use lattice_core::both::Both;
use lattice_core::greatest::Greatest;
use lattice_core::lattice::Lattice;
use lattice_core::map::LatMap;
use road_delta::{Head, Heads, beyond, heads_of};
use road_plan::Plan;
use road_scenario::{Edit, Scenario};
use std::alloc::Global;
use std::sync::Arc;
use tests_portraits::Portrait;

/// What is made from the scenario of one replica, or from the scenarios of two.
#[derive(Clone, Copy)]
pub(crate) enum Making {
    /// An edit is added to others, with this result.
    WithEdit(&'static [Edit], Edit, &'static [Edit]),
    Joined,
    Copied,
    /// Two scenarios are joined, each with a horizon.
    PairJoined,
    PairCopied,
    /// Two horizons are joined, and one is copied.
    GreatestJoined,
    GreatestCopied,
    Edits,
    /// The settings at step 4, with cell 8 blocked.
    Settings,
    Heads,
    /// The edits beyond the heads of the other replica.
    Beyond,
}

/// All edits of the two replicas.
const ALL: &[Edit] = &[CLOSED_ELSEWHERE, CLOSED, BLOCKED_SECOND];

type Pair = Both<Scenario, Greatest<u32>>;

// Return the scenario of some edits, with a horizon.
fn pair_of(alloc: Global, edits: &[Edit], horizon: u32) -> Option<Pair> {
    Some(Both {
        first: Scenario::of_edits(alloc, edits).ok()?,
        second: Greatest::Of(horizon),
    })
}

// Return whether a pair of a scenario and a horizon has these edits, and the greater horizon.
fn is_pair(alloc: Global, pair: &Pair, edits: &[Edit]) -> Option<bool> {
    Some(pair.second == Greatest::Of(6) && holds(alloc, &pair.first, edits)?)
}

// Return whether heads are those of these edits.
fn are_heads(heads: &[Head], edits: &[Edit]) -> bool {
    heads.len() == edits.len()
        && heads.iter().zip(edits).all(|(head, edit)| {
            head.object == edit.object && head.step == edit.step && head.stamp == edit.stamp
        })
}

// What was made: a scenario, a scenario with a horizon, or whether the answer is the expected one.
#[derive(Drop)]
enum Made {
    Scenario(Scenario),
    Pair(Pair),
    Expected(bool),
}

// What is made of scenarios, and what is needed for it.
#[derive(Drop)]
struct Work {
    one: Pair,
    other: Pair,
    // The heads of the other replica.
    heads: Heads,
    plan: Arc<Plan>,
    making: Making,
}

// Return whether the settings of a scenario at step 4 have cell 8 blocked.
fn has_blocked(alloc: Global, scenario: &Scenario, plan: &Arc<Plan>) -> Result<bool, OutOfMemory> {
    if scenario.fits(plan).is_some() {
        return Ok(false);
    }
    let settings = scenario.settings_at(alloc, plan, 4)?;
    Ok(settings.blocks() == [8].as_slice())
}

// Return whether a scenario has the edits of one replica.
fn has_held(alloc: Global, scenario: &Scenario) -> Result<bool, OutOfMemory> {
    Ok(scenario.edits(alloc)?.as_slice() == HELD)
}

// Return whether a scenario has the heads of the edits of one replica.
fn has_heads(alloc: Global, scenario: &Scenario) -> Result<bool, OutOfMemory> {
    Ok(are_heads(heads_of(alloc, scenario)?.list(), HELD))
}

// Read a scenario.
fn read(alloc: Global, work: &Work) -> Result<bool, OutOfMemory> {
    let (one, other) = (&work.one, &work.other);
    match work.making {
        Making::Edits => has_held(alloc, &one.first),
        Making::Settings => has_blocked(alloc, &one.first, &work.plan),
        Making::Heads => has_heads(alloc, &one.first),
        Making::GreatestJoined => Ok(one.second.joined(&other.second)? == one.second),
        _ => Ok(one.second.copied()? == one.second),
    }
}

impl Call for Work {
    type Answer = Made;

    type Fault = OutOfMemory;

    fn draw(&mut self, alloc: Global, portrait: &mut Portrait) -> Option<()> {
        portrait.draw_scenario(alloc, &self.one.first)?;
        portrait.draw_scenario(alloc, &self.other.first)
    }

    fn make(&mut self, alloc: Global) -> Result<Made, OutOfMemory> {
        let (one, other) = (&self.one, &self.other);
        match &self.making {
            Making::WithEdit(_, edit, _) => Ok(Made::Scenario(one.first.with_edit(edit)?)),
            Making::Joined => Ok(Made::Scenario(one.first.joined(&other.first)?)),
            Making::Copied => Ok(Made::Scenario(one.first.copied()?)),
            Making::Beyond => Ok(Made::Scenario(beyond(alloc, &one.first, &self.heads)?)),
            Making::PairJoined => Ok(Made::Pair(one.joined(other)?)),
            Making::PairCopied => Ok(Made::Pair(one.copied()?)),
            _ => Ok(Made::Expected(read(alloc, self)?)),
        }
    }

    fn is_right(&mut self, alloc: Global, made: Made) -> Option<bool> {
        is_made(alloc, &made, edits_of(&self.making))
    }
}

// Return the edits that the result must have.
fn edits_of(making: &Making) -> &'static [Edit] {
    match making {
        Making::WithEdit(_, _, made) => made,
        Making::Joined | Making::PairJoined => ALL,
        Making::Beyond => &[CLOSED, BLOCKED_SECOND],
        _ => HELD,
    }
}

// Return whether what was made has these edits.
fn is_made(alloc: Global, made: &Made, edits: &[Edit]) -> Option<bool> {
    match made {
        Made::Scenario(scenario) => holds(alloc, scenario, edits),
        Made::Pair(pair) => is_pair(alloc, pair, edits),
        Made::Expected(is_expected) => Some(*is_expected),
    }
}

// Return the heads of some edits.
fn heads_with(alloc: Global, edits: &[Edit]) -> Option<Heads> {
    let scenario = Scenario::of_edits(alloc, edits).ok()?;
    heads_of(alloc, &scenario).ok()
}

/// Try a case of scenarios.
pub(crate) fn try_making(alloc: Global, until: Until, making: Making) -> Option<Verdict> {
    let held: &[Edit] = match &making {
        Making::WithEdit(edits, _, _) => edits,
        _ => HELD,
    };
    let heads = heads_with(alloc, HELD_ELSEWHERE)?;
    let plan = free_plan(alloc)?;
    let one = pair_of(alloc, held, 6)?;
    let other = pair_of(alloc, HELD_ELSEWHERE, 3)?;
    let mut work = Work {
        one,
        other,
        heads,
        plan,
        making,
    };
    try_call(alloc, until, &mut work)
}

// ---- maps of registers

/// What is made of maps of registers.
#[derive(Clone, Copy, PartialEq, Eq)]
pub(crate) enum MapCase {
    With,
    /// The page to which the key is added is split in two.
    WithSplit,
    Joined,
    Copied,
    /// Keys are added to both pages, and the first is split in two.
    PagesJoined,
}

type Register = Greatest<(u32, u32)>;

type Registers = LatMap<u32, Register>;

const TWO: Register = Greatest::Of((7, 2));

const THREE: Register = Greatest::Of((7, 3));

// Return whether a map has exactly these registers, in this order.
fn has_registers(map: &Registers, registers: &[(u32, Register)]) -> bool {
    let mut steps = map.keys();
    for (step, register) in registers {
        if steps.next() != Some(step) || map.get(*step) != Some(register) {
            return false;
        }
    }
    steps.next().is_none()
}

// Return the map of these registers.
fn map_of(alloc: Global, registers: &[(u32, Register)]) -> Option<Registers> {
    let mut map = Registers::empty(alloc);
    for (step, register) in registers {
        map = map.with(*step, register).ok()?;
    }
    Some(map)
}

// Return a map with this many even steps from 0 on.
fn even_steps(alloc: Global, count: u32) -> Option<Registers> {
    let mut map = Registers::empty(alloc);
    for place in 0..count {
        map = map.with(place.saturating_mul(2), &TWO).ok()?;
    }
    Some(map)
}

// Return whether a map has exactly this many even steps from 0 on, with the value 3 at some of them and 2 at all
// others.
fn has_even_and(map: &Registers, count: u32, three: &[u32]) -> bool {
    for place in 0..count {
        if map.get(place.saturating_mul(2)).is_none() {
            return false;
        }
    }
    for step in three {
        if map.get(*step) != Some(&THREE) {
            return false;
        }
    }
    for (step, register) in map.iter() {
        let is_two = *register == TWO && step % 2 == 0 && step / 2 < count;
        if !is_two && !three.contains(step) {
            return false;
        }
    }
    true
}

// What is made of maps, as a call.
#[derive(Drop)]
struct Mapping {
    one: Registers,
    other: Registers,
    case: MapCase,
}

// Draw a map of pairs.
fn draw_map(portrait: &mut Portrait, map: &Registers) -> Option<()> {
    for (step, register) in map.iter() {
        portrait.draw_number(u64::from(*step))?;
        match register {
            Greatest::Nothing => portrait.draw_number(0)?,
            Greatest::Of((count, value)) => {
                portrait.draw_number(u64::from(*count))?;
                portrait.draw_number(u64::from(*value))?;
            }
        }
    }
    Some(())
}

impl Call for Mapping {
    type Answer = Registers;

    type Fault = OutOfMemory;

    fn draw(&mut self, _alloc: Global, portrait: &mut Portrait) -> Option<()> {
        draw_map(portrait, &self.one)?;
        draw_map(portrait, &self.other)
    }

    fn make(&mut self, _alloc: Global) -> Result<Registers, OutOfMemory> {
        match self.case {
            MapCase::With => self.one.with(3, &TWO),
            MapCase::WithSplit => self.one.with(1, &THREE),
            MapCase::Copied => self.one.copied(),
            MapCase::Joined | MapCase::PagesJoined => self.one.joined(&self.other),
        }
    }

    fn is_right(&mut self, _alloc: Global, map: Registers) -> Option<bool> {
        Some(is_map(&map, self.case))
    }
}

// Return whether this is the map that must be made.
fn is_map(map: &Registers, case: MapCase) -> bool {
    match case {
        MapCase::With => has_registers(map, &[(3, TWO), (5, TWO), (9, THREE)]),
        MapCase::WithSplit => has_even_and(map, 256, &[1]),
        MapCase::Copied => has_registers(map, &[(5, TWO), (9, THREE)]),
        MapCase::Joined => has_registers(map, &[(3, TWO), (5, THREE), (9, THREE)]),
        MapCase::PagesJoined => has_even_and(map, 600, &[1, 1_100, 2_000]),
    }
}

// Return the map that another one is made from.
fn first_map(alloc: Global, case: MapCase) -> Option<Registers> {
    match case {
        MapCase::WithSplit => even_steps(alloc, 256),
        MapCase::PagesJoined => even_steps(alloc, 600),
        _ => map_of(alloc, &[(5, TWO), (9, THREE)]),
    }
}

// Return the map that is joined in.
fn second_map(alloc: Global, case: MapCase) -> Option<Registers> {
    match case {
        MapCase::PagesJoined => map_of(alloc, &[(1, THREE), (1_100, THREE), (2_000, THREE)]),
        _ => map_of(alloc, &[(3, TWO), (5, THREE)]),
    }
}

/// Try a case of maps.
pub(crate) fn try_map(alloc: Global, until: Until, case: MapCase) -> Option<Verdict> {
    let one = first_map(alloc, case)?;
    let other = second_map(alloc, case)?;
    try_call(alloc, until, &mut Mapping { one, other, case })
}
