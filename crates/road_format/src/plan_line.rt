//! The first line of an input.

ghost use Rattle.std.specs.Prelude.{◌≡◌, ◌<◌, ◌≤◌, length, true, None, IfOk, IfErr, OnErr, IsSome, option_map};
ghost use Rattle.std.specs.List.{IsDistinct};
ghost use Rattle.std.specs.Str.{bytes_eq};
ghost use Rattle.serde_json.specs.View.{view};
ghost use Rattle.road_plan.specs.Plan.{plan_of};
ghost use Rattle.road_plan.specs.declared.limits.TheConstants.{MOST_REPLICAS};
ghost use Rattle.road_format.specs.Fields as fields;
ghost use Rattle.road_format.specs.PlanGrammar as grammar;
ghost use Rattle.road_format.specs.Refusals.{plan_line_refusal};
ghost use Rattle.road_format.specs.Views.{Gives, texts, plan_line_view};
ghost use Rattle.road_format.specs.Private.UncheckedViews.{parts_view};
ghost use Rattle.road_format.specs.declared.faults.PlanLineFault.TheVariants as plan_line_faults;

use crate::faults::PlanLineFault;
use crate::fields::{has_fields, number_at};
use crate::lists::{list_at, texts_at};
use crate::names::are_names;
use crate::reading::value_in;
use road_plan::{OutOfMemory, Plan, PlanParts, WordKind};
use serde_json::Value;
use std::alloc::Global;

/// A plan, and the replicas that use it.
#[derive(Debug, Drop)]
pub struct PlanLine {
    /// The names of the replicas, in the order of their numbers: 1 to 64, all different, of 1 to 64 bytes each.
    pub names: Vec<String>,
    /// The plan of the road.
    pub plan: Plan,
}

// The content of a plan line, before it is checked.
#[derive(Drop)]
struct PlanLineParts {
    names: Vec<String>,
    parts: PlanParts,
}

/// Read a line as a plan line: an object of exactly eight fields, in any order.
///
/// | Field | Value |
/// |---|---|
/// | `length` | the number of cells of the road |
/// | `exit` | the number of cells of the deleted zone |
/// | `zone` | the number of cells of a zone |
/// | `zones` | for each zone a list of its speed limit and its slowing chance |
/// | `inlets` | for each inlet a list of its cell and its inflow chance |
/// | `detectors` | for each detector its site, which is a cell |
/// | `words` | the seed of the random words, or the string `steady` |
/// | `replicas` | the names of the replicas |
///
/// A number is whole, has at most 32 bits (a seed at most 64), and is written without a decimal point or exponent. If a
/// field is repeated, the last one counts.
///
/// # Errors
///
/// In this order:
///
/// - `NotJson`: the line is not a JSON value.
/// - `NotAPlan`: the value is not a plan line.
/// - `Names`: there is no replica, or there are more than 64; or two names are equal, or one does not have 1 to 64
///   bytes.
/// - `Plan`: the plan is refused. It carries the plan's first fault, which is never `PlanFault::OutOfMemory`.
///
/// `OutOfMemory` may replace any of these results if the line is not empty. The length of the line is not checked here.
#[tactic(auto, using(crate::proofs::LineValues::length_of_value), unfolding(crate::specs::PlanGrammar::plan_line_of))]
pub fn read_plan(alloc: Global, line: &[u8]) -> Result<PlanLine, PlanLineFault>
    // The result is the grammar's plan line, or its refusal. Out of memory is not a refusal.
    ensures plan_line { Gives plan_line_view plan_line_refusal result (grammar.plan_line_of line.now) }

    // An accepted line has at most 64 names, all different.
    ensures few { IfOk result (λ line. length line.names.items ≤ MOST_REPLICAS) }
    ensures apart { IfOk result (λ line. IsDistinct bytes_eq (texts line.names.items)) }

    // Out of memory is reported only as `PlanLineFault::OutOfMemory`, and never for an empty line.
    ensures memory { IfErr result (λ fault. plan_line_refusal fault ≡ None
        → (fault ≡ plan_line_faults.OutOfMemory) × (0 < length line.now)) }
{
    let Some(value) = value_in(alloc, line)? else {
        return Err(PlanLineFault::NotJson);
    };
    match parts_in(alloc, &value)? {
        Some(parts) => checked_line(parts),
        None => Err(PlanLineFault::NotAPlan),
    }
}

// Make a plan line from these parts, if its names and its plan are accepted. It does not allocate.
#[tactic(auto, using(crate::proofs::AcceptedNames::names_are_few, crate::proofs::AcceptedNames::names_are_different))]
fn checked_line(line: PlanLineParts) -> Result<PlanLine, PlanLineFault>
    ensures plan_line { Gives plan_line_view plan_line_refusal result (grammar.checked_line (parts_view line)) }
    ensures few { IfOk result (λ line. length line.names.items ≤ MOST_REPLICAS) }
    ensures apart { IfOk result (λ line. IsDistinct bytes_eq (texts line.names.items)) }
    ensures memory { IfErr result (λ fault. IsSome (plan_line_refusal fault)) }
{
    if !are_names(&line.names) {
        return Err(PlanLineFault::Names);
    }
    match Plan::new(line.parts) {
        Ok(plan) => Ok(PlanLine {
            names: line.names,
            plan,
        }),
        Err(fault) => Err(PlanLineFault::Plan(fault)),
    }
}

// Read the parts of a plan line from a value.
#[tactic(auto, unfolding(crate::specs::PlanGrammar::plan_line_in))]
fn parts_in(alloc: Global, value: &Value) -> Result<Option<PlanLineParts>, OutOfMemory>
    ensures parts { IfOk result (λ line. option_map parts_view line ≡ grammar.plan_line_in (view value.now)) }
    ensures memory { OnErr result (fields.has_fields 8 (view value.now) ≡ true) }
{
    if !has_fields(8, value) {
        return Ok(None);
    }
    let Some(parts) = plan_in(alloc, value)? else {
        return Ok(None);
    };
    let Some(names) = texts_at(alloc, "replicas", value)? else {
        return Ok(None);
    };
    Ok(Some(PlanLineParts { names, parts }))
}

// Read the parts of a plan from the fields of a value.
#[tactic(auto, unfolding(crate::specs::PlanGrammar::plan_in))]
fn plan_in(alloc: Global, value: &Value) -> Result<Option<PlanParts>, OutOfMemory>
    ensures parts { IfOk result (λ parts. option_map plan_of parts ≡ grammar.plan_in (view value.now)) }
    ensures memory { OnErr result (IsSome (grammar.measures_in (view value.now))) }
{
    let Some((length, exit, width)) = measures_in(value) else {
        return Ok(None);
    };
    let Some(words) = words_at("words", value) else {
        return Ok(None);
    };
    let Some(zones) = list_at(alloc, "zones", value)? else {
        return Ok(None);
    };
    let Some(inlets) = list_at(alloc, "inlets", value)? else {
        return Ok(None);
    };
    let Some(detectors) = list_at(alloc, "detectors", value)? else {
        return Ok(None);
    };
    Ok(Some(PlanParts {
        length,
        exit,
        width,
        zones,
        inlets,
        detectors,
        words,
    }))
}

// Read the number of cells of a road, of its deleted zone and of a zone.
#[tactic(auto, unfolding(crate::specs::PlanGrammar::measures_in))]
fn measures_in(value: &Value) -> Option<(u32, u32, u32)>
    ensures { result ≡ grammar.measures_in (view value.now) }
{
    let length = number_at("length", value)?;
    let exit = number_at("exit", value)?;
    let width = number_at("zone", value)?;
    Some((length, exit, width))
}

// Read where the words come from, at this field: a seed, or the string `steady`.
fn words_at(field: &str, value: &Value) -> Option<WordKind>
    ensures { result ≡ grammar.words_at field.now (view value.now) }
{
    match value.get(field) {
        Some(value) => words_in(value),
        None => None,
    }
}

// Read where the words come from.
fn words_in(value: &Value) -> Option<WordKind>
    ensures { result ≡ grammar.words_in (view value.now) }
{
    if let Some(seed) = value.as_u64() {
        return Some(WordKind::Seeded(seed));
    }
    match value.as_str() {
        Some("steady") => Some(WordKind::Steady),
        _ => None,
    }
}
