//! Commands that change or query one replica.

ghost use Rattle.std.specs.Prelude.{◌≡◌, codes, option_map, string_bytes};
ghost use Rattle.serde_json.specs.View.{view};
ghost use Rattle.road_format.specs.CommandGrammar as grammar;
ghost use Rattle.road_format.specs.Views.{command_view};

use crate::command::Command;
use crate::fields::{has_fields, number_at};
use crate::object::object_at;
use serde_json::Value;

// Read the command that has this name and these fields, and changes or queries one replica.
#[tactic(auto, unfolding(crate::specs::CommandGrammar::replica_command_of_name))]
pub(crate) fn replica_command_of_name(name: &str, at: String, fields: &Value) -> Option<Command>
    ensures { option_map command_view result
        ≡ grammar.replica_command_of_name name.now (string_bytes at) (view fields.now) }
{
    match name {
        "edit" => parse_edit(at, fields),
        "withdraw" => parse_withdraw(at, fields),
        "advance" => parse_advance(at, fields),
        _ => query_of_name(name, at, fields),
    }
}

// Read the number at this field, of an object that has exactly this field and `at`.
fn only_number(field: &str, fields: &Value) -> Option<u32>
    ensures { result ≡ grammar.only_number field.now (view fields.now) }
{
    if !has_fields(2, fields) {
        return None;
    }
    number_at(field, fields)
}

// Parse an `edit`; None unless it has exactly its fields.
#[tactic(auto, unfolding(crate::specs::CommandGrammar::edit_command_in))]
fn parse_edit(at: String, fields: &Value) -> Option<Command>
    ensures { option_map command_view result ≡ grammar.edit_command_in (string_bytes at) (view fields.now) }
{
    if !has_fields(4, fields) {
        return None;
    }
    let object = object_at("object", fields)?;
    let step = number_at("step", fields)?;
    let value = number_at("value", fields)?;
    Some(Command::Edit {
        at,
        object,
        step,
        value,
    })
}

// Parse a `withdraw`; None unless it has exactly its fields.
#[tactic(auto, unfolding(crate::specs::CommandGrammar::withdraw_in))]
fn parse_withdraw(at: String, fields: &Value) -> Option<Command>
    ensures { option_map command_view result ≡ grammar.withdraw_in (string_bytes at) (view fields.now) }
{
    if !has_fields(3, fields) {
        return None;
    }
    let object = object_at("object", fields)?;
    let step = number_at("step", fields)?;
    Some(Command::Withdraw { at, object, step })
}

// Parse an `advance`; None unless it has exactly its fields.
fn parse_advance(at: String, fields: &Value) -> Option<Command>
    ensures { option_map command_view result
        ≡ option_map (grammar.Advance (string_bytes at)) (grammar.only_number (codes "to") (view fields.now)) }
{
    let to = only_number("to", fields)?;
    Some(Command::Advance { at, to })
}

// ---- queries

// Read the query that has this name and these fields.
#[tactic(auto, unfolding(crate::specs::CommandGrammar::query_of_name))]
fn query_of_name(name: &str, at: String, fields: &Value) -> Option<Command>
    ensures { option_map command_view result
        ≡ option_map (grammar.Ask (string_bytes at)) (grammar.query_of_name name.now (view fields.now)) }
{
    match name {
        "cells" => parse_cells(at, fields),
        "cars" => parse_cars(at, fields),
        "count" => parse_count(at, fields),
        "diagram" => parse_diagram(at, fields),
        "scenario" => parse_scenario(at, fields),
        _ => None,
    }
}

// Parse a `cells` query; None unless it has exactly its fields.
fn parse_cells(at: String, fields: &Value) -> Option<Command>
    ensures { option_map command_view result ≡ option_map (grammar.Ask (string_bytes at))
        (option_map grammar.Cells (grammar.only_number (codes "step") (view fields.now))) }
{
    let step = only_number("step", fields)?;
    Some(Command::Cells { at, step })
}

// Parse a `cars` query; None unless it has exactly its fields.
fn parse_cars(at: String, fields: &Value) -> Option<Command>
    ensures { option_map command_view result ≡ option_map (grammar.Ask (string_bytes at))
        (option_map grammar.Cars (grammar.only_number (codes "step") (view fields.now))) }
{
    let step = only_number("step", fields)?;
    Some(Command::Cars { at, step })
}

// Read the steps at `from` and `to`.
fn steps_at(fields: &Value) -> Option<(u32, u32)>
    ensures { result ≡ grammar.steps_at (view fields.now) }
{
    Some((number_at("from", fields)?, number_at("to", fields)?))
}

// Parse a `count` query; None unless it has exactly its fields.
#[tactic(auto, unfolding(crate::specs::CommandGrammar::count_in))]
fn parse_count(at: String, fields: &Value) -> Option<Command>
    ensures { option_map command_view result
        ≡ option_map (grammar.Ask (string_bytes at)) (grammar.count_in (view fields.now)) }
{
    if !has_fields(4, fields) {
        return None;
    }
    let detector = number_at("detector", fields)?;
    let (from, to) = steps_at(fields)?;
    Some(Command::Count {
        at,
        detector,
        from,
        to,
    })
}

// Parse a `diagram` query; None unless it has exactly its fields.
#[tactic(auto, unfolding(crate::specs::CommandGrammar::diagram_in))]
fn parse_diagram(at: String, fields: &Value) -> Option<Command>
    ensures { option_map command_view result
        ≡ option_map (grammar.Ask (string_bytes at)) (grammar.diagram_in (view fields.now)) }
{
    if !has_fields(3, fields) {
        return None;
    }
    let (from, to) = steps_at(fields)?;
    Some(Command::Diagram { at, from, to })
}

// Parse a `scenario` query; None unless it has exactly its field.
fn parse_scenario(at: String, fields: &Value) -> Option<Command>
    ensures { option_map command_view result
        ≡ option_map (grammar.Ask (string_bytes at)) (grammar.scenario_in (view fields.now)) }
{
    if !has_fields(1, fields) {
        return None;
    }
    Some(Command::Scenario { at })
}
