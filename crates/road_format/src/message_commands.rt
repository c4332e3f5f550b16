//! Commands that take edits from outside, and commands that make and take messages.

ghost use Rattle.std.specs.Prelude.{◌≡◌, ℕ, List, codes, IfOk, option_map, string_bytes};
ghost use Rattle.serde_json.specs.View.{view};
ghost use Rattle.road_format.specs.CommandGrammar as grammar;
ghost use Rattle.road_format.specs.Fields as spec_fields;
ghost use Rattle.road_format.specs.Views.{command_view};

use crate::command::Command;
use crate::fields::{has_fields, name_at};
use crate::form::are_of_form;
use crate::lists::list_at;
use road_plan::OutOfMemory;
use serde_json::Value;
use std::alloc::Global;

// Parse an `import` in this form; None unless it has exactly its fields. The caller reads its `form`.
#[tactic(auto, unfolding(crate::specs::CommandGrammar::import_in))]
pub(crate) fn parse_import(
    alloc: Global,
    form: u64,
    at: String,
    fields: &Value,
) -> Result<Option<Command>, OutOfMemory>
    ensures { IfOk result (λ command. option_map command_view command
        ≡ grammar.import_in form (string_bytes at) (view fields.now)) }
{
    if !has_fields(3, fields) {
        return Ok(None);
    }
    let Some(edits) = list_at(alloc, "edits", fields)? else {
        return Ok(None);
    };
    if !are_of_form(form, &edits) {
        return Ok(None);
    }
    Ok(Some(Command::Import { at, edits }))
}

// Parse a `send`; None unless it has exactly its fields.
pub(crate) fn parse_send(
    alloc: Global,
    at: String,
    fields: &Value,
) -> Result<Option<Command>, OutOfMemory>
    ensures { IfOk result (λ command. option_map command_view command
        ≡ option_map (grammar.Send (string_bytes at)) (grammar.only_name (codes "name") (view fields.now))) }
{
    match only_name(alloc, "name", fields)? {
        Some(name) => Ok(Some(Command::Send { at, name })),
        None => Ok(None),
    }
}

// Parse a `heads`; None unless it has exactly its fields.
pub(crate) fn parse_heads(
    alloc: Global,
    at: String,
    fields: &Value,
) -> Result<Option<Command>, OutOfMemory>
    ensures { IfOk result (λ command. option_map command_view command
        ≡ option_map (grammar.Heads (string_bytes at)) (grammar.only_name (codes "name") (view fields.now))) }
{
    match only_name(alloc, "name", fields)? {
        Some(name) => Ok(Some(Command::Heads { at, name })),
        None => Ok(None),
    }
}

// Parse a `beyond`; None unless it has exactly its fields.
pub(crate) fn parse_beyond(
    alloc: Global,
    at: String,
    fields: &Value,
) -> Result<Option<Command>, OutOfMemory>
    ensures { IfOk result (λ command. option_map command_view command
        ≡ grammar.beyond_in (string_bytes at) (view fields.now)) }
{
    match heads_and_name(alloc, fields)? {
        Some((heads, name)) => Ok(Some(Command::Beyond { at, heads, name })),
        None => Ok(None),
    }
}

// Read the names at `heads` and `name`, of an object that has exactly these fields and `at`.
#[tactic(auto, unfolding(crate::specs::CommandGrammar::beyond_in))]
fn heads_and_name(alloc: Global, fields: &Value) -> Result<Option<(String, String)>, OutOfMemory>
    ensures { IfOk result (λ found. (at : List ℕ)
        → option_map (λ names. grammar.Beyond at (string_bytes names.0) (string_bytes names.1)) found
        ≡ grammar.beyond_in at (view fields.now)) }
{
    if !has_fields(3, fields) {
        return Ok(None);
    }
    let Some(heads) = owned_name_at(alloc, "heads", fields)? else {
        return Ok(None);
    };
    let Some(name) = owned_name_at(alloc, "name", fields)? else {
        return Ok(None);
    };
    Ok(Some((heads, name)))
}

// Parse a `take`; None unless it has exactly its fields.
pub(crate) fn parse_take(
    alloc: Global,
    at: String,
    fields: &Value,
) -> Result<Option<Command>, OutOfMemory>
    ensures { IfOk result (λ command. option_map command_view command
        ≡ option_map (grammar.Take (string_bytes at)) (grammar.only_name (codes "message") (view fields.now))) }
{
    match only_name(alloc, "message", fields)? {
        Some(message) => Ok(Some(Command::Take { at, message })),
        None => Ok(None),
    }
}

// Read the name at this field, of an object that has exactly this field and `at`.
fn only_name(alloc: Global, field: &str, fields: &Value) -> Result<Option<String>, OutOfMemory>
    ensures { IfOk result (λ name. option_map string_bytes name ≡ grammar.only_name field.now (view fields.now)) }
{
    if !has_fields(2, fields) {
        return Ok(None);
    }
    owned_name_at(alloc, field, fields)
}

// Read the name at this field, and copy it to a new string.
fn owned_name_at(alloc: Global, field: &str, fields: &Value) -> Result<Option<String>, OutOfMemory>
    ensures { IfOk result (λ name. option_map string_bytes name ≡ spec_fields.name_at field.now (view fields.now)) }
{
    match name_at(field, fields) {
        Some(name) => Ok(Some(String::from_str(alloc, name)?)),
        None => Ok(None),
    }
}
