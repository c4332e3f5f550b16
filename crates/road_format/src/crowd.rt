//! The command that gives each of several sessions a share of edits.

ghost use Rattle.std.specs.Prelude.{◌≡◌, IfOk, option_map};
ghost use Rattle.std.specs.List.{list_all};
ghost use Rattle.serde_json.specs.View.{items_view, view};
ghost use Rattle.road_format.specs.CommandGrammar as grammar;
ghost use Rattle.road_format.specs.EditGrammar as edit_grammar;
ghost use Rattle.road_format.specs.Fields as spec_fields;
ghost use Rattle.road_format.specs.Forms as forms;
ghost use Rattle.road_format.specs.Views.{command_view, shares_view};

use crate::command::Command;
use crate::fields::{has_fields, number_at};
use crate::form::are_of_form;
use crate::lists::{items_at, list_in};
use road_plan::OutOfMemory;
use road_plan::limits::MOST_SESSIONS;
use road_scenario::Edit;
use serde_json::Value;
use std::alloc::Global;

// Parse a `crowd` in this form; None unless it has exactly its fields. The caller reads its `form`.
#[tactic(auto, unfolding(crate::specs::CommandGrammar::crowd_in))]
pub(crate) fn parse_crowd(
    alloc: Global,
    form: u64,
    fields: &Value,
) -> Result<Option<Command>, OutOfMemory>
    ensures { IfOk result (λ command. option_map command_view command
        ≡ grammar.crowd_in form (view fields.now)) }
{
    if !has_fields(3, fields) {
        return Ok(None);
    }
    let Some(shares) = shares_at(alloc, "shares", fields)? else {
        return Ok(None);
    };
    if !are_few_shares(&shares) || !are_shares_of_form(form, &shares) {
        return Ok(None);
    }
    match number_at("to", fields) {
        Some(to) => Ok(Some(Command::Crowd { shares, to })),
        None => Ok(None),
    }
}

// Return whether a crowd may have this many shares.
fn are_few_shares(shares: &[Vec<Edit>]) -> bool
    ensures { result ≡ grammar.are_few_shares (shares_view shares.now) }
{
    0 < shares.len() && shares.len() <= MOST_SESSIONS as usize
}

// Return whether each of these shares may be in a command of a form.
fn are_shares_of_form(form: u64, shares: &[Vec<Edit>]) -> bool
    ensures { result ≡ list_all (forms.are_of_form form) (shares_view shares.now) }
{
    for share in shares {
        if !are_of_form(form, share) {
            return false;
        }
    }
    true
}

// Read the shares at this field: a list of lists of edits.
fn shares_at(
    alloc: Global,
    field: &str,
    value: &Value,
) -> Result<Option<Vec<Vec<Edit>>>, OutOfMemory>
    ensures { IfOk result (λ found. option_map (λ found. shares_view found.items) found
        ≡ spec_fields.list_at edit_grammar.edits_in field.now (view value.now)) }
{
    match items_at(field, value) {
        Some(items) => shares_in(alloc, items),
        None => Ok(None),
    }
}

// Read each item of a list as a share.
fn shares_in(alloc: Global, items: &[Value]) -> Result<Option<Vec<Vec<Edit>>>, OutOfMemory>
    ensures { IfOk result (λ found. option_map (λ found. shares_view found.items) found
        ≡ spec_fields.values_of_items edit_grammar.edits_in (items_view items.now)) }
{
    let mut found = Vec::new(alloc);
    for item in items {
        let Some(share) = edits_in(alloc, item)? else {
            return Ok(None);
        };
        found.push(share)?;
    }
    Ok(Some(found))
}

// Parse a list of edits. Return None if the value is not one.
fn edits_in(alloc: Global, value: &Value) -> Result<Option<Vec<Edit>>, OutOfMemory>
    ensures { IfOk result (λ found. option_map (λ found. found.items) found
        ≡ edit_grammar.edits_in (view value.now)) }
{
    match value.as_array() {
        Some(items) => list_in(alloc, items.as_slice()),
        None => Ok(None),
    }
}
