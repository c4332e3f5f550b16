//! The lines that are written for answers.

ghost use Rattle.std.specs.Prelude.{◌≡◌, IfOk, codes, string_bytes, map};
ghost use Rattle.serde_json.specs.Data.{string, member, no_members, put as with_member};
ghost use Rattle.serde_json.specs.View.{view, members_view};
ghost use Rattle.road_format.specs.Replies as replies;
ghost use Rattle.road_format.specs.Replies.{
  number_data,
  list_data,
  field_data,
  edit_data,
  step_data,
  data_of,
  reply,
};
ghost use Rattle.road_format.specs.Views.{texts, car_view, answer_view};
ghost use Rattle.road_format.specs.declared.form.TheConstants.{LAST_FORM};

use crate::answer::Answer;
use crate::form::LAST_FORM;
use crate::list_values::list_value;
use crate::refusal::Refusal;
use road_cells::Car;
use road_delta::Head;
use road_plan::OutOfMemory;
use road_scenario::{Edit, Stamp};
use serde_json::{Map, Value, put};
use std::alloc::Global;

/// Write the line of an answer with its newline: one compact JSON object, with its fields sorted by the bytes of their
/// names.
///
/// # Errors
///
/// `OutOfMemory` if an allocation failed. There is no other error: every answer has a line.
pub fn reply_line(alloc: Global, answer: &Answer) -> Result<String, OutOfMemory>
    ensures { IfOk result (λ line. string_bytes line ≡ reply (answer_view answer.now)) }
{
    let mut line = answer_value(alloc, answer)?.to_string(alloc)?;
    line.push('\n')?;
    Ok(line)
}

// Return an answer as a JSON value.
fn answer_value(alloc: Global, answer: &Answer) -> Result<Value, OutOfMemory>
    ensures { IfOk result (λ value. view value ≡ data_of (answer_view answer.now)) }
{
    match answer {
        Answer::Open { replicas } => open_value(alloc, *replicas),
        Answer::Refused(refusal) => refused_value(alloc, *refusal),
        Answer::Horizon(horizon) => horizon_value(alloc, *horizon),
        Answer::Cells(row) => cells_value(alloc, row.as_str()),
        Answer::Cars(cars) => cars_value(alloc, cars.as_slice()),
        Answer::Counted { cars, speeds } => counted_value(alloc, *cars, *speeds),
        Answer::Rows(rows) => rows_value(alloc, rows.as_slice()),
        Answer::Stamped(stamp) => stamped_value(alloc, *stamp),
        Answer::Edits(edits) => edits_value(alloc, edits.as_slice()),
        Answer::Touched(step) => touched_value(alloc, *step),
        Answer::Sent { message, size } => sent_value(alloc, message.as_str(), *size),
        Answer::Heads { message, heads } => heads_value(alloc, message.as_str(), heads.as_slice()),
        Answer::Delta { message, edits } => delta_value(alloc, message.as_str(), edits.as_slice()),
        Answer::Crowd {
            edits,
            journal,
            row,
        } => crowd_value(alloc, edits.as_slice(), *journal, row.as_str()),
    }
}

// Add a field to an object.
fn with_field(
    alloc: Global,
    mut fields: Map<String, Value>,
    name: &str,
    value: Value,
) -> Result<Map<String, Value>, OutOfMemory>
    ensures { IfOk result (λ all. members_view all.entries
        ≡ with_member name.now (view value) (members_view fields.entries)) }
{
    put(&mut fields, alloc, name, value)?;
    Ok(fields)
}

// Add a field with a string to an object.
fn with_text(
    alloc: Global,
    fields: Map<String, Value>,
    name: &str,
    text: &str,
) -> Result<Map<String, Value>, OutOfMemory>
    ensures { IfOk result (λ all. members_view all.entries
        ≡ with_member name.now (string text.now) (members_view fields.entries)) }
{
    let text = Value::try_from_str(alloc, text)?;
    with_field(alloc, fields, name, text)
}

// Return an object with one field.
fn field_value(alloc: Global, name: &str, value: Value) -> Result<Value, OutOfMemory>
    ensures { IfOk result (λ made. view made ≡ field_data name.now (view value)) }
{
    let fields = with_field(alloc, Map::new(alloc), name, value)?;
    Ok(Value::Object(fields))
}

fn open_value(alloc: Global, replicas: u32) -> Result<Value, OutOfMemory>
    ensures { IfOk result (λ value. view value ≡ data_of (replies.Open replicas)) }
{
    field_value(alloc, "open", Value::from(replicas))
}

fn refused_value(alloc: Global, refusal: Refusal) -> Result<Value, OutOfMemory>
    ensures { IfOk result (λ value. view value ≡ data_of (replies.Refused refusal)) }
{
    let text = Value::try_from_str(alloc, refusal.text())?;
    field_value(alloc, "refused", text)
}

fn horizon_value(alloc: Global, horizon: u32) -> Result<Value, OutOfMemory>
    ensures { IfOk result (λ value. view value ≡ data_of (replies.Horizon horizon)) }
{
    field_value(alloc, "horizon", Value::from(horizon))
}

fn cells_value(alloc: Global, row: &str) -> Result<Value, OutOfMemory>
    ensures { IfOk result (λ value. view value ≡ data_of (replies.Cells row.now)) }
{
    let row = Value::try_from_str(alloc, row)?;
    field_value(alloc, "cells", row)
}

fn cars_value(alloc: Global, cars: &[Car]) -> Result<Value, OutOfMemory>
    ensures { IfOk result (λ value. view value ≡ data_of (replies.Cars (map car_view cars.now))) }
{
    let cars = list_value(alloc, cars)?;
    field_value(alloc, "cars", cars)
}

fn counted_value(alloc: Global, cars: u32, speeds: u32) -> Result<Value, OutOfMemory>
    ensures { IfOk result (λ value. view value ≡ data_of (replies.Counted cars speeds)) }
{
    let fields = with_field(alloc, Map::new(alloc), "cars", Value::from(cars))?;
    let fields = with_field(alloc, fields, "speeds", Value::from(speeds))?;
    Ok(Value::Object(fields))
}

fn rows_value(alloc: Global, rows: &[String]) -> Result<Value, OutOfMemory>
    ensures { IfOk result (λ value. view value ≡ data_of (replies.Rows (texts rows.now))) }
{
    let rows = list_value(alloc, rows)?;
    field_value(alloc, "rows", rows)
}

fn stamped_value(alloc: Global, stamp: Stamp) -> Result<Value, OutOfMemory>
    ensures { IfOk result (λ value. view value ≡ data_of (replies.Stamped stamp)) }
{
    let numbers = vec![in alloc; Value::from(stamp.count), Value::from(stamp.number)]?;
    field_value(alloc, "stamp", Value::Array(numbers))
}

fn edits_value(alloc: Global, edits: &[Edit]) -> Result<Value, OutOfMemory>
    ensures { IfOk result (λ value. view value ≡ data_of (replies.Edits edits.now)) }
{
    let fields = edits_fields(alloc, edits)?;
    Ok(Value::Object(fields))
}

// Write the two fields of a list of edits: the list, and its form.
fn edits_fields(alloc: Global, edits: &[Edit]) -> Result<Map<String, Value>, OutOfMemory>
    ensures { IfOk result (λ fields. members_view fields.entries
        ≡ member (codes "edits") (list_data (map edit_data edits.now))
        (member (codes "form") (number_data LAST_FORM) no_members)) }
{
    let edits = list_value(alloc, edits)?;
    let fields = with_field(alloc, Map::new(alloc), "edits", edits)?;
    with_field(alloc, fields, "form", Value::from(LAST_FORM))
}

// Write the first step at which the number set for an object has changed.
fn touched_value(alloc: Global, step: Option<u32>) -> Result<Value, OutOfMemory>
    ensures { IfOk result (λ value. view value ≡ data_of (replies.Touched step)) }
{
    field_value(alloc, "touched", step_value(step))
}

// Write the name of a message of all the edits that a replica holds, and the number of these edits.
fn sent_value(alloc: Global, message: &str, size: u64) -> Result<Value, OutOfMemory>
    ensures { IfOk result (λ value. view value ≡ data_of (replies.Sent message.now size)) }
{
    let fields = with_text(alloc, Map::new(alloc), "message", message)?;
    let fields = with_field(alloc, fields, "size", Value::from(size))?;
    Ok(Value::Object(fields))
}

fn heads_value(alloc: Global, message: &str, heads: &[Head]) -> Result<Value, OutOfMemory>
    ensures { IfOk result (λ value. view value ≡ data_of (replies.Heads message.now heads.now)) }
{
    let heads = list_value(alloc, heads)?;
    let fields = with_field(alloc, Map::new(alloc), "form", Value::from(LAST_FORM))?;
    let fields = with_field(alloc, fields, "heads", heads)?;
    let fields = with_text(alloc, fields, "message", message)?;
    Ok(Value::Object(fields))
}

// Write a message of the edits that are beyond the heads of another message.
fn delta_value(alloc: Global, message: &str, edits: &[Edit]) -> Result<Value, OutOfMemory>
    ensures { IfOk result (λ value. view value ≡ data_of (replies.Delta message.now edits.now)) }
{
    let fields = edits_fields(alloc, edits)?;
    let fields = with_text(alloc, fields, "message", message)?;
    Ok(Value::Object(fields))
}

fn crowd_value(alloc: Global, edits: &[Edit], journal: u32, row: &str) -> Result<Value, OutOfMemory>
    ensures { IfOk result (λ value. view value ≡ data_of (replies.Crowd edits.now journal row.now)) }
{
    let fields = edits_fields(alloc, edits)?;
    let fields = with_field(alloc, fields, "journal", Value::from(journal))?;
    let fields = with_text(alloc, fields, "row", row)?;
    Ok(Value::Object(fields))
}

// Return a step as a JSON number, and None as null.
fn step_value(step: Option<u32>) -> Value
    ensures { view result ≡ step_data step }
{
    match step {
        Some(step) => Value::from(step),
        None => Value::Null,
    }
}
