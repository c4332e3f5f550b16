//! Lines that are commands.

ghost use Rattle.std.specs.Prelude.{◌≡◌, ◌<◌, length, IfOk, IfErr, OnErr, IsSome, option_map, string_bytes};
ghost use Rattle.serde_json.specs.View.{view};
ghost use Rattle.road_format.specs.CommandGrammar as grammar;
ghost use Rattle.road_format.specs.Fields as fields;
ghost use Rattle.road_format.specs.Refusals.{line_refusal, result_or_refusal};
ghost use Rattle.road_format.specs.declared.refusal.Refusal.TheVariants.{NotACommand};
ghost use Rattle.road_format.specs.Views.{Gives, command_view};
ghost use Rattle.road_format.specs.Private.UncheckedViews.{formed_view};
ghost use Rattle.road_format.specs.declared.faults.LineFault.TheVariants as line_faults;

use crate::command::Command;
use crate::crowd::parse_crowd;
use crate::faults::LineFault;
use crate::fields::{long_number_at, name_at, only_field};
use crate::form::{LAST_FORM, is_known};
use crate::message_commands::{parse_beyond, parse_heads, parse_import, parse_send, parse_take};
use crate::reading::value_in;
use crate::replica_commands::replica_command_of_name;
use road_plan::OutOfMemory;
use serde_json::Value;
use std::alloc::Global;

/// Read the command of a line. The line is an object of one field. The field's name is a variant of `Command` in lower
/// case, and its value is an object of exactly the variant's fields, in any order. `import` and `crowd` also have the
/// number `form`, and in form 1 they have no edit of kind `start`.
///
/// A name is a string of 1 to 64 bytes. A number is whole, has at most 32 bits, and is written without a decimal point
/// or exponent. An object is a list of its kind and its index. An edit is a list of its kind, index, step, count (of at
/// most 64 bits), number (of at most 16 bits) and value, where null is a withdrawal. `shares` is a list of 1 to 8 lists
/// of edits, which may be empty lists. If a field is repeated, the last one counts.
///
/// # Errors
///
/// In this order:
///
/// - `NotJson`: the line is not a JSON value.
/// - `NotACommand`: the value is not a command.
/// - `UnknownForm`: its `form` is neither 1 nor 2.
///
/// `OutOfMemory` may replace any of these results if the line is not empty. The length of the line is not checked here.
#[tactic(auto, using(crate::proofs::LineValues::length_of_value), unfolding(crate::specs::CommandGrammar::command_of))]
pub fn read_command(alloc: Global, line: &[u8]) -> Result<Command, LineFault>
    // The result is the grammar's command, or its refusal. Out of memory is not a refusal.
    ensures command { Gives command_view line_refusal result (grammar.command_of line.now) }

    // The line has at least one byte for each write of its shares.
    ensures shares { IfOk result (λ command. grammar.HasFewWrites (length line.now) (command_view command)) }

    // An empty line never causes `OutOfMemory`.
    ensures memory { IfErr result (λ fault. fault ≡ line_faults.OutOfMemory → 0 < length line.now) }
{
    let Some(value) = value_in(alloc, line)? else {
        return Err(LineFault::NotJson);
    };
    command_of_value(alloc, &value)
}

// Read the command of a value, if its form is known.
fn command_of_value(alloc: Global, value: &Value) -> Result<Command, LineFault>
    ensures { Gives command_view line_refusal result
        (result_or_refusal NotACommand (grammar.command_in (view value.now)) grammar.command_of_form) }
{
    match command_in(alloc, value)? {
        Some((form, command)) if is_known(form) => Ok(command),
        Some(_) => Err(LineFault::UnknownForm),
        None => Err(LineFault::NotACommand),
    }
}

// Read the form and the command of a value.
#[tactic(auto, unfolding(crate::specs::CommandGrammar::command_in))]
fn command_in(alloc: Global, value: &Value) -> Result<Option<(u64, Command)>, OutOfMemory>
    ensures command { IfOk result (λ read. option_map formed_view read ≡ grammar.command_in (view value.now)) }
    ensures memory { OnErr result (IsSome (fields.only_field (view value.now))) }
{
    let Some((name, fields)) = only_field(value) else {
        return Ok(None);
    };
    let Some(form) = form_of_name(name, fields) else {
        return Ok(None);
    };
    match command_of_name(alloc, name, form, fields)? {
        Some(command) => Ok(Some((form, command))),
        None => Ok(None),
    }
}

// Read the form of the command with this name: its field `form` if the command has one, and otherwise the last form.
fn form_of_name(name: &str, fields: &Value) -> Option<u64>
    ensures { result ≡ grammar.form_of_name name.now (view fields.now) }
{
    match name {
        "import" | "crowd" => long_number_at("form", fields),
        _ => Some(LAST_FORM),
    }
}

// Read the command of this name, form and fields: a crowd, or a command at a replica.
#[tactic(auto, unfolding(crate::specs::CommandGrammar::command_of_name))]
fn command_of_name(
    alloc: Global,
    name: &str,
    form: u64,
    fields: &Value,
) -> Result<Option<Command>, OutOfMemory>
    ensures { IfOk result (λ command. option_map command_view command
        ≡ grammar.command_of_name name.now form (view fields.now)) }
{
    if name == "crowd" {
        return parse_crowd(alloc, form, fields);
    }
    match name_at("at", fields) {
        Some(at) => command_at(alloc, name, form, String::from_str(alloc, at)?, fields),
        None => Ok(None),
    }
}

// Read the command of this name, form and fields at a replica.
#[tactic(auto, unfolding(crate::specs::CommandGrammar::command_at))]
fn command_at(
    alloc: Global,
    name: &str,
    form: u64,
    at: String,
    fields: &Value,
) -> Result<Option<Command>, OutOfMemory>
    ensures { IfOk result (λ command. option_map command_view command
        ≡ grammar.command_at name.now form (string_bytes at) (view fields.now)) }
{
    match name {
        "import" => parse_import(alloc, form, at, fields),
        "send" => parse_send(alloc, at, fields),
        "heads" => parse_heads(alloc, at, fields),
        "beyond" => parse_beyond(alloc, at, fields),
        "take" => parse_take(alloc, at, fields),
        _ => Ok(replica_command_of_name(name, at, fields)),
    }
}
