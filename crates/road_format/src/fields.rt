//! The values of an object's fields.

ghost use Rattle.std.specs.Prelude.{◌≡◌, option_map};
ghost use Rattle.serde_json.specs.View.{view};
ghost use Rattle.road_format.specs.Fields as fields;

use crate::names::is_name;
use serde_json::Value;

// Return whether this value is an object of `count` fields.
pub(crate) fn has_fields(count: usize, value: &Value) -> bool
    ensures { result ≡ fields.has_fields count (view value.now) }
{
    match value.as_object() {
        Some(fields) => fields.len() == count,
        None => false,
    }
}

// Read the name and the value of the only field of an object.
pub(crate) fn only_field(value: &Value) -> Option<(&str, &Value)>
    ensures { option_map (λ field. (field.0.now, view field.1.now)) result ≡ fields.only_field (view value.now) }
{
    let fields = value.as_object()?;
    if fields.len() != 1 {
        return None;
    }
    let (name, value) = fields.first_key_value()?;
    Some((name.as_str(), value))
}

// Return whether this value is a list of `count` items.
pub(crate) fn has_items(count: usize, value: &Value) -> bool
    ensures { result ≡ fields.has_items count (view value.now) }
{
    match value.as_array() {
        Some(items) => items.as_slice().len() == count,
        None => false,
    }
}

// Read this value as a whole number of at most 64 bits.
pub(crate) fn long_number_in(value: &Value) -> Option<u64>
    ensures { result ≡ fields.long_number_in (view value.now) }
{
    value.as_u64()
}

// Read this value as a whole number of at most 16 bits.
pub(crate) fn short_number_in(value: &Value) -> Option<u16>
    ensures { result ≡ fields.short_number_in (view value.now) }
{
    match long_number_in(value) {
        Some(n) => u16::try_from(n).ok(),
        None => None,
    }
}

// Read this value as a whole number of at most 32 bits.
pub(crate) fn number_in(value: &Value) -> Option<u32>
    ensures { result ≡ fields.number_in (view value.now) }
{
    match long_number_in(value) {
        Some(n) => u32::try_from(n).ok(),
        None => None,
    }
}

// Read the whole number of at most 32 bits at this field.
pub(crate) fn number_at(field: &str, value: &Value) -> Option<u32>
    ensures { result ≡ fields.number_at field.now (view value.now) }
{
    match value.get(field) {
        Some(value) => number_in(value),
        None => None,
    }
}

// Read the whole number of at most 64 bits at this field.
pub(crate) fn long_number_at(field: &str, value: &Value) -> Option<u64>
    ensures { result ≡ fields.long_number_at field.now (view value.now) }
{
    match value.get(field) {
        Some(value) => long_number_in(value),
        None => None,
    }
}

// Read the name at this field: a string of 1 to 64 bytes.
pub(crate) fn name_at<'a>(field: &str, value: &'a Value) -> Option<&'a str>
    ensures { option_map (λ name. name.now) result ≡ fields.name_at field.now (view value.now) }
{
    match value.get(field).and_then(Value::as_str) {
        Some(text) if is_name(text) => Some(text),
        _ => None,
    }
}
