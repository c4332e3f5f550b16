//! The lists of a line. Reading an empty list does not allocate. If a list is refused, nothing of it stays allocated.

ghost use Rattle.std.specs.Prelude.{◌≡◌, ◌<◌, length, Option, IfOk, OnErr, option_map};
ghost use Rattle.serde_json.specs.Data.{Data};
ghost use Rattle.serde_json.specs.View.{items_view, view};
ghost use Rattle.serde_json.specs.Find.{as_str};
ghost use Rattle.road_format.specs.Fields as fields;
ghost use Rattle.road_format.specs.Views.{texts};

use crate::fields::number_in;
use road_plan::OutOfMemory;
use serde_json::Value;
use std::alloc::Global;

// A type that the items of a list can be read as.
pub(crate) trait ListItem: Drop {
    // What a value is read as, or None if it is not of this type.
    ghost read: { Data → Option Self };

    // Read an item.
    fn of_item(item: &Value) -> Option<Self>
        ensures { result ≡ read (view item.now) };
}

impl ListItem for u32 {
    ghost read = { fields.number_in };

    fn of_item(item: &Value) -> Option<u32> {
        number_in(item)
    }
}

// The two numbers of a list that has exactly two items.
impl ListItem for (u32, u32) {
    ghost read = { fields.pair_in };

    fn of_item(item: &Value) -> Option<(u32, u32)> {
        let items = item.as_array()?;
        let (first, second) = two_items(items.as_slice())?;
        Some((number_in(first)?, number_in(second)?))
    }
}

// Return the items of the list at this field.
pub(crate) fn items_at<'a>(field: &str, value: &'a Value) -> Option<&'a [Value]>
    ensures { option_map (λ items. items_view items.now) result ≡ fields.items_at field.now (view value.now) }
{
    match value.get(field).and_then(Value::as_array) {
        Some(items) => Some(items.as_slice()),
        None => None,
    }
}

// Read the strings of the list of strings at this field.
pub(crate) fn texts_at(
    alloc: Global,
    field: &str,
    value: &Value,
) -> Result<Option<Vec<String>>, OutOfMemory>
    ensures { IfOk result (λ found. option_map (λ found. texts found.items) found
        ≡ fields.list_at as_str field.now (view value.now)) }
{
    match items_at(field, value) {
        Some(items) => texts_in(alloc, items),
        None => Ok(None),
    }
}

// Read each item of the list at this field.
pub(crate) fn list_at<T: ListItem>(
    alloc: Global,
    field: &str,
    value: &Value,
) -> Result<Option<Vec<T>>, OutOfMemory>
    ensures { IfOk result (λ found. option_map (λ found. found.items) found
        ≡ fields.list_at T.read field.now (view value.now)) }
{
    match items_at(field, value) {
        Some(items) => list_in(alloc, items),
        None => Ok(None),
    }
}

// Read the strings of a list of strings.
fn texts_in(alloc: Global, items: &[Value]) -> Result<Option<Vec<String>>, OutOfMemory>
    ensures texts { IfOk result (λ found. option_map (λ found. texts found.items) found
        ≡ fields.values_of_items as_str (items_view items.now)) }
    ensures memory { OnErr result (0 < length items.now) }
{
    let mut found = Vec::new(alloc);
    for item in items {
        let Some(text) = item.as_str() else {
            return Ok(None);
        };
        found.push(String::from_str(alloc, text)?)?;
    }
    Ok(Some(found))
}

// Read each item of a list.
pub(crate) fn list_in<T: ListItem>(
    alloc: Global,
    items: &[Value],
) -> Result<Option<Vec<T>>, OutOfMemory>
    ensures items { IfOk result (λ found. option_map (λ found. found.items) found
        ≡ fields.values_of_items T.read (items_view items.now)) }
    ensures memory { OnErr result (0 < length items.now) }
{
    let mut found = Vec::new(alloc);
    for item in items {
        let Some(read) = T::of_item(item) else {
            return Ok(None);
        };
        found.push(read)?;
    }
    Ok(Some(found))
}

// Return the two items of a list that has exactly two.
pub(crate) fn two_items(items: &[Value]) -> Option<(&Value, &Value)>
    ensures { option_map (λ both. (view both.0.now, view both.1.now)) result ≡ fields.two_items (items_view items.now) }
{
    if items.len() != 2 {
        return None;
    }
    Some((&items[0], &items[1]))
}
