//! The notation of objects.

ghost use Rattle.std.specs.Prelude.{◌≡◌};
ghost use Rattle.serde_json.specs.View.{view};
ghost use Rattle.road_format.specs.ObjectGrammar as objects;

use crate::fields::number_in;
use crate::lists::{items_at, two_items};
use road_plan::Object;
use serde_json::Value;

// Return the object at this field: a list of exactly two items, a kind's name and an index.
pub(crate) fn object_at(field: &str, value: &Value) -> Option<Object>
    ensures { result ≡ objects.object_at field.now (view value.now) }
{
    let (kind, index) = items_at(field, value).and_then(two_items)?;
    object_of(kind.as_str()?, number_in(index)?)
}

// Return the object whose kind's name and index are the first two items of a list.
pub(crate) fn object_in_front(value: &Value) -> Option<Object>
    ensures { result ≡ objects.object_in_front (view value.now) }
{
    let kind = value.get(0).and_then(Value::as_str)?;
    let index = value.get(1).and_then(number_in)?;
    object_of(kind, index)
}

// Return the name of an object's kind.
pub(crate) fn kind_of(object: Object) -> &'static str
    ensures { result.now ≡ objects.kind_of object }
{
    match object {
        Object::Limit(_) => "limit",
        Object::Slow(_) => "slow",
        Object::Block(_) => "block",
        Object::Inflow(_) => "inflow",
        Object::Watch(_) => "watch",
        Object::Start(_) => "start",
    }
}

// Return the index of an object among the objects of its kind.
pub(crate) fn index_of(object: Object) -> u32
    ensures { result ≡ objects.index_of object }
{
    match object {
        Object::Limit(zone) | Object::Slow(zone) | Object::Start(zone) => zone,
        Object::Block(cell) => cell,
        Object::Inflow(inlet) => inlet,
        Object::Watch(detector) => detector,
    }
}

// Return the object of a kind and an index.
fn object_of(kind: &str, index: u32) -> Option<Object>
    ensures { result ≡ objects.object_of kind.now index }
{
    match kind {
        "limit" => Some(Object::Limit(index)),
        "slow" => Some(Object::Slow(index)),
        "block" => Some(Object::Block(index)),
        "inflow" => Some(Object::Inflow(index)),
        "watch" => Some(Object::Watch(index)),
        "start" => Some(Object::Start(index)),
        _ => None,
    }
}
