//! Lists in replies.

ghost use Rattle.std.specs.Prelude.{◌≡◌, IfOk, map, string_bytes};
ghost use Rattle.serde_json.specs.Data.{Data, string};
ghost use Rattle.serde_json.specs.View.{view};
ghost use Rattle.road_format.specs.Replies.{list_data, car_data, value_data, edit_data, head_data};
ghost use Rattle.road_format.specs.Views.{car_view};

use crate::object::{index_of, kind_of};
use road_cells::Car;
use road_delta::Head;
use road_plan::OutOfMemory;
use road_scenario::{Edit, Value as Put};
use serde_json::Value;
use std::alloc::Global;

// An item of the lists in replies.
pub(crate) trait ToValue {
    // The data that is written for it.
    ghost as_data: { Self → Data };

    // Write the JSON value of the item.
    fn to_value(&self, alloc: Global) -> Result<Value, OutOfMemory>
        ensures { IfOk result (λ value. view value ≡ as_data self.now) };
}

// Write the JSON list of these items.
pub(crate) fn list_value<T: ToValue>(alloc: Global, items: &[T]) -> Result<Value, OutOfMemory>
    ensures { IfOk result (λ value. view value ≡ list_data (map T.as_data items.now)) }
{
    let mut values = Vec::new(alloc);
    for item in items {
        values.push(item.to_value(alloc)?)?;
    }
    Ok(Value::Array(values))
}

// A car: number, cell, speed.
impl ToValue for Car {
    ghost as_data = { λ car. car_data (car_view car) };

    fn to_value(&self, alloc: Global) -> Result<Value, OutOfMemory> {
        let items = vec![in alloc;
            Value::from(self.number),
            Value::from(self.cell),
            Value::from(self.speed),
        ]?;
        Ok(Value::Array(items))
    }
}

// A row of cells: its text.
impl ToValue for String {
    ghost as_data = { λ row. string (string_bytes row) };

    fn to_value(&self, alloc: Global) -> Result<Value, OutOfMemory> {
        Value::try_from_str(alloc, self.as_str())
    }
}

// An edit: kind, index, step, count, number, value.
impl ToValue for Edit {
    ghost as_data = { edit_data };

    fn to_value(&self, alloc: Global) -> Result<Value, OutOfMemory> {
        let kind = Value::try_from_str(alloc, kind_of(self.object))?;
        let items = vec![in alloc;
            kind,
            Value::from(index_of(self.object)),
            Value::from(self.step),
            Value::from(self.stamp.count),
            Value::from(self.stamp.number),
            put_value(self.value),
        ]?;
        Ok(Value::Array(items))
    }
}

// A head: kind, index, step, count, number.
impl ToValue for Head {
    ghost as_data = { head_data };

    fn to_value(&self, alloc: Global) -> Result<Value, OutOfMemory> {
        let kind = Value::try_from_str(alloc, kind_of(self.object))?;
        let items = vec![in alloc;
            kind,
            Value::from(index_of(self.object)),
            Value::from(self.step),
            Value::from(self.stamp.count),
            Value::from(self.stamp.number),
        ]?;
        Ok(Value::Array(items))
    }
}

// Write the number that an edit sets, or null for a withdrawal.
fn put_value(value: Put) -> Value
    ensures { view result ≡ value_data value }
{
    match value {
        Put::Put(n) => Value::from(n),
        Put::Withdrawn => Value::Null,
    }
}
