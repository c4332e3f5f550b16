//! The JSON value of a line.

ghost use Rattle.std.specs.Prelude.{◌≡◌, ◌<◌, length, IfOk, OnErr, option_map};
ghost use Rattle.serde_json.specs.View.{view};
ghost use Rattle.road_format.specs.Reading.{value_of};

use road_plan::OutOfMemory;
use serde_json::Value;
use std::alloc::Global;

// Parse a line as JSON. Return None if it is not UTF-8 or not JSON.
#[tactic(auto, unfolding(crate::specs::Reading::value_of))]
pub(crate) fn value_in(alloc: Global, line: &[u8]) -> Result<Option<Value>, OutOfMemory>
    ensures value { IfOk result (λ value. option_map view value ≡ value_of line.now) }
    ensures memory { OnErr result (0 < length line.now) }
{
    match Value::from_slice(alloc, line) {
        Ok(value) => Ok(Some(value)),
        Err(e) if e.is_memory() => Err(OutOfMemory),
        Err(_) => Ok(None),
    }
}
