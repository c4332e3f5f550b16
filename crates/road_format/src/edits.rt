//! Edits in a line. They are read in place: no value is copied.

ghost use Rattle.std.specs.Prelude.{◌≡◌};
ghost use Rattle.serde_json.specs.View.{view};
ghost use Rattle.road_format.specs.EditGrammar as grammar;

use crate::fields::{has_items, long_number_in, number_in, short_number_in};
use crate::lists::ListItem;
use crate::object::object_in_front;
use road_scenario::{Edit, Stamp, Value as Put};
use serde_json::Value;

impl ListItem for Edit {
    ghost read = { grammar.edit_in };

    fn of_item(item: &Value) -> Option<Edit> {
        edit_in(item)
    }
}

// Read the edit from a list of exactly six items: kind, index, step, count, number, value.
#[tactic(auto, unfolding(crate::specs::EditGrammar::edit_in))]
fn edit_in(value: &Value) -> Option<Edit>
    ensures { result ≡ grammar.edit_in (view value.now) }
{
    if !has_items(6, value) {
        return None;
    }
    let object = object_in_front(value)?;
    let step = value.get(2).and_then(number_in)?;
    let stamp = stamp_in(value)?;
    let value = value.get(5).and_then(put_in)?;
    Some(Edit {
        object,
        step,
        stamp,
        value,
    })
}

// Read the stamp whose count and number are the fourth and the fifth item of a list.
#[tactic(auto, unfolding(crate::specs::EditGrammar::stamp_in))]
fn stamp_in(value: &Value) -> Option<Stamp>
    ensures { result ≡ grammar.stamp_in (view value.now) }
{
    let count = value.get(3).and_then(long_number_in)?;
    let number = value.get(4).and_then(short_number_in)?;
    Some(Stamp { count, number })
}

// Read the effect of an edit from its value: null for a withdrawal, otherwise the number that it sets.
fn put_in(value: &Value) -> Option<Put>
    ensures { result ≡ grammar.value_in (view value.now) }
{
    if value.is_null() {
        return Some(Put::Withdrawn);
    }
    Some(Put::Put(number_in(value)?))
}
