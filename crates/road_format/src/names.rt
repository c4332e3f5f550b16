//! Names of replicas and messages.

ghost use Rattle.std.specs.Prelude.{◌≡◌, ◌==◌, length};
ghost use Rattle.std.specs.List.{list_all, list_any};
ghost use Rattle.std.specs.Set.{distinct_count};
ghost use Rattle.std.specs.Str.{bytes_eq};
ghost use Rattle.road_format.specs.Fields as fields;
ghost use Rattle.road_format.specs.PlanGrammar as grammar;
ghost use Rattle.road_format.specs.Views.{texts};

use road_plan::limits::MOST_REPLICAS;

// The maximum length of a name, in bytes of UTF-8. The minimum is one byte.
pub(crate) const LONGEST_NAME: usize = 64;

// Return whether this is a name: a string of 1 to 64 bytes.
pub(crate) fn is_name(text: &str) -> bool
    ensures { result ≡ fields.is_name text.now }
{
    0 < text.len() && text.len() <= LONGEST_NAME
}

// Return whether these are 1 to 64 different names.
pub(crate) fn are_names(names: &[String]) -> bool
    ensures { result ≡ grammar.are_names (texts names.now) }
{
    0 < names.len()
        && names.len() <= MOST_REPLICAS as usize
        && are_all_names(names)
        && are_different(names)
}

// Return whether each of these is a name.
fn are_all_names(names: &[String]) -> bool
    ensures { result ≡ list_all fields.is_name (texts names.now) }
{
    for name in names {
        if !is_name(name) {
            return false;
        }
    }
    true
}

// Return whether no two of these are equal.
#[tactic(auto, using(crate::proofs::AcceptedNames::first_and_others))]
fn are_different(names: &[String]) -> bool
    ensures { result ≡ (distinct_count bytes_eq (texts names.now) == length (texts names.now)) }
{
    match names.split_first() {
        None => true,
        Some((first, others)) => !is_among(first, others) && are_different(others),
    }
}

// Return whether this string is one of these names.
fn is_among(text: &str, names: &[String]) -> bool
    ensures { result ≡ list_any (bytes_eq text.now) (texts names.now) }
{
    for name in names {
        if text == name.as_str() {
            return true;
        }
    }
    false
}
