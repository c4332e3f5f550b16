//! Tests of the plan, the words, the cells and the rules.
#![tactic(auto)]

#[cfg(test)]
mod cells;
#[cfg(test)]
mod plan;
#[cfg(test)]
mod rules;
#[cfg(test)]
mod words;

#[cfg(test)]
use std::process::Abort;

// Assert that a row of a table is right.
#[cfg(test)]
fn assert_row(rt: &impl Abort, row: usize, is_right: bool) {
    assert!(rt; is_right, "row {row}");
}
