//! Tests of whole steps, of detectors and rows.
#![tactic(auto)]

#[cfg(test)]
mod detector;
#[cfg(test)]
mod plain;
#[cfg(test)]
mod steps;

#[cfg(test)]
use std::process::Abort;

// Assert that a row of a table, or a step, is right.
#[cfg(test)]
fn assert_row(rt: &impl Abort, row: usize, is_right: bool) {
    assert!(rt; is_right, "row {row}");
}
