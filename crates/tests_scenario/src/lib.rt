//! Tests of joins, of maps and of scenarios.
#![tactic(auto)]

#[cfg(test)]
mod lattice;
#[cfg(test)]
mod maps;
#[cfg(test)]
mod scenario;

#[cfg(test)]
use std::process::Abort;

// Assert that a row of a table is right.
#[cfg(test)]
fn assert_row(rt: &impl Abort, row: usize, is_right: bool) {
    assert!(rt; is_right, "row {row}");
}
