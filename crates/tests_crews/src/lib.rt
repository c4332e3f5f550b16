//! Tests of crews.
#![tactic(auto)]

#[cfg(test)]
mod alone;
#[cfg(test)]
mod ended;
#[cfg(test)]
mod meetings;
#[cfg(test)]
mod roads;
#[cfg(test)]
mod rows;
#[cfg(test)]
mod sameness;
#[cfg(test)]
mod spans;
#[cfg(test)]
mod workers;

#[cfg(test)]
use std::process::Abort;

// Assert that a row of a table is right.
#[cfg(test)]
fn assert_row(rt: &impl Abort, row: usize, is_right: bool) {
    assert!(rt; is_right, "row {row}");
}
