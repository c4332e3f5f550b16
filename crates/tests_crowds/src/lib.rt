//! Tests of crowds.
#![tactic(auto)]

#[cfg(test)]
mod crowds;
#[cfg(test)]
mod meetings;
#[cfg(test)]
mod orders;
mod shares;
#[cfg(test)]
mod worked;

pub use shares::may_gather;
