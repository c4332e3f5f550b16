//! Tests of serving.
#![tactic(auto)]

#[cfg(test)]
mod runs;
#[cfg(test)]
mod spans;
#[cfg(test)]
mod sweeps;
