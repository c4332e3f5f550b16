//! Tests of sessions.
#![tactic(auto)]

#[cfg(test)]
mod acts;
#[cfg(test)]
mod closings;
#[cfg(test)]
mod counted;
#[cfg(test)]
mod dashboard;
#[cfg(test)]
mod journals;
#[cfg(test)]
mod looking;
#[cfg(test)]
mod questions;
#[cfg(test)]
mod scripts;
#[cfg(test)]
mod worked;
#[cfg(test)]
mod writes;
