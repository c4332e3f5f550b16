//! Tests of replicas.
#![tactic(auto)]

#[cfg(test)]
mod crews;
#[cfg(test)]
mod examples;
#[cfg(test)]
mod growing;
#[cfg(test)]
mod questions;
#[cfg(test)]
mod refused_questions;
#[cfg(test)]
mod replicas;
