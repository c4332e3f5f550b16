//! Tests of sheets and of late edits.
#![tactic(auto)]

#[cfg(test)]
mod examples;
#[cfg(test)]
mod scripts;
#[cfg(test)]
mod sheets;
