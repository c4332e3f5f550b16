//! Tests of lines and replies, and of the texts of all errors.
#![tactic(auto)]

#[cfg(test)]
mod format;
#[cfg(test)]
mod texts;
