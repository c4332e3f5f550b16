//! Tests of worlds.
#![tactic(auto)]

#[cfg(test)]
mod crews;
#[cfg(test)]
mod lists;
#[cfg(test)]
mod meters;
#[cfg(test)]
mod posts;
#[cfg(test)]
mod refusals;
#[cfg(test)]
mod texts;
#[cfg(test)]
mod travelling;
#[cfg(test)]
mod worlds;
