//! Tests of runs under way.
#![tactic(auto)]

#[cfg(test)]
mod beside;
#[cfg(test)]
mod counts;
#[cfg(test)]
mod plain;
#[cfg(test)]
mod refused;
#[cfg(test)]
mod roads;
#[cfg(test)]
mod stretches;
#[cfg(test)]
mod turns;
