//! Join semilattices: values that replicas merge, and that agree whatever the order, grouping and repetition of the
//! merges (Shapiro, Preguiça, Baquero, Zawirski, "Conflict-free Replicated Data Types", 2011).
//!
//! A `Lattice` has a least value, the bottom, and a join of two values. `Greatest` keeps the greatest value received,
//! `Both` joins pairs part by part, and `LatMap` joins maps key by key. `laws` has the laws that hold for all of them.
//!
//! ```rust
//! use lattice_core::greatest::Greatest;
//! use lattice_core::lattice::Lattice;
//! use lattice_core::map::LatMap;
//!
//! let none: LatMap<u32, Greatest<u32>> = LatMap::empty(alloc);
//! let ours = none.with(3, &Greatest::Of(7))?;
//! let theirs = none.with(3, &Greatest::Of(8))?.with(5, &Greatest::Of(1))?;
//! let merged = ours.joined(&theirs)?;
//! // `merged.get(3)` is `Some(&Greatest::Of(8))`, and so it is after `theirs.joined(&ours)?`.
//! ```
#![tactic(auto)]

pub mod both;
pub mod entries;
pub mod exact;
pub mod greatest;
pub mod lattice;
pub mod laws;
pub mod map;
mod page;
mod pages;
mod search;

/// An allocation failed. This is the only error of the crate, and a call that returns it has changed nothing.
pub use std::alloc::AllocError as OutOfMemory;
