//! The road as an array of cells, each empty or occupied by one car, stored as its cars in rising cells.
//!
//! Contracts see a [`Road`] only as its array. A road here has no end: cells past the last car are empty and free.
//!
//! ```
//! let mut cars = Vec::new(alloc);
//! cars.push(Car { number: 0, cell: 3, speed: 2 })?;
//! cars.push(Car { number: 16, cell: 7, speed: 0 })?;
//! let road = Road::of(cars);
//! // Three free cells in front of the first car, or two if cell 6 is blocked.
//! let gap = road.gap(0, &[]);
//! let shorter = road.gap(0, &[6]);
//! // The car at cell 7, and `None`, since there is no car at cell 8.
//! let found = road.car_at(7);
//! let missing = road.car_at(8);
//! ```
#![tactic(auto)]

mod blocks;
mod car;
mod road;

pub use blocks::{is_blocked, reached_blocks, reached_blocks_below};
pub use car::{Car, GREATEST_SPEED};
pub use road::Road;
/// Out of memory: an allocation failed.
pub use std::alloc::AllocError as OutOfMemory;
