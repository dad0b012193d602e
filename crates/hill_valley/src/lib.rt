//! Sides of a hill-valley decomposition: segments that lead from a level of memory down to the least memory of a part,
//! and ropes, the lists of tasks that they run (Liu 1987).
//!
//! Contracts see a [`Side`] as the list of its segments in rising order of `up`, and [`Ropes`] as the lists that its ropes
//! stand for. A bound is met as the limit above it: the memory within a bound is the memory below `bound + 1`.
//!
//! A call of a law, such as `laws::runs()`, does nothing: it hands the law to the proof of the function that calls it.
#![tactic(auto)]

pub mod laws;
mod numbers;
mod ropes;
mod row;
mod side;
mod slot;
mod steps;
mod tree;

pub use numbers::Numbers;
pub use ropes::{Rope, Ropes};
pub use side::{Seg, Side};
use std::alloc::AllocError;
pub use steps::Step;

/// Want of memory: an allocation was refused.
pub type NoMemory = AllocError;
