//! Merging of sides: the segments of all sides in one, in rising order of `up` (Liu 1987).
//!
//! The side with the most segments takes in the others, so at most as many segments are moved as all sides but the longest
//! have, and each move is counted.
#![tactic(auto)]

pub mod laws;
mod merging;
mod moving;

pub use merging::merge;
pub use moving::move_all;
use std::alloc::AllocError;

/// Want of memory: an allocation was refused.
pub type NoMemory = AllocError;
