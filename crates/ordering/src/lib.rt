//! The minimum degree order of a pattern, and the fill that an order of elimination leaves.
//!
//! The definitions stand in specs/: `Fill`, `MinimumDegree`; the laws in [`laws`].
#![tactic(auto)]

pub mod laws;
mod minimum_degree;

pub use minimum_degree::{MindegRefusal, min_degree};
use std::alloc::AllocError;

/// Want of memory: an allocation was refused.
pub type NoMemory = AllocError;
