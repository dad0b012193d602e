//! Permutations: orders of elimination, each vertex once, with the place of each, and what comes first in one, as in a priority of tasks that
//! is read; and what a caller's numbers are refused with.
//!
//! ```
//! let perm = perm_of_numbers(alloc, 0, &[2, 0, 1], 3)?;
//! ```
//!
//! The definitions stand in specs/: `Perm`; `Order`, the order that numbers give; the laws in [`laws`].
#![tactic(auto)]

pub mod laws;
mod numbers;
mod perm;

pub use numbers::{PermRefusal, perm_of_numbers};
pub use perm::{PartialPerm, Perm, identity};
use std::alloc::AllocError;

/// Want of memory: an allocation was refused.
pub type NoMemory = AllocError;
