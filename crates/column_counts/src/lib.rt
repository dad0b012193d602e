//! The counts of a sparse factorization: how many rows the structure of each column holds.
//!
//! The definitions stand in the crates `ordering` (`Fill`) and `elim_tree` (`Trees`, `Paths`).
#![tactic(auto)]

mod ancestors;
mod counting;
mod leaves;
mod marking;
mod spans;

pub use counting::counts;
pub use marking::counts_by_marking;
use std::alloc::AllocError;

/// Want of memory: an allocation was refused.
pub type NoMemory = AllocError;
