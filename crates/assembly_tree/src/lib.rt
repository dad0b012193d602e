//! Assembly trees of sparse symmetric matrices: the fundamental supernodes of an elimination tree, their amalgamation, and the tree of
//! their fronts.
//!
//! The definitions stand in specs/ (`Assembly`, `Supernodes`, `Amalgamation`, `Fronts`, and examples in `Samples`).
#![tactic(auto)]

mod assembly;
mod counts;
mod front;
pub mod laws;
mod merges;
mod runs;

pub use assembly::{Assembly, Super};
pub use counts::{are_counts, is_count};
pub use front::{Shape, fronts};
pub use merges::amalgamate;
pub use runs::supernodes;
use std::alloc::AllocError;

/// Want of memory: an allocation was refused.
pub type NoMemory = AllocError;
