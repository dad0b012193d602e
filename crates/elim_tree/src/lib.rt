//! Elimination trees of sparse symmetric matrices, their postorders, and the laws of the fill.
//!
//! The definitions stand in specs/ (`Trees`, `Paths`, `Postorders`) and in the crate `ordering` (`Fill`).
#![tactic(auto)]

pub mod laws;
mod parents;
mod postordering;
mod renumbering;
mod tree;

pub use parents::Parents;
pub use postordering::postorder;
pub use renumbering::{Numbered, postordered_etree, renumber};
use std::alloc::AllocError;
pub use tree::etree;

/// Want of memory: an allocation was refused.
pub type NoMemory = AllocError;
