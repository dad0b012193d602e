//! The symbolic analysis of a sparse symmetric matrix: from its pattern and an order of elimination to the tree of its fronts, as a
//! multifrontal solver makes it (Duff and Reid 1983; Liu 1990 and 1992).
//!
//! ```
//! let pattern = pattern_of_columns(alloc, 0, starts, rows)?;
//! let perm = perm_of_numbers(alloc, 0, order, pattern.rows())?;
//! let fronts = FrontOptions { shape: Shape::Triangle, zeros: None, inplace: false };
//! let tree = front_tree(alloc, &pattern, &perm, fronts)?;
//! ```
//!
//! The definition stands in specs/FrontTree.antt.
#![tactic(auto)]

mod analysis;
pub mod laws;
mod options;

pub use analysis::{Analysis, analyse, front_tree, relaxed};
pub use options::FrontOptions;
use std::alloc::AllocError;

/// Want of memory: an allocation was refused.
pub type NoMemory = AllocError;
