//! Patterns of symmetric matrices, from pairs and from a caller's compressed columns.
//!
//! The definitions stand in specs/: `Pattern`; `Columns`, the pattern that compressed columns give, and what they are refused with. The
//! laws stand in [`laws`].
//!
//! ```
//! let pattern = pattern_of_columns(alloc, 0, &[0, 1, 3, 3], &[1, 0, 2])?;
//! ```
#![tactic(auto)]

mod column_pairs;
mod columns;
mod groups;
pub mod laws;
mod pairs;
mod pattern;

pub use columns::{ColumnsRefusal, pattern_of_columns};
pub use pattern::Pattern;
use std::alloc::AllocError;

/// Want of memory: an allocation was refused.
pub type NoMemory = AllocError;
