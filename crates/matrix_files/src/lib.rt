//! Files about matrices: the coordinate format of Matrix Market, orders, permutations, and their inverses.
//!
//! The definitions stand in specs/: `MatrixFile`, `OrderFile`, `PermFile`, `InverseFile`, `ListingFile`; the laws in [`laws`].
#![tactic(auto)]

mod inverse_file;
mod kind;
pub mod laws;
mod lines;
mod listing_file;
mod order_file;
mod order_lines;
mod perm_file;
mod reader;
mod stage;

pub use inverse_file::read_inverse;
pub use kind::MatrixKind;
pub use order_file::{OrderFileKind, read_order};
pub use perm_file::{PermKind, read_perm};
pub use reader::read_pattern;
use std::alloc::AllocError;

/// Want of memory: an allocation was refused.
pub type NoMemory = AllocError;
