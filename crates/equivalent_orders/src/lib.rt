//! Orders of elimination with the same fill as another, and the columns of fronts, one front after another, as such an order.
//!
//! The definitions stand in specs/ (`Orders`, `Fronts`, `Arrays`), in the crate `ordering` (`Fill`) and in `assembly_tree` (`Assembly`).
#![tactic(auto)]

mod arrays;
mod columns;
pub mod laws;

pub use arrays::{FrontsRefusal, columns_along};
pub use columns::{columns_by_front, order_along, vertices_by_front};
use std::alloc::AllocError;

/// Want of memory: an allocation was refused.
pub type NoMemory = AllocError;
