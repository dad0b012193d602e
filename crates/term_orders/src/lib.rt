//! Two orders of a series-parallel term that tell which tasks come after which: where one task stands before another in both, the other
//! comes after it.
//!
//! The definitions stand in specs/: `TermOrders`; the laws in [`laws`].
#![tactic(auto)]

pub mod laws;
mod listing;
mod orders;
mod side;
mod tables;

pub use orders::{TermOrders, term_order, term_orders};
pub use side::Side;
use std::alloc::AllocError;

/// Want of memory: an allocation was refused.
pub type NoMemory = AllocError;
