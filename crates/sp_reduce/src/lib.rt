//! Task graphs reduced to series-parallel terms, or to an irreducible rest (Valdes, Tarjan and Lawler 1982).
//!
//! The definitions stand in specs/: `Reductions`, `Reduced`, `Refusal`; the laws in [`laws`].
#![tactic(auto)]

mod building;
mod forest;
pub mod laws;
mod link;
mod links;
mod piece;
mod postfix;
mod reduced;
mod reducing;
mod rounds;

pub use reduced::{ReduceRefusal, Reduced};
pub use reducing::reduce;
use std::alloc::AllocError;

/// Want of memory: an allocation was refused.
pub type NoMemory = AllocError;
