//! Shared systems as series-parallel terms, where with their joins one reader of each item comes after all its other readers.
//!
//! The term of the graph of uses tells which tasks come after which, and so the last reader of each item; the graph in which the last
//! readers alone carry the items has the same traversals with the same peaks, and its term is the answer.
//!
//! The definitions stand in specs/: `SharedTerm`, the term and what it tells; `Uses`, the graph of uses; `Refusal`. The laws stand in
//! [`laws`].
#![tactic(auto)]

pub mod laws;
mod naming;
mod reducing;
mod refusal;
mod single;
mod uses;

pub use reducing::reduce_shared;
pub use refusal::SharedReduceRefusal;
use std::alloc::AllocError;

/// Want of memory: an allocation was refused.
pub type NoMemory = AllocError;
