//! Shared systems as task graphs, where one reader of each item comes after all its other readers: it alone carries the item, and the
//! others only wait for the producer. The graph has the same traversals with the same peaks, and one consumer for each item.
//!
//! The definitions stand in specs/: `Carried`, last readers and the graph; `Refusal`. The laws stand in [`laws`].
#![tactic(auto)]

mod carrying;
mod lasts;
pub mod laws;
mod refusal;

pub use carrying::carried_graph;
pub use lasts::last_readers;
pub use refusal::{CarriedRefusal, LastReaderRefusal};
use std::alloc::AllocError;

/// Want of memory: an allocation was refused.
pub type NoMemory = AllocError;
