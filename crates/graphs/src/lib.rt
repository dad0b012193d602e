//! Task graphs: tasks, and arcs of data between them; the systems of a graph.
//!
//! The definitions stand in specs/: `Graph`; `Judged`, what tasks and arcs are refused with; the laws in [`laws`].
#![tactic(auto)]

mod arc;
mod completed;
mod counts;
mod graph;
mod judged;
pub mod laws;
mod queue;
mod shares;
mod system;

pub use arc::Arc;
pub use graph::Graph;
pub use judged::{GraphFault, graph_of};
pub use queue::{first_unordered, ordered_tasks};
use std::alloc::AllocError;
pub use system::system_of_graph;

/// Want of memory: an allocation was refused.
pub type NoMemory = AllocError;
