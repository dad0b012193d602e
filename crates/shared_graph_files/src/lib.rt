//! Graph files of version 2, in which an item may have any number of readers, and of either version: their reader.
//!
//! The definitions stand in specs/: `SharedGraphFile`, what a file of version 2 reads as and what refuses it; `EitherVersion`, the same of
//! either version; the laws in [`laws`]. The lines of tasks are those of version 1: their tests and the functions that make them are those of
//! `graph_files`.
#![tactic(auto)]

mod either;
mod header;
pub mod laws;
mod lines;
mod printing;
mod reader;
mod reading;
mod stage;

pub use either::{EitherGraph, read_either_graph, read_shared_graph};
pub use printing::print_shared_graph;
use std::alloc::AllocError;

/// Want of memory: an allocation was refused.
pub type NoMemory = AllocError;
