//! Graph files: their reader.
//!
//! The definitions stand in specs/: `GraphFile`, what a file reads as and what refuses it; the laws in [`laws`]. The crate
//! `shared_graph_files` reads version 2, whose tasks stand in the same lines: so their tests and the functions that make them are public.
#![tactic(auto)]

mod fields;
mod kind;
pub mod laws;
mod lines;
mod reader;
mod reading;
mod stage;
mod stated;

pub use kind::GraphKind;
pub use lines::{task_count_on, task_on};
pub use reading::read_graph;
use std::alloc::AllocError;

/// Want of memory: an allocation was refused.
pub type NoMemory = AllocError;
