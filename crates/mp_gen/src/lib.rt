//! Inputs made from a number, the seed: random trees and workflows to try and to measure with, and grids.
//!
//! The same seed makes the same input, on every machine. The definitions stand in specs/: `RandomTree`, `RandomWorkflow`, `Grid`. What
//! holds of all that is made stands in `laws`.
#![tactic(auto)]

mod dice;
mod grid;
pub mod laws;
mod tree;
mod workflow;

pub use grid::gen_grid;
use std::alloc::AllocError;
pub use tree::gen_tree;
pub use workflow::gen_workflow;

/// Want of memory: an allocation was refused.
pub type NoMemory = AllocError;
