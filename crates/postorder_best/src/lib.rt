//! The best postorder of a tree (Liu 1986): the children of each node by falling peak minus out, and the theorem that no postorder
//! has a lower peak.
#![tactic(auto)]

mod best;
pub mod laws;
mod peaks;
mod sorting;
mod tables;
mod walking;

pub use best::{Post, best_postorder};
use std::alloc::AllocError;

/// Want of memory: an allocation was refused.
pub type NoMemory = AllocError;
