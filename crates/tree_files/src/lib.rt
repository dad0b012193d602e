//! Tree files of versions 1 and 2: their reader and their printers.
//!
//! The definitions stand in specs/: `TreeFile`, what a file reads as and what refuses it; `TreeText`, the text of a tree; the laws in
//! [`laws`].
#![tactic(auto)]

mod fields;
mod kind;
pub mod laws;
mod lines;
mod printing;
mod reader;
mod reading;
mod stage;

pub use kind::TreeKind;
pub use printing::{print_tree, print_tree_2};
pub use reading::read_tree;
use std::alloc::AllocError;

/// Want of memory: an allocation was refused.
pub type NoMemory = AllocError;
