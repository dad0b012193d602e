//! Fence files: their reader and their printer.
//!
//! The definitions stand in specs/: `FenceFile`, what a file reads as and what refuses it; `Printed`, the text of a certificate; the laws in
//! [`laws`].
#![tactic(auto)]

mod kind;
pub mod laws;
mod lines;
mod printing;
mod reader;
mod stage;

pub use kind::FenceKind;
pub use printing::print_fences;
pub use reader::read_fences;
use std::alloc::AllocError;

/// Want of memory: an allocation was refused.
pub type NoMemory = AllocError;
