//! Workflow files of versions 1 and 2: their reader and their printers.
//!
//! The definitions stand in specs/: `WorkflowFile`, what a file reads as and what refuses it; `WorkflowText`, the text of a term;
//! `NamedText`, that of one whose tasks have names; the laws in [`laws`].
#![tactic(auto)]

mod kind;
pub mod laws;
mod lines;
mod named;
mod printing;
mod reader;
mod stage;
mod word;

pub use kind::WorkflowKind;
pub use named::print_named;
pub use printing::{print_workflow, print_workflow_2};
pub use reader::read_workflow;
use std::alloc::AllocError;

/// Want of memory: an allocation was refused.
pub type NoMemory = AllocError;
