//! Words of a command line over a table of commands: `command --name value --other=value`, read by clap.
#![tactic(auto)]

mod form;
pub mod laws;
mod line;
mod parser;
mod shape;

pub use line::{Line, read_words};
pub use shape::Shape;
use std::alloc::AllocError;

/// Want of memory: an allocation was refused.
pub type NoMemory = AllocError;
