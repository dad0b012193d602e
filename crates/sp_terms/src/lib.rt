//! Terms of series-parallel workflows: data items, tasks between two terms, and terms side by side.
//!
//! A term is a list of positions in postfix order. The definitions stand in specs/: `Term`, `Postfix`, `SystemOfTerm`, `Values`,
//! `Builder`.
#![tactic(auto)]

mod builder;
pub mod laws;
mod position;
mod system;
mod terms;
mod value;

pub use builder::{PushRefusal, TermBuilder, tasks_of_position};
pub use position::{Position, Values};
use std::alloc::AllocError;
pub use system::system_of;
pub use terms::TermList;
pub use value::{hill, values, values_at};

/// Want of memory: an allocation was refused.
pub type NoMemory = AllocError;
