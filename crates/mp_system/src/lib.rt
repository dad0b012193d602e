//! Systems of tasks and data items, and the memory along their traversals.
//!
//! Tasks are numbered from 1. A task has an extra size that it needs while it runs; a data item is in memory from the end
//! of its producer to the end of its consumer. The definitions stand in specs/: `System`, `Memory`, `Traversal`; `Given`, the system that a
//! caller's arrays give, and `Judged`, what they are refused with.
#![tactic(auto)]

mod given;
mod inputs;
mod judged;
pub mod laws;
mod order;
mod outputs;
mod shares;
mod state;
mod system;

pub use given::{GivenItem, GivenTask};
pub use judged::{ItemTest, SystemRefusal, TaskTest, system_of_arrays};
pub use order::{OrderFault, ReplayRefusal, replay};
pub use state::Replay;
use std::alloc::AllocError;
pub use system::{Item, OrderKind, System, Task};

/// Want of memory: an allocation was refused.
pub type NoMemory = AllocError;
