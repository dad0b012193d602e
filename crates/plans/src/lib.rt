//! Plans: an order of the tasks of a term, its peak, the claims that certify it, and a priority of the tasks.
#![tactic(auto)]

mod claim;
mod parts;
mod plan;

pub use claim::{Claim, Direction};
pub use parts::is_plan;
pub use plan::Plan;
use std::alloc::AllocError;

/// Want of memory: an allocation was refused.
pub type NoMemory = AllocError;
