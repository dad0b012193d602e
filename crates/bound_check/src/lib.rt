//! The judge of plans with a bound: whether the order and its peak hold, and whether the evidence shows that no order has a peak below the
//! bound. Claims, and the blockers of a set, are judged in many threads; claims over a term of the system. States are looked at from the end,
//! by one worker.
//!
//! The definitions stand in specs/: `Shown`, `Objections`, `Accepted`; the laws in [`laws`].
#![tactic(auto)]

mod checking;
mod chunks;
mod claims;
mod failing;
pub mod laws;
mod objection;
mod replayed;
mod root;
mod states;
mod sums;
mod verdict;

pub use checking::check_bounded;
pub use objection::BoundObjection;
use std::alloc::AllocError;
pub use verdict::BoundVerdict;

/// Want of memory: an allocation was refused.
pub type NoMemory = AllocError;
