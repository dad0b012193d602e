//! Spill plans (Jacquelin et al. 2011): what must go to disk where a traversal runs within a bound below its peak. Items are divisible into
//! units, and what is once on disk stays there until it is used.
//!
//! [`spill`] gives the least volume, by the amounts of the items; [`spill_gaps`] that of a system in which an item may have several readers, by
//! the amounts of the gaps between uses. The definitions stand in specs/: `SpillPlans`, `Gaps`, `Refusal`; the laws in [`laws`].
#![tactic(auto)]

mod amounts;
mod gap_needs;
mod gap_span;
mod gap_spilling;
pub mod laws;
mod needs;
mod ranking;
mod refusal;
mod span;
mod spilled;
mod spilling;
mod steps;
mod sums;

pub use amounts::Spill;
pub use gap_spilling::spill_gaps;
pub use refusal::SpillRefusal;
pub use spilling::spill;
use std::alloc::AllocError;

/// Want of memory: an allocation was refused.
pub type NoMemory = AllocError;
