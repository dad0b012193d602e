//! Lower bounds on the peak of every traversal of a shared system, whatever its graph, with certificates that need sums alone.
//!
//! The definitions stand in specs/: `Moments`, `Steps`; `EventSets` and `Evidence`, what a file tells and what it has to meet; the laws in
//! [`laws`].
#![tactic(auto)]

mod blockers;
mod chunks;
mod evidence;
mod fitting;
mod judging;
pub mod laws;
mod levels;
mod lowered;
mod marks;
mod needs;
mod search;
mod spare;
mod step;
mod use_table;
mod uses;

pub use evidence::{Amount, Blocker, BlockerTest, EventSet, Evidence, Objection};
pub use judging::{judge_evidence, judge_evidence_by};
use std::alloc::AllocError;
pub use step::Event;

/// Want of memory: an allocation was refused.
pub type NoMemory = AllocError;
