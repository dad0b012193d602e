//! The planner: two sides that lead down to a state of least memory, made of a term from its data items up (Liu 1987, for
//! trees), and the order that leads down the one side and up the other.
//!
//! The definitions stand in the specs/ of `cut_laws`: what a [`Part`] stands for is a cut, and each call here makes the cut that
//! is defined there. A call of a law, such as `laws::parts_stay()`, does nothing: it hands the law to the proof of the function
//! that calls it.
#![tactic(auto)]

mod behind;
mod beside;
mod composing;
mod hills;
pub mod laws;
mod notes;
mod noting;
mod parts;
mod planning;
mod reaching;

pub use composing::{parallel, parallel_part, series, series_part};
pub use notes::{Notes, PartNote, SeriesNote};
pub use parts::{Part, hill_between, hold};
pub use planning::{Planned, plan_terms};
pub use reaching::{Stairs, StairsRefusal, staircases};
use std::alloc::AllocError;

/// Want of memory: an allocation was refused.
pub type NoMemory = AllocError;
